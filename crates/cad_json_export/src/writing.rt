// Values to their JSON. The walk goes as deep as the value is high.
ghost use Rattle.std.specs.Prelude.{◌≡◌, ◌++◌, ◌∷◌, ℕ, List, map, true, false, IfOk, OnOk, Some, None};
ghost use Rattle.serde_json.specs.Written.{compact_text};
ghost use Rattle.cad_json.specs.Forms as form;
ghost use Rattle.cad_json.specs.Told as told;
ghost use Rattle.cad_json_export.specs.Texts as spec;
ghost use Rattle.cad_syntax.specs.Types.{PureType};
ghost use Rattle.cad_syntax.specs.declared.types.Authorization.{Authorization};
ghost use Rattle.cad_syntax.specs.declared.address.Address.{Address};
ghost use Rattle.cad_values.specs.declared.value.Target.{Target};
ghost use Rattle.cad_types.specs.Declarations.{Declaration};
ghost use Rattle.cad_types.specs.Views.{declarations};
ghost use Rattle.cad_values.specs.Values as v;
ghost use Rattle.cad_values.specs.Values.{pure_value, pure_field, pure_entry, values_of, entries_of, fields_of};

use crate::form::has_form;
use crate::text::{push_comma, push_head, push_quoted, push_text_value};
use crate::word::{domain_word, kind_word, sort_word};
use cad_num::write_decimal;
use cad_syntax::{Address, Kind, Num, Path, Text, TypeId};
use cad_types::{DeclaredTypes, Sort};
use cad_values::{CompositeField, DictionaryEntry, Value};
use std::alloc::{AllocError, Global};

/// Appends the value of nothing.
#[tactic(auto, using(crate::proofs::Laws::void_text))]
fn push_void(text: &mut Text) -> Result<(), AllocError>
    ensures { (declared : List Declaration) → OnOk result (text.new ≡ text.old ++ spec.value_text declared v.void) }
{
    text.push_str("{\"type\":\"Void\"}")
}

/// Appends an optional without a content.
#[tactic(auto, using(crate::proofs::Laws::nil_text))]
fn push_nil(text: &mut Text) -> Result<(), AllocError>
    ensures { (declared : List Declaration) → OnOk result (text.new ≡ text.old ++ spec.value_text declared v.nil) }
{
    text.push_str("{\"type\":\"Optional\",\"value\":null}")
}

/// Appends what stands for a value without a form.
#[tactic(auto, unfolding(crate::specs::Texts::value_text))]
fn push_null(text: &mut Text) -> Result<(), AllocError>
    ensures meta { (declared : List Declaration) (t : PureType) → OnOk result (text.new ≡ text.old ++ spec.value_text declared (v.meta t)) }
    ensures capability { (declared : List Declaration) (a : Address) (n : ℕ) (t : PureType) → OnOk result (text.new ≡ text.old ++ spec.value_text declared (v.capability a n t)) }
    ensures reference { (declared : List Declaration) (a : Authorization) (t : PureType) (to : Target) → OnOk result (text.new ≡ text.old ++ spec.value_text declared (v.reference a t to)) }
{
    text.push_str("null")
}

/// Appends a string.
#[tactic(auto, using(crate::proofs::Laws::string_text))]
fn push_string(alloc: Global, text: &mut Text, content: &Text) -> Result<(), AllocError>
    ensures { (declared : List Declaration) → OnOk result (text.new ≡ text.old ++ spec.value_text declared (v.string content.now)) }
{
    push_text_value(alloc, text, "String", content.as_str())
}

/// Appends a character.
#[tactic(auto, using(crate::proofs::Laws::character_text))]
fn push_character(alloc: Global, text: &mut Text, content: &Text) -> Result<(), AllocError>
    ensures { (declared : List Declaration) → OnOk result (text.new ≡ text.old ++ spec.value_text declared (v.character content.now)) }
{
    push_text_value(alloc, text, "Character", content.as_str())
}

/// Appends a truth value.
#[tactic(auto, using(crate::proofs::Laws::true_text, crate::proofs::Laws::false_text))]
fn push_bool(text: &mut Text, b: bool) -> Result<(), AllocError>
    ensures { (declared : List Declaration) → OnOk result (text.new ≡ text.old ++ spec.value_text declared (v.bool b)) }
{
    push_head(text, "Bool")?;
    if b {
        return text.push_str("true}");
    }
    text.push_str("false}")
}

/// Appends a number. None is of the kind of addresses.
#[tactic(auto, using(crate::proofs::Laws::number_text, crate::proofs::Laws::no_number_text))]
fn push_number(alloc: Global, text: &mut Text, number: Num) -> Result<(), AllocError>
    ensures { (declared : List Declaration) → OnOk result (text.new ≡ text.old ++ spec.value_text declared (v.number number)) }
{
    if matches!(number.kind, Kind::Address) {
        return text.push_str("null");
    }
    let content = write_decimal(alloc, number)?;
    push_text_value(alloc, text, kind_word(number.kind), content.as_str())
}

/// Appends an address.
#[tactic(auto, using(crate::proofs::Laws::address_value_text))]
fn push_address(alloc: Global, text: &mut Text, address: Address) -> Result<(), AllocError>
    ensures { (declared : List Declaration) → OnOk result (text.new ≡ text.old ++ spec.value_text declared (v.address address)) }
{
    let content = address.to_hex(alloc)?;
    push_text_value(alloc, text, "Address", content.as_str())
}

/// Appends a path.
#[tactic(auto, using(crate::proofs::Laws::path_text))]
fn push_path(alloc: Global, text: &mut Text, path: &Path) -> Result<(), AllocError>
    ensures { (declared : List Declaration) → OnOk result (text.new ≡ text.old ++ spec.value_text declared (v.path path.now)) }
{
    push_head(text, "Path")?;
    text.push_str("{\"domain\":\"")?;
    let word = domain_word(path.domain);
    text.push_str(word)?;
    text.push_str("\",\"identifier\":")?;
    push_quoted(alloc, text, path.identifier.0.as_str())?;
    text.push_str("}}")
}

/// Appends an identity, as a field.
fn push_uuid(alloc: Global, text: &mut Text, identity: u64) -> Result<(), AllocError>
    ensures { OnOk result (text.new ≡ text.old ++ spec.uuid_text identity) }
{
    text.push_str("{\"name\":\"uuid\",\"value\":{\"type\":\"UInt64\",\"value\":")?;
    let digits = identity.to_string(alloc)?;
    push_quoted(alloc, text, digits.as_str())?;
    text.push_str("}}")
}

/// Appends the identity of a resource, as a field. Tells whether it is one.
fn push_identity(
    alloc: Global,
    text: &mut Text,
    sort: Sort,
    identity: u64,
) -> Result<bool, AllocError>
    ensures text { OnOk result (text.new ≡ text.old ++ spec.identity_text sort identity) }
    ensures told { IfOk result (λ told. told ≡ spec.is_resource sort) }
{
    match sort {
        Sort::Resource => {
            push_uuid(alloc, text, identity)?;
            Ok(true)
        }
        _ => Ok(false),
    }
}

/// Appends what stands before the fields of a composite. Tells whether a field stands before them.
#[tactic(auto, unfolding(crate::specs::Texts::before_fields))]
fn push_before_fields(
    alloc: Global,
    text: &mut Text,
    sort: Sort,
    identity: u64,
) -> Result<bool, AllocError>
    ensures text { OnOk result (text.new ≡ text.old ++ spec.before_fields sort identity) }
    ensures told { IfOk result (λ told. told ≡ spec.is_resource sort) }
{
    let word = sort_word(sort);
    push_head(text, word)?;
    text.push_str("{\"fields\":[")?;
    push_identity(alloc, text, sort, identity)
}

/// Appends what stands behind the fields of a composite.
#[tactic(auto, unfolding(crate::specs::Texts::behind_fields))]
fn push_behind_fields(alloc: Global, text: &mut Text, id: &TypeId) -> Result<(), AllocError>
    ensures { OnOk result (text.new ≡ text.old ++ spec.behind_fields id.now) }
{
    text.push_str(",\"id\":")?;
    let content = id.to_text(alloc)?;
    push_quoted(alloc, text, content.as_str())?;
    text.push_str("}}")
}

/// Appends a value. In place of one that has no form stands `null`.
#[cycle(writes)]
fn push_value(
    alloc: Global,
    text: &mut Text,
    kinds: &DeclaredTypes,
    value: &Value,
) -> Result<(), AllocError>
    ensures { OnOk result (text.new ≡ text.old ++ spec.value_text (declarations kinds.now) (pure_value value.now)) }
{
    match value {
        Value::Void => push_void(text),
        Value::Nil => push_nil(text),
        Value::Some(content) => {
            push_head(text, "Optional")?;
            push_value(alloc, text, kinds, content)?;
            text.push_str("}")
        }
        Value::Bool(b) => push_bool(text, *b),
        Value::Number(number) => push_number(alloc, text, *number),
        Value::String(content) => push_string(alloc, text, content),
        Value::Character(content) => push_character(alloc, text, content),
        Value::Address(address) => push_address(alloc, text, *address),
        Value::Path(path) => push_path(alloc, text, path),
        Value::Array { values, .. } => {
            push_head(text, "Array")?;
            push_values(alloc, text, kinds, values.as_slice())?;
            text.push_str("}")
        }
        Value::Dictionary { entries, .. } => {
            push_head(text, "Dictionary")?;
            push_entries(alloc, text, kinds, entries.as_slice())?;
            text.push_str("}")
        }
        Value::Composite {
            id,
            identity,
            fields,
        } => match kinds.find(id) {
            None => text.push_str("null"),
            Some(declared) => {
                let later = push_before_fields(alloc, text, declared.sort, *identity)?;
                push_fields(alloc, text, kinds, later, fields.as_slice())?;
                push_behind_fields(alloc, text, id)
            }
        },
        Value::Meta(_) | Value::Capability(_) | Value::Reference(_) => push_null(text),
    }
}

/// Appends a list of values.
#[cycle(writes)]
fn push_values(
    alloc: Global,
    text: &mut Text,
    kinds: &DeclaredTypes,
    values: &[Value],
) -> Result<(), AllocError>
    ensures { OnOk result (text.new ≡ text.old ++ 91 ∷ spec.values_text (declarations kinds.now) false (values_of (map pure_value values.now))) }
{
    text.push_str("[")?;
    let mut later = false;
    for value in values {
        push_comma(text, later)?;
        push_value(alloc, text, kinds, value)?;
        later = true;
    }
    text.push_str("]")
}

/// Appends a key and what stands under it.
#[cycle(writes)]
#[tactic(auto, using(crate::proofs::Turns::entry_pushed))]
fn push_entry(
    alloc: Global,
    text: &mut Text,
    kinds: &DeclaredTypes,
    entry: &DictionaryEntry,
) -> Result<(), AllocError>
    ensures { OnOk result (text.new ≡ text.old ++ spec.entry_text (declarations kinds.now) (pure_entry entry.now).key (pure_entry entry.now).value) }
{
    text.push_str("{\"key\":")?;
    push_value(alloc, text, kinds, &entry.key)?;
    text.push_str(",\"value\":")?;
    push_value(alloc, text, kinds, &entry.value)?;
    text.push_str("}")
}

/// Appends a list of entries.
#[cycle(writes)]
fn push_entries(
    alloc: Global,
    text: &mut Text,
    kinds: &DeclaredTypes,
    entries: &[DictionaryEntry],
) -> Result<(), AllocError>
    ensures { OnOk result (text.new ≡ text.old ++ 91 ∷ spec.entries_text (declarations kinds.now) false (entries_of (map pure_entry entries.now))) }
{
    text.push_str("[")?;
    let mut later = false;
    for entry in entries {
        push_comma(text, later)?;
        push_entry(alloc, text, kinds, entry)?;
        later = true;
    }
    text.push_str("]")
}

/// Appends a field.
#[cycle(writes)]
#[tactic(auto, using(crate::proofs::Turns::field_pushed))]
fn push_field(
    alloc: Global,
    text: &mut Text,
    kinds: &DeclaredTypes,
    field: &CompositeField,
) -> Result<(), AllocError>
    ensures { OnOk result (text.new ≡ text.old ++ spec.field_text (declarations kinds.now) (pure_field field.now).name (pure_field field.now).value) }
{
    text.push_str("{\"name\":")?;
    push_quoted(alloc, text, field.name.0.as_str())?;
    text.push_str(",\"value\":")?;
    push_value(alloc, text, kinds, &field.value)?;
    text.push_str("}")
}

/// Appends fields and the bracket behind them.
#[cycle(writes)]
fn push_fields(
    alloc: Global,
    text: &mut Text,
    kinds: &DeclaredTypes,
    begun: bool,
    fields: &[CompositeField],
) -> Result<(), AllocError>
    ensures { OnOk result (text.new ≡ text.old ++ spec.fields_text (declarations kinds.now) begun (fields_of (map pure_field fields.now))) }
{
    let mut later = begun;
    for field in fields {
        push_comma(text, later)?;
        push_field(alloc, text, kinds, field)?;
        later = true;
    }
    text.push_str("]")
}

/// Appends the text of a value, seen as JSON.
#[tactic(auto, unfolding(crate::specs::Texts::value_text))]
fn push_told(
    alloc: Global,
    text: &mut Text,
    kinds: &DeclaredTypes,
    value: &Value,
) -> Result<(), AllocError>
    ensures { OnOk result (text.new ≡ text.old ++ compact_text (told.told (declarations kinds.now) (pure_value value.now))) }
{
    push_value(alloc, text, kinds, value)
}

/// A value's JSON, compact and with keys in byte order. None exactly where a part of the value has no form: a type, a
/// capability, a reference, or a composite that isn't declared as a struct, resource, event or enum.
pub fn export(
    alloc: Global,
    kinds: &DeclaredTypes,
    value: &Value,
) -> Result<Option<Text>, AllocError>
    ensures some { form.has_form (declarations kinds.now) (pure_value value.now) ≡ true → IfOk result (λ text. text ≡ Some (compact_text (told.told (declarations kinds.now) (pure_value value.now)))) }
    ensures none { form.has_form (declarations kinds.now) (pure_value value.now) ≡ false → IfOk result (λ text. text ≡ None) }
{
    if !has_form(kinds, value) {
        return Ok(None);
    }
    let mut text = Text::new(alloc);
    push_told(alloc, &mut text, kinds, value)?;
    Ok(Some(text))
}
