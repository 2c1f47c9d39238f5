// Bytes to values.
ghost use Rattle.std.specs.Prelude.{◌≡◌, map, slice_get, Some, IfOk};
ghost use Rattle.cad_syntax.specs.Types.{PureType, pure_type};
ghost use Rattle.cad_number_codec.specs.Parts.{parts_at};
ghost use Rattle.cad_values.specs.Sizes.{most_high};
ghost use Rattle.cad_values.specs.Values.{PureValue, pure_value, pure_entry, pure_field};
ghost use Rattle.cad_wire.specs.Fields.{byte_at, number_at};
ghost use Rattle.cad_codec.specs.Answers.{GivesAs};
ghost use Rattle.cad_codec.specs.Code.Fields.{ReadsAs, then_at, made_at, found_at, tested_at, members_at, list_at, text_at, name_at};
ghost use Rattle.cad_codec.specs.declared.form.ValueForm.TheVariants as form;
ghost use Rattle.cad_codec.specs.Code.Values as spec;
ghost use Rattle.cad_codec.specs.Forms.{HasBytes, TypeHasBytes};
ghost use Rattle.cad_codec.specs.TypeBytes.{type_bytes};
ghost use Rattle.cad_codec.specs.ValueBytes.{value_bytes};

use crate::distinct::{keys_differ, names_differ};
use crate::form::{ValueForm, value_form};
use crate::reading_types::{read_id, read_name, read_text, read_type};
use cad_number_codec::{number_of, parts_of};
use cad_syntax::{Address, CadType, Domain, Items, Num, Path, Text};
use cad_text::length;
use cad_values::{Cap, CompositeField, DictionaryEntry, Value};
use cad_wire::{DecodeError, Reader};
use std::alloc::Global;

/// The greatest height of a value that is read.
pub const MOST_HIGH: u32 = 256;

/// One more than a type that is read nests at most.
pub const TYPE_LEVELS: u32 = 1025;

/// Reads the form of a value.
fn read_form(reader: &mut Reader<'_>) -> Result<ValueForm, DecodeError>
    ensures { ReadsAs (λ f. f) result (found_at byte_at (slice_get spec.value_forms) reader.old) reader.new }
{
    let byte = reader.byte()?;
    match value_form(byte) {
        Some(form) => Ok(form),
        None => Err(DecodeError::Damaged),
    }
}

/// Reads a truth value.
fn read_bool(reader: &mut Reader<'_>) -> Result<bool, DecodeError>
    ensures { ReadsAs (λ b. b) result (found_at byte_at spec.bool_of reader.old) reader.new }
{
    match reader.byte()? {
        0 => Ok(false),
        1 => Ok(true),
        _ => Err(DecodeError::Damaged),
    }
}

/// The number with these parts of its bytes.
fn number_from(kind: u8, sign: u8, upper: u64, lower: u64) -> Option<Num>
    ensures { result ≡ spec.number_of (kind, sign, upper, lower) }
{
    number_of(kind, sign, upper, lower)
}

/// Reads a number.
fn read_number(reader: &mut Reader<'_>) -> Result<Num, DecodeError>
    ensures { ReadsAs (λ n. n) result (found_at parts_at spec.number_of reader.old) reader.new }
{
    let (kind, sign, upper, lower) = parts_of(reader)?;
    match number_from(kind, sign, upper, lower) {
        Some(n) => Ok(n),
        None => Err(DecodeError::Damaged),
    }
}

/// Reads a text of one cluster.
fn read_character(alloc: Global, reader: &mut Reader<'_>) -> Result<Text, DecodeError>
    ensures { ReadsAs (λ t. t) result (tested_at text_at spec.is_cluster reader.old) reader.new }
{
    let text = read_text(alloc, reader)?;
    if length(text.as_str()) != 1 {
        return Err(DecodeError::Damaged);
    }
    Ok(text)
}

/// Reads a domain.
fn read_domain(reader: &mut Reader<'_>) -> Result<Domain, DecodeError>
    ensures { ReadsAs (λ d. d) result (found_at byte_at spec.domain_of reader.old) reader.new }
{
    match reader.byte()? {
        0 => Ok(Domain::Storage),
        1 => Ok(Domain::Public),
        _ => Err(DecodeError::Damaged),
    }
}

/// Reads a path.
fn read_path(alloc: Global, reader: &mut Reader<'_>) -> Result<Path, DecodeError>
    ensures { ReadsAs (λ p. p) result (made_at (then_at (found_at byte_at spec.domain_of) name_at) spec.as_path reader.old) reader.new }
{
    let domain = read_domain(reader)?;
    let identifier = read_name(alloc, reader)?;
    Ok(Path { domain, identifier })
}

/// Reads a type.
fn read_whole_type(alloc: Global, reader: &mut Reader<'_>) -> Result<CadType, DecodeError>
    ensures { ReadsAs pure_type result (spec.whole_type_at reader.old) reader.new }
{
    read_type(alloc, TYPE_LEVELS, reader)
}

/// Reads a capability.
fn read_capability(alloc: Global, reader: &mut Reader<'_>) -> Result<Cap, DecodeError>
    ensures { ReadsAs (λ c. ((c.address.0, (c.id, pure_type c.borrow)))) result (then_at number_at (then_at number_at spec.whole_type_at) reader.old) reader.new }
{
    let address = Address(reader.number()?);
    let id = reader.number()?;
    let borrow = read_whole_type(alloc, reader)?;
    Ok(Cap {
        address,
        id,
        borrow,
    })
}

/// Reads a value that is at most `left` high.
#[cycle(reads)]
#[tactic(auto, unfolding(crate::specs::Code::Values::value_at))]
fn read_value(alloc: Global, left: u32, reader: &mut Reader<'_>) -> Result<Value, DecodeError>
    ensures { ReadsAs pure_value result (spec.value_at left reader.old) reader.new }
{
    if left == 0 {
        return Err(DecodeError::Damaged);
    }
    let inner = left - 1;
    match read_form(reader)? {
        ValueForm::Void => Ok(Value::Void),
        ValueForm::Nil => Ok(Value::Nil),
        ValueForm::Some => read_optional(alloc, inner, reader),
        ValueForm::Bool => Ok(Value::Bool(read_bool(reader)?)),
        ValueForm::Number => Ok(Value::Number(read_number(reader)?)),
        ValueForm::String => Ok(Value::String(read_text(alloc, reader)?)),
        ValueForm::Character => Ok(Value::Character(read_character(alloc, reader)?)),
        ValueForm::Address => Ok(Value::Address(Address(reader.number()?))),
        ValueForm::Path => Ok(Value::Path(read_path(alloc, reader)?)),
        ValueForm::Meta => Ok(Value::Meta(read_whole_type(alloc, reader)?)),
        ValueForm::Capability => Ok(Value::Capability(read_capability(alloc, reader)?)),
        ValueForm::Array => read_array(alloc, inner, reader),
        ValueForm::Dictionary => read_dictionary(alloc, inner, reader),
        ValueForm::Composite => read_composite(alloc, inner, reader),
    }
}

/// Reads the content of an optional.
#[cycle(reads)]
fn read_optional(alloc: Global, inner: u32, reader: &mut Reader<'_>) -> Result<Value, DecodeError>
    ensures { ReadsAs pure_value result (spec.value_after (spec.value_at inner) form.Some reader.old) reader.new }
{
    let content = read_value(alloc, inner, reader)?;
    match Box::new(alloc, content) {
        Ok(b) => Ok(Value::Some(b)),
        Err(refused) => {
            drop(refused.value);
            Err(DecodeError::Memory)
        }
    }
}

/// Reads an array.
#[cycle(reads)]
fn read_array(alloc: Global, inner: u32, reader: &mut Reader<'_>) -> Result<Value, DecodeError>
    ensures { ReadsAs pure_value result (spec.value_after (spec.value_at inner) form.Array reader.old) reader.new }
{
    let element = read_whole_type(alloc, reader)?;
    match read_list(alloc, inner, reader) {
        Ok(values) => Ok(Value::Array {
            element,
            values: values.into_vec(),
        }),
        Err(error) => {
            drop(element);
            Err(error)
        }
    }
}

/// Reads values behind their count.
#[cycle(reads)]
fn read_list(
    alloc: Global,
    inner: u32,
    reader: &mut Reader<'_>,
) -> Result<Items<Value>, DecodeError>
    ensures { ReadsAs (map pure_value) result (list_at (spec.value_at inner) reader.old) reader.new }
{
    let count = reader.length()?;
    read_values(alloc, inner, count, reader)
}

/// Reads so many values.
#[cycle(reads)]
fn read_values(
    alloc: Global,
    inner: u32,
    count: u32,
    reader: &mut Reader<'_>,
) -> Result<Items<Value>, DecodeError>
    ensures { ReadsAs (map pure_value) result (members_at (spec.value_at inner) count reader.old) reader.new }
{
    let mut values = Items::new(alloc);
    for _ in 0..count {
        let value = read_value(alloc, inner, reader)?;
        values.push(value)?;
    }
    Ok(values)
}

/// Reads a dictionary.
#[cycle(reads)]
fn read_dictionary(alloc: Global, inner: u32, reader: &mut Reader<'_>) -> Result<Value, DecodeError>
    ensures { ReadsAs pure_value result (spec.value_after (spec.value_at inner) form.Dictionary reader.old) reader.new }
{
    let key = read_whole_type(alloc, reader)?;
    let value = match read_whole_type(alloc, reader) {
        Ok(value) => value,
        Err(error) => {
            drop(key);
            return Err(error);
        }
    };
    match read_keyed(alloc, inner, reader) {
        Ok(entries) => Ok(Value::Dictionary {
            key,
            value,
            entries: entries.into_vec(),
        }),
        Err(error) => {
            drop(key);
            drop(value);
            Err(error)
        }
    }
}

/// Reads entries behind their count.
#[cycle(reads)]
fn read_keyed(
    alloc: Global,
    inner: u32,
    reader: &mut Reader<'_>,
) -> Result<Items<DictionaryEntry>, DecodeError>
    ensures { ReadsAs (map pure_entry) result (tested_at (list_at (spec.entry_at (spec.value_at inner))) spec.keys_differ reader.old) reader.new }
{
    let count = reader.length()?;
    let entries = read_entries(alloc, inner, count, reader)?;
    if !keys_differ(alloc, entries.as_slice())? {
        return Err(DecodeError::Damaged);
    }
    Ok(entries)
}

/// Reads a key and what stands under it.
#[cycle(reads)]
fn read_entry(
    alloc: Global,
    inner: u32,
    reader: &mut Reader<'_>,
) -> Result<DictionaryEntry, DecodeError>
    ensures { ReadsAs pure_entry result (spec.entry_at (spec.value_at inner) reader.old) reader.new }
{
    let key = read_value(alloc, inner, reader)?;
    match read_value(alloc, inner, reader) {
        Ok(value) => Ok(DictionaryEntry { key, value }),
        Err(error) => {
            drop(key);
            Err(error)
        }
    }
}

/// Reads so many entries.
#[cycle(reads)]
fn read_entries(
    alloc: Global,
    inner: u32,
    count: u32,
    reader: &mut Reader<'_>,
) -> Result<Items<DictionaryEntry>, DecodeError>
    ensures { ReadsAs (map pure_entry) result (members_at (spec.entry_at (spec.value_at inner)) count reader.old) reader.new }
{
    let mut entries = Items::new(alloc);
    for _ in 0..count {
        let entry = read_entry(alloc, inner, reader)?;
        entries.push(entry)?;
    }
    Ok(entries)
}

/// Reads a composite.
#[cycle(reads)]
fn read_composite(alloc: Global, inner: u32, reader: &mut Reader<'_>) -> Result<Value, DecodeError>
    ensures { ReadsAs pure_value result (spec.value_after (spec.value_at inner) form.Composite reader.old) reader.new }
{
    let id = read_id(alloc, reader)?;
    let identity = reader.number()?;
    let count = reader.length()?;
    let fields = read_fields(alloc, inner, count, reader)?;
    if !names_differ(alloc, fields.as_slice())? {
        return Err(DecodeError::Damaged);
    }
    Ok(Value::Composite {
        id,
        identity,
        fields: fields.into_vec(),
    })
}

/// Reads a field.
#[cycle(reads)]
fn read_field(
    alloc: Global,
    inner: u32,
    reader: &mut Reader<'_>,
) -> Result<CompositeField, DecodeError>
    ensures { ReadsAs pure_field result (spec.field_at (spec.value_at inner) reader.old) reader.new }
{
    let name = read_name(alloc, reader)?;
    let value = read_value(alloc, inner, reader)?;
    Ok(CompositeField { name, value })
}

/// Reads so many fields.
#[cycle(reads)]
fn read_fields(
    alloc: Global,
    inner: u32,
    count: u32,
    reader: &mut Reader<'_>,
) -> Result<Items<CompositeField>, DecodeError>
    ensures { ReadsAs (map pure_field) result (members_at (spec.field_at (spec.value_at inner)) count reader.old) reader.new }
{
    let mut fields = Items::new(alloc);
    for _ in 0..count {
        let field = read_field(alloc, inner, reader)?;
        fields.push(field)?;
    }
    Ok(fields)
}

/// Reads a value that all of the bytes spell.
fn read_all(alloc: Global, bytes: &[u8]) -> Result<Value, DecodeError>
    ensures { GivesAs pure_value result (spec.whole (spec.value_at most_high bytes.now)) }
{
    let mut reader = Reader::new(bytes);
    let value = read_value(alloc, MOST_HIGH, &mut reader)?;
    if reader.left() > 0 {
        drop(value);
        return Err(DecodeError::Damaged);
    }
    Ok(value)
}

/// The value with these bytes. Damaged exactly where no value has them. It has a height of 256 at most, and its types nest
/// 1,024 deep at most.
pub fn decode(alloc: Global, bytes: &[u8]) -> Result<Value, DecodeError>
    // What is read is spelled so.
    ensures found { IfOk result (λ value. HasBytes (pure_value value) × (bytes.now ≡ value_bytes (pure_value value))) }
    // What is spelled so is read, unless memory runs out.
    ensures only { (value : PureValue) → HasBytes value → bytes.now ≡ value_bytes value → GivesAs pure_value result (Some value) }
{
    read_all(alloc, bytes)
}

/// Reads a type that all of the bytes spell.
fn read_all_of_type(alloc: Global, bytes: &[u8]) -> Result<CadType, DecodeError>
    ensures { GivesAs pure_type result (spec.whole (spec.whole_type_at bytes.now)) }
{
    let mut reader = Reader::new(bytes);
    let t = read_whole_type(alloc, &mut reader)?;
    if reader.left() > 0 {
        drop(t);
        return Err(DecodeError::Damaged);
    }
    Ok(t)
}

/// The type with these bytes. Damaged exactly where no type has them. It nests 1,024 deep at most.
pub fn decode_type(alloc: Global, bytes: &[u8]) -> Result<CadType, DecodeError>
    // What is read is spelled so.
    ensures found { IfOk result (λ t. TypeHasBytes (pure_type t) × (bytes.now ≡ type_bytes (pure_type t))) }
    // What is spelled so is read, unless memory runs out.
    ensures only { (t : PureType) → TypeHasBytes t → bytes.now ≡ type_bytes t → GivesAs pure_type result (Some t) }
{
    read_all_of_type(alloc, bytes)
}
