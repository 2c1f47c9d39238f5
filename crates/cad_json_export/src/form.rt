// Which values have a form in JSON. The walk goes as deep as the value is high.
ghost use Rattle.std.specs.Prelude.{◌≡◌, ◌&&◌, map};
ghost use Rattle.cad_json.specs.Forms as spec;
ghost use Rattle.cad_types.specs.Classes.{has_sort};
ghost use Rattle.cad_types.specs.Declarations.{found};
ghost use Rattle.cad_types.specs.Views.{declarations};
ghost use Rattle.cad_values.specs.Values.{pure_value, pure_field, pure_entry, values_of, entries_of, fields_of};

use cad_syntax::{Kind, TypeId};
use cad_types::{DeclaredTypes, Sort};
use cad_values::{CompositeField, DictionaryEntry, Value};

/// Whether composites of a sort have a form.
fn is_told_sort(sort: Sort) -> bool
    ensures { result ≡ spec.is_told_sort sort }
{
    match sort {
        Sort::Struct | Sort::Resource | Sort::Event | Sort::Enum => true,
        Sort::Contract | Sort::StructInterface | Sort::ResourceInterface => false,
    }
}

/// Whether composites of a type have a form.
fn is_told_type(kinds: &DeclaredTypes, id: &TypeId) -> bool
    ensures { result ≡ has_sort spec.is_told_sort (found (declarations kinds.now) id.now) }
{
    match kinds.find(id) {
        Some(declared) => is_told_sort(declared.sort),
        None => false,
    }
}

/// Whether each part of a value has a form.
#[cycle(forms)]
pub fn has_form(kinds: &DeclaredTypes, value: &Value) -> bool
    ensures { result ≡ spec.has_form (declarations kinds.now) (pure_value value.now) }
{
    match value {
        Value::Some(content) => has_form(kinds, content),
        Value::Number(number) => !matches!(number.kind, Kind::Address),
        Value::Array { values, .. } => values_have_form(kinds, values.as_slice()),
        Value::Dictionary { entries, .. } => entries_have_form(kinds, entries.as_slice()),
        Value::Composite { id, fields, .. } => {
            is_told_type(kinds, id) && fields_have_form(kinds, fields.as_slice())
        }
        Value::Meta(_) | Value::Capability(_) | Value::Reference(_) => false,
        _ => true,
    }
}

#[cycle(forms)]
fn values_have_form(kinds: &DeclaredTypes, values: &[Value]) -> bool
    ensures { result ≡ spec.values_have_form (declarations kinds.now) (values_of (map pure_value values.now)) }
{
    for value in values {
        if !has_form(kinds, value) {
            return false;
        }
    }
    true
}

#[cycle(forms)]
fn entry_has_form(kinds: &DeclaredTypes, entry: &DictionaryEntry) -> bool
    ensures { result ≡ (spec.has_form (declarations kinds.now) (pure_entry entry.now).key && spec.has_form (declarations kinds.now) (pure_entry entry.now).value) }
{
    has_form(kinds, &entry.key) && has_form(kinds, &entry.value)
}

#[cycle(forms)]
fn entries_have_form(kinds: &DeclaredTypes, entries: &[DictionaryEntry]) -> bool
    ensures { result ≡ spec.entries_have_form (declarations kinds.now) (entries_of (map pure_entry entries.now)) }
{
    for entry in entries {
        if !entry_has_form(kinds, entry) {
            return false;
        }
    }
    true
}

#[cycle(forms)]
fn fields_have_form(kinds: &DeclaredTypes, fields: &[CompositeField]) -> bool
    ensures { result ≡ spec.fields_have_form (declarations kinds.now) (fields_of (map pure_field fields.now)) }
{
    for field in fields {
        if !has_form(kinds, &field.value) {
            return false;
        }
    }
    true
}
