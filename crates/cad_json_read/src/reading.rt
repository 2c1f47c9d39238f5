// JSON to values.
ghost use Rattle.std.specs.Prelude.{◌≡◌, ◌≤◌, IfOk, IfSome, Some, map, option_map};
ghost use Rattle.serde_json.specs.View.{view};
ghost use Rattle.cad_json.specs.Read.{Reads};
ghost use Rattle.cad_shapes.specs.Held.{shapes_of};
ghost use Rattle.cad_shapes.specs.Views.{pure_field};
ghost use Rattle.cad_syntax.specs.Types.{pure_type};
ghost use Rattle.cad_values.specs.Sizes.{height, most_high};
ghost use Rattle.cad_values.specs.Values.{PureValue, pure_value, pure_entry};
ghost use Rattle.cad_values.specs.Values as v;
ghost use Rattle.cad_json_read.specs.Judged.{known_of};
ghost use Rattle.cad_json_read.specs.Reading as spec;

use crate::composite::{id_at, list_of, shape_at, value_at};
use crate::expected::{array_part, dictionary_parts, optional_part};
use crate::form::Form;
use crate::object::{pair, typed};
use crate::plain::{read_address, read_bool, read_character, read_number, read_path, read_string};
use cad_shapes::{DeclaredShapes, ShapeField};
use cad_syntax::{CadType, TypeId};
use cad_values::{CompositeField, DictionaryEntry, Value};
use serde_json::Value as Json;
use std::alloc::{AllocError, Global};

/// The greatest height of a value that is read.
const MOST_HIGH: u32 = 256;

/// The value that is at most `left` high.
#[cycle(reads)]
#[tactic(auto, unfolding(crate::specs::Reading::value_of))]
fn read_value(
    alloc: Global,
    shapes: &DeclaredShapes,
    left: u32,
    want: &CadType,
    json: &Json,
) -> Result<Option<Value>, AllocError>
    ensures { IfOk result (λ o. option_map pure_value o ≡ spec.value_of (known_of shapes.now) left (pure_type want.now) (view json.now)) }
{
    if left == 0 {
        return Ok(None);
    }
    match typed(json) {
        Some((form, content)) => read_form(alloc, shapes, left - 1, want, form, content),
        None => Ok(None),
    }
}

/// The value of a form and a content.
#[cycle(reads)]
fn read_form(
    alloc: Global,
    shapes: &DeclaredShapes,
    inner: u32,
    want: &CadType,
    form: Form,
    content: &Json,
) -> Result<Option<Value>, AllocError>
    ensures { IfOk result (λ o. option_map pure_value o ≡ spec.of_form (known_of shapes.now) (spec.value_of (known_of shapes.now) inner) (pure_type want.now) form (view content.now)) }
{
    match form {
        Form::String => read_string(alloc, content),
        Form::Optional => read_optional(alloc, shapes, inner, want, content),
        Form::Array => read_array(alloc, shapes, inner, want, content),
        Form::Struct => read_composite(alloc, shapes, inner, Form::Struct, content),
        Form::Bool => Ok(read_bool(content)),
        Form::Address => Ok(read_address(content)),
        Form::Character => read_character(alloc, content),
        Form::Dictionary => read_dictionary(alloc, shapes, inner, want, content),
        Form::Path => read_path(alloc, content),
        Form::Enum => read_composite(alloc, shapes, inner, Form::Enum, content),
        Form::Number(kind) => Ok(read_number(kind, content)),
    }
}

/// An optional.
#[cycle(reads)]
fn read_optional(
    alloc: Global,
    shapes: &DeclaredShapes,
    inner: u32,
    want: &CadType,
    content: &Json,
) -> Result<Option<Value>, AllocError>
    ensures { IfOk result (λ o. option_map pure_value o ≡ spec.optional_at (spec.value_of (known_of shapes.now) inner) (pure_type want.now) (view content.now)) }
{
    let Some(part) = optional_part(want) else {
        return Ok(None);
    };
    if content.as_null().is_some() {
        return Ok(Some(Value::Nil));
    }
    match read_value(alloc, shapes, inner, part, content)? {
        Some(value) => Ok(Some(Value::Some(Box::new(alloc, value)?))),
        None => Ok(None),
    }
}

/// An array.
#[cycle(reads)]
fn read_array(
    alloc: Global,
    shapes: &DeclaredShapes,
    inner: u32,
    want: &CadType,
    content: &Json,
) -> Result<Option<Value>, AllocError>
    ensures { IfOk result (λ o. option_map pure_value o ≡ spec.array_at (spec.value_of (known_of shapes.now) inner) (pure_type want.now) (view content.now)) }
{
    let Some(part) = array_part(want) else {
        return Ok(None);
    };
    let Some(all) = list_of(content) else {
        return Ok(None);
    };
    let Some(values) = read_values(alloc, shapes, inner, part, all)? else {
        return Ok(None);
    };
    let element = part.clone()?;
    Ok(Some(Value::Array { element, values }))
}

/// The elements of an array.
#[cycle(reads)]
fn read_values(
    alloc: Global,
    shapes: &DeclaredShapes,
    inner: u32,
    want: &CadType,
    all: &[Json],
) -> Result<Option<Vec<Value>>, AllocError>
    ensures { IfOk result (λ o. option_map (λ xs. map pure_value xs.items) o ≡ spec.each (spec.value_of (known_of shapes.now) inner (pure_type want.now)) (map view all.now)) }
{
    let mut values = Vec::new(alloc);
    for json in all {
        let Some(value) = read_value(alloc, shapes, inner, want, json)? else {
            return Ok(None);
        };
        values.push(value)?;
    }
    Ok(Some(values))
}

/// A dictionary.
#[cycle(reads)]
fn read_dictionary(
    alloc: Global,
    shapes: &DeclaredShapes,
    inner: u32,
    want: &CadType,
    content: &Json,
) -> Result<Option<Value>, AllocError>
    ensures { IfOk result (λ o. option_map pure_value o ≡ spec.dictionary_at (spec.value_of (known_of shapes.now) inner) (pure_type want.now) (view content.now)) }
{
    let Some((key_want, value_want)) = dictionary_parts(want) else {
        return Ok(None);
    };
    let Some(all) = list_of(content) else {
        return Ok(None);
    };
    let Some(entries) = read_entries(alloc, shapes, inner, key_want, value_want, all)? else {
        return Ok(None);
    };
    let key = key_want.clone()?;
    match value_want.clone() {
        Ok(value) => Ok(Some(Value::Dictionary {
            key,
            value,
            entries,
        })),
        Err(error) => {
            drop(key);
            Err(error)
        }
    }
}

/// A key and what stands under it.
#[cycle(reads)]
fn read_entry(
    alloc: Global,
    shapes: &DeclaredShapes,
    inner: u32,
    key_want: &CadType,
    value_want: &CadType,
    json: &Json,
) -> Result<Option<DictionaryEntry>, AllocError>
    ensures { IfOk result (λ o. option_map pure_entry o ≡ spec.entry_at (spec.value_of (known_of shapes.now) inner) (pure_type key_want.now) (pure_type value_want.now) (view json.now)) }
{
    let Some((first, second)) = pair(json, "key", "value") else {
        return Ok(None);
    };
    let Some(key) = read_value(alloc, shapes, inner, key_want, first)? else {
        return Ok(None);
    };
    match read_value(alloc, shapes, inner, value_want, second) {
        Ok(Some(value)) => Ok(Some(DictionaryEntry { key, value })),
        Ok(None) => {
            drop(key);
            Ok(None)
        }
        Err(error) => {
            drop(key);
            Err(error)
        }
    }
}

/// The entries of a dictionary.
#[cycle(reads)]
fn read_entries(
    alloc: Global,
    shapes: &DeclaredShapes,
    inner: u32,
    key_want: &CadType,
    value_want: &CadType,
    all: &[Json],
) -> Result<Option<Vec<DictionaryEntry>>, AllocError>
    ensures { IfOk result (λ o. option_map (λ xs. map pure_entry xs.items) o ≡ spec.each (spec.entry_at (spec.value_of (known_of shapes.now) inner) (pure_type key_want.now) (pure_type value_want.now)) (map view all.now)) }
{
    let mut entries = Vec::new(alloc);
    for json in all {
        let Some(entry) = read_entry(alloc, shapes, inner, key_want, value_want, json)? else {
            return Ok(None);
        };
        entries.push(entry)?;
    }
    Ok(Some(entries))
}

/// A struct or a case of an enum.
#[cycle(reads)]
fn read_composite(
    alloc: Global,
    shapes: &DeclaredShapes,
    inner: u32,
    form: Form,
    content: &Json,
) -> Result<Option<Value>, AllocError>
    ensures { IfOk result (λ o. option_map pure_value o ≡ spec.composite_at (known_of shapes.now) (spec.value_of (known_of shapes.now) inner) form (view content.now)) }
{
    let Some((list, name)) = pair(content, "fields", "id") else {
        return Ok(None);
    };
    let Some(text) = name.as_str() else {
        return Ok(None);
    };
    let Some(id) = id_at(alloc, text)? else {
        return Ok(None);
    };
    read_declared(alloc, shapes, inner, form, id, list)
}

/// A value of a declared type.
#[cycle(reads)]
fn read_declared(
    alloc: Global,
    shapes: &DeclaredShapes,
    inner: u32,
    form: Form,
    id: TypeId,
    list: &Json,
) -> Result<Option<Value>, AllocError>
    ensures { IfOk result (λ o. option_map pure_value o ≡ spec.declared_at (known_of shapes.now) (spec.value_of (known_of shapes.now) inner) form (view list.now) id) }
{
    let Some(shape) = shape_at(alloc, shapes, form, &id)? else {
        return Ok(None);
    };
    let Some(all) = list_of(list) else {
        return Ok(None);
    };
    let Some(fields) = read_fields(alloc, shapes, inner, shape.fields.as_slice(), all)? else {
        return Ok(None);
    };
    Ok(Some(Value::Composite {
        id,
        identity: 0,
        fields,
    }))
}

/// A field, wherever it stands.
#[cycle(reads)]
fn read_field(
    alloc: Global,
    shapes: &DeclaredShapes,
    inner: u32,
    field: &ShapeField,
    all: &[Json],
) -> Result<Option<CompositeField>, AllocError>
    ensures { IfOk result (λ o. option_map v.pure_field o ≡ spec.field_of (spec.value_of (known_of shapes.now) inner) (map view all.now) (pure_field field.now)) }
{
    let Some(json) = value_at(all, field.name.0.as_str()) else {
        return Ok(None);
    };
    let Some(value) = read_value(alloc, shapes, inner, &field.is, json)? else {
        return Ok(None);
    };
    match field.name.clone() {
        Ok(name) => Ok(Some(CompositeField { name, value })),
        Err(error) => {
            drop(value);
            Err(error)
        }
    }
}

/// The fields of a composite, as many as are declared.
#[cycle(reads)]
fn read_fields(
    alloc: Global,
    shapes: &DeclaredShapes,
    inner: u32,
    fields: &[ShapeField],
    all: &[Json],
) -> Result<Option<Vec<CompositeField>>, AllocError>
    ensures { IfOk result (λ o. option_map (λ xs. map v.pure_field xs.items) o ≡ spec.fields_at (spec.value_of (known_of shapes.now) inner) (map pure_field fields.now) (map view all.now)) }
{
    if all.len() != fields.len() {
        return Ok(None);
    }
    read_each_field(alloc, shapes, inner, fields, all)
}

/// The fields of a composite.
#[cycle(reads)]
fn read_each_field(
    alloc: Global,
    shapes: &DeclaredShapes,
    inner: u32,
    fields: &[ShapeField],
    all: &[Json],
) -> Result<Option<Vec<CompositeField>>, AllocError>
    ensures { IfOk result (λ o. option_map (λ xs. map v.pure_field xs.items) o ≡ spec.each (spec.field_of (spec.value_of (known_of shapes.now) inner) (map view all.now)) (map pure_field fields.now)) }
{
    let mut found = Vec::new(alloc);
    for field in fields {
        let Some(one) = read_field(alloc, shapes, inner, field, all)? else {
            return Ok(None);
        };
        found.push(one)?;
    }
    Ok(Some(found))
}

/// The value that a JSON stands for where a type is expected, as a function.
fn read_whole(
    alloc: Global,
    shapes: &DeclaredShapes,
    want: &CadType,
    json: &Json,
) -> Result<Option<Value>, AllocError>
    ensures { IfOk result (λ o. option_map pure_value o ≡ spec.value_of (known_of shapes.now) most_high (pure_type want.now) (view json.now)) }
{
    read_value(alloc, shapes, MOST_HIGH, want, json)
}

/// The value that a JSON is read as where a type is expected, 256 high at most. None exactly where there is none. Whether the
/// value is of the type isn't looked at.
pub fn read(
    alloc: Global,
    shapes: &DeclaredShapes,
    want: &CadType,
    json: &Json,
) -> Result<Option<Value>, AllocError>
    // What is given is read by the relation.
    ensures found { IfOk result (λ o. IfSome o (λ value. Reads (shapes_of shapes.now) (pure_type want.now) (view json.now) (pure_value value))) }
    ensures low { IfOk result (λ o. IfSome o (λ value. height (pure_value value) ≤ most_high)) }
    // What is read by the relation is given.
    ensures only { (x : PureValue) → Reads (shapes_of shapes.now) (pure_type want.now) (view json.now) x → height x ≤ most_high → IfOk result (λ o. option_map pure_value o ≡ Some x) }
{
    read_whole(alloc, shapes, want, json)
}
