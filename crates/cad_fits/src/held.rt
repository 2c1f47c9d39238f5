// What the parts of a value meet, but for that keys differ. The walk goes as deep as the value is high.
ghost use Rattle.std.specs.Prelude.{◌≡◌, ◌&&◌, IfOk, map};
ghost use Rattle.cad_shapes.specs.Held.{shapes_of};
ghost use Rattle.cad_shapes.specs.Views as shape;
ghost use Rattle.cad_syntax.specs.Types.{pure_type};
ghost use Rattle.cad_values.specs.Values.{pure_value, pure_field, pure_entry, values_of, entries_of, fields_of};
ghost use Rattle.cad_fits.specs.Tests as spec;

use crate::part::{is_below, is_number, is_of, is_one_character, is_text};
use cad_shapes::{
    DeclaredShapes, ShapeField, is_key_type, is_lent_type, is_reference_type, is_type,
};
use cad_syntax::{CadType, Name};
use cad_values::{Cap, CompositeField, DictionaryEntry, Value};
use std::alloc::{AllocError, Global};

/// The most elements of a container.
const MOST_ELEMENTS: usize = 65_536;

/// Whether arrays can be of a type and so long.
#[tactic(auto, using(crate::proofs::Lengths::count_values))]
fn is_array(shapes: &DeclaredShapes, element: &CadType, values: &[Value]) -> bool
    ensures { result ≡ spec.is_array (shapes_of shapes.now) (pure_type element.now) (values_of (map pure_value values.now)) }
{
    is_type(shapes, element) && values.len() <= MOST_ELEMENTS
}

/// Whether dictionaries can be of a type and so large.
#[tactic(auto, using(crate::proofs::Lengths::count_entries))]
fn is_dictionary(
    shapes: &DeclaredShapes,
    key: &CadType,
    value: &CadType,
    entries: &[DictionaryEntry],
) -> bool
    ensures { result ≡ spec.is_dictionary (shapes_of shapes.now) (pure_type key.now) (pure_type value.now) (entries_of (map pure_entry entries.now)) }
{
    is_key_type(shapes, key) && (is_type(shapes, value) && entries.len() <= MOST_ELEMENTS)
}

/// Whether capabilities can lend a type.
fn lends(shapes: &DeclaredShapes, cap: &Cap) -> bool
    ensures { result ≡ spec.lends (shapes_of shapes.now) (pure_type cap.now.borrow) }
{
    is_reference_type(&cap.borrow) && is_type(shapes, &cap.borrow)
}

/// Whether all in a value is as its own type says, but for that keys differ.
#[cycle(holds)]
pub fn holds(alloc: Global, value: &Value, shapes: &DeclaredShapes) -> Result<bool, AllocError>
    ensures { IfOk result (λ b. b ≡ spec.holds (shapes_of shapes.now) (pure_value value.now)) }
{
    match value {
        Value::Some(content) => holds(alloc, content, shapes),
        Value::Number(number) => Ok(is_number(*number)),
        Value::String(text) => Ok(is_text(text)),
        Value::Character(text) => Ok(is_one_character(text)),
        Value::Meta(t) => Ok(is_type(shapes, t)),
        Value::Capability(cap) => Ok(lends(shapes, cap)),
        Value::Array { element, values } => {
            if !is_array(shapes, element, values.as_slice()) {
                return Ok(false);
            }
            values_fit(alloc, values.as_slice(), shapes, element)
        }
        Value::Dictionary {
            key,
            value,
            entries,
        } => {
            if !is_dictionary(shapes, key, value, entries.as_slice()) {
                return Ok(false);
            }
            entries_fit(alloc, entries.as_slice(), shapes, key, value)
        }
        Value::Composite {
            id,
            identity,
            fields,
        } => match shapes.find(id) {
            None => Ok(false),
            Some(shape) => {
                if !is_of(shape, *identity, fields.as_slice()) {
                    return Ok(false);
                }
                fields_fit(alloc, fields.as_slice(), shapes, shape.fields.as_slice())
            }
        },
        Value::Reference(reference) => Ok(is_lent_type(
            shapes,
            &reference.authorization,
            &reference.target,
        )),
        _ => Ok(true),
    }
}

/// Whether the elements of an array are of a type.
#[cycle(holds)]
fn values_fit(
    alloc: Global,
    values: &[Value],
    shapes: &DeclaredShapes,
    want: &CadType,
) -> Result<bool, AllocError>
    ensures { IfOk result (λ b. b ≡ spec.values_fit (shapes_of shapes.now) (pure_type want.now) (values_of (map pure_value values.now))) }
{
    for value in values {
        if !is_below(alloc, shapes, value, want)? {
            return Ok(false);
        }
        if !holds(alloc, value, shapes)? {
            return Ok(false);
        }
    }
    Ok(true)
}

/// Whether a key and what stands under it are of types.
#[cycle(holds)]
fn entry_fits(
    alloc: Global,
    entry: &DictionaryEntry,
    shapes: &DeclaredShapes,
    key: &CadType,
    want: &CadType,
) -> Result<bool, AllocError>
    ensures { IfOk result (λ b. b ≡ spec.entry_fits (shapes_of shapes.now) (pure_type key.now) (pure_type want.now) (pure_entry entry.now)) }
{
    if !is_below(alloc, shapes, &entry.key, key)? {
        return Ok(false);
    }
    if !holds(alloc, &entry.key, shapes)? {
        return Ok(false);
    }
    if !is_below(alloc, shapes, &entry.value, want)? {
        return Ok(false);
    }
    holds(alloc, &entry.value, shapes)
}

/// Whether the entries of a dictionary are of types.
#[cycle(holds)]
fn entries_fit(
    alloc: Global,
    entries: &[DictionaryEntry],
    shapes: &DeclaredShapes,
    key: &CadType,
    want: &CadType,
) -> Result<bool, AllocError>
    ensures { IfOk result (λ b. b ≡ spec.entries_fit (shapes_of shapes.now) (pure_type key.now) (pure_type want.now) (entries_of (map pure_entry entries.now))) }
{
    for entry in entries {
        if !entry_fits(alloc, entry, shapes, key, want)? {
            return Ok(false);
        }
    }
    Ok(true)
}

/// Whether two names are one.
fn is_same(a: &Name, b: &Name) -> bool
    ensures { result ≡ shape.same_name a.now b.now }
{
    a.0 == b.0
}

/// Whether a field is the declared one.
#[cycle(holds)]
fn field_fits(
    alloc: Global,
    field: &CompositeField,
    shapes: &DeclaredShapes,
    declared: &ShapeField,
) -> Result<bool, AllocError>
    ensures { IfOk result (λ b. b ≡ spec.field_fits (shapes_of shapes.now) (shape.pure_field declared.now) (pure_field field.now)) }
{
    if !is_same(&field.name, &declared.name) {
        return Ok(false);
    }
    if !is_below(alloc, shapes, &field.value, &declared.is)? {
        return Ok(false);
    }
    holds(alloc, &field.value, shapes)
}

/// Whether the fields are the declared ones, in order.
#[cycle(holds)]
#[tactic(auto, using(crate::proofs::Lengths::differ_fields))]
pub fn fields_fit(
    alloc: Global,
    fields: &[CompositeField],
    shapes: &DeclaredShapes,
    declared: &[ShapeField],
) -> Result<bool, AllocError>
    ensures { IfOk result (λ b. b ≡ spec.fields_fit (shapes_of shapes.now) (map shape.pure_field declared.now) (fields_of (map pure_field fields.now))) }
{
    if declared.len() != fields.len() {
        return Ok(false);
    }
    for i in 0..fields.len() {
        if !field_fits(alloc, &fields[i], shapes, &declared[i])? {
            return Ok(false);
        }
    }
    Ok(true)
}
