// The types of structs and enums, and their fields.
ghost use Rattle.std.specs.Prelude.{◌≡◌, ◌<◌, ◌^◌, IfOk, map, option_map};
ghost use Rattle.serde_json.specs.View.{view};
ghost use Rattle.cad_shapes.specs.Views.{pure_shape};
ghost use Rattle.cad_json_read.specs.Judged.{known_of};
ghost use Rattle.cad_json_read.specs.Reading as spec;

use crate::form::Form;
use crate::object::field_value;
use cad_shapes::{DeclaredShapes, Shape};
use cad_syntax::{CadType, TypeId};
use cad_types::{Sort, is_importable};
use serde_json::Value as Json;
use std::alloc::{AllocError, Global};

/// The number of an identifier's address.
fn address_number(id: &TypeId) -> u64
    ensures number { result ≡ id.now.address.0 }
    ensures in_range { id.now.address.0 < 2 ^ 64 }
{
    id.address.0
}

/// The identifier with a text.
pub fn id_at(alloc: Global, text: &str) -> Result<Option<TypeId>, AllocError>
    ensures { IfOk result (λ id. id ≡ spec.id_at text.now) }
{
    match TypeId::from_text(alloc, text)? {
        Some(id) => {
            let _number = address_number(&id);
            Ok(Some(id))
        }
        None => Ok(None),
    }
}

/// Whether values of this form are of types of this sort.
fn is_of_sort(form: Form, sort: Sort) -> bool
    ensures { result ≡ spec.is_of_sort form sort }
{
    match form {
        Form::Struct => matches!(sort, Sort::Struct),
        Form::Enum => matches!(sort, Sort::Enum),
        _ => false,
    }
}

/// Whether arguments can have a declared type.
fn is_importable_id(alloc: Global, shapes: &DeclaredShapes, id: &TypeId) -> Result<bool, AllocError>
    ensures { IfOk result (λ b. b ≡ (known_of shapes.now).importable id.now) }
{
    let copy = id.clone()?;
    let t = CadType::Declared(copy);
    Ok(is_importable(shapes.types(), &t))
}

/// The shape of a type that arguments can have, of this form.
pub fn shape_at<'a>(
    alloc: Global,
    shapes: &'a DeclaredShapes,
    form: Form,
    id: &TypeId,
) -> Result<Option<&'a Shape>, AllocError>
    ensures { IfOk result (λ o. option_map (λ s. pure_shape s.now) o ≡ spec.shape_at (known_of shapes.entry.now) form id.now) }
{
    match shapes.find(id) {
        Some(shape) => {
            let fits = is_of_sort(form, shape.sort) && is_importable_id(alloc, shapes, id)?;
            if fits { Ok(Some(shape)) } else { Ok(None) }
        }
        None => Ok(None),
    }
}

/// The value of the first field with a name.
pub fn value_at<'a>(all: &'a [Json], name: &str) -> Option<&'a Json>
    ensures { option_map (λ x. view x.now) result ≡ spec.value_at name.now (map view all.entry.now) }
{
    for json in all {
        if let Some(value) = field_value(json, name) {
            return Some(value);
        }
    }
    None
}

/// The items of a list.
#[tactic(auto, using(crate::proofs::Lists::items_back))]
pub fn list_of(json: &Json) -> Option<&[Json]>
    ensures { option_map (λ all. map view all.now) result ≡ spec.list_of (view json.entry.now) }
{
    match json.as_array() {
        Some(all) => Some(all.as_slice()),
        None => None,
    }
}
