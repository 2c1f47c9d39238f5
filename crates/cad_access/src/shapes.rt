// What single shapes are.
ghost use Rattle.std.specs.Prelude.{◌≡◌, IfOk, Some, option_map};
ghost use Rattle.cad_syntax.specs.Types.{pure_type, array, dictionary};
ghost use Rattle.cad_values.specs.Values.{pure_value};
ghost use Rattle.cad_world.specs.OwnTypes as own;
ghost use Rattle.cad_world.specs.Receivers as receivers;
ghost use Rattle.cad_rows.specs.Views.{pure_shape};
ghost use Rattle.cad_access.specs.Shapes.{is_controller, value_leads, shape_leads};

use cad_rows::Shape;
use cad_syntax::CadType;
use cad_values::{Target, Value, type_of_value};
use std::alloc::{AllocError, Global};

/// The type of a node without its optionals. None of a reference to a node.
pub fn solid_type(alloc: Global, shape: &Shape) -> Result<Option<CadType>, AllocError>
    ensures { IfOk result (λ o. option_map pure_type o ≡ own.solid_type (pure_shape shape.now)) }
{
    match shape {
        Shape::Plain(value) => Ok(Some(type_of_value(alloc, value)?)),
        Shape::Link { .. } => Ok(None),
        Shape::Array(element) => Ok(Some(array_type(alloc, element)?)),
        Shape::Dictionary { key, value, .. } => Ok(Some(dictionary_type(alloc, key, value)?)),
        Shape::Composite { id, .. } => Ok(Some(CadType::Declared(id.clone()?))),
    }
}

/// The type of an array of these elements.
fn array_type(alloc: Global, element: &CadType) -> Result<CadType, AllocError>
    ensures { IfOk result (λ t. pure_type t ≡ array (pure_type element.now)) }
{
    Ok(CadType::Array(Box::new(alloc, element.clone()?)?))
}

/// The type of a dictionary of these keys and values.
fn dictionary_type(alloc: Global, key: &CadType, value: &CadType) -> Result<CadType, AllocError>
    ensures { IfOk result (λ t. pure_type t ≡ dictionary (pure_type key.now) (pure_type value.now)) }
{
    let keys = Box::new(alloc, key.clone()?)?;
    Ok(CadType::Dictionary(keys, Box::new(alloc, value.clone()?)?))
}

/// Whether a value is a reference.
fn is_reference_value(value: &Value) -> bool
    ensures { result ≡ receivers.is_reference_value (pure_value value.now) }
{
    matches!(value, Value::Reference(_))
}

/// Whether a shape is a reference.
pub fn is_reference_shape(shape: &Shape) -> bool
    ensures { result ≡ receivers.is_reference_shape (pure_shape shape.now) }
{
    match shape {
        Shape::Link { .. } => true,
        Shape::Plain(value) => is_reference_value(value),
        _ => false,
    }
}

/// Whether a value is a reference to the controller of a capability.
fn value_leads_to_controller(value: &Value) -> bool
    ensures { result ≡ value_leads is_controller (pure_value value.now) }
{
    match value {
        Value::Reference(reference) => matches!(reference.to, Target::Controller { .. }),
        _ => false,
    }
}

/// Whether a shape is a reference to the controller of a capability.
pub fn leads_to_controller(shape: &Shape) -> bool
    ensures { result ≡ shape_leads is_controller (pure_shape shape.now) }
{
    match shape {
        Shape::Plain(value) => value_leads_to_controller(value),
        _ => false,
    }
}
