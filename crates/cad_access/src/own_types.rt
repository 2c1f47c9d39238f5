// The own types of nodes, values and references.
ghost use Rattle.std.specs.Prelude.{◌≡◌, IfOk, option_map};
ghost use Rattle.cad_syntax.specs.Types.{pure_type, reference};
ghost use Rattle.cad_types.specs.Optionals.{optionals};
ghost use Rattle.cad_world.specs.Rows.{Row};
ghost use Rattle.cad_world.specs.State.{State};
ghost use Rattle.cad_world.specs.OwnTypes as spec;
ghost use Rattle.cad_rows.specs.Views.{pure_shape};
ghost use Rattle.cad_access.specs.OwnTypes.{LeadsTo, leads_nowhere as to_nowhere, seen_type as type_seen, type_of_shape as type_told};

use crate::shapes::{leads_to_controller, solid_type};
use cad_rows::Shape;
use cad_syntax::{Authorization, CadType};
use std::alloc::{AllocError, Global};

/// A type in this many optionals.
pub fn in_optionals(alloc: Global, n: u64, t: CadType) -> Result<CadType, AllocError>
    ensures { IfOk result (λ wrapped. pure_type wrapped ≡ optionals n (pure_type t)) }
{
    let mut wrapped = t;
    for _ in 0..n {
        wrapped = in_one_optional(alloc, wrapped)?;
    }
    Ok(wrapped)
}

/// A type in one optional.
fn in_one_optional(alloc: Global, t: CadType) -> Result<CadType, AllocError>
    ensures { IfOk result (λ wrapped. pure_type wrapped ≡ optionals 1 (pure_type t)) }
{
    Ok(CadType::Optional(Box::new(alloc, t)?))
}

/// A type in this many optionals, if there is one.
fn if_in_optionals(alloc: Global, n: u64, t: Option<CadType>) -> Result<Option<CadType>, AllocError>
    ensures { IfOk result (λ o. option_map pure_type o ≡ option_map (optionals n) (option_map pure_type t)) }
{
    match t {
        Some(t) => Ok(Some(in_optionals(alloc, n, t)?)),
        None => Ok(None),
    }
}

/// The type of what a reference to a node of this shape sees; None where the node is gone.
pub fn seen_type(
    alloc: Global,
    sees: u64,
    found: Option<&Shape>,
) -> Result<Option<CadType>, AllocError>
    ensures { IfOk result (λ o. option_map pure_type o ≡ type_seen sees (option_map (λ shape. pure_shape shape.now) found.entry)) }
{
    match found {
        Some(shape) => if_in_optionals(alloc, sees, solid_type(alloc, shape)?),
        None => Ok(None),
    }
}

/// The type of a reference with this authorization, if its target has a type.
fn if_reference(
    alloc: Global,
    authorization: &Authorization,
    t: Option<CadType>,
) -> Result<Option<CadType>, AllocError>
    ensures { IfOk result (λ o. option_map pure_type o ≡ option_map (reference authorization.now) (option_map pure_type t)) }
{
    match t {
        Some(t) => {
            let target = Box::new(alloc, t)?;
            Ok(Some(CadType::Reference(authorization.clone()?, target)))
        }
        None => Ok(None),
    }
}

/// The type of a shape, if it is a reference to a node one that leads to this shape.
fn type_of_shape(
    alloc: Global,
    shape: &Shape,
    found: Option<&Shape>,
) -> Result<Option<CadType>, AllocError>
    ensures { IfOk result (λ o. option_map pure_type o ≡ type_told (option_map (λ other. pure_shape other.now) found.entry) (pure_shape shape.now)) }
{
    match shape {
        Shape::Link {
            authorization,
            label: _,
            sees,
        } => {
            let seen = seen_type(alloc, *sees, found)?;
            if_reference(alloc, authorization, seen)
        }
        _ => solid_type(alloc, shape),
    }
}

/// Whether a reference to a controller leads to what is gone.
fn leads_nowhere(shape: &Shape, found: Option<&Shape>) -> bool
    ensures { result ≡ to_nowhere (pure_shape shape.now) (option_map (λ other. pure_shape other.now) found.entry) }
{
    match found {
        Some(_) => false,
        None => leads_to_controller(shape),
    }
}

/// The own type of a shape, told where a reference to a node leads, and of one to a controller by any shape that it is there. None
/// of a reference that leads nowhere any more.
pub fn shape_type(
    alloc: Global,
    shape: &Shape,
    found: Option<&Shape>,
) -> Result<Option<CadType>, AllocError>
    ensures { IfOk result (λ o. (s : State) → LeadsTo s (pure_shape shape.now) (option_map (λ other. pure_shape other.now) found.entry) → option_map pure_type o ≡ spec.shape_type s (pure_shape shape.now)) }
{
    if leads_nowhere(shape, found) {
        Ok(None)
    } else {
        type_of_shape(alloc, shape, found)
    }
}

/// The own type of a value in this many optionals, whatever its parts, told where a reference leads as `shape_type` is. None of a
/// reference that leads nowhere any more.
pub fn own_type(
    alloc: Global,
    depth: u64,
    shape: &Shape,
    found: Option<&Shape>,
) -> Result<Option<CadType>, AllocError>
    ensures { IfOk result (λ o. (s : State) (parts : Row) → LeadsTo s (pure_shape shape.now) (option_map (λ other. pure_shape other.now) found.entry) → option_map pure_type o ≡ spec.own_type s (record { optionals = depth; shape = pure_shape shape.now; parts = parts })) }
{
    match shape_type(alloc, shape, found) {
        Ok(solid) => if_in_optionals(alloc, depth, solid),
        Err(error) => Err(error),
    }
}
