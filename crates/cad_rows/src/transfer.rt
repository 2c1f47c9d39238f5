// What comes to a place of a type.
ghost use Rattle.std.specs.Prelude.{◌≡◌, OnOk, IfOk, option_map};
ghost use Rattle.cad_syntax.specs.Types.{pure_type, reference};
ghost use Rattle.cad_types.specs.Optionals as optionals;
ghost use Rattle.cad_values.specs.Values.{pure_value};
ghost use Rattle.cad_world.specs.Transfers as spec;
ghost use Rattle.cad_rows.specs.Views.{pure_tree, pure_shape};
ghost use Rattle.cad_rows.specs.Carried as code;

use crate::tree::{Shape, Tree};
use cad_syntax::{Authorization, CadType};
use cad_values::{Reference, Target, Value};
use std::alloc::AllocError;

/// How many optionals stand round a value that isn't nil, with some round it, once it has come to a place of a type. A type
/// of 2^64 optionals has no room in memory.
fn layers(declared: &CadType, count: u64) -> Result<u64, AllocError>
    ensures { IfOk result (λ n. n ≡ optionals.layers count (pure_type declared.now)) }
{
    match declared {
        CadType::Optional(content) => {
            let inner = if count == 0 {
                layers(content, 0)?
            } else {
                layers(content, count - 1)?
            };
            match inner.checked_add(1) {
                Some(more) => Ok(more),
                None => Err(AllocError),
            }
        }
        _ => Ok(count),
    }
}

fn is_nil_value(value: &Value) -> bool
    ensures { result ≡ code.is_nil (pure_value value.now) }
{
    match value {
        Value::Nil => true,
        _ => false,
    }
}

fn is_nil(shape: &Shape) -> bool
    ensures { result ≡ code.is_nil_shape (pure_shape shape.now) }
{
    match shape {
        Shape::Plain(value) => is_nil_value(value),
        _ => false,
    }
}

/// The optionals of what has come to a place of a type; nil stays as it is.
#[tactic(auto, using(crate::proofs::TransferLaws::rounds_is))]
fn rounds(shape: &Shape, count: u64, declared: &CadType) -> Result<u64, AllocError>
    ensures { IfOk result (λ n. n ≡ spec.rounds (pure_shape shape.now) count (pure_type declared.now)) }
{
    if is_nil(shape) {
        return Ok(count);
    }
    layers(declared, count)
}

/// A reference is of another authorization from now on; what it borrows of storage is of another type too.
fn carry_reference(
    own: &mut Reference,
    authorization: &Authorization,
    target: &CadType,
) -> Result<(), AllocError>
    ensures authorization { OnOk result (own.new.authorization ≡ authorization.now) }
    ensures target { OnOk result (pure_type own.new.target ≡ spec.carried_target own.old.to (pure_type target.now) (pure_type own.old.target)) }
    ensures to { OnOk result (own.new.to ≡ own.old.to) }
{
    let authorization_copy = authorization.clone()?;
    match &own.to {
        Target::Stored { .. } => {
            let target_copy = target.clone()?;
            own.target = target_copy;
        }
        _ => {}
    }
    own.authorization = authorization_copy;
    Ok(())
}

fn carry_value(
    value: &mut Value,
    authorization: &Authorization,
    target: &CadType,
) -> Result<(), AllocError>
    ensures { OnOk result (pure_value value.new ≡ spec.carried_value (reference authorization.now (pure_type target.now)) (pure_value value.old)) }
{
    match value {
        Value::Reference(own) => carry_reference(own, authorization, target),
        _ => Ok(()),
    }
}

fn carry_shape(
    shape: &mut Shape,
    authorization: &Authorization,
    target: &CadType,
) -> Result<(), AllocError>
    ensures { OnOk result (pure_shape shape.new ≡ spec.carried (reference authorization.now (pure_type target.now)) (pure_shape shape.old)) }
{
    match shape {
        Shape::Link {
            authorization: own,
            ..
        } => {
            *own = authorization.clone()?;
            Ok(())
        }
        Shape::Plain(value) => carry_value(value, authorization, target),
        _ => Ok(()),
    }
}

/// A reference is of the authorization of the place's type from then on.
#[tactic(auto, using(crate::proofs::TransferLaws::carried_is, crate::proofs::TransferLaws::inside))]
fn carry(shape: &mut Shape, declared: &CadType) -> Result<(), AllocError>
    ensures { OnOk result (pure_shape shape.new ≡ spec.carried (pure_type declared.now) (pure_shape shape.old)) }
{
    match declared {
        CadType::Optional(content) => carry(shape, content),
        CadType::Reference(authorization, target) => carry_shape(shape, authorization, target),
        _ => Ok(()),
    }
}

/// What has come to a place of a type: the optionals that the type has more, and the authorization of a reference.
pub fn come_to(tree: &mut Tree, declared: &CadType) -> Result<(), AllocError>
    ensures { OnOk result (pure_tree tree.new ≡ spec.come_to (pure_type declared.now) (pure_tree tree.old)) }
{
    let optionals = rounds(&tree.shape, tree.optionals, declared)?;
    carry(&mut tree.shape, declared)?;
    tree.optionals = optionals;
    Ok(())
}

/// The optionals alone of what has come to a place of a type.
pub fn round(tree: &mut Tree, declared: &CadType) -> Result<(), AllocError>
    ensures { OnOk result (pure_tree tree.new ≡ spec.rounded (pure_type declared.now) (pure_tree tree.old)) }
{
    tree.optionals = rounds(&tree.shape, tree.optionals, declared)?;
    Ok(())
}
