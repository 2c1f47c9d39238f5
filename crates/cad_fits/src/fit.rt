// Whether a value is of a type.
ghost use Rattle.std.specs.Prelude.{◌≡◌, ◌↔◌, IsTrue, IfOk, map};
ghost use Rattle.cad_shapes.specs.Held.{shapes_of};
ghost use Rattle.cad_syntax.specs.Types.{pure_type};
ghost use Rattle.cad_values.specs.Fits.{Fits, FitsContract};
ghost use Rattle.cad_values.specs.Forms as forms;
ghost use Rattle.cad_values.specs.Values.{pure_value, pure_field, fields_of};
ghost use Rattle.cad_fits.specs.Tests as spec;

use crate::held::{fields_fit, holds};
use crate::keys::apart;
use crate::part::{is_below, is_contract_of};
use cad_shapes::DeclaredShapes;
use cad_syntax::{CadType, TypeId};
use cad_values::{CompositeField, Value};
use std::alloc::{AllocError, Global};

/// Whether a value is of a type, but for that keys differ.
fn fits_but_keys(
    alloc: Global,
    shapes: &DeclaredShapes,
    value: &Value,
    want: &CadType,
) -> Result<bool, AllocError>
    ensures { IfOk result (λ b. b ≡ spec.fits (shapes_of shapes.now) (pure_value value.now) (pure_type want.now)) }
{
    if !is_below(alloc, shapes, value, want)? {
        return Ok(false);
    }
    holds(alloc, value, shapes)
}

/// Whether a value is of a type.
pub fn fits(
    alloc: Global,
    shapes: &DeclaredShapes,
    value: &Value,
    want: &CadType,
) -> Result<bool, AllocError>
    ensures { IfOk result (λ b. IsTrue b ↔ Fits (shapes_of shapes.now) (pure_value value.now) (pure_type want.now)) }
{
    let own = fits_but_keys(alloc, shapes, value, want)?;
    if !own {
        return Ok(false);
    }
    let differ = apart(alloc, value)?;
    Ok(differ)
}

/// Whether a composite is the value of a contract, but for that keys differ.
fn contract_fits(
    alloc: Global,
    shapes: &DeclaredShapes,
    id: &TypeId,
    identity: u64,
    fields: &[CompositeField],
) -> Result<bool, AllocError>
    ensures { IfOk result (λ b. b ≡ spec.contract_fits (shapes_of shapes.now) id.now identity (fields_of (map pure_field fields.now))) }
{
    match shapes.find(id) {
        None => Ok(false),
        Some(shape) => {
            if !is_contract_of(shape, identity) {
                return Ok(false);
            }
            fields_fit(alloc, fields, shapes, shape.fields.as_slice())
        }
    }
}

/// Whether a value is that of a contract, but for that keys differ.
fn fits_contract_but_keys(
    alloc: Global,
    shapes: &DeclaredShapes,
    value: &Value,
    id: &TypeId,
) -> Result<bool, AllocError>
    ensures { IfOk result (λ b. b ≡ spec.fits_contract (shapes_of shapes.now) (pure_value value.now) id.now) }
{
    match value {
        Value::Composite {
            id: own,
            identity,
            fields,
        } => {
            if !own.same(id) {
                return Ok(false);
            }
            contract_fits(alloc, shapes, own, *identity, fields.as_slice())
        }
        _ => Ok(false),
    }
}

/// Whether a value is that of a contract.
pub fn fits_contract(
    alloc: Global,
    shapes: &DeclaredShapes,
    value: &Value,
    id: &TypeId,
) -> Result<bool, AllocError>
    ensures { IfOk result (λ b. IsTrue b ↔ FitsContract (shapes_of shapes.now) (pure_value value.now) id.now) }
{
    let own = fits_contract_but_keys(alloc, shapes, value, id)?;
    if !own {
        return Ok(false);
    }
    let differ = apart(alloc, value)?;
    Ok(differ)
}
