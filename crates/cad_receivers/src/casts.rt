// Casts, of references to storage too.
ghost use Rattle.std.specs.Prelude.{◌≡◌, Option, IfOk, option_map};
ghost use Rattle.cad_evaluation.specs.Casts as spec;
ghost use Rattle.cad_outcomes.specs.Outcomes.{Gives};
ghost use Rattle.cad_receivers.specs.Code.Casts as code;
ghost use Rattle.cad_receivers.specs.Views.{at_spot, settled_of, spot_of};
ghost use Rattle.cad_rows.specs.Views.{pure_shape, pure_tree};
ghost use Rattle.cad_state.specs.Views.{FindsAndCarriesOut};
ghost use Rattle.cad_syntax.specs.Types.{pure_type, reference};
ghost use Rattle.cad_types.specs.Optionals as types;
ghost use Rattle.cad_values.specs.Values.{pure_value};
ghost use Rattle.cad_world.specs.Receivers.{through};
ghost use Rattle.cad_world.specs.State.{give};

use crate::looks::look;
use crate::receivers::{Settled, Spot};
use crate::settle::settle_reference;
use crate::trees::{optionals, shape};
use cad_access::in_optionals;
use cad_casts::{cast_from, own_cast, type_here};
use cad_grammar::CastKind;
use cad_outcomes::Stop;
use cad_rows::{Shape, Tree, discard_tree};
use cad_state::RunState;
use cad_syntax::{Authorization, CadType};
use cad_values::{Reference, Target, Value};
use std::alloc::{AllocError, Global};

/// The rights of a reference, if it leads to storage.
fn rights_to(reference: &Reference) -> Option<&Authorization>
    ensures { option_map (λ a. a.now) result ≡ code.rights_of_value (pure_value (Value.Reference reference.now)) }
{
    match &reference.to {
        Target::Stored { .. } => Some(&reference.authorization),
        _ => None,
    }
}

/// The rights of a value, if it is a reference to storage.
fn rights_of_value(value: &Value) -> Option<&Authorization>
    ensures { option_map (λ a. a.now) result ≡ code.rights_of_value (pure_value value.now) }
{
    match value {
        Value::Reference(reference) => rights_to(reference),
        _ => None,
    }
}

/// The rights of a reference to storage; None of any other shape.
fn stored_rights(shape: &Shape) -> Option<&Authorization>
    ensures { option_map (λ a. a.now) result ≡ code.stored_rights (pure_shape shape.now) }
{
    match shape {
        Shape::Plain(value) => rights_of_value(value),
        _ => None,
    }
}

/// The type of a reference with these rights to what is of a type.
fn reference_to(alloc: Global, rights: &Authorization, own: CadType) -> Result<CadType, AllocError>
    ensures { IfOk result (λ t. pure_type t ≡ reference rights.now (pure_type own)) }
{
    let target = Box::new(alloc, own)?;
    Ok(CadType::Reference(rights.clone()?, target))
}

/// The same in so many optionals.
fn reference_in(
    alloc: Global,
    rights: &Authorization,
    own: CadType,
    depth: u64,
) -> Result<CadType, Stop>
    ensures { Gives pure_type (give (types.optionals depth (reference rights.now (pure_type own)))) result }
{
    match reference_to(alloc, rights, own) {
        Ok(solid) => match in_optionals(alloc, depth, solid) {
            Ok(whole) => Ok(whole),
            Err(_) => Err(Stop::Memory),
        },
        Err(_) => Err(Stop::Memory),
    }
}

/// The type of a reference with these rights to a spot, in so many optionals.
fn type_of_spot(
    state: &RunState,
    spot: Spot<'_>,
    rights: &Authorization,
    depth: u64,
) -> Result<CadType, Stop>
    ensures { FindsAndCarriesOut pure_type (code.type_led rights.now depth (spot_of spot.entry)) state.now state.now result }
{
    match type_here(state, spot.optionals, spot.shape) {
        Ok(own) => reference_in(*state.making.allocator(), rights, own, depth),
        Err(stop) => Err(stop),
    }
}

/// The same of what is settled.
fn type_of_settled(
    state: &RunState,
    receiver: Settled<'_>,
    rights: &Authorization,
    depth: u64,
) -> Result<CadType, Stop>
    ensures { FindsAndCarriesOut pure_type (at_spot (settled_of receiver.entry) (code.type_led rights.now depth)) state.now state.now result }
{
    match look(state, receiver) {
        Ok(spot) => type_of_spot(state, spot, rights, depth),
        Err(stop) => Err(stop),
    }
}

/// The type of a reference of this shape with these rights, by what it leads to, in so many optionals.
fn type_led(
    state: &mut RunState,
    shape: &Shape,
    rights: &Authorization,
    depth: u64,
) -> Result<CadType, Stop>
    ensures { FindsAndCarriesOut pure_type (at_spot (through (pure_shape shape.now)) (code.type_led rights.now depth)) state.old state.new result }
{
    match settle_reference(state, shape) {
        Ok(settled) => type_of_settled(state, settled, rights, depth),
        Err(stop) => Err(stop),
    }
}

/// The type by which a reference to storage is cast, told of what is stored; None of any other value.
fn stored_type(state: &mut RunState, tree: &Tree) -> Result<Option<CadType>, Stop>
    ensures { FindsAndCarriesOut (option_map pure_type) (code.stored_type (pure_tree tree.now)) state.old state.new result }
{
    match stored_rights(shape(tree)) {
        Some(rights) => match type_led(state, shape(tree), rights, optionals(tree)) {
            Ok(own) => Ok(Some(own)),
            Err(stop) => Err(stop),
        },
        None => Ok(None),
    }
}

/// A value is cast to a type. A static cast hands it over; of a value that isn't of the type a failable one gives nil, and a
/// forced one is Failed with CastFailed. A reference to storage is of the type of what is stored, which is looked at. Failed with
/// ReferenceInvalid of a reference to what is gone, and with DereferenceFailed where storage has no value of the type.
pub fn cast(
    state: &mut RunState,
    kind: CastKind,
    wanted: &CadType,
    tree: Tree,
) -> Result<Tree, Stop>
    ensures { FindsAndCarriesOut pure_tree (spec.cast kind (pure_type wanted.now) (pure_tree tree)) state.old state.new result }
{
    match stored_type(state, &tree) {
        Ok(Some(own)) => cast_from(state, kind, wanted, own, tree),
        Ok(None) => own_cast(state, kind, wanted, tree),
        Err(stop) => {
            discard_tree(tree);
            Err(stop)
        }
    }
}
