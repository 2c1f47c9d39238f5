// What receivers are now.
ghost use Rattle.std.specs.Prelude.{◌≡◌, IsTrue, Some, None, option_map};
ghost use Rattle.cad_receivers.specs.Views.{settled_of, spot_of};
ghost use Rattle.cad_rows.specs.Views.{pure_shape, pure_tree};
ghost use Rattle.cad_state.specs.Views.{FindsAndCarriesOut};
ghost use Rattle.cad_values.specs.Values.{pure_value, nil};
ghost use Rattle.cad_world.specs.Receivers as spec;
ghost use Rattle.cad_world.specs.Rows.{plain, stop};

use crate::receivers::{Settled, Spot};
use cad_casts::is_controller;
use cad_outcomes::{RunError, Stop};
use cad_rows::{Shape, Tree};
use cad_state::RunState;
use cad_syntax::Authorization;
use cad_values::{Reference, Target, Value};

/// A node of this tree, seen in so many optionals.
fn spot_of_tree<'a>(
    rights: Option<&'a Authorization>,
    label: u64,
    sees: u64,
    tree: &'a Tree,
) -> Spot<'a>
    ensures { spot_of result ≡ (record { rights = option_map (λ own. own.now) rights.entry; label = Some label; tree = record (pure_tree tree.now) { optionals = sees } }) }
{
    Spot {
        rights,
        label: Some(label),
        optionals: sees,
        shape: &tree.shape,
        parts: tree.parts.as_slice(),
    }
}

/// The node with a label, met with these rights and seen in so many optionals.
fn spot_at<'a>(
    state: &'a RunState,
    rights: Option<&'a Authorization>,
    label: u64,
    sees: u64,
) -> Result<Spot<'a>, Stop>
    ensures { FindsAndCarriesOut spot_of (spec.spot_at (option_map (λ own. own.now) rights.entry) label sees) state.now state.now result }
{
    match state.node(label) {
        Some(node) => Ok(spot_of_tree(rights, label, sees, node.tree)),
        None => Err(Stop::Memory),
    }
}

/// A reference of this shape, which is what it leads to itself: it has no label.
fn reference_spot<'a>(shape: &'a Shape, rights: &'a Authorization) -> Spot<'a>
    ensures { spot_of result ≡ record { rights = Some rights.now; label = None; tree = record { optionals = 0; shape = pure_shape shape.now; parts = stop } } }
{
    Spot {
        rights: Some(rights),
        label: None,
        optionals: 0,
        shape,
        parts: &[],
    }
}

/// What a reference leads to that is no reference to a node: an account and a controller are the reference itself.
/// ReferenceInvalid where there is no such controller. Memory of what leads to storage: it is settled to a node.
fn spot_by<'a>(
    state: &'a RunState,
    shape: &'a Shape,
    reference: &'a Reference,
) -> Result<Spot<'a>, Stop>
    requires { pure_shape shape.now ≡ plain (pure_value (Value.Reference reference.now)) }
    ensures { FindsAndCarriesOut spot_of (spec.deref (pure_shape shape.now)) state.now state.now result }
{
    match &reference.to {
        Target::Node(_) => Err(Stop::IllTyped),
        Target::Stored { .. } => Err(Stop::Memory),
        Target::Account(_) => Ok(reference_spot(shape, &reference.authorization)),
        Target::Controller { address, id } => match is_controller(state, *address, *id) {
            Ok(true) => Ok(reference_spot(shape, &reference.authorization)),
            Ok(false) => Err(Stop::Failed(RunError::ReferenceInvalid)),
            Err(_) => Err(Stop::Memory),
        },
    }
}

/// What a value leads to.
fn plain_spot<'a>(state: &'a RunState, shape: &'a Shape, value: &'a Value) -> Result<Spot<'a>, Stop>
    requires { pure_shape shape.now ≡ plain (pure_value value.now) }
    ensures { FindsAndCarriesOut spot_of (spec.deref (pure_shape shape.now)) state.now state.now result }
{
    match value {
        Value::Reference(reference) => spot_by(state, shape, reference),
        _ => Err(Stop::IllTyped),
    }
}

/// What a reference leads to. It has to be settled.
fn deref<'a>(state: &'a RunState, shape: &'a Shape) -> Result<Spot<'a>, Stop>
    ensures { FindsAndCarriesOut spot_of (spec.deref (pure_shape shape.now)) state.now state.now result }
{
    match shape {
        Shape::Link {
            authorization,
            label,
            sees,
        } => spot_at(state, Some(authorization), *label, *sees),
        Shape::Plain(value) => plain_spot(state, shape, value),
        _ => Err(Stop::IllTyped),
    }
}

/// Whether a value is nil.
fn is_nil_value(value: &Value) -> bool
    ensures { IsTrue result → pure_value value.now ≡ nil }
{
    matches!(value, Value::Nil)
}

/// Whether a shape is nil.
fn is_nil(shape: &Shape) -> bool
    ensures { IsTrue result → pure_shape shape.now ≡ plain nil }
{
    match shape {
        Shape::Plain(value) => is_nil_value(value),
        _ => false,
    }
}

/// Nil, which has no label.
fn nil_spot<'a>(nil: &'a Shape) -> Result<Spot<'a>, Stop>
    ensures { (state : RunState) → FindsAndCarriesOut spot_of (spec.look_at spec.absent) state state result }
{
    if is_nil(nil) {
        Ok(Spot {
            rights: None,
            label: None,
            optionals: 0,
            shape: nil,
            parts: &[],
        })
    } else {
        Err(Stop::Memory)
    }
}

/// What a receiver is now that was settled. Memory where its node has moved since.
pub fn look<'a>(state: &'a RunState, receiver: Settled<'a>) -> Result<Spot<'a>, Stop>
    ensures { FindsAndCarriesOut spot_of (spec.look_at (settled_of receiver.entry)) state.now state.now result }
{
    match receiver {
        Settled::Standing {
            rights,
            label,
            sees,
        } => spot_at(state, rights, label, sees),
        Settled::Through(shape) => deref(state, shape),
        Settled::Absent(nil) => nil_spot(nil),
    }
}
