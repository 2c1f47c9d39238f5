// What receivers are settled to, so that it is seen without a change of the state what they are.
ghost use Rattle.std.specs.Prelude.{◌≡◌, List, option_map};
ghost use Rattle.cad_receivers.specs.Settled.{settled, settled_target, settled_value};
ghost use Rattle.cad_receivers.specs.Views.{receiver_of, settled_of};
ghost use Rattle.cad_rows.specs.Views.{pure_shape};
ghost use Rattle.cad_state.specs.Views.{FindsAndCarriesOut, state_over};
ghost use Rattle.cad_syntax.specs.Types.{pure_type};
ghost use Rattle.cad_values.specs.Values.{pure_value};
ghost use Rattle.cad_world.specs.Receivers as spec;
ghost use Rattle.cad_world.specs.Rows.{plain};
ghost use Rattle.cad_world.specs.State.{Account};

use crate::receivers::{Receiver, Settled};
use crate::stored::settle_stored;
use cad_casts::{find_node, is_controller};
use cad_outcomes::{RunError, Stop};
use cad_rows::Shape;
use cad_run_accounts::know;
use cad_state::RunState;
use cad_syntax::Authorization;
use cad_values::{Reference, Target, Value};
use std::alloc::AllocError;

/// Settles a node that is met with these rights and seen in so many optionals.
fn settle_node<'a>(
    state: &mut RunState,
    rights: Option<&'a Authorization>,
    label: u64,
    sees: u64,
) -> Result<Settled<'a>, Stop>
    ensures { FindsAndCarriesOut settled_of (settled (spec.standing (option_map (λ own. own.now) rights.entry) label sees)) state.old state.new result }
{
    match find_node(state, label) {
        Ok(()) => Ok(Settled::Standing {
            rights,
            label,
            sees,
        }),
        Err(stop) => Err(stop),
    }
}

/// The rights with which a receiver is met.
fn lent_rights(rights: &Option<Authorization>) -> Option<&Authorization>
    ensures { option_map (λ own. own.now) result ≡ rights.now }
{
    match rights {
        Some(own) => Some(own),
        None => None,
    }
}

/// What a receiver is settled to, so that `look` sees what it is: what leads to storage to the node that stands there, which gets
/// one label more, anything else to itself. ReferenceInvalid where it is gone, DereferenceFailed where storage has no value of the
/// type, IllTyped where a receiver isn't a reference.
pub fn settle_receiver<'a>(
    state: &mut RunState,
    receiver: &'a Receiver,
) -> Result<Settled<'a>, Stop>
    ensures { FindsAndCarriesOut settled_of (settled (receiver_of receiver.now)) state.old state.new result }
{
    match receiver {
        Receiver::Standing {
            rights,
            label,
            sees,
        } => settle_node(state, lent_rights(rights), *label, *sees),
        Receiver::Through(shape) => settle_reference(state, shape),
        Receiver::Absent(nil) => Ok(Settled::Absent(nil)),
    }
}

/// What a reference is settled to, so that `look` sees what it leads to; see `settle_receiver`.
pub fn settle_reference<'a>(state: &mut RunState, shape: &'a Shape) -> Result<Settled<'a>, Stop>
    ensures { FindsAndCarriesOut settled_of (settled (spec.through (pure_shape shape.now))) state.old state.new result }
{
    match shape {
        Shape::Link { label, .. } => match find_node(state, *label) {
            Ok(()) => Ok(Settled::Through(shape)),
            Err(stop) => Err(stop),
        },
        Shape::Plain(value) => settle_value(state, shape, value),
        _ => Err(Stop::IllTyped),
    }
}

/// What a value is settled to. IllTyped where it is no reference.
fn settle_value<'a>(
    state: &mut RunState,
    shape: &'a Shape,
    value: &'a Value,
) -> Result<Settled<'a>, Stop>
    requires { pure_shape shape.now ≡ plain (pure_value value.now) }
    ensures { FindsAndCarriesOut settled_of (settled_value (pure_value value.now)) state.old state.new result }
{
    match value {
        Value::Reference(reference) => settle_target(state, shape, reference),
        _ => Err(Stop::IllTyped),
    }
}

/// The run has the account that a reference leads into, if it leads into one; else memory fails.
fn know_target(state: &mut RunState, to: &Target) -> Result<(), AllocError>
    ensures { (accounts : List Account) → state_over accounts state.new ≡ state_over accounts state.old }
{
    match to {
        Target::Stored { address, .. } => know(state, *address),
        Target::Controller { address, .. } => know(state, *address),
        _ => Ok(()),
    }
}

/// What a reference that isn't one to a node is settled to. Memory fails too where the run doesn't have the account that it leads into.
fn settle_target<'a>(
    state: &mut RunState,
    shape: &'a Shape,
    reference: &'a Reference,
) -> Result<Settled<'a>, Stop>
    requires { pure_shape shape.now ≡ plain (pure_value (Value.Reference reference.now)) }
    ensures { FindsAndCarriesOut settled_of (settled_target reference.now.authorization (pure_type reference.now.target) reference.now.to) state.old state.new result }
{
    match know_target(state, &reference.to) {
        Ok(()) => settle_known(state, shape, reference),
        Err(_) => Err(Stop::Memory),
    }
}

/// The same where the run has that account.
fn settle_known<'a>(
    state: &mut RunState,
    shape: &'a Shape,
    reference: &'a Reference,
) -> Result<Settled<'a>, Stop>
    requires { pure_shape shape.now ≡ plain (pure_value (Value.Reference reference.now)) }
    ensures { FindsAndCarriesOut settled_of (settled_target reference.now.authorization (pure_type reference.now.target) reference.now.to) state.old state.new result }
{
    match &reference.to {
        Target::Node(_) => Err(Stop::IllTyped),
        Target::Stored { address, path } => settle_stored(state, reference, *address, path),
        Target::Account(_) => Ok(Settled::Through(shape)),
        Target::Controller { address, id } => match is_controller(state, *address, *id) {
            Ok(true) => Ok(Settled::Through(shape)),
            Ok(false) => Err(Stop::Failed(RunError::ReferenceInvalid)),
            Err(_) => Err(Stop::Memory),
        },
    }
}
