// Built-in members that are read: used only where the receiver is met with the rights that they need.
ghost use Rattle.std.specs.Prelude.{◌≡◌, option_map, IfOk};
ghost use Rattle.cad_declarations.specs.Builtins.{needed as rights_needed};
ghost use Rattle.cad_evaluation.specs.Access.{has_right as is_enough};
ghost use Rattle.cad_evaluation.specs.Callees.{Calls, Front};
ghost use Rattle.cad_expression_leaves.specs.Code.Rights as spec;
ghost use Rattle.cad_expression_leaves.specs.Code.Steps as steps;
ghost use Rattle.cad_expression_leaves.specs.Views.{tree_in};
ghost use Rattle.cad_receivers.specs.Views.{receiver_of, settled_of};
ghost use Rattle.cad_rows.specs.Views.{pure_shape, pure_tree};
ghost use Rattle.cad_state.specs.Views.{FindsAndCarriesOut};
ghost use Rattle.cad_values.specs.Values.{pure_value};

use crate::values::memory;
use cad_access::has_right;
use cad_boxed_trees::boxed;
use cad_builtins::needed;
use cad_members::member;
use cad_outcomes::Stop;
use cad_receivers::{Receiver, Settled, look, settle_receiver};
use cad_rows::{Shape, Tree, discard_shape};
use cad_state::RunState;
use cad_syntax::Authorization;
use cad_types::Builtin;
use cad_values::Value;
use std::alloc::{AllocError, Global};

/// A built-in member of a receiver is read: IllTyped where the receiver is met without the rights that the member needs.
#[inline(never)]
pub fn read_member(
    state: &mut RunState,
    builtin: Builtin,
    receiver: &Receiver,
) -> Result<Box<Tree>, Stop>
    ensures { (front : Front) (calls : Calls) → FindsAndCarriesOut tree_in (steps.member_read front calls builtin (receiver_of receiver.now)) state.old state.new result }
{
    boxed(read_with_rights(state, builtin, receiver))
}

/// A built-in member of a receiver is read, where its rights are enough.
fn read_with_rights(
    state: &mut RunState,
    builtin: Builtin,
    receiver: &Receiver,
) -> Result<Tree, Stop>
    ensures { (front : Front) (calls : Calls) → FindsAndCarriesOut pure_tree (steps.member_read front calls builtin (receiver_of receiver.now)) state.old state.new result }
{
    match has_rights(memory(state), receiver, builtin) {
        Ok(true) => member(state, builtin, &[], receiver, Vec::new(memory(state))),
        Ok(false) => refuse(state, receiver),
        Err(_) => Err(Stop::Memory),
    }
}

/// A receiver that may not be used, and was settled: IllTyped.
fn refuse_settled(state: &RunState, receiver: Settled<'_>) -> Result<Tree, Stop>
    ensures { FindsAndCarriesOut pure_tree (spec.refused (settled_of receiver.entry)) state.now state.now result }
{
    match look(state, receiver) {
        Ok(_) => Err(Stop::IllTyped),
        Err(stop) => Err(stop),
    }
}

/// A receiver that may not be used: IllTyped, where it isn't gone.
fn refuse(state: &mut RunState, receiver: &Receiver) -> Result<Tree, Stop>
    ensures { FindsAndCarriesOut pure_tree (spec.refused (receiver_of receiver.now)) state.old state.new result }
{
    match settle_receiver(state, receiver) {
        Ok(settled) => refuse_settled(state, settled),
        Err(stop) => Err(stop),
    }
}

/// Whether a receiver is met with the rights that a built-in member needs.
fn has_rights(alloc: Global, receiver: &Receiver, builtin: Builtin) -> Result<bool, AllocError>
    ensures { IfOk result (λ is. is ≡ is_enough (spec.rights_of (receiver_of receiver.now)) (rights_needed builtin)) }
{
    let need = needed(alloc, builtin)?;
    let has = has_right(rights_of(receiver), &need);
    discard_authorization(need);
    Ok(has)
}

/// Lets rights go.
fn discard_authorization(authorization: Authorization) {
    discard_shape(Shape::Link {
        authorization,
        label: 0,
        sees: 0,
    })
}

/// The rights with which a receiver is met; none of what is owned.
fn rights_of(receiver: &Receiver) -> Option<&Authorization>
    ensures { option_map (λ own. own.now) result ≡ spec.rights_of (receiver_of receiver.now) }
{
    match receiver {
        Receiver::Standing { rights, .. } => lent_rights(rights),
        Receiver::Through(shape) => rights_in(shape),
        Receiver::Absent(_) => None,
    }
}

/// Rights, lent.
fn lent_rights(rights: &Option<Authorization>) -> Option<&Authorization>
    ensures { option_map (λ own. own.now) result ≡ rights.now }
{
    match rights {
        Some(own) => Some(own),
        None => None,
    }
}

/// The rights that a reference gives.
fn rights_in(shape: &Shape) -> Option<&Authorization>
    ensures { option_map (λ own. own.now) result ≡ spec.rights_in (pure_shape shape.now) }
{
    match shape {
        Shape::Link { authorization, .. } => Some(authorization),
        Shape::Plain(value) => rights_in_value(value),
        _ => None,
    }
}

/// The rights that a reference gives which doesn't lead to a node.
fn rights_in_value(value: &Value) -> Option<&Authorization>
    ensures { option_map (λ own. own.now) result ≡ spec.rights_in_value (pure_value value.now) }
{
    match value {
        Value::Reference(reference) => Some(&reference.authorization),
        _ => None,
    }
}
