// Built-in members of values.
ghost use Rattle.std.specs.Prelude.{map};
ghost use Rattle.cad_evaluation.specs.Builtins as spec;
ghost use Rattle.cad_evaluation.specs.Callees.{Calls, Front};
ghost use Rattle.cad_receivers.specs.Views.{at_spot, receiver_of, settled_of};
ghost use Rattle.cad_rows.specs.Views.{pure_row, pure_tree};
ghost use Rattle.cad_state.specs.Views.{FindsAndCarriesOut};
ghost use Rattle.cad_syntax.specs.Types.{pure_type};
ghost use Rattle.cad_value_operations.specs.Code.Members as code;
ghost use Rattle.cad_world.specs.Trees.{row_weight};

use cad_containers::container_member;
use cad_outcomes::Stop;
use cad_receivers::{Receiver, Settled, settle_receiver, uuid};
use cad_rows::{Place, Tree, discard_row};
use cad_services::service;
use cad_state::RunState;
use cad_syntax::CadType;
use cad_types::Builtin;
use cad_value_operations::{Group, account, group_of, owner, pay, read_member, search_cost};

/// A member of what a receiver is now that was settled, with its charge. Nothing else is changed.
fn paid_member(
    state: &mut RunState,
    group: Group,
    receiver: Settled<'_>,
    row: &[Place],
) -> Result<Tree, Stop>
    ensures { FindsAndCarriesOut pure_tree (at_spot (settled_of receiver.entry) (λ spot. spec.paid_for 0 (code.spot_member group spot (pure_row row.now)))) state.old state.new result }
{
    match read_member(state, group, receiver, row) {
        Ok(tree) => pay(state, 0, tree),
        Err(stop) => Err(stop),
    }
}

/// A member that only reads what a receiver is now that was settled.
fn member_read(
    state: &mut RunState,
    group: Group,
    receiver: Settled<'_>,
    row: &[Place],
) -> Result<Tree, Stop>
    ensures { FindsAndCarriesOut pure_tree (at_spot (settled_of receiver.entry) (λ spot. code.read_by spot (pure_row row.now) group)) state.old state.new result }
{
    match group {
        Group::Identity => uuid(state, receiver),
        Group::Owner => owner(state, receiver),
        Group::Account => account(state, receiver),
        other => paid_member(state, other, receiver, row),
    }
}

/// A member of a container that searches nothing, with its charge.
fn of_container(
    state: &mut RunState,
    builtin: Builtin,
    receiver: Settled<'_>,
    arguments: Vec<Place>,
) -> Result<Tree, Stop>
    ensures { FindsAndCarriesOut pure_tree (at_spot (settled_of receiver.entry) (λ spot. spec.paid_for 0 (spec.plain_member builtin spot (pure_row arguments.items)))) state.old state.new result }
{
    match container_member(state, builtin, receiver, arguments) {
        Ok(tree) => pay(state, 0, tree),
        Err(stop) => Err(stop),
    }
}

/// A member of an array that searches an element, with its charge.
fn of_search(
    state: &mut RunState,
    builtin: Builtin,
    receiver: Settled<'_>,
    arguments: Vec<Place>,
) -> Result<Tree, Stop>
    ensures { FindsAndCarriesOut pure_tree (at_spot (settled_of receiver.entry) (λ spot. spec.paid_for (row_weight spot.tree.parts) (spec.plain_member builtin spot (pure_row arguments.items)))) state.old state.new result }
{
    match search_cost(state, receiver) {
        Ok(cost) => match container_member(state, builtin, receiver, arguments) {
            Ok(tree) => pay(state, cost, tree),
            Err(stop) => Err(stop),
        },
        Err(stop) => {
            discard_row(arguments);
            Err(stop)
        }
    }
}

/// What a built-in member gives of what a receiver is now that was settled.
fn member_settled(
    state: &mut RunState,
    builtin: Builtin,
    types: &[CadType],
    receiver: Settled<'_>,
    arguments: Vec<Place>,
) -> Result<Tree, Stop>
    ensures { (front : Front) (calls : Calls) → FindsAndCarriesOut pure_tree (at_spot (settled_of receiver.entry) (λ spot. spec.member front calls builtin (map (λ t. pure_type t) types.now) spot (pure_row arguments.items))) state.old state.new result }
{
    match group_of(builtin) {
        Group::Service => service(state, builtin, types, receiver, arguments),
        Group::Search => of_search(state, builtin, receiver, arguments),
        Group::Container => of_container(state, builtin, receiver, arguments),
        other => {
            let given = member_read(state, other, receiver, arguments.as_slice());
            discard_row(arguments);
            given
        }
    }
}

/// What a built-in member gives of what a receiver is now, with its charge, whatever calls mean and whatever the front end is:
/// ReferenceInvalid where the receiver is gone, DereferenceFailed where storage has no value of its type, and the errors of the
/// member; IllTyped where the receiver or an argument isn't what the member is for. Of `contracts.add` and `contracts.update` it
/// gives Memory.
pub fn member(
    state: &mut RunState,
    builtin: Builtin,
    types: &[CadType],
    receiver: &Receiver,
    arguments: Vec<Place>,
) -> Result<Tree, Stop>
    ensures { (front : Front) (calls : Calls) → FindsAndCarriesOut pure_tree (at_spot (receiver_of receiver.now) (λ spot. spec.member front calls builtin (map (λ t. pure_type t) types.now) spot (pure_row arguments.items))) state.old state.new result }
{
    match settle_receiver(state, receiver) {
        Ok(settled) => member_settled(state, builtin, types, settled, arguments),
        Err(stop) => {
            discard_row(arguments);
            Err(stop)
        }
    }
}
