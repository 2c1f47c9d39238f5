// Built-in members of accounts, storage, capabilities and controllers.
ghost use Rattle.std.specs.Prelude.{List, map};
ghost use Rattle.cad_evaluation.specs.Accounts.{on_account};
ghost use Rattle.cad_evaluation.specs.Callees.{Calls, Front};
ghost use Rattle.cad_evaluation.specs.Services as spec;
ghost use Rattle.cad_receivers.specs.Views.{at_spot, settled_of};
ghost use Rattle.cad_rows.specs.Views.{pure_row, pure_tree};
ghost use Rattle.cad_services.specs.Code.Groups as groups;
ghost use Rattle.cad_services.specs.Code.Services as code;
ghost use Rattle.cad_state.specs.Views.{FindsAndCarriesOut};
ghost use Rattle.cad_syntax.specs.Types.{PureType, pure_type};
ghost use Rattle.cad_types.specs.declared.builtin.Builtin as builtins;

use crate::accounts::{address_of, read_address, read_part};
use crate::capabilities::capabilities_member;
use crate::controllers::controller_member;
use crate::groups::{Group, Held, group_of, part_of};
use crate::storage::storage_member;
use crate::values::value_member;
use cad_outcomes::Stop;
use cad_receivers::Settled;
use cad_rows::{Place, Tree, discard_row};
use cad_run_accounts::know;
use cad_state::RunState;
use cad_syntax::{Address, CadType};
use cad_types::Builtin;

/// A member that asks for the address of an account.
fn held_member(
    state: &mut RunState,
    held: Held,
    types: &[CadType],
    arguments: Vec<Place>,
    address: Address,
) -> Result<Tree, Stop>
    ensures { FindsAndCarriesOut pure_tree (code.held_member held (map (λ t. pure_type t) types.now) (pure_row arguments.items) address) state.old state.new result }
{
    match held {
        Held::Storage(member) => storage_member(state, member, types, arguments, address),
        Held::Capabilities(member) => {
            let given = capabilities_member(state, member, types, arguments.as_slice(), address);
            discard_row(arguments);
            given
        }
    }
}

/// The same, once the run has the account; memory fails where it doesn't.
fn known_member(
    state: &mut RunState,
    held: Held,
    types: &[CadType],
    arguments: Vec<Place>,
    address: Address,
) -> Result<Tree, Stop>
    ensures { FindsAndCarriesOut pure_tree (code.held_member held (map (λ t. pure_type t) types.now) (pure_row arguments.items) address) state.old state.new result }
{
    match know(state, address) {
        Ok(()) => held_member(state, held, types, arguments, address),
        Err(_) => {
            discard_row(arguments);
            Err(Stop::Memory)
        }
    }
}

/// A member of the account, or of a part of it, that a receiver that was settled is.
fn of_account(
    state: &mut RunState,
    held: Held,
    types: &[CadType],
    receiver: Settled<'_>,
    arguments: Vec<Place>,
) -> Result<Tree, Stop>
    ensures { FindsAndCarriesOut pure_tree (at_spot (settled_of receiver.entry) (λ spot. on_account (groups.part_of held) spot (code.held_member held (map (λ t. pure_type t) types.now) (pure_row arguments.items)))) state.old state.new result }
{
    match address_of(state, part_of(held), receiver) {
        Ok(address) => known_member(state, held, types, arguments, address),
        Err(stop) => {
            discard_row(arguments);
            Err(stop)
        }
    }
}

/// A member of anything else that a receiver that was settled is.
fn of_other(
    state: &mut RunState,
    group: Group,
    receiver: Settled<'_>,
    row: &[Place],
) -> Result<Tree, Stop>
    ensures { (front : Front) (calls : Calls) (b : builtins.Builtin) (types : List PureType) → FindsAndCarriesOut pure_tree (at_spot (settled_of receiver.entry) (λ spot. code.by_group front calls b types spot (pure_row row.now) group)) state.old state.new result }
{
    match group {
        Group::Address => read_address(state, receiver),
        Group::Part { whole, part } => read_part(state, whole, part, receiver),
        Group::Controller(member) => controller_member(state, member, row, receiver),
        Group::Value(member) => value_member(state, member, receiver),
        Group::Later | Group::Held(_) => Err(Stop::Memory),
    }
}

/// What a built-in member of accounts, storage, capabilities or controllers gives of what a receiver that was settled is now,
/// whatever calls mean and whatever the front end is: the errors of the member, ReferenceInvalid where the receiver or the
/// controller is gone, IllTyped where the receiver, a type or an argument isn't what the member is for. Of `contracts.add` and
/// `contracts.update` it gives Memory.
pub fn service(
    state: &mut RunState,
    builtin: Builtin,
    types: &[CadType],
    receiver: Settled<'_>,
    arguments: Vec<Place>,
) -> Result<Tree, Stop>
    ensures { (front : Front) (calls : Calls) → FindsAndCarriesOut pure_tree (at_spot (settled_of receiver.entry) (λ spot. spec.service front calls builtin (map (λ t. pure_type t) types.now) spot (pure_row arguments.items))) state.old state.new result }
{
    match group_of(builtin) {
        Group::Held(held) => of_account(state, held, types, receiver, arguments),
        other => {
            let given = of_other(state, other, receiver, arguments.as_slice());
            discard_row(arguments);
            given
        }
    }
}
