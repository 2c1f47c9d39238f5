// Calls and built-in members, once their arguments have their values.
ghost use Rattle.std.specs.Prelude.{map};
ghost use Rattle.cad_evaluation.specs.Accounts.{account_in_value, on_account};
ghost use Rattle.cad_evaluation.specs.Adding as adding;
ghost use Rattle.cad_evaluation.specs.Builtins as members;
ghost use Rattle.cad_evaluation.specs.Callees.{Calls, Front};
ghost use Rattle.cad_evaluation.specs.Texts.{in_tree};
ghost use Rattle.cad_expression_leaves.specs.Code.Steps as steps;
ghost use Rattle.cad_expression_leaves.specs.Code.Steps.{GoesOn};
ghost use Rattle.cad_expression_leaves.specs.Views.{items_row, tree_in};
ghost use Rattle.cad_labels.specs.Laws.{HasNoneInRow};
ghost use Rattle.cad_expression_leaves.specs.Passed.{aimed};
ghost use Rattle.cad_expression_leaves.specs.Passed.{at_spot, receiver_of};
ghost use Rattle.cad_rows.specs.Views.{pure_row, pure_tree};
ghost use Rattle.cad_state.specs.Views.{CarriesOut, FindsAndCarriesOut};
ghost use Rattle.cad_syntax.specs.Types.{pure_type};
ghost use Rattle.cad_world.specs.State.{give, with_some};

use cad_builtins::is_read;
use cad_expression_leaves::{
    Callee, Evaluator, Receiver, aim, boxed, contracts_account, discard_row, function, member,
    settle_receiver,
};
use cad_outcomes::Stop;
use cad_rows::{Place, Tree};
use cad_state::RunState;
use cad_syntax::{Address, Basic, CadType, Name, TypeId};
use cad_types::Builtin;

/// A function outside contracts is called.
pub(crate) fn call_with<E: Evaluator>(
    evaluator: &E,
    state: &mut RunState,
    name: &Name,
    row: Result<Vec<Place>, Stop>,
) -> Result<Box<Tree>, Stop>
    requires { E.is_ready evaluator.now }
    ensures { GoesOn HasNoneInRow items_row tree_in (steps.called (E.calls evaluator.now) name.now) row state.old state.new result }
{
    match row {
        Ok(found) => call_function(evaluator, state, name, found),
        Err(stop) => Err(stop),
    }
}

/// A function outside contracts is called with these.
fn call_function<E: Evaluator>(
    evaluator: &E,
    state: &mut RunState,
    name: &Name,
    row: Vec<Place>,
) -> Result<Box<Tree>, Stop>
    requires { E.is_ready evaluator.now }
    ensures { FindsAndCarriesOut tree_in (steps.called (E.calls evaluator.now) name.now (pure_row row.items)) state.old state.new result }
{
    match state.tick() {
        Ok(()) => evaluator.call(state, Callee::Function(name), row),
        Err(stop) => {
            discard_row(row);
            Err(stop)
        }
    }
}

/// A built-in function is called, or a built-in member of a type.
#[inline(never)]
pub(crate) fn builtin_with(
    state: &mut RunState,
    builtin: Builtin,
    types: &[CadType],
    row: Result<Vec<Place>, Stop>,
) -> Result<Box<Tree>, Stop>
    ensures { GoesOn HasNoneInRow items_row tree_in (steps.built_in_called builtin (map pure_type types.now)) row state.old state.new result }
{
    match row {
        Ok(found) => boxed(call_builtin(state, builtin, types, found)),
        Err(stop) => Err(stop),
    }
}

/// A built-in function is called with these.
fn call_builtin(
    state: &mut RunState,
    builtin: Builtin,
    types: &[CadType],
    row: Vec<Place>,
) -> Result<Tree, Stop>
    ensures { CarriesOut pure_tree (steps.built_in_called builtin (map pure_type types.now) (pure_row row.items)) state.old state.new result }
{
    if is_read(builtin) {
        return function(state, builtin, types, row);
    }
    match state.tick() {
        Ok(()) => function(state, builtin, types, row),
        Err(stop) => {
            discard_row(row);
            Err(stop)
        }
    }
}

/// A function of a receiver is called.
pub(crate) fn call_method<E: Evaluator>(
    evaluator: &E,
    state: &mut RunState,
    name: &Name,
    receiver: &Receiver,
    row: Result<Vec<Place>, Stop>,
) -> Result<Box<Tree>, Stop>
    requires { E.is_ready evaluator.now }
    ensures { GoesOn HasNoneInRow items_row tree_in (steps.method_called (E.calls evaluator.now) name.now (receiver_of receiver.now)) row state.old state.new result }
{
    match row {
        Ok(found) => invoke(evaluator, state, name, receiver, found),
        Err(stop) => Err(stop),
    }
}

/// A unit, and then what a receiver is.
#[inline(never)]
fn aim_again(state: &mut RunState, receiver: &Receiver) -> Result<(TypeId, u64), Stop>
    ensures { FindsAndCarriesOut aimed (steps.aimed_again (receiver_of receiver.now)) state.old state.new result }
{
    match state.tick() {
        Ok(()) => aim(state, receiver),
        Err(stop) => Err(stop),
    }
}

/// A function of what a receiver is now is called with these.
fn invoke<E: Evaluator>(
    evaluator: &E,
    state: &mut RunState,
    name: &Name,
    receiver: &Receiver,
    row: Vec<Place>,
) -> Result<Box<Tree>, Stop>
    requires { E.is_ready evaluator.now }
    ensures { FindsAndCarriesOut tree_in (steps.method_called (E.calls evaluator.now) name.now (receiver_of receiver.now) (pure_row row.items)) state.old state.new result }
{
    match aim_again(state, receiver) {
        Ok(goal) => evaluator.call(
            state,
            Callee::Method {
                of: &goal.0,
                name,
                label: goal.1,
            },
            row,
        ),
        Err(stop) => {
            discard_row(row);
            Err(stop)
        }
    }
}

/// A built-in member of a receiver is called.
pub(crate) fn call_member<E: Evaluator>(
    evaluator: &E,
    state: &mut RunState,
    builtin: Builtin,
    types: &[CadType],
    receiver: &Receiver,
    row: Result<Vec<Place>, Stop>,
) -> Result<Box<Tree>, Stop>
    requires { E.is_ready evaluator.now }
    ensures { GoesOn HasNoneInRow items_row tree_in (steps.member_called (E.front evaluator.now) (E.calls evaluator.now) builtin (map pure_type types.now) (receiver_of receiver.now)) row state.old state.new result }
{
    match row {
        Ok(found) => call_member_with(evaluator, state, builtin, types, receiver, found),
        Err(stop) => Err(stop),
    }
}

/// The address of the account of whose contracts a receiver is the part; IllTyped of anything else.
#[inline(never)]
fn contracts_address(state: &mut RunState, receiver: &Receiver) -> Result<Address, Stop>
    ensures { FindsAndCarriesOut (λ a. a) (at_spot (receiver_of receiver.now) (λ spot. with_some (in_tree (account_in_value Basic.AccountContracts) spot.tree) give)) state.old state.new result }
{
    match settle_receiver(state, receiver) {
        Ok(settled) => contracts_account(state, settled),
        Err(stop) => Err(stop),
    }
}

/// A contract is added to the account of whose contracts a receiver is the part.
#[inline(never)]
fn add_contract<E: Evaluator>(
    evaluator: &E,
    state: &mut RunState,
    receiver: &Receiver,
    row: Vec<Place>,
) -> Result<Box<Tree>, Stop>
    requires { E.is_ready evaluator.now }
    ensures { FindsAndCarriesOut tree_in (at_spot (receiver_of receiver.now) (λ spot. on_account Basic.AccountContracts spot (adding.add (E.front evaluator.now) (E.calls evaluator.now) (pure_row row.items)))) state.old state.new result }
{
    match contracts_address(state, receiver) {
        Ok(address) => evaluator.add(state, address, row),
        Err(stop) => {
            discard_row(row);
            Err(stop)
        }
    }
}

/// A built-in member of a receiver is used with these, whatever calls mean.
#[inline(never)]
fn member_boxed(
    state: &mut RunState,
    builtin: Builtin,
    types: &[CadType],
    receiver: &Receiver,
    row: Vec<Place>,
) -> Result<Box<Tree>, Stop>
    ensures { (front : Front) (calls : Calls) → FindsAndCarriesOut tree_in (at_spot (receiver_of receiver.now) (λ spot. members.member front calls builtin (map pure_type types.now) spot (pure_row row.items))) state.old state.new result }
{
    boxed(member(state, builtin, types, receiver, row))
}

/// A built-in member of a receiver is used with these: `contracts.add` by what calls mean, any other whatever they mean.
fn use_member<E: Evaluator>(
    evaluator: &E,
    state: &mut RunState,
    builtin: Builtin,
    types: &[CadType],
    receiver: &Receiver,
    row: Vec<Place>,
) -> Result<Box<Tree>, Stop>
    requires { E.is_ready evaluator.now }
    ensures { FindsAndCarriesOut tree_in (at_spot (receiver_of receiver.now) (λ spot. members.member (E.front evaluator.now) (E.calls evaluator.now) builtin (map pure_type types.now) spot (pure_row row.items))) state.old state.new result }
{
    match builtin {
        Builtin::ContractsAdd => add_contract(evaluator, state, receiver, row),
        _ => member_boxed(state, builtin, types, receiver, row),
    }
}

/// A built-in member of a receiver is called with these.
fn call_member_with<E: Evaluator>(
    evaluator: &E,
    state: &mut RunState,
    builtin: Builtin,
    types: &[CadType],
    receiver: &Receiver,
    row: Vec<Place>,
) -> Result<Box<Tree>, Stop>
    requires { E.is_ready evaluator.now }
    ensures { FindsAndCarriesOut tree_in (steps.member_called (E.front evaluator.now) (E.calls evaluator.now) builtin (map pure_type types.now) (receiver_of receiver.now) (pure_row row.items)) state.old state.new result }
{
    match state.tick() {
        Ok(()) => use_member(evaluator, state, builtin, types, receiver, row),
        Err(stop) => {
            discard_row(row);
            Err(stop)
        }
    }
}
