// A transaction runs: stage behind stage.
ghost use Rattle.std.specs.Prelude.{◌≡◌, ◌+◌, OnOk, length};
ghost use Rattle.cad_declarations.specs.Views.{transaction_of};
ghost use Rattle.cad_evaluation.specs.Ending.{ended};
ghost use Rattle.cad_evaluation.specs.Evaluation.{calls_to};
ghost use Rattle.cad_labels.specs.Laws.{HasNoneInRow};
ghost use Rattle.cad_outcomes.specs.Outcomes.{no_value};
ghost use Rattle.cad_rows.specs.Views.{pure_row};
ghost use Rattle.cad_runs.specs.Run as spec;
ghost use Rattle.cad_state.specs.Views.{CarriesOut, FindsAndCarriesOut, frame_of};
ghost use Rattle.cad_command_runs.specs.Code.Transactions as parts;
ghost use Rattle.cad_transaction_ends.specs.OverStorable.{FindsAndCarriesOutOverStorable};
ghost use Rattle.cad_world.specs.Rows.{empty_places, join};

use crate::calling::call;
use crate::entries::run_entry;
use cad_calls::{Callees, FrontEnd, Level, is_unnamed, keep_values, test_conditions};
use cad_declarations::TypedTransaction;
use cad_making::{end_variables, look_out};
use cad_outcomes::Stop;
use cad_rows::{Place, discard_place, discard_row};
use cad_state::{Call, RunState, discard_call};
use cad_syntax::Address;
use cad_transaction_ends::{judge_stored, with_signers};
use std::alloc::{AllocError, Global};

/// Places of fields, which aren't set, come before the arguments.
fn add_fields(arguments: &mut Vec<Place>, fields: usize) -> Result<(), AllocError>
    ensures { OnOk result (pure_row arguments.new.items ≡ join (empty_places fields) (pure_row arguments.old.items)) }
{
    for _ in 0..fields {
        match arguments.insert(0, Place::Empty) {
            Ok(()) => {}
            Err(refused) => {
                discard_place(refused.value);
                return Err(AllocError);
            }
        }
    }
    Ok(())
}

/// What runs outside of types, over these variables. It takes no memory.
fn transaction_call(alloc: Global, variables: Vec<Place>) -> Call
    ensures { frame_of result ≡ spec.transaction_frame (pure_row variables.items) }
{
    Call {
        within: None,
        own: None,
        initializes: false,
        variables,
        before: Vec::new(alloc),
        result: Vec::new(alloc),
    }
}

/// Code outside of types begins over these variables. It doesn't count as a call. Where memory fails, they are let go.
#[tactic(auto, using(cad_making::proofs::Frames::call_added))]
fn begin_over(variables: Vec<Place>, state: &mut RunState) -> Result<(), Stop>
    ensures { CarriesOut no_value (parts.begun_over (pure_row variables.items)) state.old state.new result }
{
    let call = transaction_call(*state.making.allocator(), variables);
    match state.calls.push(call) {
        Ok(()) => Ok(()),
        Err(refused) => {
            discard_call(refused.value);
            Err(Stop::Memory)
        }
    }
}

/// A transaction begins: its variables are its fields, which aren't set, and the arguments.
fn begin_transaction(
    transaction: &TypedTransaction,
    arguments: Vec<Place>,
    state: &mut RunState,
) -> Result<(), Stop>
    ensures { CarriesOut no_value (spec.begin_transaction (transaction_of transaction.now) (pure_row arguments.items)) state.old state.new result }
{
    let mut variables = arguments;
    match add_fields(&mut variables, transaction.fields.len()) {
        Ok(()) => begin_over(variables, state),
        Err(_) => {
            discard_row(variables);
            Err(Stop::Memory)
        }
    }
}

/// The signers become variables, and `prepare` runs over them.
fn run_over_signers<C: Callees>(
    transaction: &TypedTransaction,
    signers: &[Address],
    turns: u64,
    callees: &C,
    state: &mut RunState,
) -> Result<(), Stop>
    requires { C.is_ready callees.now }
    ensures { FindsAndCarriesOut no_value (parts.over_signers (C.front callees.now) (C.calls callees.now) turns (transaction_of transaction.now) signers.now) state.old state.new result }
{
    match with_signers(transaction.signers.as_slice(), signers, state) {
        Ok(()) => run_entry(&transaction.prepare, turns, callees, state),
        Err(stop) => Err(stop),
    }
}

/// The variables behind fields and parameters end.
fn end_signers(transaction: &TypedTransaction, state: &mut RunState) -> Result<(), Stop>
    ensures { CarriesOut no_value (ended (length (transaction_of transaction.now).fields + length (transaction_of transaction.now).parameters)) state.old state.new result }
{
    end_variables(
        state,
        transaction.fields.len() + transaction.parameters.len(),
    )
}

/// `prepare` runs over the signers, which end with it.
fn prepare<C: Callees>(
    transaction: &TypedTransaction,
    signers: &[Address],
    turns: u64,
    callees: &C,
    state: &mut RunState,
) -> Result<(), Stop>
    requires { C.is_ready callees.now }
    ensures { FindsAndCarriesOut no_value (spec.prepared (C.front callees.now) (C.calls callees.now) turns (transaction_of transaction.now) signers.now) state.old state.new result }
{
    match run_over_signers(transaction, signers, turns, callees, state) {
        Ok(()) => end_signers(transaction, state),
        Err(stop) => Err(stop),
    }
}

/// A transaction begins, and `prepare` runs.
fn run_to_prepare<C: Callees>(
    transaction: &TypedTransaction,
    arguments: Vec<Place>,
    signers: &[Address],
    turns: u64,
    callees: &C,
    state: &mut RunState,
) -> Result<(), Stop>
    requires { C.is_ready callees.now }
    ensures { HasNoneInRow (pure_row arguments.items) → FindsAndCarriesOut no_value (parts.to_prepare (C.front callees.now) (C.calls callees.now) turns (transaction_of transaction.now) (pure_row arguments.items) signers.now) state.old state.new result }
{
    match begin_transaction(transaction, arguments, state) {
        Ok(()) => prepare(transaction, signers, turns, callees, state),
        Err(stop) => Err(stop),
    }
}

/// The same, and the preconditions.
fn run_to_pre<C: Callees>(
    transaction: &TypedTransaction,
    arguments: Vec<Place>,
    signers: &[Address],
    turns: u64,
    callees: &C,
    state: &mut RunState,
) -> Result<(), Stop>
    requires { C.is_ready callees.now }
    ensures { HasNoneInRow (pure_row arguments.items) → FindsAndCarriesOut no_value (parts.to_pre (C.front callees.now) (C.calls callees.now) turns (transaction_of transaction.now) (pure_row arguments.items) signers.now) state.old state.new result }
{
    match run_to_prepare(transaction, arguments, signers, turns, callees, state) {
        Ok(()) => test_conditions(transaction.pre.as_slice(), callees, state),
        Err(stop) => Err(stop),
    }
}

/// The same, and the values of `before`.
fn run_to_before<C: Callees>(
    transaction: &TypedTransaction,
    arguments: Vec<Place>,
    signers: &[Address],
    turns: u64,
    callees: &C,
    state: &mut RunState,
) -> Result<(), Stop>
    requires { C.is_ready callees.now }
    ensures { HasNoneInRow (pure_row arguments.items) → FindsAndCarriesOut no_value (parts.to_before (C.front callees.now) (C.calls callees.now) turns (transaction_of transaction.now) (pure_row arguments.items) signers.now) state.old state.new result }
{
    match run_to_pre(transaction, arguments, signers, turns, callees, state) {
        Ok(()) => keep_values(transaction.before.as_slice(), callees, state),
        Err(stop) => Err(stop),
    }
}

/// The same, and `execute`.
fn run_to_execute<C: Callees>(
    transaction: &TypedTransaction,
    arguments: Vec<Place>,
    signers: &[Address],
    turns: u64,
    callees: &C,
    state: &mut RunState,
) -> Result<(), Stop>
    requires { C.is_ready callees.now }
    ensures { HasNoneInRow (pure_row arguments.items) → FindsAndCarriesOut no_value (parts.to_execute (C.front callees.now) (C.calls callees.now) turns (transaction_of transaction.now) (pure_row arguments.items) signers.now) state.old state.new result }
{
    match run_to_before(transaction, arguments, signers, turns, callees, state) {
        Ok(()) => run_entry(&transaction.execute, turns, callees, state),
        Err(stop) => Err(stop),
    }
}

/// The same, and the postconditions.
fn run_to_post<C: Callees>(
    transaction: &TypedTransaction,
    arguments: Vec<Place>,
    signers: &[Address],
    turns: u64,
    callees: &C,
    state: &mut RunState,
) -> Result<(), Stop>
    requires { C.is_ready callees.now }
    ensures { HasNoneInRow (pure_row arguments.items) → FindsAndCarriesOut no_value (parts.to_post (C.front callees.now) (C.calls callees.now) turns (transaction_of transaction.now) (pure_row arguments.items) signers.now) state.old state.new result }
{
    match run_to_execute(transaction, arguments, signers, turns, callees, state) {
        Ok(()) => test_conditions(transaction.post.as_slice(), callees, state),
        Err(stop) => Err(stop),
    }
}

/// The same, and the end of fields and parameters; IllTyped where a resource stands in one.
fn run_to_end<C: Callees>(
    transaction: &TypedTransaction,
    arguments: Vec<Place>,
    signers: &[Address],
    turns: u64,
    callees: &C,
    state: &mut RunState,
) -> Result<(), Stop>
    requires { C.is_ready callees.now }
    ensures { HasNoneInRow (pure_row arguments.items) → FindsAndCarriesOut no_value (parts.to_end (C.front callees.now) (C.calls callees.now) turns (transaction_of transaction.now) (pure_row arguments.items) signers.now) state.old state.new result }
{
    match run_to_post(transaction, arguments, signers, turns, callees, state) {
        Ok(()) => look_out(state),
        Err(stop) => Err(stop),
    }
}

/// The same, and what stands in accounts is judged.
fn run_stages<C: Callees>(
    transaction: &TypedTransaction,
    arguments: Vec<Place>,
    signers: &[Address],
    turns: u64,
    callees: &C,
    state: &mut RunState,
) -> Result<(), Stop>
    requires { C.is_ready callees.now }
    ensures { HasNoneInRow (pure_row arguments.items) → FindsAndCarriesOutOverStorable no_value (spec.run_transaction (C.front callees.now) (C.calls callees.now) turns (transaction_of transaction.now) (pure_row arguments.items) signers.now) state.old state.new result }
{
    match run_to_end(transaction, arguments, signers, turns, callees, state) {
        Ok(()) => judge_stored(state),
        Err(stop) => Err(stop),
    }
}

/// A transaction runs on its arguments: `prepare` over the signers, which end with it, `pre`, the values of `before`, `execute` and
/// `post`; then what stands in accounts is judged. Errors are those of its bodies, 108 where a condition doesn't hold, 133 where
/// a value in an account can't be stored, and 123 where one is too high. No memory of arguments of which a node has a label, and
/// where an account is needed that the run doesn't have.
pub fn run_transaction<E: FrontEnd>(
    fuel: u64,
    end: &E,
    transaction: &TypedTransaction,
    arguments: Vec<Place>,
    signers: &[Address],
    state: &mut RunState,
) -> Result<(), Stop>
    ensures { FindsAndCarriesOutOverStorable no_value (spec.run_transaction (E.front end.now) (calls_to (E.front end.now) fuel) fuel (transaction_of transaction.now) (pure_row arguments.items) signers.now) state.old state.new result }
{
    if is_unnamed(arguments.as_slice()) {
        let level = Level {
            fuel,
            end,
            run: call,
        };
        return run_stages(transaction, arguments, signers, fuel, &level, state);
    }
    discard_row(arguments);
    Err(Stop::Memory)
}
