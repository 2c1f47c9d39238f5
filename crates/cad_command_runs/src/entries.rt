// `prepare` and `execute`: they count as calls.
ghost use Rattle.std.specs.Prelude.{Ok, option_map};
ghost use Rattle.cad_declarations.specs.Views.{block_of};
ghost use Rattle.cad_calls.specs.Passed.{flow_of, tree_in};
ghost use Rattle.cad_outcomes.specs.Outcomes.{no_value};
ghost use Rattle.cad_runs.specs.Run as spec;
ghost use Rattle.cad_state.specs.Views.{CarriesOut, FindsAndCarriesOut};
ghost use Rattle.cad_command_runs.specs.Code.Transactions as parts;

use cad_calls::{Callees, Flow, exec_block, unboxed, value_of_flow};
use cad_declarations::TypedBlock;
use cad_making::let_go;
use cad_outcomes::Stop;
use cad_rows::Tree;
use cad_state::RunState;

/// One call more is in progress.
fn go_deeper(state: &mut RunState) -> Result<(), Stop>
    ensures { CarriesOut no_value spec.deeper state.old state.new result }
{
    match state.depth.checked_add(1) {
        Some(depth) => {
            state.depth = depth;
            Ok(())
        }
        None => Err(Stop::Memory),
    }
}

/// One call less is in progress.
fn come_back(state: &mut RunState)
    ensures { CarriesOut no_value spec.shallower state.old state.new (Ok tt) }
{
    state.depth = state.depth.saturating_sub(1);
}

/// The unit of an entry, and its call begins.
fn begin_entry(state: &mut RunState) -> Result<(), Stop>
    ensures { CarriesOut no_value parts.entry_begun state.old state.new result }
{
    match state.tick() {
        Ok(()) => go_deeper(state),
        Err(stop) => Err(stop),
    }
}

/// How the body of an entry ends.
fn run_block<C: Callees>(
    body: &TypedBlock,
    turns: u64,
    callees: &C,
    state: &mut RunState,
) -> Result<Flow, Stop>
    requires { C.is_ready callees.now }
    ensures { FindsAndCarriesOut flow_of (parts.entry_flow (C.front callees.now) (C.calls callees.now) turns (block_of body.now)) state.old state.new result }
{
    match begin_entry(state) {
        Ok(()) => exec_block(body, turns, callees, state),
        Err(stop) => Err(stop),
    }
}

/// What the body of an entry gives; IllTyped where it leaves a loop or a switch that isn't there.
fn block_value<C: Callees>(
    body: &TypedBlock,
    turns: u64,
    callees: &C,
    state: &mut RunState,
) -> Result<Box<Tree>, Stop>
    requires { C.is_ready callees.now }
    ensures { FindsAndCarriesOut tree_in (parts.entry_value (C.front callees.now) (C.calls callees.now) turns (block_of body.now)) state.old state.new result }
{
    match run_block(body, turns, callees, state) {
        Ok(flow) => value_of_flow(*state.making.allocator(), true, flow),
        Err(stop) => Err(stop),
    }
}

/// The body of an entry runs, and what it gives goes.
fn run_body<C: Callees>(
    body: &TypedBlock,
    turns: u64,
    callees: &C,
    state: &mut RunState,
) -> Result<(), Stop>
    requires { C.is_ready callees.now }
    ensures { FindsAndCarriesOut no_value (parts.entry_run (C.front callees.now) (C.calls callees.now) turns (block_of body.now)) state.old state.new result }
{
    match block_value(body, turns, callees, state) {
        Ok(value) => let_go(unboxed(value)),
        Err(stop) => Err(stop),
    }
}

/// An entry that is written runs.
fn run_written<C: Callees>(
    body: &TypedBlock,
    turns: u64,
    callees: &C,
    state: &mut RunState,
) -> Result<(), Stop>
    requires { C.is_ready callees.now }
    ensures { FindsAndCarriesOut no_value (parts.entry_written (C.front callees.now) (C.calls callees.now) turns (block_of body.now)) state.old state.new result }
{
    match run_body(body, turns, callees, state) {
        Ok(()) => {
            come_back(state);
            Ok(())
        }
        Err(stop) => Err(stop),
    }
}

/// `prepare` or `execute` runs, where it is written.
pub(crate) fn run_entry<C: Callees>(
    body: &Option<TypedBlock>,
    turns: u64,
    callees: &C,
    state: &mut RunState,
) -> Result<(), Stop>
    requires { C.is_ready callees.now }
    ensures { FindsAndCarriesOut no_value (spec.entry (C.front callees.now) (C.calls callees.now) turns (option_map block_of body.now)) state.old state.new result }
{
    match body {
        Some(block) => run_written(block, turns, callees, state),
        None => Ok(()),
    }
}
