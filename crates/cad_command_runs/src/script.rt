// The run of a script.
ghost use Rattle.std.specs.Prelude.{◌≡◌, IfOk, codes};
ghost use Rattle.cad_calls.specs.Passed.{tree_in};
ghost use Rattle.cad_evaluation.specs.Evaluation.{calls_to};
ghost use Rattle.cad_command_runs.specs.Code.Scripts as steps;
ghost use Rattle.cad_outcomes.specs.Outcomes.{Gives};
ghost use Rattle.cad_rows.specs.Views.{pure_row, pure_tree};
ghost use Rattle.cad_runs.specs.Run as spec;
ghost use Rattle.cad_state.specs.Views.{FindsAndCarriesOut};
ghost use Rattle.cad_values.specs.Values.{pure_value};
ghost use Rattle.cad_world.specs.Rows as rows;
ghost use Rattle.cad_world.specs.Trees.{value_of};

use cad_calls::{Callee, FrontEnd, call_with, unboxed};
use cad_making::is_told;
use cad_outcomes::{RunError, Stop};
use cad_rows::{Place, Tree, discard_row, discard_tree};
use cad_state::{RunState, discard_value};
use cad_syntax::{Name, Text};
use cad_value_trees::value_from_tree;
use cad_values::Value;
use std::alloc::{AllocError, Global};

/// The name of the function that a script calls.
fn main_name(alloc: Global) -> Result<Name, AllocError>
    ensures { IfOk result (λ name. name ≡ spec.main_name) }
{
    Ok(Name(Text::from_str(alloc, "main")?))
}

/// A value that has a form outside; 134 where a part of it has none.
#[tactic(auto, using(crate::proofs::ToldValues::tells, crate::proofs::ToldValues::refuses))]
fn told_value(value: Value) -> Result<Value, Stop>
    ensures { (t : rows.Tree) → value_of t ≡ pure_value value → Gives pure_value (spec.told t) result }
{
    if is_told(&value) {
        return Ok(value);
    }
    discard_value(value);
    Err(Stop::Failed(RunError::NotExportable))
}

/// The value of a tree; 134 where a part of it has no form outside.
fn told(alloc: Global, tree: Tree) -> Result<Value, Stop>
    ensures { Gives pure_value (spec.told (pure_tree tree)) result }
{
    let found = value_from_tree(alloc, &tree);
    discard_tree(tree);
    match found {
        Ok(value) => told_value(value),
        Err(_) => Err(Stop::Memory),
    }
}

/// A unit, and a call of a function outside contracts.
fn call_function<E: FrontEnd>(
    name: &Name,
    fuel: u64,
    end: &E,
    arguments: Vec<Place>,
    state: &mut RunState,
) -> Result<Box<Tree>, Stop>
    ensures { FindsAndCarriesOut tree_in (steps.called (calls_to (E.front end.now) fuel) name.now (pure_row arguments.items)) state.old state.new result }
{
    match state.tick() {
        Ok(()) => call_with(fuel, end, state, Callee::Function(name), arguments),
        Err(stop) => {
            discard_row(arguments);
            Err(stop)
        }
    }
}

/// A unit, a call of the function with the name of `main`, and its result told.
fn run_main<E: FrontEnd>(
    name: &Name,
    fuel: u64,
    end: &E,
    arguments: Vec<Place>,
    state: &mut RunState,
) -> Result<Value, Stop>
    ensures { name.now ≡ spec.main_name → FindsAndCarriesOut pure_value (spec.run_script (calls_to (E.front end.now) fuel) (pure_row arguments.items)) state.old state.new result }
{
    match call_function(name, fuel, end, arguments, state) {
        Ok(value) => told(*state.making.allocator(), unboxed(value)),
        Err(stop) => Err(stop),
    }
}

/// A script runs on its arguments: a call of `main`, whose result is told. Errors are those of the call, and 134 where a part of
/// the result has no form outside.
pub fn run_script<E: FrontEnd>(
    fuel: u64,
    end: &E,
    arguments: Vec<Place>,
    state: &mut RunState,
) -> Result<Value, Stop>
    ensures { FindsAndCarriesOut pure_value (spec.run_script (calls_to (E.front end.now) fuel) (pure_row arguments.items)) state.old state.new result }
{
    match main_name(*state.making.allocator()) {
        Ok(name) => run_main(&name, fuel, end, arguments, state),
        Err(_) => {
            discard_row(arguments);
            Err(Stop::Memory)
        }
    }
}
