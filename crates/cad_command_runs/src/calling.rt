// Calls, by what calls each other.
ghost use Rattle.cad_calls.specs.Passed.{callee_of, tree_in};
ghost use Rattle.cad_evaluation.specs.Evaluation.{calls_to};
ghost use Rattle.cad_rows.specs.Views.{pure_row};
ghost use Rattle.cad_state.specs.Views.{FindsAndCarriesOut};

use cad_calls::{Callee, FrontEnd, call_with};
use cad_outcomes::Stop;
use cad_rows::{Place, Tree};
use cad_state::RunState;

/// Calls, nested at most so deep. Errors are those of what is called.
pub(crate) fn call<E: FrontEnd>(
    fuel: u64,
    end: &E,
    state: &mut RunState,
    callee: Callee<'_>,
    arguments: Vec<Place>,
) -> Result<Box<Tree>, Stop>
    ensures { FindsAndCarriesOut tree_in (calls_to (E.front end.now) fuel (callee_of callee.entry) (pure_row arguments.items)) state.old state.new result }
{
    call_with(fuel, end, state, callee, arguments)
}
