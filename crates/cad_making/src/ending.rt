// Variables and values end.
ghost use Rattle.std.specs.Prelude.{◌≡◌, List};
ghost use Rattle.cad_evaluation.specs.Ending as spec;
ghost use Rattle.cad_outcomes.specs.Outcomes.{no_value, Gives};
ghost use Rattle.cad_rows.specs.Views.{pure_row, pure_tree};
ghost use Rattle.cad_state.specs.Views.{CarriesOut, state_over};
ghost use Rattle.cad_world.specs.Labels.{variables, with_variables};
ghost use Rattle.cad_world.specs.Rows.{owns, back, front};
ghost use Rattle.cad_world.specs.State.{Account};

use crate::rows::{keep_front, owns_behind};
use cad_outcomes::Stop;
use cad_rows::{Tree, discard_tree, owns};
use cad_state::RunState;

/// Whether there is a resource in the variables of the newest call from a number on.
fn owns_variables(state: &RunState, n: usize) -> bool
    ensures { (accounts : List Account) → result ≡ owns (back n (variables (state_over accounts state.now))) }
{
    match state.calls.last() {
        Some(call) => owns_behind(call.variables.as_slice(), n),
        None => false,
    }
}

/// The variables of the newest call from a number on go.
fn keep_variables(state: &mut RunState, n: usize)
    ensures { (accounts : List Account) → state_over accounts state.new ≡ with_variables (front n) (state_over accounts state.old) }
{
    let count = state.calls.len();
    if count == 0 {
        return;
    }
    keep_front(&mut state.calls[count - 1].variables, n)
}

/// The variables of the newest call from a number on end; IllTyped where a resource stands in one.
pub fn end_variables(state: &mut RunState, n: usize) -> Result<(), Stop>
    ensures { CarriesOut no_value (spec.ended n) state.old state.new result }
{
    if owns_variables(state, n) {
        return Err(Stop::IllTyped);
    }
    keep_variables(state, n);
    Ok(())
}

/// A value goes; IllTyped where there is a resource in it.
pub fn let_go(tree: Tree) -> Result<(), Stop>
    ensures { Gives no_value (spec.dropped (pure_tree tree)) result }
{
    let is_kept = owns(&tree);
    discard_tree(tree);
    if is_kept {
        return Err(Stop::IllTyped);
    }
    Ok(())
}
