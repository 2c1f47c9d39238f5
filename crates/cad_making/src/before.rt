// The values of `before`, those of the conditions that come next first.
ghost use Rattle.cad_evaluation.specs.Bodies as spec;
ghost use Rattle.cad_evaluation.specs.Uses as uses;
ghost use Rattle.cad_outcomes.specs.Outcomes.{no_value};
ghost use Rattle.cad_rows.specs.Views.{pure_tree};
ghost use Rattle.cad_state.specs.Views.{CarriesOut};

use crate::rows::{copy_at, keep_back};
use cad_access::newest;
use cad_outcomes::Stop;
use cad_rows::{Tree, add_last, discard_tree};
use cad_state::RunState;

/// One more value is kept.
pub fn keep_before(state: &mut RunState, tree: Tree) -> Result<(), Stop>
    ensures { CarriesOut no_value (spec.kept_before (pure_tree tree)) state.old state.new result }
{
    let n = state.calls.len();
    if n == 0 {
        discard_tree(tree);
        return Ok(());
    }
    match add_last(&mut state.calls[n - 1].before, tree) {
        Ok(()) => Ok(()),
        Err(_) => Err(Stop::Memory),
    }
}

/// The first values aren't wanted any more.
pub fn pass_before(state: &mut RunState, n: usize) -> Result<(), Stop>
    ensures { CarriesOut no_value (spec.passed_before n) state.old state.new result }
{
    let count = state.calls.len();
    if count == 0 {
        return Ok(());
    }
    keep_back(&mut state.calls[count - 1].before, n);
    Ok(())
}

/// A copy of the value at an index; IllTyped where there is none, or where a resource is in it.
pub fn before_value(state: &RunState, n: usize) -> Result<Tree, Stop>
    ensures { CarriesOut pure_tree (uses.before_value n) state.now state.now result }
{
    match newest(state) {
        Some(call) => copy_at(call.before.as_slice(), n),
        None => Err(Stop::IllTyped),
    }
}
