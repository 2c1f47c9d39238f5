// What the results of built-in members cost.
ghost use Rattle.std.specs.Prelude.{◌≡◌, ◌+◌, ◌-◌, IfOk};
ghost use Rattle.cad_outcomes.specs.Outcomes.{no_value};
ghost use Rattle.cad_rows.specs.Views.{pure_tree};
ghost use Rattle.cad_state.specs.Views.{CarriesOut};
ghost use Rattle.cad_value_operations.specs.Code.Members as spec;
ghost use Rattle.cad_world.specs.Trees.{tree_weight};

use cad_outcomes::Stop;
use cad_rows::{Tree, discard_tree, tree_weight};
use cad_state::RunState;
use std::alloc::AllocError;

/// A result costs a unit for each part of it but the first, and as many more.
pub fn pay(state: &mut RunState, more: u64, tree: Tree) -> Result<Tree, Stop>
    ensures { CarriesOut pure_tree (spec.paid more (pure_tree tree)) state.old state.new result }
{
    match charge(state, more, &tree) {
        Ok(()) => Ok(tree),
        Err(stop) => {
            discard_tree(tree);
            Err(stop)
        }
    }
}

/// The parts of a value but the first.
pub(crate) fn parts_of(tree: &Tree) -> Result<u64, AllocError>
    ensures { IfOk result (λ n. n ≡ tree_weight (pure_tree tree.now) - 1) }
{
    let weight = tree_weight(tree);
    if weight == u64::MAX {
        return Err(AllocError);
    }
    Ok(weight.saturating_sub(1))
}

/// A sum, which has room in memory.
pub(crate) fn sum(a: u64, b: u64) -> Result<u64, AllocError>
    ensures { IfOk result (λ n. n ≡ a + b) }
{
    match a.checked_add(b) {
        Some(n) => Ok(n),
        None => Err(AllocError),
    }
}

/// The units of a result.
fn cost(more: u64, tree: &Tree) -> Result<u64, AllocError>
    ensures { IfOk result (λ n. n ≡ (tree_weight (pure_tree tree.now) - 1) + more) }
{
    let parts = parts_of(tree)?;
    sum(parts, more)
}

/// A result is paid.
fn charge(state: &mut RunState, more: u64, tree: &Tree) -> Result<(), Stop>
    ensures { CarriesOut no_value (spec.cost_of more (pure_tree tree.now)) state.old state.new result }
{
    match cost(more, tree) {
        Ok(units) => state.spend(units),
        Err(_) => Err(Stop::Memory),
    }
}
