// Units, one for each part of a value but the first, and optionals.
ghost use Rattle.std.specs.Prelude.{◌≡◌, ◌-◌, List, IfOk};
ghost use Rattle.cad_evaluation.specs.Storage.{paid_parts};
ghost use Rattle.cad_outcomes.specs.Outcomes.{no_value};
ghost use Rattle.cad_rows.specs.Places.{pure_slot};
ghost use Rattle.cad_rows.specs.Views.{pure_tree};
ghost use Rattle.cad_state.specs.Views.{CarriesOut, state_over};
ghost use Rattle.cad_storage.specs.Code as code;
ghost use Rattle.cad_world.specs.Labels as labels;
ghost use Rattle.cad_world.specs.State.{Account, spend};
ghost use Rattle.cad_world.specs.Trees.{tree_weight, wrapped};

use cad_outcomes::Stop;
use cad_rows::{Slot, Tree, discard_tree, tree_weight};
use cad_run_accounts::stored_slot;
use cad_state::RunState;
use cad_syntax::{Address, Name};
use std::alloc::AllocError;

/// The parts of a value but the first.
fn parts_of(tree: &Tree) -> Result<u64, AllocError>
    ensures { IfOk result (λ n. n ≡ tree_weight (pure_tree tree.now) - 1) }
{
    let weight = tree_weight(tree);
    if weight == u64::MAX {
        return Err(AllocError);
    }
    Ok(weight.saturating_sub(1))
}

/// The parts of a value are paid.
pub(crate) fn pay(state: &mut RunState, tree: &Tree) -> Result<(), Stop>
    ensures { CarriesOut no_value (paid_parts (pure_tree tree.now)) state.old state.new result }
{
    match parts_of(tree) {
        Ok(units) => state.spend(units),
        Err(_) => Err(Stop::Memory),
    }
}

/// The parts of what stands in a place but the first.
fn slot_parts(slot: Slot<'_>) -> Result<u64, AllocError>
    ensures { IfOk result (λ n. n ≡ code.slot_parts (pure_slot slot.entry)) }
{
    match slot {
        Slot::Full(tree) => parts_of(tree),
        _ => Ok(0),
    }
}

/// The parts of what an account stores under an identifier but the first.
fn parts_at(state: &RunState, address: Address, name: &Name) -> Result<u64, AllocError>
    ensures { IfOk result (λ n. (accounts : List Account) → n ≡ code.slot_parts (labels.stored_slot (state_over accounts state.now) address.0 name.now)) }
{
    let slot = stored_slot(state, address, name)?;
    slot_parts(slot)
}

/// The parts of what an account stores under an identifier are paid.
pub(crate) fn pay_stored(state: &mut RunState, address: Address, name: &Name) -> Result<(), Stop>
    ensures { CarriesOut no_value (code.at_stored (λ slot. spend (code.slot_parts slot)) address name.now) state.old state.new result }
{
    match parts_at(state, address, name) {
        Ok(units) => state.spend(units),
        Err(_) => Err(Stop::Memory),
    }
}

/// A value in one optional more. What is in 2^64 optionals has no room in memory.
pub(crate) fn wrap(tree: Tree) -> Result<Tree, AllocError>
    ensures { IfOk result (λ t. pure_tree t ≡ wrapped (pure_tree tree)) }
{
    let mut all = tree;
    match all.optionals.checked_add(1) {
        Some(more) => {
            all.optionals = more;
            Ok(all)
        }
        None => {
            discard_tree(all);
            Err(AllocError)
        }
    }
}
