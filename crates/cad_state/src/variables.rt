// The variables of the newest call: what stands in them, and what is put there, taken out and named. No search, no label.
ghost use Rattle.std.specs.Prelude.{◌≡◌, List, OnOk, option_map};
ghost use Rattle.cad_evaluation.specs.Changing as changing;
ghost use Rattle.cad_outcomes.specs.Outcomes.{no_value};
ghost use Rattle.cad_rows.specs.Places.{pure_slot, bare_in};
ghost use Rattle.cad_rows.specs.Views.{pure_tree};
ghost use Rattle.cad_state.specs.Views.{CarriesOut, state_over};
ghost use Rattle.cad_state.specs.Ways as ways;
ghost use Rattle.cad_world.specs.Labels as spec;
ghost use Rattle.cad_world.specs.Locations.{variable};
ghost use Rattle.cad_world.specs.Rows as rows;
ghost use Rattle.cad_world.specs.State.{Account};

use crate::state::RunState;
use cad_outcomes::Stop;
use cad_rows::{Slot, Tree, clear, discard_tree, owns, put, tree_at};
use std::alloc::AllocError;

impl RunState {
    /// What stands in a variable of the newest call.
    #[tactic(auto, using(crate::proofs::Frames::newest_call))]
    pub fn variable(&self, x: usize) -> Slot<'_>
        ensures { (accounts : List Account) → pure_slot result ≡ rows.slot x (spec.variables (state_over accounts self.now)) }
    {
        match self.calls.last() {
            Some(call) => tree_at(call.variables.as_slice(), x),
            None => Slot::Out,
        }
    }

    /// A value comes to a variable's place; what stood there is let go.
    #[tactic(auto, using(crate::proofs::Frames::variables_written, crate::proofs::Frames::no_variables))]
    pub fn put_variable(&mut self, x: usize, tree: Tree) -> Result<(), AllocError>
        ensures { OnOk result ((accounts : List Account) → state_over accounts self.new ≡ spec.with_variables (λ r. rows.put x (pure_tree tree) r) (state_over accounts self.old)) }
    {
        let n = self.calls.len();
        if n == 0 {
            discard_tree(tree);
            return Ok(());
        }
        put(&mut self.calls[n - 1].variables, x, tree)
    }

    /// A variable's place becomes empty. What stood there comes out without labels.
    #[tactic(auto, using(crate::proofs::Frames::variables_written, crate::proofs::Frames::no_variables))]
    pub fn clear_variable(&mut self, x: usize) -> Option<Tree>
        ensures state { (accounts : List Account) → state_over accounts self.new ≡ spec.with_variables (λ r. rows.clear x r) (state_over accounts self.old) }
        ensures tree { (accounts : List Account) → option_map pure_tree result ≡ bare_in (rows.slot x (spec.variables (state_over accounts self.old))) }
    {
        let n = self.calls.len();
        if n == 0 {
            return None;
        }
        clear(&mut self.calls[n - 1].variables, x)
    }

    /// The value leaves a variable's place; IllTyped where none stands there.
    pub fn take_variable(&mut self, x: usize) -> Result<Tree, Stop>
        ensures { CarriesOut pure_tree (changing.take (variable x)) self.old self.new result }
    {
        match self.clear_variable(x) {
            Some(tree) => Ok(tree),
            None => Err(Stop::IllTyped),
        }
    }

    /// A value comes to a variable's place; IllTyped where one stands there.
    pub fn fill_variable(&mut self, x: usize, tree: Tree) -> Result<(), Stop>
        ensures { CarriesOut no_value (changing.fill (variable x) (pure_tree tree)) self.old self.new result }
    {
        if holds_tree(self.variable(x)) {
            discard_tree(tree);
            return Err(Stop::IllTyped);
        }
        match self.put_variable(x, tree) {
            Ok(()) => Ok(()),
            Err(_) => Err(Stop::Memory),
        }
    }

    /// A value comes to a variable's place, and what stood there goes; IllTyped where a resource stands there.
    pub fn assign_variable(&mut self, x: usize, tree: Tree) -> Result<(), Stop>
        ensures { CarriesOut no_value (changing.assigned (variable x) (pure_tree tree)) self.old self.new result }
    {
        if holds_resource(self.variable(x)) {
            discard_tree(tree);
            return Err(Stop::IllTyped);
        }
        match self.put_variable(x, tree) {
            Ok(()) => Ok(()),
            Err(_) => Err(Stop::Memory),
        }
    }
}

/// Whether a value stands in a place.
fn holds_tree(slot: Slot<'_>) -> bool
    ensures { result ≡ ways.holds_tree (pure_slot slot.entry) }
{
    match slot {
        Slot::Full(_) => true,
        _ => false,
    }
}

/// Whether a resource stands in a place, or a value with one in it.
fn holds_resource(slot: Slot<'_>) -> bool
    ensures { result ≡ ways.holds_resource (pure_slot slot.entry) }
{
    match slot {
        Slot::Full(tree) => owns(tree),
        _ => false,
    }
}
