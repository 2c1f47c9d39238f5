// What is done with a place that was found, outside of the recursion.
ghost use Rattle.std.specs.Prelude.{option_map};
ghost use Rattle.cad_evaluation.specs.Standing as standing;
ghost use Rattle.cad_expression_leaves.specs.Code.Steps as steps;
ghost use Rattle.cad_expression_leaves.specs.Code.Steps.{GoesOn};
ghost use Rattle.cad_expression_leaves.specs.Views.{tree_in};
ghost use Rattle.cad_labels.specs.Laws.{AnyOne, HasNone};
ghost use Rattle.cad_receivers.specs.Views.{receiver_of};
ghost use Rattle.cad_standing.specs.Views.{standing_of};
ghost use Rattle.cad_state.specs.declared.state.RunState.{RunState};

use cad_boxed_trees::{boxed, unboxed};
use cad_outcomes::Stop;
use cad_receivers::Receiver;
use cad_rows::{Tree, discard_tree};
use cad_standing::{
    Standing, borrow, chain_receiver, content_of, copy, element_of, field_of, is_nil, led_by,
    receiver, take,
};
use cad_state::RunState;
use cad_syntax::{Authorization, Name};

/// A copy of what stands in a place.
#[inline(never)]
pub fn copy_at(state: &mut RunState, place: Result<Standing, Stop>) -> Result<Box<Tree>, Stop>
    ensures { GoesOn AnyOne standing_of tree_in steps.copied_from place state.old state.new result }
{
    match place {
        Ok(found) => boxed(copy(state, found)),
        Err(stop) => Err(stop),
    }
}

/// What stands in a place leaves it.
#[inline(never)]
pub fn take_at(state: &mut RunState, place: Result<Standing, Stop>) -> Result<Box<Tree>, Stop>
    ensures { GoesOn AnyOne standing_of tree_in standing.taken_from place state.old state.new result }
{
    match place {
        Ok(found) => boxed(take(state, found)),
        Err(stop) => Err(stop),
    }
}

/// Whether what stands in a place is nil.
#[inline(never)]
pub fn nil_at(
    state: &mut RunState,
    is_negated: bool,
    place: Result<Standing, Stop>,
) -> Result<Box<Tree>, Stop>
    ensures { GoesOn AnyOne standing_of tree_in (steps.nil_told_of is_negated) place state.old state.new result }
{
    match place {
        Ok(found) => boxed(is_nil(state, found, is_negated)),
        Err(stop) => Err(stop),
    }
}

/// A reference to what stands in a place.
#[inline(never)]
pub fn borrow_at(
    state: &mut RunState,
    authorization: &Authorization,
    takes_off: bool,
    gives_optional: bool,
    place: Result<Standing, Stop>,
) -> Result<Box<Tree>, Stop>
    ensures { GoesOn AnyOne standing_of tree_in (standing.referred_to authorization.now takes_off gives_optional) place state.old state.new result }
{
    match place {
        Ok(found) => boxed(borrow(state, found, authorization, takes_off, gives_optional)),
        Err(stop) => Err(stop),
    }
}

/// What stands in a place, as what a member is used on.
#[inline(never)]
pub fn receive_at(state: &mut RunState, place: Result<Standing, Stop>) -> Result<Receiver, Stop>
    ensures { GoesOn AnyOne standing_of receiver_of standing.receiver_from place state.old state.new result }
{
    match place {
        Ok(found) => receiver(state, found),
        Err(stop) => Err(stop),
    }
}

/// The same of a chain: none where an optional on the way is nil.
#[inline(never)]
pub fn chain_at(
    state: &mut RunState,
    place: Result<Standing, Stop>,
) -> Result<Option<Receiver>, Stop>
    ensures { GoesOn AnyOne standing_of (option_map receiver_of) standing.receiver_of_chain place state.old state.new result }
{
    match place {
        Ok(found) => chain_receiver(state, found),
        Err(stop) => Err(stop),
    }
}

/// The place to which a reference leads.
#[inline(never)]
#[tactic(auto, unfolding(crate::specs::Code::Steps::led))]
pub fn lead(reference: Result<Box<Tree>, Stop>) -> Result<Standing, Stop>
    ensures { (y : RunState) → GoesOn HasNone tree_in standing_of steps.led reference y y result }
{
    match reference {
        Ok(tree) => Ok(led_by(unboxed(tree))),
        Err(stop) => Err(stop),
    }
}

/// A field of what stands in a place.
#[inline(never)]
pub fn field_at(
    state: &mut RunState,
    writes: bool,
    name: &Name,
    place: Result<Standing, Stop>,
) -> Result<Standing, Stop>
    ensures { GoesOn AnyOne standing_of standing_of (steps.field_at writes name.now) place state.old state.new result }
{
    match place {
        Ok(found) => field_of(state, found, writes, name),
        Err(stop) => Err(stop),
    }
}

/// The content of the optional that stands in a place.
#[inline(never)]
pub fn content_at(
    state: &mut RunState,
    forces: bool,
    place: Result<Standing, Stop>,
) -> Result<Standing, Stop>
    ensures { GoesOn AnyOne standing_of standing_of (steps.content_in forces) place state.old state.new result }
{
    match place {
        Ok(found) => content_of(state, found, forces),
        Err(stop) => Err(stop),
    }
}

/// The element of a receiver at an index.
#[inline(never)]
pub fn element_with(
    state: &mut RunState,
    base: &Receiver,
    writes: bool,
    index: Result<Box<Tree>, Stop>,
) -> Result<Standing, Stop>
    ensures { GoesOn HasNone tree_in standing_of (steps.element_with writes (receiver_of base.now)) index state.old state.new result }
{
    match index {
        Ok(at) => {
            let tree = unboxed(at);
            let found = element_of(state, base, &tree, writes);
            discard_tree(tree);
            found
        }
        Err(stop) => Err(stop),
    }
}
