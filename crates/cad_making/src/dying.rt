// The end of resources, but for their events.
ghost use Rattle.std.specs.Prelude.{◌≡◌, ◌++◌, [], IfOk, OnOk};
ghost use Rattle.cad_outcomes.specs.Outcomes.{no_value};
ghost use Rattle.cad_rows.specs.Views.{pure_place, pure_tree, taken};
ghost use Rattle.cad_state.specs.Views.{CarriesOut};
ghost use Rattle.cad_world.specs.Rows as rows;
ghost use Rattle.cad_making.specs.Code.Ends as ends;
ghost use Rattle.cad_making.specs.Dying as spec;

use crate::ends::{add_place_types, name_place};
use crate::making::push_first;
use crate::rows::keep_back;
use cad_outcomes::Stop;
use cad_rows::{Place, Tree, add_identities, discard_place, discard_tree};
use cad_state::RunState;
use cad_syntax::{Numbers, TypeIds};
use std::alloc::{AllocError, Global};

/// A resource that is being destroyed. Its tree stands first among what is made, where the nodes whose end is told have labels
/// in order from the first label on.
#[derive(Drop)]
pub struct Dying {
    pub first_label: u64,
    /// The types of the nodes whose end is told: an outer node before those inside.
    pub types: TypeIds,
    /// The identities of the resources that end, in the order of their places.
    pub identities: Numbers,
}

/// What ends, before it is set aside.
fn ends_of(
    alloc: Global,
    state: &RunState,
    place: &Place,
    identities: Numbers,
) -> Result<Dying, AllocError>
    ensures { IfOk result (λ d. spec.dying_of d ≡ (record { first_label = state.now.next_label; types = ends.types_in (ends.told_in state.now) (pure_place place.now); identities = identities })) }
{
    let mut types = TypeIds::new(alloc);
    add_place_types(state, place, &mut types)?;
    Ok(Dying {
        first_label: state.next_label,
        types,
        identities,
    })
}

/// A tree in a place, without labels.
fn place_of(alloc: Global, tree: Tree) -> Place
    ensures { pure_place result ≡ taken [] (pure_tree tree) }
{
    Place::Full(Numbers::new(alloc), tree)
}

/// A place is named and comes first among what is made.
fn stand_first(state: &mut RunState, place: Place) -> Result<(), Stop>
    ensures { CarriesOut no_value (ends.stood_first (ends.told_in state.old) (pure_place place)) state.old state.new result }
{
    let mut own = place;
    match name_place(state, &mut own, state.next_label) {
        Ok(next) => match push_first(&mut state.making, own) {
            Ok(()) => {
                state.next_label = next;
                Ok(())
            }
            Err(_) => Err(Stop::Memory),
        },
        Err(_) => {
            discard_place(own);
            Err(Stop::Memory)
        }
    }
}

/// What is destroyed stands aside.
fn set_aside(state: &mut RunState, place: Place, identities: Numbers) -> Result<Dying, Stop>
    ensures { CarriesOut spec.dying_of (ends.placed_aside (ends.told_in state.old) (pure_place place) identities) state.old state.new result }
{
    match ends_of(*state.making.allocator(), state, &place, identities) {
        Ok(ends) => match stand_first(state, place) {
            Ok(()) => Ok(ends),
            Err(stop) => Err(stop),
        },
        Err(_) => {
            discard_place(place);
            Err(Stop::Memory)
        }
    }
}

/// A charged tree stands aside.
fn set_tree_aside(state: &mut RunState, tree: Tree) -> Result<Dying, Stop>
    ensures { CarriesOut spec.dying_of (ends.tree_aside (pure_tree tree)) state.old state.new result }
{
    let alloc = *state.making.allocator();
    let mut identities = Numbers::new(alloc);
    match add_identities(&mut identities, &tree) {
        Ok(()) => set_aside(state, place_of(alloc, tree), identities),
        Err(_) => {
            discard_tree(tree);
            Err(Stop::Memory)
        }
    }
}

/// What is destroyed is charged, and stands aside until its events are made; 123 where it is too high.
pub fn lay_out(state: &mut RunState, tree: Tree) -> Result<Dying, Stop>
    ensures { CarriesOut spec.dying_of (spec.laid_out (pure_tree tree)) state.old state.new result }
{
    match state.charge(&tree) {
        Ok(()) => set_tree_aside(state, tree),
        Err(stop) => {
            discard_tree(tree);
            Err(stop)
        }
    }
}

/// Appends numbers.
#[tactic(auto, using(std::proofs::lemmas::List::append_assoc))]
fn append(to: &mut Numbers, more: &[u64]) -> Result<(), AllocError>
    ensures { OnOk result (to.new ≡ to.old ++ more.now) }
{
    for n in more {
        to.push(*n)?;
    }
    Ok(())
}

/// What is destroyed goes, once its events are emitted.
pub fn bury(state: &mut RunState, dying: Dying) -> Result<(), Stop>
    ensures { CarriesOut no_value (spec.buried (spec.dying_of dying)) state.old state.new result }
{
    match append(&mut state.destroyed, dying.identities.as_slice()) {
        Ok(()) => {
            keep_back(&mut state.making, 1);
            Ok(())
        }
        Err(_) => Err(Stop::Memory),
    }
}
