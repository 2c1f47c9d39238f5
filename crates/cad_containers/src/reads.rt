// What is read of the array or dictionary that a receiver is now.
ghost use Rattle.std.specs.Prelude.{map};
ghost use Rattle.cad_containers.specs.Code.Members.{array_read, dictionary_read};
ghost use Rattle.cad_evaluation.specs.Builtins.{on_array, on_dictionary};
ghost use Rattle.cad_outcomes.specs.Outcomes.{Gives};
ghost use Rattle.cad_receivers.specs.Views.{at_spot, settled_of, spot_of};
ghost use Rattle.cad_rows.specs.Views.{pure_row, pure_tree};
ghost use Rattle.cad_state.specs.Views.{FindsAndCarriesOut};

use crate::arrays::read_array;
use crate::dictionaries::read_dictionary;
use crate::parts::{elements_of, entries_of};
use cad_outcomes::Stop;
use cad_receivers::{Settled, Spot, look};
use cad_rows::{Place, Tree, discard_row};
use cad_state::RunState;
use cad_types::Builtin;
use std::alloc::Global;

/// What is read of an array.
fn read_elements(
    alloc: Global,
    member: Builtin,
    spot: Spot<'_>,
    arguments: &[Place],
) -> Result<Tree, Stop>
    ensures { Gives pure_tree (on_array (spot_of spot.entry) (array_read member (pure_row arguments.now))) result }
{
    match elements_of(spot.optionals, spot.shape, spot.parts) {
        Some(array) => read_array(alloc, member, array, arguments),
        None => Err(Stop::IllTyped),
    }
}

/// What is read of the array that a receiver is now, over these arguments.
fn look_in_array(
    state: &RunState,
    member: Builtin,
    receiver: Settled<'_>,
    arguments: &[Place],
) -> Result<Tree, Stop>
    ensures { FindsAndCarriesOut pure_tree (at_spot (settled_of receiver.entry) (λ spot. on_array spot (array_read member (pure_row arguments.now)))) state.now state.now result }
{
    let alloc = *state.making.allocator();
    match look(state, receiver) {
        Ok(spot) => read_elements(alloc, member, spot, arguments),
        Err(stop) => Err(stop),
    }
}

/// What is read of the array that a receiver is now.
pub(crate) fn read_in_array(
    state: &RunState,
    member: Builtin,
    receiver: Settled<'_>,
    arguments: Vec<Place>,
) -> Result<Tree, Stop>
    ensures { FindsAndCarriesOut pure_tree (at_spot (settled_of receiver.entry) (λ spot. on_array spot (array_read member (pure_row arguments.items)))) state.now state.now result }
{
    let result = look_in_array(state, member, receiver, arguments.as_slice());
    discard_row(arguments);
    result
}

/// What is read of a dictionary.
fn read_entries(
    alloc: Global,
    member: Builtin,
    spot: Spot<'_>,
    arguments: &[Place],
) -> Result<Tree, Stop>
    ensures { Gives pure_tree (on_dictionary (spot_of spot.entry) (dictionary_read member (pure_row arguments.now))) result }
{
    match entries_of(spot.optionals, spot.shape, spot.parts) {
        Some(dictionary) => read_dictionary(alloc, member, dictionary, arguments),
        None => Err(Stop::IllTyped),
    }
}

/// What is read of the dictionary that a receiver is now, over these arguments.
fn look_in_dictionary(
    state: &RunState,
    member: Builtin,
    receiver: Settled<'_>,
    arguments: &[Place],
) -> Result<Tree, Stop>
    ensures { FindsAndCarriesOut pure_tree (at_spot (settled_of receiver.entry) (λ spot. on_dictionary spot (dictionary_read member (pure_row arguments.now)))) state.now state.now result }
{
    let alloc = *state.making.allocator();
    match look(state, receiver) {
        Ok(spot) => read_entries(alloc, member, spot, arguments),
        Err(stop) => Err(stop),
    }
}

/// What is read of the dictionary that a receiver is now.
pub(crate) fn read_in_dictionary(
    state: &RunState,
    member: Builtin,
    receiver: Settled<'_>,
    arguments: Vec<Place>,
) -> Result<Tree, Stop>
    ensures { FindsAndCarriesOut pure_tree (at_spot (settled_of receiver.entry) (λ spot. on_dictionary spot (dictionary_read member (pure_row arguments.items)))) state.now state.now result }
{
    let result = look_in_dictionary(state, member, receiver, arguments.as_slice());
    discard_row(arguments);
    result
}
