// What is changed of a receiver: the label of its node, and what a change has to know of it.
ghost use Rattle.std.specs.Prelude.{◌≡◌, List, IfErr, IfOk, map};
ghost use Rattle.cad_containers.specs.Code.Changes.{ArrayAimed, IsArrayAim};
ghost use Rattle.cad_containers.specs.Code.Dictionaries.{DictionaryAimed, IsDictionaryAim};
ghost use Rattle.cad_outcomes.specs.declared.stop.Stop.TheVariants.{Memory};
ghost use Rattle.cad_receivers.specs.Views.{settled_of, spot_of};
ghost use Rattle.cad_rows.specs.Views.{pure_row};
ghost use Rattle.cad_state.specs.Views.{IsReady, state_over};
ghost use Rattle.cad_syntax.specs.Types.{pure_type};
ghost use Rattle.cad_values.specs.Values.{pure_value};
ghost use Rattle.cad_world.specs.Locations as locations;
ghost use Rattle.cad_world.specs.Rows as rows;
ghost use Rattle.cad_world.specs.State.{Account};

use crate::parts::{Elements, Entries, discard_type, elements_of, entries_of};
use cad_outcomes::Stop;
use cad_receivers::{Settled, Spot, look};
use cad_rows::count_places;
use cad_state::RunState;
use cad_syntax::CadType;
use cad_values::Value;
use std::alloc::{AllocError, Global};

/// The label of an array, a copy of the type of its elements, and how many there are.
pub(crate) struct ArrayAim {
    pub label: u64,
    pub element: CadType,
    pub count: usize,
}

/// Lets what is known of an array go.
pub(crate) fn discard_array_aim(aim: ArrayAim) {
    let ArrayAim {
        label: _,
        element,
        count: _,
    } = aim;
    discard_type(element)
}

/// What is known of an array with a label.
fn array_aim(label: u64, array: Elements<'_>) -> Result<ArrayAim, Stop>
    ensures aim { IfOk result (λ a. (a.label ≡ label) × (pure_type a.element ≡ pure_type array.entry.element.now) × (a.count ≡ rows.count_places (pure_row array.entry.parts.now))) }
    ensures memory { IfErr result (λ stop. stop ≡ Memory) }
{
    match array.element.clone() {
        Ok(element) => Ok(ArrayAim {
            label,
            element,
            count: count_places(array.parts),
        }),
        Err(_) => Err(Stop::Memory),
    }
}

/// What is known of the array that a spot is. No array is without a label.
fn array_aim_of(spot: Spot<'_>) -> Result<ArrayAim, Stop>
    ensures { IsArrayAim (spot_of spot.entry) result }
{
    match spot.label {
        None => Err(Stop::Memory),
        Some(label) => match elements_of(spot.optionals, spot.shape, spot.parts) {
            None => Err(Stop::IllTyped),
            Some(array) => array_aim(label, array),
        },
    }
}

/// What is known of the array that a receiver is now.
pub(crate) fn aim_at_array(state: &RunState, receiver: Settled<'_>) -> Result<ArrayAim, Stop>
    ensures { (accounts : List Account) → IsReady accounts state.now → ArrayAimed (settled_of receiver.entry) (state_over accounts state.now) result }
{
    match look(state, receiver) {
        Ok(spot) => array_aim_of(spot),
        Err(stop) => Err(stop),
    }
}

/// The label of a dictionary, copies of its types, how many values there are, and where a key stands among its keys.
pub(crate) struct DictionaryAim {
    pub label: u64,
    pub key: CadType,
    pub value: CadType,
    pub count: usize,
    pub position: Option<usize>,
}

/// Lets what is known of a dictionary go.
pub(crate) fn discard_dictionary_aim(aim: DictionaryAim) {
    let DictionaryAim {
        label: _,
        key,
        value,
        count: _,
        position: _,
    } = aim;
    discard_type(key);
    discard_type(value)
}

/// What is known of a dictionary with a label, in which the key stands there.
fn dictionary_aim(
    label: u64,
    dictionary: Entries<'_>,
    position: Option<usize>,
) -> Result<DictionaryAim, AllocError>
    ensures { IfOk result (λ a. (a.label ≡ label) × (pure_type a.key ≡ pure_type dictionary.entry.key.now) × (pure_type a.value ≡ pure_type dictionary.entry.value.now) × (a.count ≡ rows.count_places (pure_row dictionary.entry.parts.now)) × (a.position ≡ position)) }
{
    let key = dictionary.key.clone()?;
    match dictionary.value.clone() {
        Ok(value) => Ok(DictionaryAim {
            label,
            key,
            value,
            count: count_places(dictionary.parts),
            position,
        }),
        Err(error) => {
            discard_type(key);
            Err(error)
        }
    }
}

/// What is known of a dictionary with a label, and where a key stands in it.
fn keyed_aim(
    alloc: Global,
    label: u64,
    dictionary: Entries<'_>,
    key: &Value,
) -> Result<DictionaryAim, Stop>
    ensures aim { IfOk result (λ a. (a.label ≡ label) × (pure_type a.key ≡ pure_type dictionary.entry.key.now) × (pure_type a.value ≡ pure_type dictionary.entry.value.now) × (a.count ≡ rows.count_places (pure_row dictionary.entry.parts.now)) × (a.position ≡ locations.key_position (pure_value key.now) (map pure_value dictionary.entry.keys.now))) }
    ensures memory { IfErr result (λ stop. stop ≡ Memory) }
{
    match dictionary.keys.position(alloc, key) {
        Ok(position) => match dictionary_aim(label, dictionary, position) {
            Ok(aim) => Ok(aim),
            Err(_) => Err(Stop::Memory),
        },
        Err(_) => Err(Stop::Memory),
    }
}

/// What is known of the dictionary that a spot is.
#[tactic(auto, using(crate::proofs::AimLaws::dictionary_aim_is))]
fn dictionary_aim_of(alloc: Global, spot: Spot<'_>, key: &Value) -> Result<DictionaryAim, Stop>
    ensures { IsDictionaryAim (pure_value key.now) (spot_of spot.entry) result }
{
    match spot.label {
        None => Err(Stop::IllTyped),
        Some(label) => match entries_of(spot.optionals, spot.shape, spot.parts) {
            None => Err(Stop::IllTyped),
            Some(dictionary) => keyed_aim(alloc, label, dictionary, key),
        },
    }
}

/// What is known of the dictionary that a receiver is now, and where a key stands in it.
pub(crate) fn aim_at_dictionary(
    state: &RunState,
    receiver: Settled<'_>,
    key: &Value,
) -> Result<DictionaryAim, Stop>
    ensures { (accounts : List Account) → IsReady accounts state.now → DictionaryAimed (pure_value key.now) (settled_of receiver.entry) (state_over accounts state.now) result }
{
    let alloc = *state.making.allocator();
    match look(state, receiver) {
        Ok(spot) => dictionary_aim_of(alloc, spot, key),
        Err(stop) => Err(stop),
    }
}
