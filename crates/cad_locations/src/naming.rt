// The node at a location gets a label.
ghost use Rattle.cad_num.specs.Numbers.{value_of};
ghost use Rattle.cad_state.specs.Views.{CarriesOut, FindsAndCarriesOut};
ghost use Rattle.cad_world.specs.Locations as spec;
ghost use Rattle.cad_locations.specs.Code.Spots.{named_there};
ghost use Rattle.cad_locations.specs.Views.{location_of};

use crate::contract_places::contract_index;
use crate::location::Location;
use crate::places::place_of;
use crate::reading::locate;
use cad_nodes::name_in;
use cad_outcomes::Stop;
use cad_rows::name_in as name_in_row;
use cad_state::RunState;
use cad_syntax::TypeId;

/// The node in a variable gets a new label.
fn name_variable(state: &mut RunState, x: usize) -> Result<u64, Stop>
    ensures { CarriesOut (λ label. label) (spec.name (spec.variable x)) state.old state.new result }
{
    let n = state.calls.len();
    let label = state.next_label;
    if n == 0 {
        return Err(Stop::Memory);
    }
    if label == u64::MAX {
        return Err(Stop::Memory);
    }
    match name_in_row(&mut state.calls[n - 1].variables, x, label) {
        Ok(()) => {
            state.next_label = label + 1;
            Ok(label)
        }
        Err(_) => Err(Stop::Memory),
    }
}

/// The value of a contract gets a new label. Memory fails where there is no such contract, or where no label is left.
fn name_value(state: &mut RunState, id: &TypeId) -> Result<u64, Stop>
    ensures { CarriesOut (λ label. label) (spec.name (spec.contract id.now)) state.old state.new result }
{
    let label = state.next_label;
    if label == u64::MAX {
        return Err(Stop::Memory);
    }
    match contract_index(state, id) {
        Some(i) => match name_in_row(&mut state.contracts[i].value, 0, label) {
            Ok(()) => {
                state.next_label = label + 1;
                Ok(label)
            }
            Err(_) => Err(Stop::Memory),
        },
        None => Err(Stop::Memory),
    }
}

/// The node in a place of a node that was found gets a new label.
fn name_found(state: &mut RunState, location: &Location) -> Result<u64, Stop>
    ensures { FindsAndCarriesOut (λ label. label) (named_there (location_of location.now)) state.old state.new result }
{
    match place_of(state, location) {
        Ok(Some((label, i))) => name_in(state, label, i),
        Ok(None) => Err(Stop::Memory),
        Err(_) => Err(Stop::Memory),
    }
}

/// The node in a place of a node gets a new label. Memory fails where the node is gone, or where there is no such place.
fn name_place(state: &mut RunState, location: &Location) -> Result<u64, Stop>
    ensures { FindsAndCarriesOut (λ label. label) (named_there (location_of location.now)) state.old state.new result }
{
    match locate(state, location) {
        Ok(()) => name_found(state, location),
        Err(_) => Err(Stop::Memory),
    }
}

/// Gives the node at a location one more label; that of a receiver is the label by which it stands there already. Memory fails
/// where no node stands there too; there are no other errors.
pub fn name(state: &mut RunState, location: &Location) -> Result<u64, Stop>
    ensures { FindsAndCarriesOut (λ label. label) (spec.name (location_of location.now)) state.old state.new result }
{
    match location {
        Location::Variable(x) => name_variable(state, *x),
        Location::Contract(id) => name_value(state, id),
        Location::Receiver(label) => Ok(*label),
        Location::Part(label, i) => name_in(state, *label, *i),
        Location::Element(_, _) => name_place(state, location),
        Location::Entry(_, _) => name_place(state, location),
    }
}
