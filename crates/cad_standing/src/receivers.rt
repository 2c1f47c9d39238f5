// What stands in places as receivers.
ghost use Rattle.std.specs.Prelude.{◌≡◌, option_map};
ghost use Rattle.cad_evaluation.specs.Standing as spec;
ghost use Rattle.cad_outcomes.specs.Outcomes.{Gives};
ghost use Rattle.cad_receivers.specs.Views.{receiver_of};
ghost use Rattle.cad_rows.specs.Views.{pure_tree};
ghost use Rattle.cad_standing.specs.Views.{standing_of};
ghost use Rattle.cad_state.specs.Views.{FindsAndCarriesOut};

use crate::leaves::{into_shape, leads};
use crate::standing::{Standing, discard_standing, is_nowhere};
use cad_locations::discard_location;
use cad_outcomes::Stop;
use cad_receivers::Receiver;
use cad_rows::{Tree, discard_tree};
use cad_selections::receive;
use cad_state::RunState;

/// What a reference leads to, as a receiver. IllTyped of what is no reference.
fn receiver_led(reference: Tree) -> Result<Receiver, Stop>
    ensures { Gives receiver_of (spec.receiver_from (spec.led_by (pure_tree reference))) result }
{
    if !leads(&reference) {
        discard_tree(reference);
        return Err(Stop::IllTyped);
    }
    Ok(Receiver::Through(into_shape(reference)))
}

/// What stands in a place as a receiver: what a reference leads to, or the node itself, which is named. IllTyped where an
/// optional on the way was nil.
pub fn receiver(state: &mut RunState, place: Standing) -> Result<Receiver, Stop>
    ensures { FindsAndCarriesOut receiver_of (spec.receiver_from (standing_of place)) state.old state.new result }
{
    match place {
        Standing::Here {
            rights,
            location,
            inside,
        } => {
            let found = receive(state, rights, &location, inside);
            discard_location(location);
            found
        }
        Standing::LedBy(reference) => receiver_led(reference),
        Standing::Nowhere => Err(Stop::IllTyped),
    }
}

/// The receiver of a chain; None where an optional on the way was nil.
pub fn chain_receiver(state: &mut RunState, place: Standing) -> Result<Option<Receiver>, Stop>
    ensures { FindsAndCarriesOut (option_map receiver_of) (spec.receiver_of_chain (standing_of place)) state.old state.new result }
{
    if is_nowhere(&place) {
        discard_standing(place);
        return Ok(None);
    }
    match receiver(state, place) {
        Ok(found) => Ok(Some(found)),
        Err(stop) => Err(stop),
    }
}
