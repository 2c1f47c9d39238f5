// What the place of an expression comes to.
ghost use Rattle.std.specs.Prelude.{◌≡◌, None, option_map};
ghost use Rattle.cad_evaluation.specs.Standing as spec;
ghost use Rattle.cad_evaluation.specs.Terms.{own_self, self_of};
ghost use Rattle.cad_locations.specs.Views.{location_of};
ghost use Rattle.cad_outcomes.specs.Outcomes.{Gives};
ghost use Rattle.cad_rows.specs.Views.{pure_tree};
ghost use Rattle.cad_standing.specs.Views.{is_nowhere, standing_of};
ghost use Rattle.cad_access.specs.RunContracts.{run_of};
ghost use Rattle.cad_state.specs.Views.{CarriesOut, frame_of};
ghost use Rattle.cad_world.specs.Labels as labels;
ghost use Rattle.cad_world.specs.Locations as locations;
ghost use Rattle.cad_world.specs.State.{give};

use cad_access::newest;
use cad_locations::{Location, discard_location};
use cad_outcomes::Stop;
use cad_rows::{Shape, Tree, discard_shape, discard_tree};
use cad_state::{Call, RunState};
use cad_syntax::{Authorization, TypeId};

/// What the place of an expression comes to. It isn't let go but by `discard_standing`.
pub enum Standing {
    /// The value stands there, inside so many of its optionals; met by its owner or through a reference.
    Here {
        rights: Option<Authorization>,
        location: Location,
        inside: u64,
    },
    /// What this reference leads to.
    LedBy(Tree),
    /// An optional on the way is nil, which ends the chain.
    Nowhere,
}

/// Lets rights go.
pub(crate) fn discard_rights(rights: Option<Authorization>) {
    match rights {
        Some(authorization) => discard_shape(Shape::Link {
            authorization,
            label: 0,
            sees: 0,
        }),
        None => {}
    }
}

/// Lets a place go.
pub fn discard_standing(place: Standing) {
    match place {
        Standing::Here {
            rights,
            location,
            inside: _,
        } => {
            discard_rights(rights);
            discard_location(location)
        }
        Standing::LedBy(tree) => discard_tree(tree),
        Standing::Nowhere => {}
    }
}

/// Whether an optional on the way was nil.
pub fn is_nowhere(place: &Standing) -> bool
    ensures { result ≡ is_nowhere (standing_of place.now) }
{
    matches!(place, Standing::Nowhere)
}

/// The place of a variable of the newest call.
pub fn here_variable(n: usize) -> Standing
    ensures { standing_of result ≡ spec.here None (locations.variable n) 0 }
{
    Standing::Here {
        rights: None,
        location: Location::Variable(n),
        inside: 0,
    }
}

/// The place of a contract's value.
pub fn here_contract(id: &TypeId) -> Result<Standing, Stop>
    ensures { Gives standing_of (give (spec.here None (locations.contract id.now) 0)) result }
{
    match id.clone() {
        Ok(own) => Ok(Standing::Here {
            rights: None,
            location: Location::Contract(own),
            inside: 0,
        }),
        Err(_) => Err(Stop::Memory),
    }
}

/// The place to which a reference leads.
pub fn led_by(reference: Tree) -> Standing
    ensures { standing_of result ≡ spec.led_by (pure_tree reference) }
{
    Standing::LedBy(reference)
}

/// The place of the node with a label.
fn here_receiver(label: u64) -> Standing
    ensures { standing_of result ≡ spec.here None (locations.receiver label) 0 }
{
    Standing::Here {
        rights: None,
        location: Location::Receiver(label),
        inside: 0,
    }
}

/// The label of the receiver of the running function.
fn own_label(state: &RunState) -> Option<u64>
    ensures { result ≡ self_of (labels.newest (run_of state.now)) }
{
    match newest(state) {
        Some(call) => label_of_call(call),
        None => None,
    }
}

/// The label of the receiver of a call.
fn label_of_call(call: &Call) -> Option<u64>
    ensures { result ≡ (frame_of call.now).self }
{
    call.own
}

/// The place of the receiver of the running function; IllTyped where it has none.
pub fn own_self(state: &RunState) -> Result<Standing, Stop>
    ensures { CarriesOut standing_of own_self state.now state.now result }
{
    match own_label(state) {
        Some(label) => Ok(here_receiver(label)),
        None => Err(Stop::IllTyped),
    }
}

/// The place at a location in a node that is met with these rights: what is met through a reference is unauthorized.
pub(crate) fn standing_in(rights: Option<&Authorization>, location: Location) -> Standing
    ensures { standing_of result ≡ spec.here (spec.inner_rights (option_map (λ own. own.now) rights.entry)) (location_of location) 0 }
{
    Standing::Here {
        rights: inner_rights(rights),
        location,
        inside: 0,
    }
}

/// The rights with which what stands in a node is met that is met with these.
fn inner_rights(rights: Option<&Authorization>) -> Option<Authorization>
    ensures { result ≡ spec.inner_rights (option_map (λ own. own.now) rights.entry) }
{
    match rights {
        Some(_) => Some(Authorization::Unauthorized),
        None => None,
    }
}
