// Members of capabilities.
ghost use Rattle.cad_capabilities.specs.Views as views;
ghost use Rattle.cad_evaluation.specs.Capabilities.{on_capability};
ghost use Rattle.cad_outcomes.specs.Outcomes.{Gives};
ghost use Rattle.cad_receivers.specs.Views.{at_spot, settled_of, spot_of};
ghost use Rattle.cad_rows.specs.Views.{pure_tree};
ghost use Rattle.cad_services.specs.Code.Services as spec;
ghost use Rattle.cad_state.specs.Views.{FindsAndCarriesOut};

use crate::groups::ValueMember;
use cad_capabilities::{capability_of, lend, lends, read_home, read_number};
use cad_outcomes::Stop;
use cad_receivers::{Settled, Spot, look};
use cad_rows::Tree;
use cad_state::RunState;
use cad_values::Cap;

/// The capability that a spot is; IllTyped of anything else.
fn capability_told(spot: Spot<'_>) -> Result<Cap, Stop>
    ensures { Gives views.capability_of (spec.capability_at (spot_of spot.entry)) result }
{
    match capability_of(spot.optionals, spot.shape) {
        Ok(Some(cap)) => Ok(cap),
        Ok(None) => Err(Stop::IllTyped),
        Err(_) => Err(Stop::Memory),
    }
}

/// The capability that a receiver that was settled is; IllTyped of anything else.
fn capability_at(state: &RunState, receiver: Settled<'_>) -> Result<Cap, Stop>
    ensures { FindsAndCarriesOut views.capability_of (at_spot (settled_of receiver.entry) spec.capability_at) state.now state.now result }
{
    match look(state, receiver) {
        Ok(spot) => capability_told(spot),
        Err(stop) => Err(stop),
    }
}

/// A member of a capability.
fn member_of(state: &mut RunState, member: ValueMember, cap: &Cap) -> Result<Tree, Stop>
    ensures { FindsAndCarriesOut pure_tree (spec.value_member member (views.capability_of cap.now)) state.old state.new result }
{
    match member {
        ValueMember::Number => read_number(*state.making.allocator(), cap),
        ValueMember::Home => read_home(*state.making.allocator(), cap),
        ValueMember::Borrow => lend(state, cap),
        ValueMember::Check => lends(state, cap),
    }
}

/// A member of the capability that a receiver that was settled is.
pub(crate) fn value_member(
    state: &mut RunState,
    member: ValueMember,
    receiver: Settled<'_>,
) -> Result<Tree, Stop>
    ensures { FindsAndCarriesOut pure_tree (at_spot (settled_of receiver.entry) (λ spot. on_capability spot (spec.value_member member))) state.old state.new result }
{
    match capability_at(state, receiver) {
        Ok(cap) => member_of(state, member, &cap),
        Err(stop) => Err(stop),
    }
}
