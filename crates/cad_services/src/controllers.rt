// Members of controllers.
ghost use Rattle.std.specs.Prelude.{◌≡◌, Some};
ghost use Rattle.cad_capabilities.specs.Views.{id_of};
ghost use Rattle.cad_evaluation.specs.Capabilities.{controller_in_value};
ghost use Rattle.cad_evaluation.specs.Texts.{in_tree};
ghost use Rattle.cad_outcomes.specs.Outcomes.{Gives};
ghost use Rattle.cad_receivers.specs.Views.{at_spot, settled_of, spot_of};
ghost use Rattle.cad_rows.specs.Views.{pure_row, pure_tree};
ghost use Rattle.cad_services.specs.Code.Services as spec;
ghost use Rattle.cad_state.specs.Views.{CarriesOut, FindsAndCarriesOut};
ghost use Rattle.cad_world.specs.Receivers as receivers;

use crate::groups::ControllerMember;
use cad_capabilities::{
    ControllerId, controller_in, delete, read_borrow_type, read_controller_number, read_tag,
    read_target, retarget, set_tag,
};
use cad_outcomes::Stop;
use cad_receivers::{Settled, Spot, look};
use cad_rows::{Place, Tree};
use cad_state::RunState;

/// The controller to which a spot leads; IllTyped of anything else.
fn controller_told(spot: Spot<'_>) -> Result<ControllerId, Stop>
    ensures { Gives id_of (spec.controller_of (spot_of spot.entry)) result }
{
    match controller_in(spot.optionals, spot.shape) {
        Some(id) => Ok(id),
        None => Err(Stop::IllTyped),
    }
}

/// The controller to which a receiver that was settled leads; IllTyped of anything else.
fn controller_of(state: &RunState, receiver: Settled<'_>) -> Result<ControllerId, Stop>
    ensures { FindsAndCarriesOut id_of (at_spot (settled_of receiver.entry) spec.controller_of) state.now state.now result }
{
    match look(state, receiver) {
        Ok(spot) => controller_told(spot),
        Err(stop) => Err(stop),
    }
}

/// A member of a controller.
fn member_of(
    state: &mut RunState,
    member: ControllerMember,
    row: &[Place],
    id: ControllerId,
) -> Result<Tree, Stop>
    ensures { (spot : receivers.Spot) → in_tree controller_in_value spot.tree ≡ Some (id_of id) → CarriesOut pure_tree (spec.controller_member member (pure_row row.now) spot) state.old state.new result }
{
    match member {
        ControllerMember::Number => read_controller_number(state, id),
        ControllerMember::BorrowType => read_borrow_type(state, id),
        ControllerMember::Tag => read_tag(state, id),
        ControllerMember::SetTag => set_tag(state, row, id),
        ControllerMember::Target => read_target(state, id),
        ControllerMember::Retarget => retarget(state, row, id),
        ControllerMember::Delete => delete(state, id),
    }
}

/// A member of the controller to which a receiver that was settled leads.
pub(crate) fn controller_member(
    state: &mut RunState,
    member: ControllerMember,
    row: &[Place],
    receiver: Settled<'_>,
) -> Result<Tree, Stop>
    ensures { FindsAndCarriesOut pure_tree (at_spot (settled_of receiver.entry) (spec.controller_member member (pure_row row.now))) state.old state.new result }
{
    match controller_of(state, receiver) {
        Ok(id) => member_of(state, member, row, id),
        Err(stop) => Err(stop),
    }
}
