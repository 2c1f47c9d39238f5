// References to what accounts store.
ghost use Rattle.cad_receivers.specs.Code.Stored as code;
ghost use Rattle.cad_receivers.specs.Settled.{settled_stored, stood_lent};
ghost use Rattle.cad_receivers.specs.Views.{settled_of};
ghost use Rattle.cad_rows.specs.Places.{pure_slot};
ghost use Rattle.cad_rows.specs.Views.{pure_tree};
ghost use Rattle.cad_state.specs.Views.{CarriesOut, FindsAndCarriesOut};
ghost use Rattle.cad_syntax.specs.Types.{pure_type};
ghost use Rattle.cad_world.specs.Locations as locations;

use crate::receivers::Settled;
use crate::trees::{optionals, shape};
use cad_casts::{is_instance, type_here};
use cad_declarations::discard_type;
use cad_outcomes::{RunError, Stop};
use cad_rows::{Slot, Tree};
use cad_run_accounts::{name_stored, stored_slot};
use cad_state::RunState;
use cad_syntax::{Address, CadType, Name};
use cad_values::Reference;

/// In so many optionals is what is of the first type; DereferenceFailed where that isn't below the type that is referred to.
fn depth_of_own(state: &RunState, wanted: &CadType, own: CadType, depth: u64) -> Result<u64, Stop>
    ensures { CarriesOut (λ n. n) (code.depth_of_own (pure_type wanted.now) (pure_type own) depth) state.now state.now result }
{
    let is_there = is_instance(state, &own, wanted);
    discard_type(own);
    match is_there {
        Ok(true) => Ok(depth),
        Ok(false) => Err(Stop::Failed(RunError::DereferenceFailed)),
        Err(_) => Err(Stop::Memory),
    }
}

/// In how many optionals a value is that is referred to by this type: DereferenceFailed where it isn't of the type,
/// ReferenceInvalid where it is a reference to what is gone.
fn depth_of_type(state: &RunState, wanted: &CadType, tree: &Tree) -> Result<u64, Stop>
    ensures { FindsAndCarriesOut (λ n. n) (code.depth_of_type (pure_type wanted.now) (pure_tree tree.now)) state.now state.now result }
{
    match type_here(state, optionals(tree), shape(tree)) {
        Ok(own) => depth_of_own(state, wanted, own, optionals(tree)),
        Err(stop) => Err(stop),
    }
}

/// The same of what stands in a place: DereferenceFailed where nothing does.
fn depth_in(state: &RunState, wanted: &CadType, slot: Slot<'_>) -> Result<u64, Stop>
    ensures { FindsAndCarriesOut (λ n. n) (code.depth_in (pure_type wanted.now) (pure_slot slot.entry)) state.now state.now result }
{
    match slot {
        Slot::Full(tree) => depth_of_type(state, wanted, tree),
        Slot::Free => Err(Stop::Failed(RunError::DereferenceFailed)),
        Slot::Out => Err(Stop::Failed(RunError::DereferenceFailed)),
    }
}

/// The same of what an account stores under an identifier.
fn depth_stored(
    state: &RunState,
    wanted: &CadType,
    address: Address,
    path: &Name,
) -> Result<u64, Stop>
    ensures { FindsAndCarriesOut (λ n. n) (code.depth_stored (pure_type wanted.now) address.0 path.now) state.now state.now result }
{
    match stored_slot(state, address, path) {
        Ok(slot) => depth_in(state, wanted, slot),
        Err(_) => Err(Stop::Memory),
    }
}

/// What is stored is named, and is met with the rights of the reference to it, seen in so many optionals.
fn stand_stored<'a>(
    state: &mut RunState,
    reference: &'a Reference,
    address: Address,
    path: &Name,
    sees: u64,
) -> Result<Settled<'a>, Stop>
    ensures { FindsAndCarriesOut settled_of (stood_lent reference.now.authorization (locations.stored address.0 path.now) sees) state.old state.new result }
{
    match name_stored(state, address, path) {
        Ok(label) => Ok(Settled::Standing {
            rights: Some(&reference.authorization),
            label,
            sees,
        }),
        Err(stop) => Err(stop),
    }
}

/// What a reference to storage is settled to: the node that is stored, which gets one label more. DereferenceFailed where nothing
/// is stored there, or nothing of the type of the reference.
pub(crate) fn settle_stored<'a>(
    state: &mut RunState,
    reference: &'a Reference,
    address: Address,
    path: &Name,
) -> Result<Settled<'a>, Stop>
    ensures { FindsAndCarriesOut settled_of (settled_stored reference.now.authorization (pure_type reference.now.target) address.0 path.now) state.old state.new result }
{
    match depth_stored(state, &reference.target, address, path) {
        Ok(sees) => stand_stored(state, reference, address, path, sees),
        Err(stop) => Err(stop),
    }
}
