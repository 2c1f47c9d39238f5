// What is stored must be of a type before it is used.
ghost use Rattle.std.specs.Prelude.{Some, option_map};
ghost use Rattle.cad_evaluation.specs.Storage as spec;
ghost use Rattle.cad_state.specs.Views.{CarriesOut, FindsAndCarriesOut};
ghost use Rattle.cad_storage.specs.Code as code;
ghost use Rattle.cad_syntax.specs.Types.{pure_type};

use crate::types::stored_type;
use cad_casts::is_instance;
use cad_declarations::discard_type;
use cad_outcomes::{RunError, Stop};
use cad_state::RunState;
use cad_syntax::{Address, CadType, Name};

/// StoredTypeMismatch where an own type isn't below a type.
fn check_own(state: &RunState, own: CadType, wanted: &CadType) -> Result<bool, Stop>
    ensures { CarriesOut (λ is. is) (code.passed (Some (pure_type own)) (pure_type wanted.now)) state.now state.now result }
{
    let is_below = is_instance(state, &own, wanted);
    discard_type(own);
    match is_below {
        Ok(true) => Ok(true),
        Ok(false) => Err(Stop::Failed(RunError::StoredTypeMismatch)),
        Err(_) => Err(Stop::Memory),
    }
}

/// Whether there is something, told by its own type. StoredTypeMismatch where it isn't of a type.
fn passes(state: &RunState, own: Option<CadType>, wanted: &CadType) -> Result<bool, Stop>
    ensures { CarriesOut (λ is. is) (code.passed (option_map pure_type own) (pure_type wanted.now)) state.now state.now result }
{
    match own {
        Some(stored) => check_own(state, stored, wanted),
        None => Ok(false),
    }
}

/// Whether an account stores something under an identifier. StoredTypeMismatch where it isn't of a type, ReferenceInvalid where it is a
/// reference to what is gone.
pub(crate) fn is_there(
    state: &mut RunState,
    wanted: &CadType,
    address: Address,
    name: &Name,
) -> Result<bool, Stop>
    ensures { FindsAndCarriesOut (λ is. is) (code.at_stored (code.there_as (pure_type wanted.now)) address name.now) state.old state.new result }
{
    match stored_type(state, address, name) {
        Ok(own) => passes(state, own, wanted),
        Err(stop) => Err(stop),
    }
}
