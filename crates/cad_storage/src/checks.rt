// `check`: whether what is stored is of a type.
ghost use Rattle.std.specs.Prelude.{Some, option_map};
ghost use Rattle.cad_evaluation.specs.Storage as spec;
ghost use Rattle.cad_rows.specs.Views.{pure_row, pure_tree};
ghost use Rattle.cad_state.specs.Views.{CarriesOut, FindsAndCarriesOut};
ghost use Rattle.cad_storage.specs.Code as code;
ghost use Rattle.cad_syntax.specs.Types.{pure_type};

use crate::arguments::identifier_at;
use crate::types::stored_type;
use cad_casts::is_instance;
use cad_declarations::discard_type;
use cad_operators::bool_tree;
use cad_outcomes::Stop;
use cad_rows::{Place, Tree};
use cad_state::RunState;
use cad_syntax::{Address, CadType, Name};

/// Whether an own type is below a type.
fn is_below(state: &RunState, own: CadType, wanted: &CadType) -> Result<bool, Stop>
    ensures { CarriesOut (λ is. is) (code.is_of (Some (pure_type own)) (pure_type wanted.now)) state.now state.now result }
{
    let passes = is_instance(state, &own, wanted);
    discard_type(own);
    match passes {
        Ok(is) => Ok(is),
        Err(_) => Err(Stop::Memory),
    }
}

/// Whether there is something, told by its own type, and it is of a type.
fn is_of(state: &RunState, own: Option<CadType>, wanted: &CadType) -> Result<bool, Stop>
    ensures { CarriesOut (λ is. is) (code.is_of (option_map pure_type own) (pure_type wanted.now)) state.now state.now result }
{
    match own {
        Some(stored) => is_below(state, stored, wanted),
        None => Ok(false),
    }
}

/// Whether an account stores something of a type under an identifier.
fn is_stored_as(
    state: &mut RunState,
    wanted: &CadType,
    address: Address,
    name: &Name,
) -> Result<bool, Stop>
    ensures { FindsAndCarriesOut (λ is. is) (code.at_stored (spec.is_stored_as (pure_type wanted.now)) address name.now) state.old state.new result }
{
    match stored_type(state, address, name) {
        Ok(own) => is_of(state, own, wanted),
        Err(stop) => Err(stop),
    }
}

/// The same, as a value.
fn check_at(
    state: &mut RunState,
    wanted: &CadType,
    address: Address,
    name: &Name,
) -> Result<Tree, Stop>
    ensures { FindsAndCarriesOut pure_tree (code.at_stored (code.checked (pure_type wanted.now)) address name.now) state.old state.new result }
{
    match is_stored_as(state, wanted, address, name) {
        Ok(is) => Ok(bool_tree(*state.making.allocator(), is)),
        Err(stop) => Err(stop),
    }
}

/// Whether an account stores something of the type under the path that the argument is. ReferenceInvalid where a reference to what is
/// gone is stored, IllTyped where the argument is no path into storage.
pub fn check(
    state: &mut RunState,
    wanted: &CadType,
    row: &[Place],
    address: Address,
) -> Result<Tree, Stop>
    ensures { FindsAndCarriesOut pure_tree (spec.check (pure_type wanted.now) (pure_row row.now) address) state.old state.new result }
{
    match identifier_at(row, 0) {
        Some(name) => check_at(state, wanted, address, name),
        None => Err(Stop::IllTyped),
    }
}
