// `load`: what is stored leaves its place.
ghost use Rattle.cad_evaluation.specs.Storage as spec;
ghost use Rattle.cad_rows.specs.Views.{pure_row, pure_tree};
ghost use Rattle.cad_state.specs.Views.{CarriesOut, FindsAndCarriesOut};
ghost use Rattle.cad_storage.specs.Code as code;
ghost use Rattle.cad_syntax.specs.Types.{pure_type};

use crate::arguments::identifier_at;
use crate::typed::is_there;
use crate::units::{pay_stored, wrap};
use cad_operators::nil_tree;
use cad_outcomes::Stop;
use cad_rows::{Place, Tree};
use cad_run_accounts::take_stored;
use cad_state::RunState;
use cad_syntax::{Address, CadType, Name};

/// What is stored leaves its place, in an optional.
fn take(state: &mut RunState, address: Address, name: &Name) -> Result<Tree, Stop>
    ensures { CarriesOut pure_tree (code.at_stored (code.of_full (code.taken address name.now)) address name.now) state.old state.new result }
{
    match take_stored(state, address, name) {
        Ok(Some(tree)) => match wrap(tree) {
            Ok(optional) => Ok(optional),
            Err(_) => Err(Stop::Memory),
        },
        Ok(None) => Err(Stop::Memory),
        Err(_) => Err(Stop::Memory),
    }
}

/// The same, and its parts are paid before.
fn pay_and_take(state: &mut RunState, address: Address, name: &Name) -> Result<Tree, Stop>
    ensures { CarriesOut pure_tree (code.at_stored (code.of_full (code.paid_and_taken address name.now)) address name.now) state.old state.new result }
{
    match pay_stored(state, address, name) {
        Ok(()) => take(state, address, name),
        Err(stop) => Err(stop),
    }
}

/// What an account stores under an identifier leaves its place if it is of the type; nil where nothing is stored.
fn load_at(
    state: &mut RunState,
    wanted: &CadType,
    address: Address,
    name: &Name,
) -> Result<Tree, Stop>
    ensures { FindsAndCarriesOut pure_tree (code.at_stored (spec.loaded address name.now (pure_type wanted.now)) address name.now) state.old state.new result }
{
    match is_there(state, wanted, address, name) {
        Ok(true) => pay_and_take(state, address, name),
        Ok(false) => Ok(nil_tree(*state.making.allocator())),
        Err(stop) => Err(stop),
    }
}

/// What an account stores under the path that the argument is leaves its place, in an optional, with a unit for each part of it but the
/// first; nil where nothing is stored. StoredTypeMismatch where it isn't of the type, ReferenceInvalid where it is a reference to what
/// is gone, Limit where so many units aren't left, IllTyped where the argument is no path into storage.
pub fn load(
    state: &mut RunState,
    wanted: &CadType,
    row: &[Place],
    address: Address,
) -> Result<Tree, Stop>
    ensures { FindsAndCarriesOut pure_tree (spec.load (pure_type wanted.now) (pure_row row.now) address) state.old state.new result }
{
    match identifier_at(row, 0) {
        Some(name) => load_at(state, wanted, address, name),
        None => Err(Stop::IllTyped),
    }
}
