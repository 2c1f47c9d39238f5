// Contracts that are read from their codes.
ghost use Rattle.std.specs.Prelude.{◌≡◌, Some, List, IfOk, OnOk, map, option_map, slice_get};
ghost use Rattle.cad_loading.specs.Answers.{Loading};
ghost use Rattle.cad_loading.specs.Slots.{AreAtRest, IsLoaded, Passed, Tried};
ghost use Rattle.cad_loading.specs.Views.{programs_of, slots_of};
ghost use Rattle.cad_loads.specs.Loads as loads;
ghost use Rattle.cad_loads.specs.Views.{source_of};
ghost use Rattle.cad_tables.specs.Views.{contracts_of};

use crate::deployed::is_taken;
use crate::loading::standing_program;
use crate::progress::{Progress, discard_progress, finished, is_left, put};
use cad_check::one_acceptance;
use cad_declarations::Checked;
use cad_loads::Source;
use cad_table_laws::imports_are_enough;
use std::alloc::{AllocError, Global};
use std::rc::Rc;

/// Loads the source in a place, where it is left and stands beside those that are loaded. Tells whether it was loaded.
fn load_at(
    alloc: Global,
    source: &Source,
    at: usize,
    state: &mut Progress,
) -> Result<bool, AllocError>
    ensures { (sources : List loads.Source) → slice_get sources at ≡ Some (source_of source.now) → IsLoaded sources (slots_of state.old.slots) (contracts_of state.old.deployed) → IfOk result (Tried sources at (slots_of state.old.slots) (contracts_of state.old.deployed) (slots_of state.new.slots) (contracts_of state.new.deployed)) }
{
    if !is_left(state, at) {
        return Ok(false);
    }
    let is_there = is_taken(&source.id, &state.deployed)?;
    if is_there {
        return Ok(false);
    }
    let found = standing_program(alloc, source, &state.deployed)?;
    match found {
        Some(checked) => {
            put(alloc, source, at, checked, state)?;
            Ok(true)
        }
        None => Ok(false),
    }
}

/// Loads each source that is left and stands beside those that are loaded by then. Tells whether one was loaded.
fn pass(alloc: Global, sources: &[Source], state: &mut Progress) -> Result<bool, AllocError>
    requires { IsLoaded (map source_of sources.now) (slots_of state.old.slots) (contracts_of state.old.deployed) }
    ensures { IfOk result (Passed (map source_of sources.now) (slots_of state.old.slots) (contracts_of state.old.deployed) (slots_of state.new.slots) (contracts_of state.new.deployed)) }
{
    let mut is_any = false;
    for at in 0..sources.len() {
        let is_loaded = load_at(alloc, &sources[at], at, state)?;
        is_any |= is_loaded;
    }
    Ok(is_any)
}

/// Loads sources until all that are left rest.
fn settle(alloc: Global, sources: &[Source], state: &mut Progress) -> Result<(), AllocError>
    requires { IsLoaded (map source_of sources.now) (slots_of state.old.slots) (contracts_of state.old.deployed) }
    ensures loaded { OnOk result (IsLoaded (map source_of sources.now) (slots_of state.new.slots) (contracts_of state.new.deployed)) }
    ensures rests { OnOk result (AreAtRest (contracts_of state.new.deployed) (map source_of sources.now) (slots_of state.new.slots)) }
{
    loop {
        let is_any = pass(alloc, sources, state)?;
        if !is_any {
            return Ok(());
        }
    }
}

/// The programs of contracts, in their order, where these were deployed one after another, in whatever order; else none. Some of
/// them may be loaded already. Memory fails too of an identifier that isn't an address and one name.
pub(crate) fn load_on(
    alloc: Global,
    sources: &[Source],
    begun: Progress,
) -> Result<Option<Vec<Rc<Checked>>>, AllocError>
    requires { IsLoaded (map source_of sources.now) (slots_of begun.slots) (contracts_of begun.deployed) }
    ensures { IfOk result (λ answer. Loading (map source_of sources.now) (option_map programs_of answer)) }
{
    one_acceptance();
    imports_are_enough();
    let mut state = begun;
    match settle(alloc, sources, &mut state) {
        Ok(()) => finished(alloc, state),
        Err(error) => {
            discard_progress(state);
            Err(error)
        }
    }
}
