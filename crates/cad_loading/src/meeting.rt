// Sources of which some are kept with their programs.
ghost use Rattle.std.specs.Prelude.{◌≡◌, ◌++◌, ◌∷◌, [], Some, true, IfOk, OnOk, map};
ghost use Rattle.cad_loading.specs.Again.{all_met, first_slot, left_behind, same_source, slots_by};
ghost use Rattle.cad_loading.specs.Slots.{IsLoaded};
ghost use Rattle.cad_loading.specs.Views.{held_of, slots_of};
ghost use Rattle.cad_loads.specs.Loads as loads;
ghost use Rattle.cad_loads.specs.Loads.{Loads, entries_of};
ghost use Rattle.cad_loads.specs.Views.{source_of};
ghost use Rattle.cad_state.specs.Views.{program_of};
ghost use Rattle.cad_tables.specs.Views.{contracts_of};

use crate::deployed::deployed_held;
use crate::held::Held;
use crate::progress::{Progress, discard_slot, discard_slots, nothing_loaded, push_empty};
use cad_declarations::Checked;
use cad_discards::hold;
use cad_loads::Source;
use std::alloc::{AllocError, Global};
use std::rc::Rc;

/// Whether a source is the one that is kept.
fn is_same(source: &Source, held: &Held) -> bool
    ensures { result ≡ same_source (source_of source.now) (loads.source_of (held_of held.now)) }
{
    source.id.same(&held.source.id) && source.code.as_slice() == held.source.code.as_slice()
}

/// Appends a slot with a program, which is shared.
fn push_full(slots: &mut Vec<Option<Rc<Checked>>>, checked: &Rc<Checked>) -> Result<(), AllocError>
    ensures { OnOk result (slots_of slots.new ≡ slots_of slots.old ++ Some (program_of checked.now.value) ∷ []) }
{
    match slots.push(Some(hold(checked)?)) {
        Ok(()) => Ok(()),
        Err(refused) => {
            discard_slot(refused.value);
            Err(AllocError)
        }
    }
}

/// Appends the slot of a source: with the program of the first that is kept, where it is this source; then it is behind, and gives
/// those that are left.
fn push_next<'a>(
    slots: &mut Vec<Option<Rc<Checked>>>,
    source: &Source,
    kept: &'a [Held],
) -> Result<&'a [Held], AllocError>
    ensures slots { OnOk result (slots_of slots.new ≡ slots_of slots.old ++ first_slot (source_of source.now) (map held_of kept.now) ∷ []) }
    ensures left { IfOk result (λ left. map held_of left.now ≡ left_behind (source_of source.now) (map held_of kept.now)) }
{
    match kept.split_first() {
        Some((first, rest)) => {
            if is_same(source, first) {
                push_full(slots, &first.checked)?;
                return Ok(rest);
            }
            push_empty(slots)?;
            Ok(kept)
        }
        None => {
            push_empty(slots)?;
            Ok(kept)
        }
    }
}

/// Appends a slot for each source, with its program where it is kept. Tells whether all that are kept are among the sources, in
/// their order.
fn push_met(
    slots: &mut Vec<Option<Rc<Checked>>>,
    sources: &[Source],
    kept: &[Held],
) -> Result<bool, AllocError>
    ensures slots { OnOk result (slots_of slots.new ≡ slots_of slots.old ++ slots_by (map source_of sources.now) (map held_of kept.now)) }
    ensures all { IfOk result (λ are_all. are_all ≡ all_met (map source_of sources.now) (map held_of kept.now)) }
{
    let mut left = kept;
    for source in sources {
        left = push_next(slots, source, left)?;
    }
    Ok(left.is_empty())
}

/// Those are loaded that are kept. Where memory fails, the slots are let go.
fn with_slots(
    alloc: Global,
    slots: Vec<Option<Rc<Checked>>>,
    kept: &[Held],
) -> Result<Progress, AllocError>
    ensures { IfOk result (λ state. (slots_of state.slots ≡ slots_of slots) × (contracts_of state.deployed ≡ entries_of (map held_of kept.now))) }
{
    match deployed_held(alloc, kept) {
        Ok(deployed) => Ok(Progress { slots, deployed }),
        Err(error) => {
            discard_slots(slots);
            Err(error)
        }
    }
}

/// Sources of which those are loaded that are kept, where all that are kept are among them in their order; else none is.
pub(crate) fn begun(
    alloc: Global,
    sources: &[Source],
    kept: &[Held],
) -> Result<Progress, AllocError>
    requires { Loads (map held_of kept.now) }
    ensures { IfOk result (λ state. IsLoaded (map source_of sources.now) (slots_of state.slots) (contracts_of state.deployed)) }
{
    let mut slots = Vec::new(alloc);
    match push_met(&mut slots, sources, kept) {
        Ok(true) => {
            let state = with_slots(alloc, slots, kept)?;
            Ok(state)
        }
        Ok(false) => {
            discard_slots(slots);
            let state = nothing_loaded(alloc, sources)?;
            Ok(state)
        }
        Err(error) => {
            discard_slots(slots);
            Err(error)
        }
    }
}
