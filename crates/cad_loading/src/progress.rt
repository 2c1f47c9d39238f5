// What is loaded so far.
ghost use Rattle.std.specs.Prelude.{◌≡◌, ◌<◌, ◌++◌, ◌∷◌, [], None, Some, IfOk, OnOk, length, map, option_map, set, slice_get};
ghost use Rattle.cad_declarations.specs.Imports.{contract_entry};
ghost use Rattle.cad_loading.specs.Slots.{gathered, if_whole, is_gap, no_programs, some_gap};
ghost use Rattle.cad_loading.specs.Views.{programs_of, slot_of, slots_of};
ghost use Rattle.cad_state.specs.Views.{program_of};
ghost use Rattle.cad_tables.specs.Views.{contracts_of};

use crate::deployed::push_installed;
use cad_declarations::{Checked, Deployed};
use cad_discards::{discard_checked, discard_deployed, hold};
use cad_loads::Source;
use cad_state::discard_shared;
use cad_tables::no_contracts;
use std::alloc::{AllocError, Global};
use std::mem::replace;
use std::rc::Rc;

/// Sources on the way.
pub(crate) struct Progress {
    /// The program of each source that is loaded.
    pub slots: Vec<Option<Rc<Checked>>>,
    /// These, as code is checked beside them, in the order in which they were loaded.
    pub deployed: Deployed,
}

// ---- slots

/// Lets a slot go.
pub(crate) fn discard_slot(slot: Option<Rc<Checked>>) {
    match slot {
        Some(shared) => discard_shared(shared),
        None => {}
    }
}

/// Lets slots go.
pub(crate) fn discard_slots(slots: Vec<Option<Rc<Checked>>>) {
    let mut left = slots;
    while let Some(slot) = left.pop() {
        discard_slot(slot);
    }
    left.destroy_empty()
}

/// Appends a slot without a program.
pub(crate) fn push_empty(slots: &mut Vec<Option<Rc<Checked>>>) -> Result<(), AllocError>
    ensures { OnOk result (slots_of slots.new ≡ slots_of slots.old ++ None ∷ []) }
{
    match slots.push(None) {
        Ok(()) => Ok(()),
        Err(refused) => {
            discard_slot(refused.value);
            Err(AllocError)
        }
    }
}

/// Appends a slot for each source.
fn push_slots(slots: &mut Vec<Option<Rc<Checked>>>, sources: &[Source]) -> Result<(), AllocError>
    ensures { OnOk result (slots_of slots.new ≡ slots_of slots.old ++ no_programs sources.now) }
{
    for _source in sources {
        push_empty(slots)?;
    }
    Ok(())
}

/// Whether a slot is there, and has no program.
fn is_empty(slots: &[Option<Rc<Checked>>], at: usize) -> bool
    ensures { result ≡ is_gap (slice_get (map slot_of slots.now) at) }
{
    match slots.get(at) {
        Some(slot) => slot.is_none(),
        None => false,
    }
}

/// Whether a slot has no program.
fn is_any_empty(slots: &[Option<Rc<Checked>>]) -> bool
    ensures { result ≡ some_gap (map slot_of slots.now) }
{
    for slot in slots {
        if slot.is_none() {
            return true;
        }
    }
    false
}

/// A program comes into a slot.
fn fill(slots: &mut Vec<Option<Rc<Checked>>>, at: usize, shared: Rc<Checked>)
    requires { at < length (slots_of slots.old) }
    ensures { slots_of slots.new ≡ set (slots_of slots.old) at (Some (program_of shared.value)) }
{
    discard_slot(replace(&mut slots[at], Some(shared)))
}

// ---- progress

/// Lets progress go.
pub(crate) fn discard_progress(state: Progress) {
    let Progress { slots, deployed } = state;
    discard_slots(slots);
    discard_deployed(deployed)
}

/// None of these sources is loaded.
pub(crate) fn nothing_loaded(alloc: Global, sources: &[Source]) -> Result<Progress, AllocError>
    ensures slots { IfOk result (λ state. slots_of state.slots ≡ no_programs sources.now) }
    ensures deployed { IfOk result (λ state. contracts_of state.deployed ≡ []) }
{
    let mut slots = Vec::new(alloc);
    match push_slots(&mut slots, sources) {
        Ok(()) => Ok(Progress {
            slots,
            deployed: no_contracts(alloc),
        }),
        Err(error) => {
            discard_slots(slots);
            Err(error)
        }
    }
}

/// Whether the source in a place is left.
pub(crate) fn is_left(state: &Progress, at: usize) -> bool
    ensures { result ≡ is_gap (slice_get (slots_of state.now.slots) at) }
{
    is_empty(state.slots.as_slice(), at)
}

/// Whether a source is left.
pub(crate) fn has_gap(state: &Progress) -> bool
    ensures { result ≡ some_gap (slots_of state.now.slots) }
{
    is_any_empty(state.slots.as_slice())
}

/// A source in a place is loaded as a program that is shared.
fn put_shared(
    source: &Source,
    at: usize,
    shared: Rc<Checked>,
    state: &mut Progress,
) -> Result<(), AllocError>
    requires { at < length (slots_of state.old.slots) }
    ensures slots { OnOk result (slots_of state.new.slots ≡ set (slots_of state.old.slots) at (Some (program_of shared.value))) }
    ensures deployed { OnOk result (contracts_of state.new.deployed ≡ contracts_of state.old.deployed ++ contract_entry source.now.id (program_of shared.value).tables ∷ []) }
{
    match push_installed(
        &mut state.deployed.contracts,
        &source.id,
        &source.code,
        &shared,
    ) {
        Ok(()) => {
            fill(&mut state.slots, at, shared);
            Ok(())
        }
        Err(error) => {
            discard_shared(shared);
            Err(error)
        }
    }
}

/// A source in a place is loaded as a program.
pub(crate) fn put(
    alloc: Global,
    source: &Source,
    at: usize,
    checked: Checked,
    state: &mut Progress,
) -> Result<(), AllocError>
    requires { at < length (slots_of state.old.slots) }
    ensures slots { OnOk result (slots_of state.new.slots ≡ set (slots_of state.old.slots) at (Some (program_of checked))) }
    ensures deployed { OnOk result (contracts_of state.new.deployed ≡ contracts_of state.old.deployed ++ contract_entry source.now.id (program_of checked).tables ∷ []) }
{
    match Rc::new(alloc, checked) {
        Ok(shared) => put_shared(source, at, shared, state),
        Err(refused) => {
            discard_checked(refused.value);
            Err(AllocError)
        }
    }
}

// ---- the programs of all

/// Lets programs go.
pub fn discard_programs(programs: Vec<Rc<Checked>>) {
    let mut left = programs;
    while let Some(shared) = left.pop() {
        discard_shared(shared);
    }
    left.destroy_empty()
}

/// Appends a program, which is shared.
fn push_program(all: &mut Vec<Rc<Checked>>, shared: &Rc<Checked>) -> Result<(), AllocError>
    ensures { OnOk result (programs_of all.new ≡ programs_of all.old ++ program_of shared.now.value ∷ []) }
{
    match all.push(hold(shared)?) {
        Ok(()) => Ok(()),
        Err(refused) => {
            discard_shared(refused.value);
            Err(AllocError)
        }
    }
}

/// Appends the programs in slots. Tells whether each has one.
fn push_programs(
    all: &mut Vec<Rc<Checked>>,
    slots: &[Option<Rc<Checked>>],
) -> Result<bool, AllocError>
    ensures { IfOk result (λ is_whole. if_whole is_whole (programs_of all.new) ≡ gathered (programs_of all.old) (map slot_of slots.now)) }
{
    for slot in slots {
        match slot {
            Some(shared) => push_program(all, shared)?,
            None => return Ok(false),
        }
    }
    Ok(true)
}

/// The programs in slots, where each has one.
fn programs_in(
    alloc: Global,
    slots: &[Option<Rc<Checked>>],
) -> Result<Option<Vec<Rc<Checked>>>, AllocError>
    ensures { IfOk result (λ all. option_map programs_of all ≡ gathered [] (map slot_of slots.now)) }
{
    let mut all = Vec::new(alloc);
    match push_programs(&mut all, slots) {
        Ok(true) => Ok(Some(all)),
        Ok(false) => {
            discard_programs(all);
            Ok(None)
        }
        Err(error) => {
            discard_programs(all);
            Err(error)
        }
    }
}

/// The programs of all sources, where each is loaded.
pub(crate) fn finished(
    alloc: Global,
    state: Progress,
) -> Result<Option<Vec<Rc<Checked>>>, AllocError>
    ensures { IfOk result (λ all. option_map programs_of all ≡ gathered [] (slots_of state.slots)) }
{
    let programs = programs_in(alloc, state.slots.as_slice());
    discard_progress(state);
    programs
}
