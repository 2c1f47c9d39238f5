// Programs of contracts that are kept, so that a code which was checked once isn't checked again.
ghost use Rattle.std.specs.Prelude.{◌≡◌, Some, IfOk, map, option_map};
ghost use Rattle.cad_loading.specs.Answers.{Loading};
ghost use Rattle.cad_loading.specs.Slots.{IsLoaded};
ghost use Rattle.cad_loading.specs.Views.{held_of, programs_of, slots_of};
ghost use Rattle.cad_loads.specs.Loads.{Loads, loaded_by};
ghost use Rattle.cad_loads.specs.Views.{source_of};
ghost use Rattle.cad_tables.specs.Views.{contracts_of};

use crate::held::{Held, all_held, discard_all_held};
use crate::meeting::begun;
use crate::passes::load_on;
use crate::progress::{Progress, discard_programs, has_gap};
use cad_declarations::Checked;
use cad_loads::Source;
use std::alloc::{AllocError, Global};
use std::marker::Model;
use std::mem::replace;
use std::rc::Rc;

/// Contracts that were deployed one after another, with their programs; contracts see how many they are.
pub struct Programs {
    all: Vec<Held>,
}

impl Model for Programs {
    ghost use Rattle.std.specs.Prelude.{ℕ, length, map};

    ghost Value = { ℕ };

    ghost use Rattle.cad_loads.specs.Loads.{Loads};
    ghost use Rattle.cad_loading.specs.Views.{held_of};

    ghost view = { λ kept. length kept.all.items };

    ghost invariant = { λ kept. Loads (map held_of kept.all.items) };
}

/// No contracts. It takes no memory.
pub fn nothing_kept(alloc: Global) -> Programs
    ensures { result ≡ 0 }
{
    Programs {
        all: Vec::new(alloc),
    }
}

/// Lets programs go that are kept.
pub fn discard_kept(kept: Programs) {
    let Programs { all } = kept;
    discard_all_held(all)
}

/// These are kept from now on.
fn put_in(kept: &mut Programs, all: Vec<Held>)
    requires { Loads (map held_of all.items) }
{
    discard_all_held(replace(&mut kept.all, all))
}

/// The programs of sources, which are kept from now on. Where memory fails, they are let go, and what was kept stays.
fn kept_too(
    alloc: Global,
    kept: &mut Programs,
    sources: &[Source],
    programs: Vec<Rc<Checked>>,
) -> Result<Option<Vec<Rc<Checked>>>, AllocError>
    requires { Loads (loaded_by (map source_of sources.now) (programs_of programs)) }
    ensures { IfOk result (λ answer. option_map programs_of answer ≡ Some (programs_of programs)) }
{
    match all_held(alloc, sources, programs.as_slice()) {
        Ok(all) => {
            put_in(kept, all);
            Ok(Some(programs))
        }
        Err(error) => {
            discard_programs(programs);
            Err(error)
        }
    }
}

/// Sources of which those are loaded that are kept, where all that are kept are among them in their order; else none is.
fn begun_by(alloc: Global, kept: &Programs, sources: &[Source]) -> Result<Progress, AllocError>
    ensures { IfOk result (λ state. IsLoaded (map source_of sources.now) (slots_of state.slots) (contracts_of state.deployed)) }
{
    begun(alloc, sources, kept.all.as_slice())
}

/// The programs of contracts, in their order, where these were deployed one after another, in whatever order; else none. A code is
/// checked where it isn't kept, or where not all that are kept are among the contracts in their order. The programs that are found
/// are kept. Memory fails too of an identifier that isn't an address and one name.
pub fn load_kept(
    alloc: Global,
    kept: &mut Programs,
    sources: &[Source],
) -> Result<Option<Vec<Rc<Checked>>>, AllocError>
    ensures { IfOk result (λ answer. Loading (map source_of sources.now) (option_map programs_of answer)) }
{
    let state = begun_by(alloc, kept, sources)?;
    let is_new = has_gap(&state);
    let found = load_on(alloc, sources, state)?;
    match found {
        Some(programs) => {
            if !is_new {
                return Ok(Some(programs));
            }
            kept_too(alloc, kept, sources, programs)
        }
        None => Ok(None),
    }
}
