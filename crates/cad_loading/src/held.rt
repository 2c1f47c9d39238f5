// Contracts with their programs, as they are kept.
ghost use Rattle.std.specs.Prelude.{◌≡◌, ◌++◌, ◌∷◌, [], IfOk, OnOk, map};
ghost use Rattle.cad_loading.specs.Views.{held_of, shared_program};
ghost use Rattle.cad_loads.specs.Loads.{loaded_as, loaded_by};
ghost use Rattle.cad_loads.specs.Views.{source_of};
ghost use Rattle.cad_state.specs.Views.{program_of};

use cad_declarations::Checked;
use cad_discards::hold;
use cad_loads::Source;
use cad_state::discard_shared;
use std::alloc::{AllocError, Global};
use std::rc::Rc;

/// A contract with its program.
pub(crate) struct Held {
    pub source: Source,
    pub checked: Rc<Checked>,
}

/// Lets it go.
fn discard_held(held: Held) {
    let Held { source, checked } = held;
    drop(source);
    discard_shared(checked)
}

/// Lets them go.
pub(crate) fn discard_all_held(all: Vec<Held>) {
    let mut left = all;
    while let Some(held) = left.pop() {
        discard_held(held);
    }
    left.destroy_empty()
}

/// The same source; its code is shared.
fn source_again(source: &Source) -> Result<Source, AllocError>
    ensures { IfOk result (λ it. source_of it ≡ source_of source.now) }
{
    Ok(Source {
        id: source.id.clone()?,
        code: source.code.clone()?,
    })
}

/// A source with its program; both are shared.
fn held_as(source: &Source, checked: &Rc<Checked>) -> Result<Held, AllocError>
    ensures { IfOk result (λ it. held_of it ≡ loaded_as (source_of source.now) (program_of checked.now.value)) }
{
    Ok(Held {
        source: source_again(source)?,
        checked: hold(checked)?,
    })
}

/// Appends a source with its program.
fn push_held(all: &mut Vec<Held>, source: &Source, checked: &Rc<Checked>) -> Result<(), AllocError>
    ensures { OnOk result (map held_of all.new.items ≡ map held_of all.old.items ++ loaded_as (source_of source.now) (program_of checked.now.value) ∷ []) }
{
    match all.push(held_as(source, checked)?) {
        Ok(()) => Ok(()),
        Err(refused) => {
            discard_held(refused.value);
            Err(AllocError)
        }
    }
}

/// Appends sources with their programs, as many as there are of both.
fn push_all_held(
    all: &mut Vec<Held>,
    sources: &[Source],
    programs: &[Rc<Checked>],
) -> Result<(), AllocError>
    ensures { OnOk result (map held_of all.new.items ≡ map held_of all.old.items ++ loaded_by (map source_of sources.now) (map shared_program programs.now)) }
{
    let mut left = programs;
    for source in sources {
        match left.split_first() {
            Some((checked, rest)) => {
                push_held(all, source, checked)?;
                left = rest;
            }
            None => return Ok(()),
        }
    }
    Ok(())
}

/// Sources with their programs, as many as there are of both.
pub(crate) fn all_held(
    alloc: Global,
    sources: &[Source],
    programs: &[Rc<Checked>],
) -> Result<Vec<Held>, AllocError>
    ensures { IfOk result (λ all. map held_of all.items ≡ loaded_by (map source_of sources.now) (map shared_program programs.now)) }
{
    let mut all = Vec::new(alloc);
    match push_all_held(&mut all, sources, programs) {
        Ok(()) => Ok(all),
        Err(error) => {
            discard_all_held(all);
            Err(error)
        }
    }
}
