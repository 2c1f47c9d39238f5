// Codes of which it is known whether they are accepted.
ghost use Rattle.std.specs.Prelude.{◌≡◌, ◌++◌, ◌∷◌, [], OnErr, OnOk, map};
ghost use Rattle.cad_fronts.specs.Views.{front_of, known_of};
ghost use Rattle.cad_loads.specs.Fronts.{IsRight};

use cad_declarations::Checked;
use cad_loading::{Programs, discard_kept, nothing_kept};
use cad_loads::Source;
use cad_state::discard_shared;
use cad_syntax::{Address, Bytes};
use std::alloc::{AllocError, Global};
use std::rc::Rc;

/// A code of which it is known whether it is accepted.
pub struct Verdict {
    /// The contracts beside which that is so.
    pub(crate) sources: Vec<Source>,
    pub(crate) address: Address,
    pub(crate) code: Bytes,
    /// The program that it is; None where it is refused.
    pub(crate) checked: Option<Rc<Checked>>,
}

/// Codes of which it is known whether they are accepted.
pub struct Verdicts {
    pub(crate) all: Vec<Verdict>,
    /// Programs of contracts beside which codes were checked.
    pub(crate) programs: Programs,
}

/// Of no code anything is known. It takes no memory.
pub fn no_verdicts(alloc: Global) -> Verdicts
    ensures { IsRight (front_of result) }
{
    Verdicts {
        all: Vec::new(alloc),
        programs: nothing_kept(alloc),
    }
}

/// Lets a program go, where there is one.
pub(crate) fn discard_program(checked: Option<Rc<Checked>>) {
    match checked {
        Some(shared) => discard_shared(shared),
        None => {}
    }
}

/// Lets a verdict go.
fn discard_verdict(verdict: Verdict) {
    let Verdict {
        sources,
        address: _,
        code,
        checked,
    } = verdict;
    drop(sources);
    drop(code);
    discard_program(checked)
}

/// Lets verdicts go.
pub fn discard_verdicts(verdicts: Verdicts) {
    let Verdicts { all, programs } = verdicts;
    discard_kept(programs);
    let mut left = all;
    while let Some(verdict) = left.pop() {
        discard_verdict(verdict);
    }
    left.destroy_empty()
}

/// Appends a verdict. Where memory fails, all stay as they are.
pub(crate) fn push_verdict(verdicts: &mut Verdicts, verdict: Verdict) -> Result<(), AllocError>
    ensures added { OnOk result (map known_of verdicts.new.all.items ≡ map known_of verdicts.old.all.items ++ known_of verdict ∷ []) }
    ensures stays { OnErr result (map known_of verdicts.new.all.items ≡ map known_of verdicts.old.all.items) }
{
    match verdicts.all.push(verdict) {
        Ok(()) => Ok(()),
        Err(refused) => {
            discard_verdict(refused.value);
            Err(AllocError)
        }
    }
}
