// The front end that runs add contracts by.
ghost use Rattle.std.specs.Prelude.{IfOk};
ghost use Rattle.cad_check.specs.Answers.{TextVerdict};
ghost use Rattle.cad_tables.specs.Views.{contracts_of};

use crate::text::check_text;
use cad_declarations::{Checked, Deployed, Rejected};
use cad_syntax::Address;
use std::alloc::{AllocError, Global};

/// What reads and checks the code of contracts.
pub trait Front {
    /// The program that a code is at a place beside deployed contracts, where it is accepted; else the phase that refuses it
    /// first, and where.
    fn load(
        &self,
        alloc: Global,
        code: &[u8],
        place: Option<Address>,
        deployed: &Deployed,
    ) -> Result<Result<Checked, Rejected>, AllocError>
        ensures { IfOk result (λ verdict. TextVerdict (contracts_of deployed.now) place code.now verdict) };
}

/// The reader and the checks of this project.
#[derive(Clone, Copy)]
pub struct FrontEnd;

impl Front for FrontEnd {
    fn load(
        &self,
        alloc: Global,
        code: &[u8],
        place: Option<Address>,
        deployed: &Deployed,
    ) -> Result<Result<Checked, Rejected>, AllocError> {
        check_text(alloc, code, place, deployed)
    }
}
