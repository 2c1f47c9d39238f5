// The check of a text.
ghost use Rattle.std.specs.Prelude.{◌≡◌, IfOk, []};
ghost use Rattle.cad_acceptance.specs.Stops.{FirstStop};
ghost use Rattle.cad_check.specs.Answers.{Tells, TextVerdict};
ghost use Rattle.cad_tables.specs.Views.{contracts_of};

use crate::checking::check;
use crate::laws::no_stop_of_accepted;
use cad_declarations::{Checked, Deployed, Rejected};
use cad_discards::discard_checked;
use cad_grammar::{ParseStop, Phase};
use cad_parse::parse_program;
use cad_syntax::{Address, Names};
use std::alloc::{AllocError, Global};

/// A text that is no program.
fn unread(alloc: Global, phase: Phase, at: usize) -> Rejected
    ensures phase { result.phase ≡ phase }
    ensures inside { result.inside ≡ [] }
    ensures at { result.at ≡ at }
{
    Rejected {
        phase,
        inside: Names::new(alloc),
        at: at as u64,
    }
}

/// The program that a text is, with its tables and elaborated bodies, where no phase refuses it at a place beside deployed
/// contracts; else the phase that refuses it first, and where.
pub fn check_text(
    alloc: Global,
    text: &[u8],
    place: Option<Address>,
    deployed: &Deployed,
) -> Result<Result<Checked, Rejected>, AllocError>
    ensures { IfOk result (λ verdict. TextVerdict (contracts_of deployed.now) place text.now verdict) }
{
    match parse_program(alloc, text) {
        Ok(program) => check(alloc, program, place, deployed),
        Err(ParseStop::At { phase, at }) => Ok(Err(unread(alloc, phase, at))),
        Err(ParseStop::Memory) => Err(AllocError),
    }
}

/// The phase that refuses a text first, at a place beside deployed contracts, and where; None where it is accepted.
pub fn first_stop(
    alloc: Global,
    text: &[u8],
    place: Option<Address>,
    deployed: &Deployed,
) -> Result<Option<Rejected>, AllocError>
    ensures { IfOk result (λ stop. Tells (FirstStop (contracts_of deployed.now) place text.now) stop) }
{
    no_stop_of_accepted();
    match check_text(alloc, text, place, deployed)? {
        Ok(checked) => {
            discard_checked(checked);
            Ok(None)
        }
        Err(rejected) => Ok(Some(rejected)),
    }
}
