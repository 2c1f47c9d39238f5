// Whether the values of a World have bytes of their own with what is known of it after a run.
ghost use Rattle.std.specs.Prelude.{◌↔◌, IsTrue, IfOk, map};
ghost use Rattle.std.specs.List.{AllByRecursion};
ghost use Rattle.cad_worlds.specs.Standing.{AccountHasBytes};
ghost use Rattle.cad_world_checks.specs.Code.Summaries as code;
ghost use Rattle.cad_world_checks.specs.Parts as spec;

use crate::bytes::{account_has_bytes, contracts_have_bytes};
use cad_state::Known;
use cad_worlds::WorldPart;
use std::alloc::{AllocError, Global};

/// Whether all that known accounts have has bytes of its own.
fn known_have_bytes(alloc: Global, known: &[Known]) -> Result<bool, AllocError>
    ensures { IfOk result (λ b. IsTrue b ↔ AllByRecursion AccountHasBytes (map code.account_in known.now)) }
{
    for one in known {
        if !account_has_bytes(alloc, &one.account)? {
            return Ok(false);
        }
    }
    Ok(true)
}

/// Whether the values and types in what is known of a World have bytes that no others have: then those in the World have, where
/// they had before. AllocError where memory runs out, or where a text or a list in what is written has 2^32 items or more.
pub fn part_has_bytes(alloc: Global, part: &WorldPart) -> Result<bool, AllocError>
    ensures { IfOk result (λ b. IsTrue b → spec.StaysWithBytes part.now) }
{
    let known = part.known.as_slice();
    let held = known_have_bytes(alloc, known)?;
    if !held {
        return Ok(false);
    }
    let contracts = part.contracts.as_slice();
    contracts_have_bytes(alloc, contracts)
}
