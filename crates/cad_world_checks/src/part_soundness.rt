// Whether a World is sound with what is known of it after a run.
ghost use Rattle.std.specs.Prelude.{◌≡◌, ◌↔◌, IsTrue, IfOk, map};
ghost use Rattle.std.specs.List.{AllByRecursion};
ghost use Rattle.cad_shapes.specs.Held.{shapes_of};
ghost use Rattle.cad_state.specs.Views.{contract_of};
ghost use Rattle.cad_world.specs.Shapes as known;
ghost use Rattle.cad_world.specs.Sound.{SoundAccount};
ghost use Rattle.cad_world_checks.specs.Code.Summaries as code;
ghost use Rattle.cad_world_checks.specs.Parts as spec;

use crate::contracts::are_sound_contracts;
use crate::part_summary::{PartSummary, follows, summary_of};
use crate::sound::{are_few, can_be_next, is_sound_account};
use cad_shapes::DeclaredShapes;
use cad_state::Known;
use cad_worlds::WorldPart;
use std::alloc::{AllocError, Global};

/// Whether all known accounts are sound.
fn are_sound_known(
    alloc: Global,
    shapes: &DeclaredShapes,
    known: &[Known],
) -> Result<bool, AllocError>
    ensures { IfOk result (λ b. IsTrue b ↔ AllByRecursion (SoundAccount (shapes_of shapes.now)) (map code.account_in known.now)) }
{
    for one in known {
        if !is_sound_account(alloc, shapes, &one.account)? {
            return Ok(false);
        }
    }
    Ok(true)
}

/// Whether what is known after a run leaves a World sound: true is right, false says nothing. `before` is the summary of what was
/// known of it before, whose accounts have to be known still. Judged by what the programs of its contracts declare, which has to be
/// what they declared before. AllocError where memory runs out.
pub fn stays_sound(
    alloc: Global,
    shapes: &DeclaredShapes,
    before: &PartSummary,
    part: &WorldPart,
) -> Result<bool, AllocError>
    requires { shapes_of shapes.now ≡ known.shapes (map contract_of part.now.contracts.items) }
    ensures { IfOk result (λ b. IsTrue b → spec.StaysSound before.now part.now) }
{
    let count = part.count as usize;
    let identity = part.next_identity;
    if !are_few(count) {
        return Ok(false);
    }
    if !can_be_next(count, identity) {
        return Ok(false);
    }
    let contracts = part.contracts.as_slice();
    let contracts_sound = are_sound_contracts(alloc, shapes, count, contracts)?;
    if !contracts_sound {
        return Ok(false);
    }
    let accounts = part.known.as_slice();
    let accounts_sound = are_sound_known(alloc, shapes, accounts)?;
    if !accounts_sound {
        return Ok(false);
    }
    let after = summary_of(alloc, part)?;
    follows(alloc, before, &after)
}
