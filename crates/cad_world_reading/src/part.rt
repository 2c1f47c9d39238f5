// The part of a World that some of its registers tell.
ghost use Rattle.std.specs.Prelude.{◌≡◌, ℕ, List, true, IfOk, length};
ghost use Rattle.cad_accounts.specs.Memory.{rows_in_blocks};
ghost use Rattle.cad_accounts.specs.Registers.{at, are_rising};
ghost use Rattle.cad_world.specs.State as s;
ghost use Rattle.cad_world_reading.specs.Wanted.{IsPartOf};
ghost use Rattle.cad_world_registers.specs.Code.PartDrafts.{Follows, part_of};
ghost use Rattle.cad_worlds.specs.Items as items;
ghost use Rattle.cad_worlds.specs.Standing.{IsSound, StandsFor};

use crate::contracts::load_contracts;
use cad_accounts::Block;
use cad_loading::Programs;
use cad_state::discard_known;
use cad_world_registers::{PartDraft, make_part};
use cad_worlds::{WorldPart, part_rows};
use std::alloc::{AllocError, Global};

/// The part of which registers made this. AllocError also where there is none.
fn part_from(
    alloc: Global,
    programs: &mut Programs,
    draft: PartDraft,
) -> Result<WorldPart, AllocError>
    ensures { (wanted : List ℕ) (w : s.World) → Follows wanted (length w.accounts) (items.draft_of w) (part_of draft) → IsSound w → IfOk result (λ part. IsPartOf wanted w part) }
{
    let PartDraft {
        count,
        known,
        sources,
        values,
        next_identity,
    } = draft;
    match load_contracts(alloc, programs, sources, values) {
        Ok(contracts) => Ok(WorldPart {
            count,
            known,
            contracts,
            next_identity,
        }),
        Err(error) => {
            discard_known(known);
            Err(error)
        }
    }
}

/// What blocks of rows tell of a World, of which it is known that they stand for it, where its accounts with these indexes are
/// wanted: those accounts, all contracts, how many accounts there are and the next identity. Of other accounts nothing is read.
/// A contract is checked again where its program isn't kept; then it is (`load_kept`).
/// AllocError where memory runs out. Of rows that stand for no World nothing is said.
pub fn known_part(
    alloc: Global,
    programs: &mut Programs,
    blocks: &[Block],
    wanted: &[u64],
) -> Result<WorldPart, AllocError>
    requires { are_rising (rows_in_blocks blocks.now) ≡ true }
    ensures { IfOk result (λ part. (w : s.World) → StandsFor (at (rows_in_blocks blocks.now)) w → IsPartOf wanted.now w part) }
{
    let rows = part_rows(alloc, wanted, blocks)?;
    match make_part(alloc, wanted, rows.as_slice()) {
        Ok(draft) => part_from(alloc, programs, draft),
        Err(_) => Err(AllocError),
    }
}
