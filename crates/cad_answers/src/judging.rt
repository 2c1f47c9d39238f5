// Code that is checked, beside the contracts of a World.
ghost use Rattle.std.specs.Prelude.{◌≡◌, IfOk, None, map};
ghost use Rattle.cad_fronts.specs.Passed.{TextVerdict};
ghost use Rattle.cad_loads.specs.Loads.{entries_of, loaded_of};
ghost use Rattle.cad_run_worlds.specs.Worlds.{run_world};
ghost use Rattle.cad_state.specs.Views.{contract_of};
ghost use Rattle.cad_world.specs.State as definition;
ghost use Rattle.cad_worlds.specs.Standing.{world_of};
ghost use Rattle.cad_answers.specs.Answer.{beside};

use cad_declarations::{Checked, Rejected};
use cad_discards::discard_deployed;
use cad_fronts::{check_text, deployed_of};
use cad_run_worlds::RunWorld;
use cad_state::Contract;
use cad_syntax::Address;
use cad_worlds::World;
use std::alloc::{AllocError, Global};

// The program that a code is beside contracts, at an account or at none; else where it is refused first.
fn verdict_beside(
    alloc: Global,
    contracts: &[Contract],
    place: Option<Address>,
    code: &str,
) -> Result<Result<Checked, Rejected>, AllocError>
    ensures { IfOk result (λ verdict. TextVerdict (entries_of (map loaded_of (map contract_of contracts.now))) place code.now verdict) }
{
    let deployed = deployed_of(alloc, contracts)?;
    let verdict = check_text(alloc, code.as_bytes(), place, &deployed);
    discard_deployed(deployed);
    verdict
}

/// The program that a code is at an account, or at none; else where it is refused first.
pub fn verdict_of(
    alloc: Global,
    world: &World,
    place: Option<Address>,
    code: &str,
) -> Result<Result<Checked, Rejected>, AllocError>
    ensures { IfOk result (λ verdict. TextVerdict (beside (world_of world.now)) place code.now verdict) }
{
    let contracts = world.contracts.as_slice();
    verdict_beside(alloc, contracts, place, code)
}

/// The program that a code is at no account; else where it is refused first.
pub fn run_verdict(
    alloc: Global,
    world: &RunWorld,
    code: &str,
) -> Result<Result<Checked, Rejected>, AllocError>
    ensures { IfOk result (λ verdict. (w : definition.World) → run_world w.accounts world.now ≡ w → TextVerdict (beside w) None code.now verdict) }
{
    let contracts = world.contracts.as_slice();
    verdict_beside(alloc, contracts, None, code)
}
