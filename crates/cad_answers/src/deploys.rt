// Contracts that are deployed.
ghost use Rattle.std.specs.Prelude.{◌≡◌, ◌≢◌, ◌≤◌, IfOk, Some, false, map};
ghost use Rattle.serde_json.specs.View.{view};
ghost use Rattle.cad_acceptance.specs.Acceptance.{AcceptsText, checked_of};
ghost use Rattle.cad_replies.specs.Passed as passed;
ghost use Rattle.cad_replies.specs.Deployments as deployment;
ghost use Rattle.cad_fronts.specs.Views.{front_of};
ghost use Rattle.cad_loads.specs.Fronts.{IsRight};
ghost use Rattle.cad_loads.specs.Loads.{program_in};
ghost use Rattle.cad_runs.specs.Commands as runs;
ghost use Rattle.cad_store.specs.Stores.{held};
ghost use Rattle.cad_run_outcomes.specs.Outcomes as spec;
ghost use Rattle.cad_world.specs.Begin.{IsKept};
ghost use Rattle.cad_worlds.specs.Standing.{world_of};
ghost use Rattle.cad_answers.specs.Answer.{RunsDeploy, beside};
ghost use Rattle.cad_answers.specs.Code.Outcomes.{Comes, ComesBy};

use crate::judging::verdict_of;
use crate::outcome::Outcome;
use crate::reply::Reply;
use crate::transactions::with_changes;
use cad_declarations::Checked;
use cad_discards::discard_checked;
use cad_fronts::Verdicts;
use cad_replies::{deploy, is_taken};
use cad_run_worlds::{Unfinished, has_account};
use cad_serve_parts::Programs;
use cad_store::Store;
use cad_syntax::{Address, Bytes, Name, Names, Text, TypeId};
use cad_worlds::{World, discard_world};
use serde_json::Value as Json;
use std::alloc::{AllocError, Global};

// The identifier of the contract of a name at an address.
fn contract_named(alloc: Global, address: Address, name: &str) -> Result<TypeId, AllocError>
    ensures { IfOk result (λ id. id ≡ passed.contract_named address name.now) }
{
    let mut names = Names::new(alloc);
    names.push(Name(Text::from_str(alloc, name)?))?;
    Ok(TypeId { address, names })
}

// What a contract that may be deployed comes to, by verdicts that are known.
fn installed(
    alloc: Global,
    programs: &mut Programs,
    store: &Store,
    verdicts: &Verdicts,
    checked: Checked,
    world: World,
    id: TypeId,
    code: Bytes,
    arguments: &[Json],
    limit: u64,
) -> Result<Outcome, Unfinished>
    requires units { limit ≤ 1000000 }
    requires kept { IsKept (world_of world) }
    ensures { IfOk result (λ o. ComesBy o (held store.now)
        (λ x. deployment.Comes (front_of verdicts.now) (world_of world) (program_in (checked_of checked)) id code (map view arguments.now) limit x × (x ≢ spec.stays (runs.failed 0)))) }
{
    let comes = deploy(alloc, verdicts, checked, world, id, code, arguments, limit)?;
    with_changes(alloc, programs, store, comes)
}

// What a contract that is accepted comes to, by verdicts that are known.
fn served(
    alloc: Global,
    programs: &mut Programs,
    store: &Store,
    verdicts: &Verdicts,
    checked: Checked,
    world: World,
    id: TypeId,
    code: &str,
    arguments: &[Json],
    limit: u64,
) -> Result<Outcome, Unfinished>
    requires units { limit ≤ 1000000 }
    requires kept { IsKept (world_of world) }
    requires right { IsRight (front_of verdicts.now) }
    requires free { passed.is_taken (world_of world).contracts id ≡ false }
    ensures { IfOk result (λ o. AcceptsText (beside (world_of world)) (Some id.address) code.now (checked_of checked)
        → ComesBy o (held store.now) (RunsDeploy (world_of world) id code.now (map view arguments.now) limit)) }
{
    match Bytes::from_slice(alloc, code.as_bytes()) {
        Ok(bytes) => {
            installed(
                alloc, programs, store, verdicts, checked, world, id, bytes, arguments, limit,
            )
        }
        Err(_) => {
            discard_checked(checked);
            discard_world(world);
            Err(Unfinished::Memory)
        }
    }
}

// What a contract comes to at an account that is there, by verdicts that are known.
fn outcome_at(
    alloc: Global,
    programs: &mut Programs,
    store: &Store,
    verdicts: &Verdicts,
    world: World,
    id: TypeId,
    code: &str,
    arguments: &[Json],
    limit: u64,
) -> Result<Outcome, Unfinished>
    requires units { limit ≤ 1000000 }
    requires kept { IsKept (world_of world) }
    requires right { IsRight (front_of verdicts.now) }
    ensures { IfOk result (λ o. ComesBy o (held store.now) (RunsDeploy (world_of world) id code.now (map view arguments.now) limit)) }
{
    if is_taken(world.contracts.as_slice(), &id) {
        discard_world(world);
        return Ok(Outcome::Stays(Reply::Failed(118)));
    }
    match verdict_of(alloc, &world, Some(id.address), code) {
        Ok(Ok(checked)) => {
            served(
                alloc, programs, store, verdicts, checked, world, id, code, arguments, limit,
            )
        }
        Ok(Err(rejected)) => {
            discard_world(world);
            Ok(Outcome::Stays(Reply::Rejected(rejected)))
        }
        Err(_) => {
            discard_world(world);
            Err(Unfinished::Memory)
        }
    }
}

/// What a contract that is to be deployed comes to, by verdicts that are known. Unknown where its initializer asked for another.
pub fn deploy_outcome(
    alloc: Global,
    programs: &mut Programs,
    store: &Store,
    verdicts: &Verdicts,
    world: World,
    address: Address,
    name: &str,
    code: &str,
    arguments: &[Json],
    limit: u64,
) -> Result<Outcome, Unfinished>
    requires units { limit ≤ 1000000 }
    requires kept { IsKept (world_of world) }
    requires right { IsRight (front_of verdicts.now) }
    ensures { IfOk result (λ o. Comes o (held store.now) (world_of world) (runs.deploy address name.now code.now (map view arguments.now) limit)) }
{
    if !has_account(&world, address) {
        discard_world(world);
        return Ok(Outcome::Stays(Reply::Bad(26)));
    }
    match contract_named(alloc, address, name) {
        Ok(id) => outcome_at(
            alloc, programs, store, verdicts, world, id, code, arguments, limit,
        ),
        Err(_) => {
            discard_world(world);
            Err(Unfinished::Memory)
        }
    }
}
