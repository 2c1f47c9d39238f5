// What commands come to.
ghost use Rattle.std.specs.Prelude.{◌≡◌, ◌≤◌, List, ℕ, IfOk, IfSome, map};
ghost use Rattle.serde_json.specs.View.{view};
ghost use Rattle.cad_commands.specs.Commands.{command_of};
ghost use Rattle.cad_commands.specs.Views.{pure_command};
ghost use Rattle.cad_fronts.specs.Views.{front_of};
ghost use Rattle.cad_loads.specs.Fronts.{IsRight};
ghost use Rattle.cad_runs.specs.Commands as runs;
ghost use Rattle.cad_store.specs.Stores.{held};
ghost use Rattle.cad_world.specs.State as definition;
ghost use Rattle.cad_worlds.specs.Standing.{StandsFor};
ghost use Rattle.cad_answers.specs.Code.Outcomes.{Comes};
ghost use Rattle.cad_serve_parts.specs.Code.Worlds.{AreSound};

use crate::attempts::{MOST_RUNS, run_outcome};
use crate::deploys::deploy_outcome;
use crate::making::account_outcome;
use crate::outcome::Outcome;
use crate::reply::Reply;
use cad_commands::{Command, limits_are_bounded};
use cad_fronts::{Verdicts, discard_verdicts, learn, no_verdicts};
use cad_run_worlds::Unfinished;
use cad_serve_parts::{Programs, one_world, world_in};
use cad_state::discard_unknown;
use cad_store::Store;
use cad_syntax::Address;
use serde_json::Value as Json;
use std::alloc::{AllocError, Global};

// ---- accounts

// What one more account comes to.
fn account_over(
    alloc: Global,
    programs: &mut Programs,
    store: &Store,
) -> Result<Outcome, AllocError>
    ensures { IfOk result (λ o. (w : definition.World) → StandsFor (held store.now) w → Comes o (held store.now) w runs.account) }
{
    match account_outcome(alloc, programs, store) {
        Ok(outcome) => Ok(outcome),
        Err(Unfinished::Unknown(unknown)) => {
            discard_unknown(unknown);
            Err(AllocError)
        }
        Err(Unfinished::Memory) => Err(AllocError),
        Err(Unfinished::Lacks(_)) => Err(AllocError),
        Err(Unfinished::Whole) => Err(AllocError),
    }
}

// ---- contracts

// What a deploy comes to over the World that a store holds, by verdicts that are known.
fn deploy_over(
    alloc: Global,
    programs: &mut Programs,
    store: &Store,
    verdicts: &Verdicts,
    address: Address,
    name: &str,
    code: &str,
    arguments: &[Json],
    limit: u64,
) -> Result<Outcome, Unfinished>
    requires sound { AreSound (held store.now) }
    requires units { limit ≤ 1000000 }
    requires right { IsRight (front_of verdicts.now) }
    ensures { IfOk result (λ o. (w : definition.World) → StandsFor (held store.now) w → Comes o (held store.now) w (runs.deploy address name.now code.now (map view arguments.now) limit)) }
{
    one_world();
    let world = world_in(alloc, programs, store)?;
    deploy_outcome(
        alloc, programs, store, verdicts, world, address, name, code, arguments, limit,
    )
}

// The same; None where its initializer asked for a verdict that wasn't known. Then it is known.
fn deploy_attempt(
    alloc: Global,
    programs: &mut Programs,
    store: &Store,
    verdicts: &mut Verdicts,
    address: Address,
    name: &str,
    code: &str,
    arguments: &[Json],
    limit: u64,
) -> Result<Option<Outcome>, AllocError>
    requires sound { AreSound (held store.now) }
    requires units { limit ≤ 1000000 }
    requires right { IsRight (front_of verdicts.old) }
    ensures right { IsRight (front_of verdicts.new) }
    ensures comes { IfOk result (λ found. IfSome found (λ o. (w : definition.World) → StandsFor (held store.now) w → Comes o (held store.now) w (runs.deploy address name.now code.now (map view arguments.now) limit))) }
{
    match deploy_over(
        alloc, programs, store, verdicts, address, name, code, arguments, limit,
    ) {
        Ok(outcome) => Ok(Some(outcome)),
        Err(Unfinished::Unknown(unknown)) => {
            learn(alloc, verdicts, unknown)?;
            Ok(None)
        }
        Err(Unfinished::Memory) => Err(AllocError),
        Err(Unfinished::Lacks(_)) => Err(AllocError),
        Err(Unfinished::Whole) => Err(AllocError),
    }
}

// What a deploy comes to, by verdicts that are learned as its initializer asks for them.
fn deploy_by(
    alloc: Global,
    programs: &mut Programs,
    store: &Store,
    verdicts: &mut Verdicts,
    address: Address,
    name: &str,
    code: &str,
    arguments: &[Json],
    limit: u64,
) -> Result<Outcome, AllocError>
    requires sound { AreSound (held store.now) }
    requires units { limit ≤ 1000000 }
    requires right { IsRight (front_of verdicts.old) }
    ensures { IfOk result (λ o. (w : definition.World) → StandsFor (held store.now) w → Comes o (held store.now) w (runs.deploy address name.now code.now (map view arguments.now) limit)) }
{
    for _ in 0..MOST_RUNS {
        if let Some(outcome) = deploy_attempt(
            alloc, programs, store, verdicts, address, name, code, arguments, limit,
        )? {
            return Ok(outcome);
        }
    }
    Err(AllocError)
}

// The same where no verdicts are known at first.
fn deploy_with(
    alloc: Global,
    programs: &mut Programs,
    store: &Store,
    address: Address,
    name: &str,
    code: &str,
    arguments: &[Json],
    limit: u64,
) -> Result<Outcome, AllocError>
    requires sound { AreSound (held store.now) }
    requires units { limit ≤ 1000000 }
    ensures { IfOk result (λ o. (w : definition.World) → StandsFor (held store.now) w → Comes o (held store.now) w (runs.deploy address name.now code.now (map view arguments.now) limit)) }
{
    let mut verdicts = no_verdicts(alloc);
    let outcome = deploy_by(
        alloc,
        programs,
        store,
        &mut verdicts,
        address,
        name,
        code,
        arguments,
        limit,
    );
    discard_verdicts(verdicts);
    outcome
}

// ---- all commands

/// What a command comes to, over the World that a store holds.
pub fn outcome_of(
    alloc: Global,
    programs: &mut Programs,
    store: &Store,
    command: &Command,
) -> Result<Outcome, AllocError>
    requires sound { AreSound (held store.now) }
    requires bounds { (line : List ℕ) × (pure_command command.now ≡ command_of line) }
    ensures { IfOk result (λ o. (w : definition.World) → StandsFor (held store.now) w → Comes o (held store.now) w (pure_command command.now)) }
{
    limits_are_bounded();
    match command {
        Command::Account => account_over(alloc, programs, store),
        Command::Deploy {
            address,
            name,
            code,
            arguments,
            limit,
        } => {
            let name = name.as_str();
            let code = code.as_str();
            deploy_with(
                alloc, programs, store, *address, name, code, arguments, *limit,
            )
        }
        Command::Transaction { code, .. } => {
            let code = code.as_str();
            run_outcome(alloc, programs, store, command, code)
        }
        Command::Script { code, .. } => {
            let code = code.as_str();
            run_outcome(alloc, programs, store, command, code)
        }
        Command::Refused(number) => Ok(Outcome::Stays(Reply::Bad(*number))),
    }
}
