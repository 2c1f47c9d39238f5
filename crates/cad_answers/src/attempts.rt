// Commands whose code is judged once, and which run again until enough is known.
ghost use Rattle.std.specs.Prelude.{◌≡◌, IfOk, IfSome, Some};
ghost use Rattle.cad_commands.specs.Bounds.{IsBounded};
ghost use Rattle.cad_commands.specs.Views.{pure_command};
ghost use Rattle.cad_fronts.specs.Views.{front_of};
ghost use Rattle.cad_loads.specs.Fronts.{IsRight};
ghost use Rattle.cad_store.specs.Stores.{held};
ghost use Rattle.cad_world.specs.State as definition;
ghost use Rattle.cad_worlds.specs.Standing.{StandsFor};
ghost use Rattle.cad_answers.specs.Code.Outcomes.{Comes};
ghost use Rattle.cad_answers.specs.Code.Programs.{HasProgram, IsToldOf, code_of};
ghost use Rattle.cad_serve_parts.specs.Code.Worlds.{AreSound};

use crate::judging::run_verdict;
use crate::outcome::Outcome;
use crate::reply::Reply;
use crate::scripts::script_outcome;
use crate::transactions::transaction_outcome;
use cad_commands::Command;
use cad_declarations::Checked;
use cad_discards::discard_checked;
use cad_fronts::{Verdicts, discard_verdicts, learn, no_verdicts};
use cad_run_worlds::{RunWorld, Unfinished, discard_run_world};
use cad_serve_parts::{Programs, Reach, first_reach, reach_out, world_for};
use cad_state::discard_shared;
use cad_store::Store;
use std::alloc::{AllocError, Global};
use std::rc::Rc;

/// How often a command runs at most: each run but the first knows one code or one account more than the one before it, or all
/// accounts. A code is asked for by a call, which takes one of at most 1,000,000 units, and there are at most 1,000,000 accounts.
pub const MOST_RUNS: u64 = 2_000_002;

// ---- one run

// What a transaction or a script whose code is this program comes to over a World or a part of it, by verdicts that are known.
// Memory too of a command of another kind.
fn outcome_over(
    alloc: Global,
    programs: &mut Programs,
    store: &Store,
    verdicts: &Verdicts,
    checked: &Rc<Checked>,
    world: RunWorld,
    command: &Command,
) -> Result<Outcome, Unfinished>
    requires bounds { IsBounded (pure_command command.now) }
    requires right { IsRight (front_of verdicts.now) }
    requires told { IsToldOf (held store.now) world }
    requires program { HasProgram (held store.now) (pure_command command.now) checked.now.value }
    ensures { IfOk result (λ o. (w : definition.World) → StandsFor (held store.now) w → Comes o (held store.now) w (pure_command command.now)) }
{
    match command {
        Command::Transaction {
            code: _,
            arguments,
            signers,
            limit,
        } => transaction_outcome(
            alloc, programs, store, verdicts, checked, world, arguments, signers, *limit,
        ),
        Command::Script {
            code: _,
            arguments,
            limit,
        } => script_outcome(alloc, verdicts, checked, world, arguments, *limit),
        _ => {
            discard_run_world(world);
            Err(Unfinished::Memory)
        }
    }
}

// The same; None where the run asked for a verdict that wasn't known, or lacked an account. Then it is known.
fn attempt(
    alloc: Global,
    programs: &mut Programs,
    store: &Store,
    verdicts: &mut Verdicts,
    reach: &mut Reach,
    checked: &Rc<Checked>,
    world: RunWorld,
    command: &Command,
) -> Result<Option<Outcome>, AllocError>
    requires bounds { IsBounded (pure_command command.now) }
    requires right { IsRight (front_of verdicts.old) }
    requires told { IsToldOf (held store.now) world }
    requires program { HasProgram (held store.now) (pure_command command.now) checked.now.value }
    ensures right { IsRight (front_of verdicts.new) }
    ensures comes { IfOk result (λ found. IfSome found (λ o. (w : definition.World) → StandsFor (held store.now) w → Comes o (held store.now) w (pure_command command.now))) }
{
    match outcome_over(alloc, programs, store, verdicts, checked, world, command) {
        Ok(outcome) => Ok(Some(outcome)),
        Err(Unfinished::Memory) => Err(AllocError),
        Err(Unfinished::Unknown(unknown)) => {
            learn(alloc, verdicts, unknown)?;
            Ok(None)
        }
        Err(Unfinished::Lacks(index)) => {
            reach_out(reach, index)?;
            Ok(None)
        }
        Err(Unfinished::Whole) => {
            reach.is_whole = true;
            Ok(None)
        }
    }
}

// ---- runs until enough is known

// The same over what the store tells of the accounts that are wanted.
fn attempt_again(
    alloc: Global,
    programs: &mut Programs,
    store: &Store,
    verdicts: &mut Verdicts,
    reach: &mut Reach,
    checked: &Rc<Checked>,
    command: &Command,
) -> Result<Option<Outcome>, AllocError>
    requires sound { AreSound (held store.now) }
    requires bounds { IsBounded (pure_command command.now) }
    requires right { IsRight (front_of verdicts.old) }
    requires program { HasProgram (held store.now) (pure_command command.now) checked.now.value }
    ensures right { IsRight (front_of verdicts.new) }
    ensures comes { IfOk result (λ found. IfSome found (λ o. (w : definition.World) → StandsFor (held store.now) w → Comes o (held store.now) w (pure_command command.now))) }
{
    let world = world_for(alloc, programs, store, reach)?;
    attempt(
        alloc, programs, store, verdicts, reach, checked, world, command,
    )
}

// What a command whose code is this program comes to: it runs over a World or a part of it, and again as verdicts are learned and
// accounts are read that its runs ask for.
fn outcome_by(
    alloc: Global,
    programs: &mut Programs,
    store: &Store,
    verdicts: &mut Verdicts,
    reach: &mut Reach,
    checked: &Rc<Checked>,
    world: RunWorld,
    command: &Command,
) -> Result<Outcome, AllocError>
    requires sound { AreSound (held store.now) }
    requires bounds { IsBounded (pure_command command.now) }
    requires right { IsRight (front_of verdicts.old) }
    requires told { IsToldOf (held store.now) world }
    requires program { HasProgram (held store.now) (pure_command command.now) checked.now.value }
    ensures { IfOk result (λ o. (w : definition.World) → StandsFor (held store.now) w → Comes o (held store.now) w (pure_command command.now)) }
{
    let first = attempt(
        alloc, programs, store, verdicts, reach, checked, world, command,
    )?;
    if let Some(outcome) = first {
        return Ok(outcome);
    }
    for _ in 1..MOST_RUNS {
        if let Some(outcome) = attempt_again(
            alloc, programs, store, verdicts, reach, checked, command,
        )? {
            return Ok(outcome);
        }
    }
    Err(AllocError)
}

// The same where no verdicts are known at first.
fn outcome_with(
    alloc: Global,
    programs: &mut Programs,
    store: &Store,
    reach: &mut Reach,
    checked: &Rc<Checked>,
    world: RunWorld,
    command: &Command,
) -> Result<Outcome, AllocError>
    requires sound { AreSound (held store.now) }
    requires bounds { IsBounded (pure_command command.now) }
    requires told { IsToldOf (held store.now) world }
    requires program { HasProgram (held store.now) (pure_command command.now) checked.now.value }
    ensures { IfOk result (λ o. (w : definition.World) → StandsFor (held store.now) w → Comes o (held store.now) w (pure_command command.now)) }
{
    let mut verdicts = no_verdicts(alloc);
    let outcome = outcome_by(
        alloc,
        programs,
        store,
        &mut verdicts,
        reach,
        checked,
        world,
        command,
    );
    discard_verdicts(verdicts);
    outcome
}

// ---- the code

// What a command whose code is accepted as this program comes to.
fn accepted(
    alloc: Global,
    programs: &mut Programs,
    store: &Store,
    reach: &mut Reach,
    checked: Checked,
    world: RunWorld,
    command: &Command,
) -> Result<Outcome, AllocError>
    requires sound { AreSound (held store.now) }
    requires bounds { IsBounded (pure_command command.now) }
    requires told { IsToldOf (held store.now) world }
    requires program { HasProgram (held store.now) (pure_command command.now) checked }
    ensures { IfOk result (λ o. (w : definition.World) → StandsFor (held store.now) w → Comes o (held store.now) w (pure_command command.now)) }
{
    match Rc::new(alloc, checked) {
        Ok(shared) => {
            let outcome = outcome_with(alloc, programs, store, reach, &shared, world, command);
            discard_shared(shared);
            outcome
        }
        Err(refused) => {
            discard_checked(refused.value);
            discard_run_world(world);
            Err(AllocError)
        }
    }
}

/// What a transaction or a script of this code comes to over the World that a store holds. The code is judged once, over what is
/// known first.
pub fn run_outcome(
    alloc: Global,
    programs: &mut Programs,
    store: &Store,
    command: &Command,
    code: &str,
) -> Result<Outcome, AllocError>
    requires sound { AreSound (held store.now) }
    requires bounds { IsBounded (pure_command command.now) }
    requires code { code_of (pure_command command.now) ≡ Some code.now }
    ensures { IfOk result (λ o. (w : definition.World) → StandsFor (held store.now) w → Comes o (held store.now) w (pure_command command.now)) }
{
    let mut reach = first_reach(alloc, command)?;
    let world = world_for(alloc, programs, store, &reach)?;
    match run_verdict(alloc, &world, code) {
        Ok(Ok(checked)) => accepted(alloc, programs, store, &mut reach, checked, world, command),
        Ok(Err(rejected)) => {
            discard_run_world(world);
            Ok(Outcome::Stays(Reply::Rejected(rejected)))
        }
        Err(_) => {
            discard_run_world(world);
            Err(AllocError)
        }
    }
}
