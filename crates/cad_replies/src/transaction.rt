// What a transaction comes to.
ghost use Rattle.std.specs.Prelude.{◌≡◌, ◌≢◌, ◌≤◌, IfOk, Ok, Some, length, map, true};
ghost use Rattle.serde_json.specs.View.{view};
ghost use Rattle.cad_declarations.specs.Views.{transaction_of};
ghost use Rattle.cad_runs.specs.Commands.{are_signers, failed};
ghost use Rattle.cad_run_worlds.specs.Worlds.{run_world};
ghost use Rattle.cad_state.specs.Views.{program_of};
ghost use Rattle.cad_run_outcomes.specs.Outcomes.{Outcome, stays};
ghost use Rattle.cad_replies.specs.Transactions.{Comes};
ghost use Rattle.cad_run_outcomes.specs.Views.{TellsOver};
ghost use Rattle.cad_world.specs.State.{World};
ghost use Rattle.cad_worlds.specs.Standing.{IsSoundButCode};

use crate::transaction_running::outcome_of_row;
use cad_command_runs::FrontEnd;
use cad_declarations::{Checked, TypedTransaction};
use cad_run_outcomes::RunOutcome;
use cad_run_worlds::{RunWorld, ScriptReply, Unfinished, are_signers, discard_run_world, row_for};
use cad_syntax::Address;
use serde_json::Value as Json;
use std::alloc::Global;
use std::rc::Rc;

/// A refusal by its number. The World is let go.
fn refuse(world: RunWorld, number: u16) -> Result<RunOutcome, Unfinished>
    ensures { result ≡ Ok (RunOutcome.Stays (ScriptReply.Bad number)) }
{
    discard_run_world(world);
    Ok(RunOutcome::Stays(ScriptReply::Bad(number)))
}

/// What a transaction comes to, with its signers, on as many arguments as it has parameters: bad 24 where they aren't of their
/// types, else what its run comes to.
fn outcome_of_arguments<E: FrontEnd>(
    alloc: Global,
    end: &E,
    checked: &Rc<Checked>,
    transaction: &TypedTransaction,
    world: RunWorld,
    arguments: &[Json],
    signers: &[Address],
    limit: u64,
) -> Result<RunOutcome, Unfinished>
    requires units { limit ≤ 1000000 }
    requires is { (program_of checked.now.value).bodies.transaction ≡ Some (transaction_of transaction.now) }
    requires counted { length arguments.now ≡ length transaction.now.parameters.items }
    ensures { (w : World) → run_world w.accounts world ≡ w → IsSoundButCode w → are_signers w (transaction_of transaction.now) signers.now ≡ true → IfOk result (λ it. (o : Outcome) × Comes (E.front end.now) w (program_of checked.now.value) (map view arguments.now) signers.now limit o × (o ≢ stays (failed 0)) × TellsOver w.accounts it o) }
{
    match row_for(
        alloc,
        &checked.tables,
        transaction.parameters.as_slice(),
        arguments,
    ) {
        Ok(Some(row)) => outcome_of_row(
            alloc,
            end,
            checked,
            transaction,
            world,
            row,
            signers,
            limit,
        ),
        Ok(None) => refuse(world, 24),
        Err(_) => {
            discard_run_world(world);
            Err(Unfinished::Memory)
        }
    }
}

/// What a transaction comes to: bad 26 where a signer has no account, and where there are more or fewer signers than parameters
/// of `prepare`; 25 where the arguments are more or fewer than its parameters, 24 where they aren't of their types; else what its
/// run comes to.
fn outcome_of_transaction<E: FrontEnd>(
    alloc: Global,
    end: &E,
    checked: &Rc<Checked>,
    transaction: &TypedTransaction,
    world: RunWorld,
    arguments: &[Json],
    signers: &[Address],
    limit: u64,
) -> Result<RunOutcome, Unfinished>
    requires units { limit ≤ 1000000 }
    requires is { (program_of checked.now.value).bodies.transaction ≡ Some (transaction_of transaction.now) }
    ensures { (w : World) → run_world w.accounts world ≡ w → IsSoundButCode w → IfOk result (λ it. (o : Outcome) × Comes (E.front end.now) w (program_of checked.now.value) (map view arguments.now) signers.now limit o × (o ≢ stays (failed 0)) × TellsOver w.accounts it o) }
{
    if !are_signers(&world, transaction, signers) {
        return refuse(world, 26);
    }
    if arguments.len() != transaction.parameters.len() {
        return refuse(world, 25);
    }
    outcome_of_arguments(
        alloc,
        end,
        checked,
        transaction,
        world,
        arguments,
        signers,
        limit,
    )
}

/// What a program that others may hold comes to as a transaction over a World of which some accounts may not be known, with JSON as its
/// arguments, these signers and so many units, under a front end that is asked of the codes that it adds. Bad 26 where it is no
/// transaction, where a signer has no account, and where there are more or fewer signers than parameters of `prepare`; 25 where the
/// arguments are more or fewer than its parameters, 24 where they aren't of their types; else the number of its error, that the units
/// were too few, or its receipt and the World that it leaves. Unknown where the run asked of a code of which the front end says nothing,
/// Lacks where it lacked an account, Whole where it added a contract and some accounts may not be known.
pub fn transact_over<E: FrontEnd>(
    alloc: Global,
    end: &E,
    checked: &Rc<Checked>,
    world: RunWorld,
    arguments: &[Json],
    signers: &[Address],
    limit: u64,
) -> Result<RunOutcome, Unfinished>
    requires { limit ≤ 1000000 }
    ensures { (w : World) → run_world w.accounts world ≡ w → IsSoundButCode w → IfOk result (λ it. (o : Outcome) × Comes (E.front end.now) w (program_of checked.now.value) (map view arguments.now) signers.now limit o × (o ≢ stays (failed 0)) × TellsOver w.accounts it o) }
{
    match &checked.bodies.transaction {
        Some(transaction) => {
            outcome_of_transaction(
                alloc,
                end,
                checked,
                transaction,
                world,
                arguments,
                signers,
                limit,
            )
        }
        None => refuse(world, 26),
    }
}
