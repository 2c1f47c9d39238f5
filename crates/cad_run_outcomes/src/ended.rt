// What a run comes to that ended, or stopped.
ghost use Rattle.std.specs.Prelude.{◌≡◌, ◌≢◌, List, [], IfOk, map};
ghost use Rattle.cad_outcomes.specs.Outcomes.{Does, no_value};
ghost use Rattle.cad_runs.specs.Commands.{failed};
ghost use Rattle.cad_state.specs.Views.{state_over};
ghost use Rattle.cad_run_outcomes.specs.Outcomes as spec;
ghost use Rattle.cad_run_outcomes.specs.Views.{Tells, TellsOver};
ghost use Rattle.cad_world.specs.Begin.{kept_account};
ghost use Rattle.cad_world.specs.State as machine;

use crate::left::outcome_of_state;
use crate::outcome::{Receipt, RunOutcome, TransactionOutcome};
use cad_outcomes::Stop;
use cad_run_worlds::{RunWorld, Unfinished, reply_to_stop, why_unfinished};
use cad_state::{Accounts, RunState, discard_contracts, discard_known, discard_state};
use cad_worlds::World;
use std::alloc::Global;

/// What a run comes to that ended in a state, or stopped there, over accounts without labels. Unknown where it asked of a code of
/// which the front end says nothing, Lacks where it lacked an account, Whole where it added a contract and some accounts may not be
/// known.
pub fn outcome_of_run(
    alloc: Global,
    state: RunState,
    run: Result<(), Stop>,
) -> Result<RunOutcome, Unfinished>
    ensures { (action : machine.Action (Unit {0})) (before : machine.State) (base : List machine.Account) → map kept_account base ≡ base → Does no_value action before (state_over base state) run
        → IfOk result (λ it. (spec.settled (action before) ≢ spec.stays (failed 0)) × TellsOver base it (spec.settled (action before))) }
{
    match run {
        Ok(()) => outcome_of_state(alloc, state),
        Err(stop) => match reply_to_stop(stop) {
            Ok(reply) => {
                discard_state(state);
                Ok(RunOutcome::Stays(reply))
            }
            Err(_) => Err(why_unfinished(state)),
        },
    }
}

/// A receipt, and the World that is left. Memory where some accounts may not be known.
fn leads_to(receipt: Receipt, world: RunWorld) -> Result<TransactionOutcome, Unfinished>
    ensures { (outcome : spec.Outcome) → TellsOver [] (RunOutcome.Leads receipt world) outcome → IfOk result (λ it. Tells it outcome) }
{
    let RunWorld {
        accounts,
        contracts,
        next_identity,
    } = world;
    match accounts {
        Accounts::All(accounts) => {
            let world = World {
                accounts,
                contracts,
                next_identity,
            };
            Ok(TransactionOutcome::Leads(receipt, world))
        }
        Accounts::Part { count: _, known } => {
            drop(receipt);
            discard_known(known);
            discard_contracts(contracts);
            Err(Unfinished::Memory)
        }
    }
}

/// What a run over a whole World comes to. Memory where some accounts may not be known.
pub fn whole_outcome(outcome: RunOutcome) -> Result<TransactionOutcome, Unfinished>
    ensures { (told : spec.Outcome) → TellsOver [] outcome told → IfOk result (λ it. Tells it told) }
{
    match outcome {
        RunOutcome::Stays(reply) => Ok(TransactionOutcome::Stays(reply)),
        RunOutcome::Leads(receipt, world) => leads_to(receipt, world),
    }
}
