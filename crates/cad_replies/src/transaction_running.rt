// The run of a transaction over a World.
ghost use Rattle.std.specs.Prelude.{◌≡◌, ◌≢◌, ◌≤◌, IfOk};
ghost use Rattle.cad_declarations.specs.Views.{transaction_of};
ghost use Rattle.cad_rows.specs.Views.{pure_row};
ghost use Rattle.cad_runs.specs.Commands.{failed};
ghost use Rattle.cad_run_worlds.specs.Worlds.{run_world};
ghost use Rattle.cad_state.specs.Views.{program_of};
ghost use Rattle.cad_replies.specs.Transactions as spec;
ghost use Rattle.cad_run_outcomes.specs.Outcomes.{Outcome, stays};
ghost use Rattle.cad_run_outcomes.specs.Views.{TellsOver};
ghost use Rattle.cad_world.specs.State as machine;
ghost use Rattle.cad_worlds.specs.Standing.{IsSoundButCode};

use cad_command_runs::{FrontEnd, run_transaction};
use cad_declarations::{Checked, TypedTransaction};
use cad_discards::hold;
use cad_rows::{Place, discard_row};
use cad_run_outcomes::{RunOutcome, outcome_of_run};
use cad_run_worlds::{RunWorld, Unfinished, begin_over, discard_run_world};
use cad_syntax::Address;
use std::alloc::Global;
use std::rc::Rc;

/// What a transaction of a program comes to over a World, on a row of arguments.
fn run_over<E: FrontEnd>(
    alloc: Global,
    end: &E,
    checked: Rc<Checked>,
    transaction: &TypedTransaction,
    world: RunWorld,
    row: Vec<Place>,
    signers: &[Address],
    limit: u64,
) -> Result<RunOutcome, Unfinished>
    requires { limit ≤ 1000000 }
    ensures { (w : machine.World) → run_world w.accounts world ≡ w → IsSoundButCode w → IfOk result (λ it. (o : Outcome) × spec.Ran (E.front end.now) w (program_of checked.value) (transaction_of transaction.now) (pure_row row.items) signers.now limit o × (o ≢ stays (failed 0)) × TellsOver w.accounts it o) }
{
    let mut state = begin_over(alloc, checked, world, limit);
    let run = run_transaction(2 * limit + 2, end, transaction, row, signers, &mut state);
    outcome_of_run(alloc, state, run)
}

/// What a transaction of a program comes to over a World, on a row of arguments.
pub(crate) fn outcome_of_row<E: FrontEnd>(
    alloc: Global,
    end: &E,
    checked: &Rc<Checked>,
    transaction: &TypedTransaction,
    world: RunWorld,
    row: Vec<Place>,
    signers: &[Address],
    limit: u64,
) -> Result<RunOutcome, Unfinished>
    requires { limit ≤ 1000000 }
    ensures { (w : machine.World) → run_world w.accounts world ≡ w → IsSoundButCode w → IfOk result (λ it. (o : Outcome) × spec.Ran (E.front end.now) w (program_of checked.now.value) (transaction_of transaction.now) (pure_row row.items) signers.now limit o × (o ≢ stays (failed 0)) × TellsOver w.accounts it o) }
{
    match hold(checked) {
        Ok(shared) => run_over(alloc, end, shared, transaction, world, row, signers, limit),
        Err(_) => {
            discard_row(row);
            discard_run_world(world);
            Err(Unfinished::Memory)
        }
    }
}
