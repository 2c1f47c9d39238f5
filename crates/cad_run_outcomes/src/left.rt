// What a run left, as a receipt and a World.
ghost use Rattle.std.specs.Prelude.{◌≡◌, List, IfOk, map};
ghost use Rattle.serde_json.specs.Data.{Data, array};
ghost use Rattle.serde_json.specs.Written.{compact_text};
ghost use Rattle.cad_json.specs.Told.{told};
ghost use Rattle.cad_runs.specs.Commands.{ran};
ghost use Rattle.cad_state.specs.Views.{contract_of, state_over};
ghost use Rattle.cad_run_outcomes.specs.Outcomes as spec;
ghost use Rattle.cad_run_outcomes.specs.Views.{TellsOver, event_items};
ghost use Rattle.cad_transaction_ends.specs.Left as runs;
ghost use Rattle.cad_values.specs.Shapes.{declarations};
ghost use Rattle.cad_values.specs.Values.{pure_value};
ghost use Rattle.cad_world.specs.Begin.{kept_account};
ghost use Rattle.cad_world.specs.Shapes.{shapes};
ghost use Rattle.cad_world.specs.State as machine;

use crate::events::events_json;
use crate::outcome::{Receipt, RunOutcome};
use cad_contract_shapes::sorts_of_contracts;
use cad_run_worlds::{RunWorld, Unfinished};
use cad_state::{Accounts, Contract, RunState, discard_state, discard_values};
use cad_syntax::Text;
use cad_transaction_ends::{Left, discard_left, left_accounts};
use cad_values::Value;
use std::alloc::{AllocError, Global};

/// The JSON of events, by what contracts declare.
fn told_events(alloc: Global, contracts: &[Contract], events: &[Value]) -> Result<Text, AllocError>
    ensures { IfOk result (λ text. text ≡ compact_text (array (event_items (map (told (declarations (shapes (map contract_of contracts.now)))) (map pure_value events.now))))) }
{
    let types = sorts_of_contracts(alloc, contracts)?;
    events_json(alloc, &types, events)
}

/// What is left, with the JSON of its events.
fn outcome_of_left(left: Left, events: Text) -> RunOutcome
    ensures { (base : List machine.Account) (all : List Data) → events ≡ compact_text (array (event_items all)) → TellsOver base result (spec.leads (ran left.made left.destroyed all) (runs.left_over base left)) }
{
    let Left {
        accounts,
        contracts,
        next_identity,
        events: values,
        made,
        destroyed,
        added,
    } = left;
    discard_values(values);
    drop(added);
    let receipt = Receipt {
        made,
        destroyed,
        events,
    };
    let world = RunWorld {
        accounts,
        contracts,
        next_identity,
    };
    RunOutcome::Leads(receipt, world)
}

/// Whether a run had all accounts, or left the contracts that there were.
fn is_settled(left: &Left) -> bool {
    match &left.accounts {
        Accounts::All(_) => true,
        Accounts::Part { count: _, known: _ } => left.added.is_empty(),
    }
}

/// What is left, with the JSON of its events. Whole where a contract was added and some accounts may not be known.
fn settled_left(left: Left, events: Text) -> Result<RunOutcome, Unfinished>
    ensures { (base : List machine.Account) (all : List Data) → events ≡ compact_text (array (event_items all)) → IfOk result (λ it. TellsOver base it (spec.leads (ran left.made left.destroyed all) (runs.left_over base left))) }
{
    if is_settled(&left) {
        return Ok(outcome_of_left(left, events));
    }
    discard_left(left);
    drop(events);
    Err(Unfinished::Whole)
}

/// What a run that ended left, with the JSON of its events.
fn outcome_of_told(state: RunState, events: Text) -> Result<RunOutcome, Unfinished>
    requires { events ≡ compact_text (array (event_items (map (told (declarations (shapes (map contract_of state.contracts.items)))) (map pure_value state.events.items)))) }
    ensures { (base : List machine.Account) → map kept_account base ≡ base → IfOk result (λ it. TellsOver base it (spec.settled (machine.ok tt (state_over base state)))) }
{
    match left_accounts(state) {
        Ok(left) => settled_left(left, events),
        Err(_) => {
            drop(events);
            Err(Unfinished::Memory)
        }
    }
}

/// What a run that ended left, over accounts without labels.
pub(crate) fn outcome_of_state(alloc: Global, state: RunState) -> Result<RunOutcome, Unfinished>
    ensures { (base : List machine.Account) → map kept_account base ≡ base → IfOk result (λ it. TellsOver base it (spec.settled (machine.ok tt (state_over base state)))) }
{
    match told_events(alloc, state.contracts.as_slice(), state.events.as_slice()) {
        Ok(events) => outcome_of_told(state, events),
        Err(_) => {
            discard_state(state);
            Err(Unfinished::Memory)
        }
    }
}
