// One account more.
ghost use Rattle.std.specs.Prelude.{◌≡◌, ◌<◌, IfOk, OnOk};
ghost use Rattle.cad_runs.specs.Commands as runs;
ghost use Rattle.cad_state.specs.Views.{account_of};
ghost use Rattle.cad_store.specs.Stores.{held};
ghost use Rattle.cad_world.specs.Begin.{new_account};
ghost use Rattle.cad_world.specs.State as definition;
ghost use Rattle.cad_worlds.specs.Standing.{StandsFor};
ghost use Rattle.cad_answers.specs.Code.Outcomes.{Comes};
ghost use Rattle.cad_serve_parts.specs.Code.Parts.{HasOneMore};

use crate::outcome::Outcome;
use crate::reply::Reply;
use cad_rows::Place;
use cad_run_worlds::Unfinished;
use cad_serve_parts::{Programs, part_changes_to, part_in};
use cad_state::{Account, Controller, Known, Publication, discard_account};
use cad_store::Store;
use cad_syntax::{Address, Name};
use cad_worlds::{WorldPart, discard_part};
use std::alloc::{AllocError, Global};

/// How many accounts there may be.
const MOST_ACCOUNTS: u64 = 1_000_000;

// An account in which nothing is. It takes no memory.
fn new_account(alloc: Global) -> Account
    ensures { account_of result ≡ new_account }
{
    Account {
        identifiers: Vec::<Name>::new(alloc),
        stored: Vec::<Place>::new(alloc),
        published: Vec::<Publication>::new(alloc),
        controllers: Vec::<Controller>::new(alloc),
        next_controller: 1,
    }
}

// Adds an account, which is known.
fn add_account(alloc: Global, part: &mut WorldPart) -> Result<(), AllocError>
    requires { part.old.count < 1000000 }
    ensures { OnOk result (HasOneMore part.old part.new) }
{
    let one = Known {
        index: part.count,
        account: new_account(alloc),
    };
    match part.known.push(one) {
        Ok(()) => {
            part.count += 1;
            Ok(())
        }
        Err(refused) => {
            let Known { index: _, account } = refused.value;
            discard_account(account);
            Err(AllocError)
        }
    }
}

// A part of a World with one account more.
fn with_account(alloc: Global, part: WorldPart) -> Result<WorldPart, AllocError>
    requires { part.count < 1000000 }
    ensures { IfOk result (λ new. HasOneMore part new) }
{
    let mut new = part;
    match add_account(alloc, &mut new) {
        Ok(()) => Ok(new),
        Err(error) => {
            discard_part(new);
            Err(error)
        }
    }
}

/// What one more account comes to.
pub fn account_outcome(
    alloc: Global,
    programs: &mut Programs,
    store: &Store,
) -> Result<Outcome, Unfinished>
    ensures { IfOk result (λ o. (w : definition.World) → StandsFor (held store.now) w → Comes o (held store.now) w runs.account) }
{
    let part = part_in(alloc, programs, store, &[])?;
    let count = part.count;
    if count >= MOST_ACCOUNTS {
        discard_part(part);
        return Ok(Outcome::Stays(Reply::Failed(127)));
    }
    let new = with_account(alloc, part)?;
    let changes = part_changes_to(alloc, programs, store, new)?;
    Ok(Outcome::Leads(Reply::Account(Address(count + 1)), changes))
}
