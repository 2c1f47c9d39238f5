// The signers of a transaction.
ghost use Rattle.std.specs.Prelude.{◌≡◌, List, length};
ghost use Rattle.std.specs.List.{list_all};
ghost use Rattle.cad_declarations.specs.Views.{transaction_of};
ghost use Rattle.cad_runs.specs.Commands as spec;
ghost use Rattle.cad_run_worlds.specs.Worlds.{run_world};
ghost use Rattle.cad_state.specs.Views.{accounts_over};
ghost use Rattle.cad_world.specs.State as s;
ghost use Rattle.cad_worlds.specs.Standing.{world_of};

use crate::run_worlds::RunWorld;
use cad_declarations::TypedTransaction;
use cad_state::Accounts;
use cad_syntax::Address;
use cad_worlds::World;

/// Whether one of so many accounts has an address.
fn is_one_of(count: u64, address: Address) -> bool
    ensures { (w : s.World) → count ≡ length w.accounts → result ≡ spec.is_account w address }
{
    1 <= address.0 && address.0 <= count
}

/// Whether an account is there.
pub fn has_account(world: &World, address: Address) -> bool
    ensures { result ≡ spec.is_account (world_of world.now) address }
{
    is_one_of(world.accounts.len() as u64, address)
}

/// Whether each of these addresses is one of so many accounts'.
fn are_among(count: u64, all: &[Address]) -> bool
    ensures { (w : s.World) → count ≡ length w.accounts → result ≡ list_all (spec.is_account w) all.now }
{
    for address in all {
        if !is_one_of(count, *address) {
            return false;
        }
    }
    true
}

/// How many accounts there are.
fn account_total(accounts: &Accounts) -> u64
    ensures { (base : List s.Account) → result ≡ length (accounts_over base accounts.now) }
{
    match accounts {
        Accounts::All(all) => all.len() as u64,
        Accounts::Part { count, known: _ } => *count,
    }
}

/// Whether each signer has an account, and there is one for each parameter of `prepare`.
pub fn are_signers(world: &RunWorld, transaction: &TypedTransaction, signers: &[Address]) -> bool
    ensures { (w : s.World) → run_world w.accounts world.now ≡ w → result ≡ spec.are_signers w (transaction_of transaction.now) signers.now }
{
    if signers.len() != transaction.signers.len() {
        return false;
    }
    are_among(account_total(&world.accounts), signers)
}
