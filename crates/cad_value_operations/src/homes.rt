// The accounts of resources and contracts.
ghost use Rattle.std.specs.Prelude.{◌≡◌, option_map};
ghost use Rattle.cad_declarations.specs.Builtins as builtins;
ghost use Rattle.cad_evaluation.specs.Accounts as accounts;
ghost use Rattle.cad_evaluation.specs.Builtins as spec;
ghost use Rattle.cad_evaluation.specs.Texts.{optional_tree};
ghost use Rattle.cad_outcomes.specs.Outcomes.{Gives};
ghost use Rattle.cad_receivers.specs.Views.{at_spot, settled_of, spot_of};
ghost use Rattle.cad_rows.specs.Views.{pure_tree};
ghost use Rattle.cad_state.specs.Views.{FindsAndCarriesOut};
ghost use Rattle.cad_syntax.specs.Types.{pure_type};
ghost use Rattle.cad_value_operations.specs.Code.Members as code;
ghost use Rattle.cad_values.specs.Values as values;
ghost use Rattle.cad_values.specs.Values.{pure_value};
ghost use Rattle.cad_world.specs.State.{give};
ghost use Rattle.cad_world.specs.Trees.{wrapped};

use cad_access::composite_in;
use cad_builtins::own_account;
use cad_declarations::discard_type;
use cad_operators::{nil_tree, plain_tree};
use cad_outcomes::Stop;
use cad_receivers::{Settled, Spot, look};
use cad_rows::{Shape, Tree};
use cad_run_accounts::home;
use cad_state::RunState;
use cad_syntax::{Address, Authorization, Basic, CadType};
use cad_values::{Reference, Target, Value};
use std::alloc::Global;

/// A reference without rights to the account with an address.
fn any_account_value(address: Address) -> Value
    ensures { pure_value result ≡ code.any_account_value address }
{
    Value::Reference(Reference {
        authorization: Authorization::Unauthorized,
        target: CadType::Basic(Basic::Account),
        to: Target::Account(address),
    })
}

/// The same as a value of the run.
pub(crate) fn any_account(alloc: Global, address: Address) -> Tree
    ensures { pure_tree result ≡ accounts.any_account address }
{
    plain_tree(alloc, any_account_value(address))
}

/// The same in an optional.
fn some_account(alloc: Global, address: Address) -> Tree
    ensures { pure_tree result ≡ wrapped (accounts.any_account address) }
{
    Tree {
        optionals: 1,
        shape: Shape::Plain(any_account_value(address)),
        parts: Vec::new(alloc),
    }
}

/// The account with an address, or nil.
fn optional_account(alloc: Global, address: Option<Address>) -> Tree
    ensures { pure_tree result ≡ optional_tree (option_map accounts.any_account address) }
{
    match address {
        Some(own) => some_account(alloc, own),
        None => nil_tree(alloc),
    }
}

/// The account in which the node with a label stands, or nil.
fn owner_of(state: &RunState, label: u64) -> Result<Tree, Stop>
    ensures { FindsAndCarriesOut pure_tree (code.owner_of label) state.now state.now result }
{
    match home(state, label) {
        Ok(address) => Ok(optional_account(*state.making.allocator(), address)),
        Err(_) => Err(Stop::Memory),
    }
}

/// The account in which a spot stands. IllTyped of what has no label.
fn owner_of_spot(state: &RunState, spot: Spot<'_>) -> Result<Tree, Stop>
    ensures { FindsAndCarriesOut pure_tree (spec.read_owner (spot_of spot.entry)) state.now state.now result }
{
    match spot.label {
        Some(label) => owner_of(state, label),
        None => Err(Stop::IllTyped),
    }
}

/// The account in whose storage, or in whose contract's value, stands what a receiver is now that was settled; nil where it stands
/// elsewhere. IllTyped of an account, a part of one and a controller.
pub fn owner(state: &RunState, receiver: Settled<'_>) -> Result<Tree, Stop>
    ensures { FindsAndCarriesOut pure_tree (at_spot (settled_of receiver.entry) spec.read_owner) state.now state.now result }
{
    match look(state, receiver) {
        Ok(spot) => owner_of_spot(state, spot),
        Err(stop) => Err(stop),
    }
}

/// A reference to the account with an address.
fn account_value(authorization: Authorization, target: CadType, address: Address) -> Value
    ensures { pure_value result ≡ values.reference authorization (pure_type target) (Target.Account address) }
{
    Value::Reference(Reference {
        authorization,
        target,
        to: Target::Account(address),
    })
}

/// A reference of a type to the account with an address; nil where the type is none of references.
fn account_reference(alloc: Global, own: CadType, address: Address) -> Tree
    ensures { pure_tree result ≡ accounts.account_reference (pure_type own) address }
{
    match own {
        CadType::Reference(authorization, target) => {
            plain_tree(
                alloc,
                account_value(authorization, Box::into_inner(target), address),
            )
        }
        other => {
            discard_type(other);
            nil_tree(alloc)
        }
    }
}

/// What a contract at an address meets its account with.
fn account_at(alloc: Global, address: Address) -> Result<Tree, Stop>
    ensures { Gives pure_tree (give (accounts.account_reference builtins.own_account address)) result }
{
    match own_account(alloc) {
        Ok(own) => Ok(account_reference(alloc, own, address)),
        Err(_) => Err(Stop::Memory),
    }
}

/// The account of the contract that a spot is. IllTyped of what is none.
fn account_of_spot(alloc: Global, spot: Spot<'_>) -> Result<Tree, Stop>
    ensures { Gives pure_tree (spec.read_account (spot_of spot.entry)) result }
{
    match composite_in(spot.optionals, spot.shape) {
        Some(id) => account_at(alloc, id.address),
        None => Err(Stop::IllTyped),
    }
}

/// The account of the contract that a receiver is now that was settled, with all that a contract may do there. IllTyped of what is
/// no composite.
pub fn account(state: &RunState, receiver: Settled<'_>) -> Result<Tree, Stop>
    ensures { FindsAndCarriesOut pure_tree (at_spot (settled_of receiver.entry) spec.read_account) state.now state.now result }
{
    match look(state, receiver) {
        Ok(spot) => account_of_spot(*state.making.allocator(), spot),
        Err(stop) => Err(stop),
    }
}
