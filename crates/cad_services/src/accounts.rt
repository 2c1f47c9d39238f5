// Accounts and their parts, which are met through references that name their address.
ghost use Rattle.std.specs.Prelude.{◌≡◌, option_map};
ghost use Rattle.cad_evaluation.specs.Accounts as spec;
ghost use Rattle.cad_evaluation.specs.Texts.{in_tree};
ghost use Rattle.cad_outcomes.specs.Outcomes.{Gives};
ghost use Rattle.cad_receivers.specs.Views.{at_spot, settled_of, spot_of};
ghost use Rattle.cad_rows.specs.Views.{pure_tree};
ghost use Rattle.cad_services.specs.Code.Services as code;
ghost use Rattle.cad_state.specs.Views.{FindsAndCarriesOut};
ghost use Rattle.cad_syntax.specs.Types.{pure_type};
ghost use Rattle.cad_types.specs.Basics as basics;
ghost use Rattle.cad_values.specs.Values.{pure_value};
ghost use Rattle.cad_world.specs.State.{give, with_some};

use crate::spots::value_at;
use cad_operators::plain_tree;
use cad_outcomes::Stop;
use cad_receivers::{Settled, Spot, look};
use cad_rows::Tree;
use cad_state::RunState;
use cad_syntax::{Address, Authorization, Basic, CadType};
use cad_values::{Reference, Target, Value};
use std::alloc::Global;

/// Whether two basic types are one.
fn same_basic(t: Basic, u: Basic) -> bool
    ensures { result ≡ basics.same_basic t u }
{
    t == u
}

/// Whether a type is this part of an account.
fn is_part(part: Basic, target: &CadType) -> bool
    ensures { result ≡ code.is_part part (pure_type target.now) }
{
    match target {
        CadType::Basic(basic) => same_basic(*basic, part),
        _ => false,
    }
}

/// The address of the account to which a reference leads.
fn address_in_target(target: &Target) -> Option<Address>
    ensures { result ≡ code.address_in_target target.now }
{
    match target {
        Target::Account(address) => Some(*address),
        _ => None,
    }
}

/// The address that a reference to this part of an account names.
fn address_in_reference(part: Basic, reference: &Reference) -> Option<Address>
    ensures { result ≡ spec.account_in_value part (pure_value (Value.Reference reference.now)) }
{
    if is_part(part, &reference.target) {
        address_in_target(&reference.to)
    } else {
        None
    }
}

/// The address that a value names which is a reference to this part of an account.
fn address_in_value(part: Basic, value: &Value) -> Option<Address>
    ensures { result ≡ spec.account_in_value part (pure_value value.now) }
{
    match value {
        Value::Reference(reference) => address_in_reference(part, reference),
        _ => None,
    }
}

/// The address of the account of which a spot is this part.
fn address_in(part: Basic, spot: Spot<'_>) -> Option<Address>
    ensures { result ≡ in_tree (spec.account_in_value part) (spot_of spot.entry).tree }
{
    match value_at(spot) {
        Some(value) => address_in_value(part, value),
        None => None,
    }
}

/// The address of the account of which a spot is this part; IllTyped of anything else.
fn address_told(part: Basic, spot: Spot<'_>) -> Result<Address, Stop>
    ensures { Gives (λ a. a) (code.address_of part (spot_of spot.entry)) result }
{
    match address_in(part, spot) {
        Some(address) => Ok(address),
        None => Err(Stop::IllTyped),
    }
}

/// The address of the account of which a receiver that was settled is this part; IllTyped of anything else.
pub(crate) fn address_of(
    state: &RunState,
    part: Basic,
    receiver: Settled<'_>,
) -> Result<Address, Stop>
    ensures { FindsAndCarriesOut (λ a. a) (at_spot (settled_of receiver.entry) (code.address_of part)) state.now state.now result }
{
    match look(state, receiver) {
        Ok(spot) => address_told(part, spot),
        Err(stop) => Err(stop),
    }
}

/// The address of the account of whose contracts a receiver that was settled is the part; IllTyped of anything else.
pub fn contracts_account(state: &RunState, receiver: Settled<'_>) -> Result<Address, Stop>
    ensures { FindsAndCarriesOut (λ a. a) (at_spot (settled_of receiver.entry) (λ spot. with_some (in_tree (spec.account_in_value Basic.AccountContracts) spot.tree) give)) state.now state.now result }
{
    address_of(state, Basic::AccountContracts, receiver)
}

/// An address.
fn address_tree(alloc: Global, address: Address) -> Tree
    ensures { pure_tree result ≡ code.address_tree address }
{
    plain_tree(alloc, Value::Address(address))
}

/// The address of the account that a spot is.
fn address_at(alloc: Global, spot: Spot<'_>) -> Result<Tree, Stop>
    ensures { Gives pure_tree (spec.read_address (spot_of spot.entry)) result }
{
    match address_in(Basic::Account, spot) {
        Some(address) => Ok(address_tree(alloc, address)),
        None => Err(Stop::IllTyped),
    }
}

/// The address of the account that a receiver that was settled is; IllTyped of anything else.
pub(crate) fn read_address(state: &RunState, receiver: Settled<'_>) -> Result<Tree, Stop>
    ensures { FindsAndCarriesOut pure_tree (at_spot (settled_of receiver.entry) spec.read_address) state.now state.now result }
{
    match look(state, receiver) {
        Ok(spot) => address_at(*state.making.allocator(), spot),
        Err(stop) => Err(stop),
    }
}

/// A reference with these rights to a part of an account.
fn part_tree(
    alloc: Global,
    own: &Authorization,
    part: Basic,
    address: Address,
) -> Result<Tree, Stop>
    ensures { Gives pure_tree (code.give_part own.now part address) result }
{
    match own.clone() {
        Ok(authorization) => Ok(plain_tree(
            alloc,
            Value::Reference(Reference {
                authorization,
                target: CadType::Basic(part),
                to: Target::Account(address),
            }),
        )),
        Err(_) => Err(Stop::Memory),
    }
}

/// A reference to a part of an account, with the rights with which a spot is met.
fn lent_part(
    alloc: Global,
    rights: Option<&Authorization>,
    part: Basic,
    address: Address,
) -> Result<Tree, Stop>
    ensures { Gives pure_tree (code.lend_part (option_map (λ own. own.now) rights.entry) part address) result }
{
    match rights {
        Some(own) => part_tree(alloc, own, part, address),
        None => Err(Stop::IllTyped),
    }
}

/// A part of what a spot is, with the rights with which that is met.
fn part_at(alloc: Global, whole: Basic, part: Basic, spot: Spot<'_>) -> Result<Tree, Stop>
    ensures { Gives pure_tree (spec.read_part_of whole part (spot_of spot.entry)) result }
{
    match address_in(whole, spot) {
        Some(address) => lent_part(alloc, spot.rights, part, address),
        None => Err(Stop::IllTyped),
    }
}

/// A part of an account, or of a part of one, with the rights with which a receiver that was settled is met; IllTyped where the
/// receiver is anything else.
pub(crate) fn read_part(
    state: &RunState,
    whole: Basic,
    part: Basic,
    receiver: Settled<'_>,
) -> Result<Tree, Stop>
    ensures { FindsAndCarriesOut pure_tree (at_spot (settled_of receiver.entry) (spec.read_part_of whole part)) state.now state.now result }
{
    match look(state, receiver) {
        Ok(spot) => part_at(*state.making.allocator(), whole, part, spot),
        Err(stop) => Err(stop),
    }
}
