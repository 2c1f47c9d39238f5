// Whether what accounts and contracts have has bytes of its own: those from which it is read again.
ghost use Rattle.std.specs.Prelude.{◌≡◌, ◌≢◌, ◌↔◌, IsTrue, IfOk, IfSome, map};
ghost use Rattle.std.specs.List.{AllByRecursion};
ghost use Rattle.cad_codec.specs.Forms.{HasBytes, TypeHasBytes};
ghost use Rattle.cad_codec.specs.Ranges.{TextInRange};
ghost use Rattle.cad_rows.specs.Views.{pure_place, pure_row, pure_tree};
ghost use Rattle.cad_state.specs.Views.{account_of, contract_of, controller_of, publication_of};
ghost use Rattle.cad_syntax.specs.Types.{pure_type};
ghost use Rattle.cad_syntax.specs.declared.kind.Kind.TheVariants as kind;
ghost use Rattle.cad_values.specs.Values.{pure_value};
ghost use Rattle.cad_world.specs.Registers.{row_values};
ghost use Rattle.cad_world.specs.Trees.{value_of};
ghost use Rattle.cad_world_checks.specs.Checks.{PlaceHasBytes, LentHasBytes, BorrowedHasBytes};
ghost use Rattle.cad_worlds.specs.Standing.{AccountHasBytes, AreOneText, ContractHasBytes};

use crate::of_values::plain_value;
use cad_codec::{DecodeError, decode, decode_type, encode, encode_type};
use cad_declarations::discard_type;
use cad_rows::{Place, Tree};
use cad_state::{Account, Contract, Controller, Publication, discard_value};
use cad_syntax::{CadType, Kind, Name, Num, Text};
use cad_value_trees::value_from_tree;
use cad_values::{Value, has_no_reference, same};
use std::alloc::{AllocError, Global};

const MOST_LETTERS: usize = 4_294_967_295;

// ---- values and types

/// Whether a value is the one that was read again, which is let go.
fn is_value(again: Value, value: &Value) -> bool
    ensures { IsTrue result ↔ (pure_value again ≡ pure_value value.now) }
{
    let is = same(&again, value);
    discard_value(again);
    is
}

/// Whether a text isn't too long for its bytes. It is UTF-8 by its type.
fn text_has_bytes(text: &Text) -> bool
    ensures { IsTrue result ↔ TextInRange text.now }
{
    let content = text.as_str();
    content.len() <= MOST_LETTERS
}

/// Whether a number is of a kind of numbers.
fn number_has_bytes(number: &Num) -> bool
    ensures { IsTrue result ↔ (number.now.kind ≢ kind.Address) }
{
    match number.kind {
        Kind::Address => false,
        _ => true,
    }
}

/// Whether a value without parts has bytes of its own, told without them: nothing, a truth, a number, a text, an address or a
/// path. None of others.
fn alone_has_bytes(value: &Value) -> Option<bool>
    ensures { IfSome result (λ b. IsTrue b ↔ HasBytes (pure_value value.now)) }
{
    match value {
        Value::Void | Value::Nil | Value::Bool(_) => Some(true),
        Value::Number(number) => Some(number_has_bytes(number)),
        Value::String(text) => Some(text_has_bytes(text)),
        Value::Address(address) => {
            let _number = address.0;
            Some(true)
        }
        Value::Path(path) => Some(text_has_bytes(&path.identifier.0)),
        _ => None,
    }
}

/// Whether a value has bytes of its own: it is read again from its bytes, where it can't be told without them.
fn value_has_bytes(alloc: Global, value: &Value) -> Result<bool, AllocError>
    ensures { IfOk result (λ b. IsTrue b ↔ HasBytes (pure_value value.now)) }
{
    if let Some(has) = alone_has_bytes(value) {
        return Ok(has);
    }
    if !has_no_reference(value) {
        return Ok(false);
    }
    let bytes = encode(alloc, value)?;
    match decode(alloc, bytes.as_slice()) {
        Ok(again) => Ok(is_value(again, value)),
        Err(DecodeError::Damaged) => Ok(false),
        Err(DecodeError::Memory) => Err(AllocError),
    }
}

/// Whether a type is the one that was read again, which is let go.
fn is_that_type(again: CadType, t: &CadType) -> bool
    ensures { IsTrue result ↔ (pure_type again ≡ pure_type t.now) }
{
    let is = again.same(t);
    discard_type(again);
    is
}

/// Whether a type is read again from its bytes.
fn type_has_bytes(alloc: Global, t: &CadType) -> Result<bool, AllocError>
    ensures { IfOk result (λ b. IsTrue b ↔ TypeHasBytes (pure_type t.now)) }
{
    let bytes = encode_type(alloc, t)?;
    match decode_type(alloc, bytes.as_slice()) {
        Ok(again) => Ok(is_that_type(again, t)),
        Err(DecodeError::Damaged) => Ok(false),
        Err(DecodeError::Memory) => Err(AllocError),
    }
}

// ---- what an account has

/// Whether the value of a tree has bytes of its own. It is made anew where it has parts.
fn tree_has_bytes(alloc: Global, tree: &Tree) -> Result<bool, AllocError>
    ensures { IfOk result (λ b. IsTrue b ↔ HasBytes (value_of (pure_tree tree.now))) }
{
    if let Some(value) = plain_value(tree) {
        return value_has_bytes(alloc, value);
    }
    let value = value_from_tree(alloc, tree)?;
    let has = value_has_bytes(alloc, &value);
    discard_value(value);
    has
}

/// Whether what stands in a place has, if something does.
fn place_has_bytes(alloc: Global, place: &Place) -> Result<bool, AllocError>
    ensures { IfOk result (λ b. IsTrue b ↔ PlaceHasBytes (pure_place place.now)) }
{
    match place {
        Place::Empty => Ok(true),
        Place::Full(_, tree) => tree_has_bytes(alloc, tree),
    }
}

/// Whether all that stands in a row has.
fn row_has_bytes(alloc: Global, row: &[Place]) -> Result<bool, AllocError>
    ensures { IfOk result (λ b. IsTrue b ↔ AllByRecursion HasBytes (row_values (pure_row row.now))) }
{
    for place in row {
        if !place_has_bytes(alloc, place)? {
            return Ok(false);
        }
    }
    Ok(true)
}

/// Whether the type that a publication lends has bytes of its own.
fn publication_has_bytes(alloc: Global, publication: &Publication) -> Result<bool, AllocError>
    ensures { IfOk result (λ b. IsTrue b ↔ LentHasBytes (publication_of publication.now)) }
{
    type_has_bytes(alloc, &publication.lent)
}

/// Whether that of each publication has.
fn publications_have_bytes(alloc: Global, published: &[Publication]) -> Result<bool, AllocError>
    ensures { IfOk result (λ b. IsTrue b ↔ AllByRecursion LentHasBytes (map publication_of published.now)) }
{
    for publication in published {
        if !publication_has_bytes(alloc, publication)? {
            return Ok(false);
        }
    }
    Ok(true)
}

/// Whether the type that a controller lets be borrowed has, and its target isn't too long.
fn controller_has_bytes(alloc: Global, controller: &Controller) -> Result<bool, AllocError>
    ensures { IfOk result (λ b. IsTrue b ↔ BorrowedHasBytes (controller_of controller.now)) }
{
    let target = controller.target.0.as_bytes();
    if target.len() > MOST_LETTERS {
        return Ok(false);
    }
    type_has_bytes(alloc, &controller.borrow)
}

/// Whether all controllers have.
fn controllers_have_bytes(alloc: Global, controllers: &[Controller]) -> Result<bool, AllocError>
    ensures { IfOk result (λ b. IsTrue b ↔ AllByRecursion BorrowedHasBytes (map controller_of controllers.now)) }
{
    for controller in controllers {
        if !controller_has_bytes(alloc, controller)? {
            return Ok(false);
        }
    }
    Ok(true)
}

// ---- all

/// Whether all that an account has has bytes of its own.
pub(crate) fn account_has_bytes(alloc: Global, account: &Account) -> Result<bool, AllocError>
    ensures { IfOk result (λ b. IsTrue b ↔ AccountHasBytes (account_of account.now)) }
{
    let places = account.stored.as_slice();
    let stored = row_has_bytes(alloc, places)?;
    if !stored {
        return Ok(false);
    }
    let published = account.published.as_slice();
    let lent = publications_have_bytes(alloc, published)?;
    if !lent {
        return Ok(false);
    }
    let controllers = account.controllers.as_slice();
    controllers_have_bytes(alloc, controllers)
}

/// Whether there is one name, which is a text.
fn are_one_text(names: &[Name]) -> bool
    ensures { IsTrue result ↔ AreOneText names.now }
{
    match names {
        [name] => {
            let _text = name.0.as_str();
            true
        }
        _ => false,
    }
}

/// Whether the name and the value of a contract have bytes of their own.
fn contract_has_bytes(alloc: Global, contract: &Contract) -> Result<bool, AllocError>
    ensures { IfOk result (λ b. IsTrue b ↔ ContractHasBytes (contract_of contract.now)) }
{
    if !are_one_text(contract.id.names.as_slice()) {
        return Ok(false);
    }
    let places = contract.value.as_slice();
    row_has_bytes(alloc, places)
}

/// Whether those of all contracts have.
pub(crate) fn contracts_have_bytes(
    alloc: Global,
    contracts: &[Contract],
) -> Result<bool, AllocError>
    ensures { IfOk result (λ b. IsTrue b ↔ AllByRecursion ContractHasBytes (map contract_of contracts.now)) }
{
    for contract in contracts {
        if !contract_has_bytes(alloc, contract)? {
            return Ok(false);
        }
    }
    Ok(true)
}
