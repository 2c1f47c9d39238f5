// The requests of a generated session, as JSON.
ghost use Rattle.std.specs.Prelude.{◌≡◌, ◌++◌, codes, decimal, IfOk};
ghost use Rattle.serde_json.specs.Data.{array, item, no_items};
ghost use Rattle.serde_json.specs.View.{view};
ghost use Rattle.cad_generation.specs.Requests as spec;

use crate::programs::{token, transfer};
use cad_syntax::{Address, Text};
use serde_json::{Value as Json, json};
use std::alloc::{AllocError, Global};

/// The request for an account.
pub(crate) fn account_request(alloc: Global) -> Result<Json, AllocError>
    ensures { IfOk result (λ request. view request ≡ spec.account_request) }
{
    json!(in alloc; {"kind": "account"})
}

/// The request that deploys the token.
pub(crate) fn deploy_request(alloc: Global) -> Result<Json, AllocError>
    ensures { IfOk result (λ request. view request ≡ spec.deploy_request) }
{
    let address = Address(1).to_hex(alloc)?;
    let address = address.as_str();
    json!(in alloc; {"kind": "deploy", "address": address, "name": "Token", "code": token()})
}

/// The request of a transaction without arguments, which one account signs.
pub(crate) fn signed_request(alloc: Global, code: &str, signer: u64) -> Result<Json, AllocError>
    ensures { IfOk result (λ request. view request ≡ spec.signed_request code.now signer) }
{
    let signer = Address(signer).to_hex(alloc)?;
    let signer = signer.as_str();
    json!(in alloc; {"kind": "transaction", "code": code, "signers": [signer]})
}

// A value that is written as text.
fn argument(alloc: Global, kind: &str, value: &str) -> Result<Json, AllocError>
    ensures { IfOk result (λ request. view request ≡ spec.argument kind.now value.now) }
{
    json!(in alloc; {"type": kind, "value": value})
}

// A whole amount, with 8 decimals.
fn amount_text(alloc: Global, amount: u64) -> Result<Text, AllocError>
    ensures { IfOk result (λ text. text ≡ spec.amount_text amount) }
{
    let mut text = Text::from_string(amount.to_string(alloc)?);
    text.push_str(".00000000")?;
    Ok(text)
}

// A list of two values.
fn list_of_two(alloc: Global, first: &Json, second: &Json) -> Result<Json, AllocError>
    ensures { IfOk result (λ request. view request ≡ array (item (view first.now) (item (view second.now) no_items))) }
{
    json!(in alloc; [first, second])
}

// The arguments of a transfer: the amount, and the account to which it goes.
fn transfer_arguments(alloc: Global, to: u64, amount: u64) -> Result<Json, AllocError>
    ensures { IfOk result (λ request. view request ≡ spec.transfer_arguments to amount) }
{
    let amount = amount_text(alloc, amount)?;
    let amount = argument(alloc, "UFix64", amount.as_str())?;
    let receiver = Address(to).to_hex(alloc)?;
    let receiver = argument(alloc, "Address", receiver.as_str())?;
    list_of_two(alloc, &amount, &receiver)
}

// The request of a transaction with these arguments, which one account signs.
fn called_request(
    alloc: Global,
    code: &str,
    arguments: &Json,
    signer: &str,
) -> Result<Json, AllocError>
    ensures { IfOk result (λ request. view request ≡ spec.called_request code.now (view arguments.now) signer.now) }
{
    json!(in alloc; {"kind": "transaction", "code": code, "arguments": arguments, "signers": [signer]})
}

/// The request for a transfer from one account, which signs, to another.
pub(crate) fn transfer_request(
    alloc: Global,
    from: u64,
    to: u64,
    amount: u64,
) -> Result<Json, AllocError>
    ensures { IfOk result (λ request. view request ≡ spec.transfer_request from to amount) }
{
    let arguments = transfer_arguments(alloc, to, amount)?;
    let signer = Address(from).to_hex(alloc)?;
    called_request(alloc, transfer(), &arguments, signer.as_str())
}
