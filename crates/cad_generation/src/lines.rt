// The lines of a generated session.
ghost use Rattle.std.specs.Prelude.{◌≡◌, ◌++◌, [], ◌∷◌, false, map, IfOk, OnOk};
ghost use Rattle.serde_json.specs.View.{view};
ghost use Rattle.serde_json.specs.Written.{compact_text, has_float};
ghost use Rattle.cad_generation.specs.Lines as spec;
ghost use Rattle.cad_generation.specs.Programs.{lines_text};

use crate::numbers::next_number;
use crate::programs::{publish, setup};
use crate::requests::{account_request, deploy_request, signed_request, transfer_request};
use cad_syntax::{Bytes, Items, Text};
use serde_json::Value as Json;
use std::alloc::{AllocError, Global};

// ---- one line

fn text_of(alloc: Global, request: &Json) -> Result<Text, AllocError>
    requires { has_float (view request.now) ≡ false }
    ensures { IfOk result (λ text. text ≡ compact_text (view request.now)) }
{
    Ok(Text::from_string(request.to_string(alloc)?))
}

fn account_line(alloc: Global) -> Result<Text, AllocError>
    ensures { IfOk result (λ text. text ≡ spec.account_line) }
{
    let request = account_request(alloc)?;
    text_of(alloc, &request)
}

fn deploy_line(alloc: Global) -> Result<Text, AllocError>
    ensures { IfOk result (λ text. text ≡ spec.deploy_line) }
{
    let request = deploy_request(alloc)?;
    text_of(alloc, &request)
}

fn signed_line(alloc: Global, code: &str, signer: u64) -> Result<Text, AllocError>
    ensures { IfOk result (λ text. text ≡ spec.signed_line code.now signer) }
{
    let request = signed_request(alloc, code, signer)?;
    text_of(alloc, &request)
}

fn transfer_line(alloc: Global, from: u64, to: u64, amount: u64) -> Result<Text, AllocError>
    ensures { IfOk result (λ text. text ≡ spec.transfer_line from to amount) }
{
    let request = transfer_request(alloc, from, to, amount)?;
    text_of(alloc, &request)
}

/// The line of the transfer that a number tells: an amount from 1 to 200, between two of the accounts 1 to 4.
pub fn transfer_of(alloc: Global, x: u64) -> Result<Text, AllocError>
    ensures { IfOk result (λ text. text ≡ spec.transfer_of x) }
{
    let from = 1 + x / (1 << 33) % 4;
    let to = 1 + x / (1 << 43) % 4;
    let amount = 1 + x / (1 << 53) % 200;
    transfer_line(alloc, from, to, amount)
}

// ---- the lines before the first transfer that a number tells

fn push_accounts(alloc: Global, lines: &mut Items<Text>) -> Result<(), AllocError>
    ensures { OnOk result (lines.new ≡ lines.old ++ (spec.account_line ∷ spec.account_line ∷ spec.account_line ∷ spec.account_line ∷ [])) }
{
    lines.push(account_line(alloc)?)?;
    lines.push(account_line(alloc)?)?;
    lines.push(account_line(alloc)?)?;
    lines.push(account_line(alloc)?)
}

fn push_signed(
    alloc: Global,
    lines: &mut Items<Text>,
    code: &str,
    signers: &[u64],
) -> Result<(), AllocError>
    ensures { OnOk result (lines.new ≡ lines.old ++ map (spec.signed_line code.now) signers.now) }
{
    for signer in signers {
        lines.push(signed_line(alloc, code, *signer)?)?;
    }
    Ok(())
}

fn push_transfers(
    alloc: Global,
    lines: &mut Items<Text>,
    receivers: &[u64],
) -> Result<(), AllocError>
    ensures { OnOk result (lines.new ≡ lines.old ++ map (λ to. spec.transfer_line 1 to 100) receivers.now) }
{
    for receiver in receivers {
        lines.push(transfer_line(alloc, 1, *receiver, 100)?)?;
    }
    Ok(())
}

/// The lines before the transfers: they make four accounts, deploy the token at 0x1, and give each account a vault, which
/// others can put into, and an amount.
pub fn first_lines(alloc: Global) -> Result<Items<Text>, AllocError>
    ensures { IfOk result (λ lines. lines ≡ spec.first_lines) }
{
    let mut lines = Items::new(alloc);
    push_accounts(alloc, &mut lines)?;
    lines.push(deploy_line(alloc)?)?;
    push_signed(alloc, &mut lines, setup(), &[2, 3, 4])?;
    push_signed(alloc, &mut lines, publish(), &[1, 2, 3, 4])?;
    push_transfers(alloc, &mut lines, &[2, 3, 4])?;
    Ok(lines)
}

// ---- all lines, as one text

fn push_line(bytes: &mut Vec<u8>, line: &Text) -> Result<(), AllocError>
    ensures { OnOk result (bytes.new.items ≡ bytes.old.items ++ lines_text (line.now ∷ [])) }
{
    bytes.extend_from_slice(line.as_bytes())?;
    bytes.push(b'\n')?;
    Ok(())
}

fn push_lines(bytes: &mut Vec<u8>, lines: &[Text]) -> Result<(), AllocError>
    ensures { OnOk result (bytes.new.items ≡ bytes.old.items ++ lines_text lines.now) }
{
    for line in lines {
        push_line(bytes, line)?;
    }
    Ok(())
}

// Appends the transfers that the numbers behind one tell, as many as it says.
fn push_numbered(alloc: Global, bytes: &mut Vec<u8>, n: u64) -> Result<(), AllocError>
    ensures { OnOk result (bytes.new.items ≡ bytes.old.items ++ lines_text (spec.transfers n n)) }
{
    let mut x = n;
    for _ in 0..n {
        x = next_number(x);
        let line = transfer_of(alloc, x)?;
        push_line(bytes, &line)?;
    }
    Ok(())
}

/// The lines of a generated session with so many transfers, as one text: each line is a request as compact JSON with its keys
/// in byte order, and has a line feed behind it. AllocError only where memory runs out.
pub fn generate_lines(alloc: Global, n: u64) -> Result<Bytes, AllocError>
    ensures { IfOk result (λ bytes. bytes ≡ spec.generated_text n) }
{
    let first = first_lines(alloc)?;
    let mut bytes = Vec::new(alloc);
    push_lines(&mut bytes, first.as_slice())?;
    push_numbered(alloc, &mut bytes, n)?;
    Ok(Bytes::from_vec(bytes))
}
