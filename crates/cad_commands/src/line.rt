// Lines.
ghost use Rattle.std.specs.Prelude.{◌≡◌, IfOk, option_map};
ghost use Rattle.serde_json.specs.View.{view};
ghost use Rattle.cad_commands.specs.Commands as spec;
ghost use Rattle.cad_commands.specs.Views.{pure_command};

use crate::field::{address_at, signers_of};
use crate::kinds::Command;
use crate::run::run_of;
use cad_request::text_at;
use cad_syntax::Text;
use serde_json::Value;
use std::alloc::{AllocError, Global};

/// The deploy that a request asks for.
fn deploy_of(alloc: Global, request: Value) -> Result<Command, AllocError>
    ensures { IfOk result (λ c. pure_command c ≡ spec.deploy_of (view request)) }
{
    let address = match address_at(&request, "address") {
        Some(address) => address,
        None => return Ok(Command::Refused(22)),
    };
    let name = match text_at(&request, "name") {
        Some(name) => Text::from_str(alloc, name)?,
        None => return Ok(Command::Refused(22)),
    };
    match run_of(alloc, request)? {
        Ok(run) => Ok(Command::Deploy {
            address,
            name,
            code: run.code,
            arguments: run.arguments,
            limit: run.limit,
        }),
        Err(number) => Ok(Command::Refused(number)),
    }
}

/// The transaction that a request asks for.
fn transaction_of(alloc: Global, request: Value) -> Result<Command, AllocError>
    ensures { IfOk result (λ c. pure_command c ≡ spec.transaction_of (view request)) }
{
    let signers = match signers_of(alloc, &request)? {
        Some(signers) => signers,
        None => return Ok(Command::Refused(22)),
    };
    match run_of(alloc, request)? {
        Ok(run) => Ok(Command::Transaction {
            code: run.code,
            arguments: run.arguments,
            signers,
            limit: run.limit,
        }),
        Err(number) => Ok(Command::Refused(number)),
    }
}

/// The script that a request asks for.
fn script_of(alloc: Global, request: Value) -> Result<Command, AllocError>
    ensures { IfOk result (λ c. pure_command c ≡ spec.script_of (view request)) }
{
    match run_of(alloc, request)? {
        Ok(run) => Ok(Command::Script {
            code: run.code,
            arguments: run.arguments,
            limit: run.limit,
        }),
        Err(number) => Ok(Command::Refused(number)),
    }
}

/// The command that a request asks for.
fn of_request(alloc: Global, request: Value) -> Result<Command, AllocError>
    ensures { IfOk result (λ c. pure_command c ≡ spec.of_request (view request)) }
{
    match text_at(&request, "kind") {
        Some(kind) => {
            if kind == "account" {
                return Ok(Command::Account);
            }
            if kind == "deploy" {
                return deploy_of(alloc, request);
            }
            if kind == "transaction" {
                return transaction_of(alloc, request);
            }
            if kind == "script" {
                return script_of(alloc, request);
            }
            Ok(Command::Refused(23))
        }
        None => Ok(Command::Refused(22)),
    }
}

/// The JSON of a line. None where it is no JSON in UTF-8.
fn json_of(alloc: Global, line: &[u8]) -> Result<Option<Value>, AllocError>
    ensures { IfOk result (λ json. option_map view json ≡ spec.json_of line.now) }
{
    match Value::from_slice(alloc, line) {
        Ok(request) => Ok(Some(request)),
        Err(fault) => {
            if fault.is_memory() {
                return Err(AllocError);
            }
            Ok(None)
        }
    }
}

/// The command that a line of at most 1,048,576 bytes asks for. A refusal has the number of the first that is due: 21 where the
/// line is no JSON in UTF-8; 22 where it is no object, or `kind` isn't there or is no text; 23 where `kind` is none of
/// `account`, `deploy`, `transaction` and `script`; 22 where a field isn't there or isn't of its form; 28 where `limit` isn't
/// from 1 to 1,000,000.
pub fn command(alloc: Global, line: &[u8]) -> Result<Command, AllocError>
    ensures { IfOk result (λ c. pure_command c ≡ spec.command_of line.now) }
{
    match json_of(alloc, line)? {
        Some(request) => of_request(alloc, request),
        None => Ok(Command::Refused(21)),
    }
}
