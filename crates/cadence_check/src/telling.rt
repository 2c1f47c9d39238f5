// What people are told of a line.
use crate::judge::verdict;
use crate::request::{Asked, Contract, Subject, asked_in};
use crate::verdict::{Refusal, Verdict};
use cad_diagnostics::diagnostic;
use cad_request::text_at;
use cad_syntax::Text;
use serde_json::Value;
use std::alloc::{AllocError, Global};

/// A line about what has a name.
fn named(alloc: Global, name: &str, told: &str) -> Result<Text, AllocError> {
    let mut text = Text::from_str(alloc, name)?;
    text.push_str(": ")?;
    text.push_str(told)?;
    Ok(text)
}

/// A line that tells of `bad`, by the number of its cause.
fn bad(alloc: Global, name: &str, number: u16) -> Result<Text, AllocError> {
    let mut text = named(alloc, name, "bad ")?;
    text.push_str(number.to_string(alloc)?.as_str())?;
    Ok(text)
}

/// Why the code of what has a name is refused.
fn refused(alloc: Global, name: &str, code: &str, refusal: &Refusal) -> Result<Text, AllocError> {
    match refusal {
        Refusal::Stopped(rejected) => diagnostic(alloc, name, code, rejected),
        Refusal::Bad(number) => bad(alloc, name, *number),
    }
}

/// That what is judged is accepted: a contract by its name, a program by its kind.
fn accepted(alloc: Global, kind: &str, subject: Subject<'_>) -> Result<Text, AllocError> {
    match subject {
        Subject::Program(_) => named(alloc, kind, "accepted"),
        Subject::Contract(one) => named(alloc, one.name, "accepted"),
    }
}

/// Why what is judged is refused.
fn subject_refused(
    alloc: Global,
    kind: &str,
    subject: Subject<'_>,
    refusal: &Refusal,
) -> Result<Text, AllocError> {
    match subject {
        Subject::Program(code) => refused(alloc, kind, code, refusal),
        Subject::Contract(one) => refused(alloc, one.name, one.code, refusal),
    }
}

/// Why one of the contracts that are judged first is refused, by its place in their list.
fn contract_refused(
    alloc: Global,
    contracts: &[Contract<'_>],
    number: u64,
    refusal: &Refusal,
) -> Result<Text, AllocError> {
    match contracts.get(number as usize) {
        Some(contract) => refused(alloc, contract.name, contract.code, refusal),
        None => bad(alloc, "request", 22),
    }
}

/// What people are told of a verdict.
fn verdict_told(
    alloc: Global,
    kind: &str,
    asked: &Asked<'_>,
    verdict: &Verdict,
) -> Result<Text, AllocError> {
    match verdict {
        Verdict::Accepted => accepted(alloc, kind, asked.subject),
        Verdict::Refused(Some(number), refusal) => {
            contract_refused(alloc, asked.contracts.as_slice(), *number, refusal)
        }
        Verdict::Refused(None, refusal) => subject_refused(alloc, kind, asked.subject, refusal),
    }
}

/// The kind that a request names.
fn kind_of(request: &Value) -> &str {
    match text_at(request, "kind") {
        Some(kind) => kind,
        None => "request",
    }
}

/// What people are told of a request.
fn told(alloc: Global, request: &Value) -> Result<Text, AllocError> {
    match asked_in(alloc, request)? {
        Ok(asked) => {
            let verdict = verdict(alloc, asked.contracts.as_slice(), &asked.subject)?;
            verdict_told(alloc, kind_of(request), &asked, &verdict)
        }
        Err(number) => bad(alloc, "request", number),
    }
}

/// What people are told of a line, without a line feed at the end: `NAME: accepted`, a diagnostic of three lines, or
/// `NAME: bad N`. NAME is that of a contract, the kind of a program, or `request` where the line asks for nothing.
pub fn told_of(alloc: Global, line: &[u8]) -> Result<Text, AllocError> {
    match Value::from_slice(alloc, line) {
        Ok(request) => told(alloc, &request),
        Err(fault) => {
            if fault.is_memory() {
                Err(AllocError)
            } else {
                bad(alloc, "request", 21)
            }
        }
    }
}

/// What people are told of a line that isn't UTF-8.
pub fn told_of_no_text(alloc: Global) -> Result<Text, AllocError> {
    bad(alloc, "request", 21)
}
