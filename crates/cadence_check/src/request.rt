// Requests.
ghost use Rattle.std.specs.Prelude.{◌≡◌, IfOk, option_map, map, codes, Some, None, Result, Ok, Err};
ghost use Rattle.serde_json.specs.Find.{get};
ghost use Rattle.serde_json.specs.View.{view, items_view};
ghost use Rattle.cadence_check.specs.Requests as spec;
ghost use Rattle.cadence_check.specs.Views.{contract_of, subject_of, subject_result, asked_result};

use cad_request::text_at;
use cad_syntax::Address;
use serde_json::Value;
use std::alloc::{AllocError, Global};

/// A contract: the account in which it stands, its name, and its code.
#[derive(Clone, Copy)]
pub struct Contract<'a> {
    pub address: Address,
    pub name: &'a str,
    pub code: &'a str,
}

/// What is judged.
#[derive(Clone, Copy)]
pub enum Subject<'a> {
    /// The code of a script or a transaction.
    Program(&'a str),
    Contract(Contract<'a>),
}

/// The contracts that are judged first, and what is judged beside them.
#[derive(Drop)]
pub struct Asked<'a> {
    pub contracts: Vec<Contract<'a>>,
    pub subject: Subject<'a>,
}

/// The contract of an object with an address and two texts.
fn contract_in<'a>(object: &'a Value) -> Option<Contract<'a>>
    ensures { option_map contract_of result ≡ spec.contract_in (view object.entry.now) }
{
    let address = Address::from_hex(text_at(object, "address")?)?;
    let name = text_at(object, "name")?;
    let code = text_at(object, "code")?;
    Some(Contract {
        address,
        name,
        code,
    })
}

/// Each contract of a list; None where one of them is none.
fn each_contract<'a>(
    alloc: Global,
    list: &'a [Value],
) -> Result<Option<Vec<Contract<'a>>>, AllocError>
    ensures { IfOk result (λ all. option_map (λ v. map contract_of v.items) all ≡ spec.each_contract (items_view list.now)) }
{
    let mut all = Vec::new(alloc);
    for object in list {
        match contract_in(object) {
            Some(contract) => all.push(contract)?,
            None => return Ok(None),
        }
    }
    Ok(Some(all))
}

/// The contracts that a request lists; None where the field is no list of contracts.
fn contracts_in<'a>(
    alloc: Global,
    request: &'a Value,
) -> Result<Option<Vec<Contract<'a>>>, AllocError>
    ensures { IfOk result (λ all. option_map (λ v. map contract_of v.items) all ≡ spec.contracts_in (get (codes "contracts") (view request.entry.now))) }
{
    match request.get("contracts") {
        Some(field) => match field.as_array() {
            Some(list) => each_contract(alloc, list),
            None => Ok(None),
        },
        None => Ok(Some(Vec::new(alloc))),
    }
}

/// A needed field, or the number of the fault.
fn needed<'a>(subject: Option<Subject<'a>>) -> Result<Subject<'a>, u16>
    ensures { subject_result result ≡ spec.needed (option_map subject_of subject.entry) }
{
    match subject {
        Some(subject) => Ok(subject),
        None => Err(22),
    }
}

/// What is judged, by the kind of a request.
fn subject_of_kind<'a>(kind: &str, request: &'a Value) -> Result<Subject<'a>, u16>
    ensures { subject_result result ≡ spec.subject_of_kind kind.now (view request.entry.now) }
{
    if kind == "contract" {
        return needed(contract_in(request).map(Subject::Contract));
    }
    if kind == "script" || kind == "transaction" {
        return needed(text_at(request, "code").map(Subject::Program));
    }
    Err(23)
}

/// What is judged, or the number of the fault.
fn subject_in<'a>(request: &'a Value) -> Result<Subject<'a>, u16>
    ensures { subject_result result ≡ spec.subject_in (view request.entry.now) }
{
    match text_at(request, "kind") {
        Some(kind) => subject_of_kind(kind, request),
        None => Err(22),
    }
}

/// What a request asks, or the number of the fault: 22 where it is no object with a text `kind`, 23 where the kind is none of
/// `script`, `transaction` and `contract`, 22 where another field is missing or of another form.
pub fn asked_in<'a>(alloc: Global, request: &'a Value) -> Result<Result<Asked<'a>, u16>, AllocError>
    ensures { IfOk result (λ a. asked_result a ≡ spec.asked (view request.entry.now)) }
{
    let subject = match subject_in(request) {
        Ok(subject) => subject,
        Err(number) => return Ok(Err(number)),
    };
    match contracts_in(alloc, request)? {
        Some(contracts) => Ok(Ok(Asked { contracts, subject })),
        None => Ok(Err(22)),
    }
}
