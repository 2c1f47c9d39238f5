// Judging.
ghost use Rattle.std.specs.Prelude.{◌≡◌, IfOk, List, [], map};
ghost use Rattle.cad_syntax.specs.TypeIds.{same_id};
ghost use Rattle.cad_declarations.specs.Imports.{ContractEntry, contract_entry};
ghost use Rattle.cad_declarations.specs.Views.{tables_of};
ghost use Rattle.cad_acceptance.specs.Acceptance.{AcceptsText, checked_of};
ghost use Rattle.cad_contracts.specs.Views.{entry_of};
ghost use Rattle.cad_tables.specs.Views.{contracts_of};
ghost use Rattle.cadence_check.specs.Code.Coming.{AllStand, MayCome, NextStands};
ghost use Rattle.cadence_check.specs.Requests.{contract, program};
ghost use Rattle.cadence_check.specs.Verdicts as spec;
ghost use Rattle.cadence_check.specs.Verdicts.{Judges, JudgesAll};
ghost use Rattle.cadence_check.specs.Views.{contract_of, subject_of, verdict_of};

use crate::request::{Contract, Subject};
use crate::verdict::{Refusal, Verdict};
use cad_check::check_text;
use cad_declarations::{Checked, Deployed, Installed};
use cad_discards::{discard_checked, discard_deployed, discard_installed};
use cad_syntax::{Bytes, Name, Text, TypeId};
use cad_tables::{no_contracts, with_contract};
use std::alloc::{AllocError, Global};
use std::rc::Rc;

/// Whether a program is the contract of this address and name.
fn is_contract(checked: &Checked, contract: &Contract<'_>) -> bool
    ensures { result ≡ spec.is_contract (spec.id_of (contract_of contract.now)) (tables_of checked.now.tables).contract }
{
    match &checked.tables.contract {
        Some(id) => is_named(id, contract),
        None => false,
    }
}

/// Whether an identifier is that of a contract.
fn is_named(id: &TypeId, contract: &Contract<'_>) -> bool
    ensures { result ≡ same_id (spec.id_of (contract_of contract.now)) id.now }
{
    match id.names.as_slice() {
        [name] => id.address.0 == contract.address.0 && name.0.as_str() == contract.name,
        _ => false,
    }
}

/// A program that is accepted where a contract is to stand, or why it is refused: it may be no contract of its name.
fn of_its_name(checked: Checked, contract: &Contract<'_>) -> Result<Checked, Refusal>
    ensures { (deployed : List ContractEntry) → AcceptsText deployed (spec.account_of (contract_of contract.now)) (contract_of contract.now).code (checked_of checked) → MayCome deployed (contract_of contract.now) result }
{
    if is_contract(&checked, contract) {
        Ok(checked)
    } else {
        discard_checked(checked);
        Err(Refusal::Bad(26))
    }
}

/// The program of a contract beside those that stand, or why it is refused.
fn come(
    alloc: Global,
    deployed: &Deployed,
    contract: &Contract<'_>,
) -> Result<Result<Checked, Refusal>, AllocError>
    ensures { IfOk result (MayCome (contracts_of deployed.now) (contract_of contract.now)) }
{
    let place = Some(contract.address);
    match check_text(alloc, contract.code.as_bytes(), place, deployed)? {
        Ok(checked) => Ok(of_its_name(checked, contract)),
        Err(rejected) => Ok(Err(Refusal::Stopped(rejected))),
    }
}

/// A program that several may hold.
fn shared(alloc: Global, checked: Checked) -> Result<Rc<Checked>, AllocError>
    ensures { IfOk result (λ r. r.value ≡ checked) }
{
    match Rc::new(alloc, checked) {
        Ok(one) => Ok(one),
        Err(refused) => {
            discard_checked(refused.value);
            Err(AllocError)
        }
    }
}

/// The name and the code of a contract, as accounts have them.
fn stored(alloc: Global, contract: &Contract<'_>) -> Result<(Name, Rc<Bytes>), AllocError>
    ensures { IfOk result (λ x. x.0 ≡ record { 0 = contract.now.name.now }) }
{
    let name = Name(Text::from_str(alloc, contract.name)?);
    let code = Rc::new(alloc, Bytes::from_slice(alloc, contract.code.as_bytes())?)?;
    Ok((name, code))
}

/// A contract whose program is accepted, as accounts have it.
fn installed(
    alloc: Global,
    contract: &Contract<'_>,
    checked: Checked,
) -> Result<Installed, AllocError>
    ensures { IfOk result (λ x. entry_of x ≡ contract_entry (spec.id_of (contract_of contract.now)) (checked_of checked).tables) }
{
    let (name, code) = match stored(alloc, contract) {
        Ok(stored) => stored,
        Err(error) => {
            discard_checked(checked);
            return Err(error);
        }
    };
    let checked = shared(alloc, checked)?;
    Ok(Installed {
        address: contract.address,
        name,
        code,
        checked,
    })
}

/// The contracts with one more.
fn beside(
    alloc: Global,
    deployed: &Deployed,
    contract: &Contract<'_>,
    checked: Checked,
) -> Result<Deployed, AllocError>
    ensures { IfOk result (λ all. contracts_of all ≡ spec.beside (contracts_of deployed.now) (contract_of contract.now) (checked_of checked)) }
{
    let installed = installed(alloc, contract, checked)?;
    let all = with_contract(alloc, deployed, &installed);
    discard_installed(installed);
    all
}

/// The contracts with the next one of a list, where it is accepted; else why it is refused.
fn next_beside(
    alloc: Global,
    deployed: &Deployed,
    contract: &Contract<'_>,
) -> Result<Result<Deployed, Refusal>, AllocError>
    ensures { IfOk result (NextStands (contracts_of deployed.now) (contract_of contract.now)) }
{
    match come(alloc, deployed, contract)? {
        Ok(checked) => Ok(Ok(beside(alloc, deployed, contract, checked)?)),
        Err(refusal) => Ok(Err(refusal)),
    }
}

/// The same; those that stood before are let go.
fn next_deployed(
    alloc: Global,
    deployed: Deployed,
    contract: &Contract<'_>,
) -> Result<Result<Deployed, Refusal>, AllocError>
    ensures { IfOk result (NextStands (contracts_of deployed) (contract_of contract.now)) }
{
    let next = next_beside(alloc, &deployed, contract);
    discard_deployed(deployed);
    next
}

/// The verdict on a code that stands nowhere.
fn program_verdict(alloc: Global, deployed: &Deployed, code: &str) -> Result<Verdict, AllocError>
    ensures { IfOk result (λ v. Judges (contracts_of deployed.now) (program code.now) (verdict_of v)) }
{
    match check_text(alloc, code.as_bytes(), None, deployed)? {
        Ok(checked) => {
            discard_checked(checked);
            Ok(Verdict::Accepted)
        }
        Err(rejected) => Ok(Verdict::Refused(None, Refusal::Stopped(rejected))),
    }
}

/// The verdict on a contract.
fn contract_verdict(
    alloc: Global,
    deployed: &Deployed,
    one: &Contract<'_>,
) -> Result<Verdict, AllocError>
    ensures { IfOk result (λ v. Judges (contracts_of deployed.now) (contract (contract_of one.now)) (verdict_of v)) }
{
    match come(alloc, deployed, one)? {
        Ok(checked) => {
            discard_checked(checked);
            Ok(Verdict::Accepted)
        }
        Err(refusal) => Ok(Verdict::Refused(None, refusal)),
    }
}

/// The verdict on what is asked, beside the contracts that stand.
fn subject_verdict(
    alloc: Global,
    deployed: &Deployed,
    subject: &Subject<'_>,
) -> Result<Verdict, AllocError>
    ensures { IfOk result (λ v. Judges (contracts_of deployed.now) (subject_of subject.now) (verdict_of v)) }
{
    match subject {
        Subject::Program(code) => program_verdict(alloc, deployed, code),
        Subject::Contract(one) => contract_verdict(alloc, deployed, one),
    }
}

/// The contracts that stand when all of a list were accepted, one after another; else the first that is refused, by its place.
fn all_deployed(
    alloc: Global,
    contracts: &[Contract<'_>],
) -> Result<Result<Deployed, Verdict>, AllocError>
    ensures { IfOk result (AllStand (map contract_of contracts.now)) }
{
    let mut deployed = no_contracts(alloc);
    for (number, contract) in contracts.iter().enumerate() {
        match next_deployed(alloc, deployed, contract)? {
            Ok(next) => deployed = next,
            Err(refusal) => return Ok(Err(Verdict::Refused(Some(number as u64), refusal))),
        }
    }
    Ok(Ok(deployed))
}

/// The verdict: contracts are judged in order, each beside those before it, and then what is asked; the first that is refused
/// ends it.
pub fn verdict(
    alloc: Global,
    contracts: &[Contract<'_>],
    subject: &Subject<'_>,
) -> Result<Verdict, AllocError>
    ensures { IfOk result (λ v. JudgesAll [] 0 (map contract_of contracts.now) (subject_of subject.now) (verdict_of v)) }
{
    match all_deployed(alloc, contracts)? {
        Ok(deployed) => {
            let verdict = subject_verdict(alloc, &deployed, subject);
            discard_deployed(deployed);
            verdict
        }
        Err(refused) => Ok(refused),
    }
}
