// What a front end learns of a code.
ghost use Rattle.std.specs.Prelude.{◌≡◌, ◌≢◌, ◌∷◌, [], IfOk, OnOk, Some, map, option_map};
ghost use Rattle.cad_bounds.specs.Fronts.{Extends};
ghost use Rattle.cad_evaluation.specs.Adding.{standing};
ghost use Rattle.cad_fronts.specs.Code.Saying.{IsOn, IsSo, Says};
ghost use Rattle.cad_fronts.specs.Views.{find_known, front_of, known_of, said_of};
ghost use Rattle.cad_loading.specs.Views.{shared_program};
ghost use Rattle.cad_loads.specs.Fronts.{IsRight, sources_of};
ghost use Rattle.cad_loads.specs.Loads.{entries_of, loaded_by};
ghost use Rattle.cad_loads.specs.Views.{source_of};
ghost use Rattle.cad_state.specs.Views.{contract_of, program_of};
ghost use Rattle.cad_tables.specs.Views.{contracts_of};
ghost use Rattle.cad_world.specs.Fronts as fronts;

use crate::asking::find_verdict;
use crate::codes::{Verdict, Verdicts, push_verdict};
use cad_declarations::{Checked, Deployed};
use cad_discards::{discard_checked, discard_deployed};
use cad_loading::{Programs, check_text, deployed_with, discard_programs, load_kept};
use cad_loads::Source;
use cad_state::{Contract, Question, Unknown, discard_contracts};
use cad_syntax::Address;
use std::alloc::{AllocError, Global};
use std::rc::Rc;

// ---- contracts

/// A contract without its value; its code is shared.
fn source(contract: &Contract) -> Result<Source, AllocError>
    ensures { IfOk result (λ it. sources_of (contract_of contract.now ∷ []) ≡ source_of it ∷ []) }
{
    Ok(Source {
        id: contract.id.clone()?,
        code: contract.code.clone()?,
    })
}

/// Those contracts whose initializer doesn't run, without their values.
fn standing_sources(alloc: Global, contracts: &[Contract]) -> Result<Vec<Source>, AllocError>
    ensures { IfOk result (λ all. map source_of all.items ≡ sources_of (standing (map contract_of contracts.now))) }
{
    let mut all = Vec::new(alloc);
    for contract in contracts {
        if !contract.is_running {
            all.push(source(contract)?)?;
        }
    }
    Ok(all)
}

// ---- one code

/// An accepted program, to be shared.
fn share_program(alloc: Global, checked: Checked) -> Result<Option<Rc<Checked>>, AllocError>
    ensures { IfOk result (λ o. option_map shared_program o ≡ Some (program_of checked)) }
{
    match Rc::new(alloc, checked) {
        Ok(shared) => Ok(Some(shared)),
        Err(refused) => {
            discard_checked(refused.value);
            Err(AllocError)
        }
    }
}

/// The program as which a code is accepted at an address beside contracts; None where it is refused.
fn check_beside(
    alloc: Global,
    deployed: &Deployed,
    address: Address,
    code: &[u8],
) -> Result<Option<Rc<Checked>>, AllocError>
    ensures { IfOk result (λ o. Says (contracts_of deployed.now) address code.now (option_map shared_program o)) }
{
    match check_text(alloc, code, Some(address), deployed) {
        Ok(Ok(checked)) => share_program(alloc, checked),
        Ok(Err(rejected)) => {
            drop(rejected);
            Ok(None)
        }
        Err(error) => Err(error),
    }
}

/// The same beside sources with their programs.
fn check_with(
    alloc: Global,
    sources: &[Source],
    programs: &[Rc<Checked>],
    question: &Question,
) -> Result<Option<Rc<Checked>>, AllocError>
    ensures { IfOk result (λ o. Says (entries_of (loaded_by (map source_of sources.now) (map shared_program programs.now))) question.now.address question.now.code (option_map shared_program o)) }
{
    let deployed = deployed_with(alloc, sources, programs)?;
    let checked = check_beside(alloc, &deployed, question.address, question.code.as_slice());
    discard_deployed(deployed);
    checked
}

/// The program as which a code is accepted beside these contracts, where they were deployed one after another; None where it is
/// refused. Memory fails too where they weren't.
fn judge(
    alloc: Global,
    kept: &mut Programs,
    sources: &[Source],
    question: &Question,
) -> Result<Option<Rc<Checked>>, AllocError>
    ensures { IfOk result (λ o. IsSo (record { sources = map source_of sources.now; address = question.now.address; code = question.now.code; program = option_map shared_program o })) }
{
    match load_kept(alloc, kept, sources)? {
        Some(programs) => {
            let checked = check_with(alloc, sources, programs.as_slice(), question);
            discard_programs(programs);
            checked
        }
        None => Err(AllocError),
    }
}

/// The verdict on a code beside contracts.
fn verdict(
    alloc: Global,
    kept: &mut Programs,
    sources: Vec<Source>,
    question: Question,
) -> Result<Verdict, AllocError>
    ensures so { IfOk result (λ it. IsSo (known_of it)) }
    ensures on { IfOk result (λ it. IsOn (map source_of sources.items) question.address question.code (known_of it)) }
{
    let checked = judge(alloc, kept, sources.as_slice(), &question)?;
    let Question { address, code } = question;
    Ok(Verdict {
        sources,
        address,
        code,
        checked,
    })
}

// ---- what a run asked

/// The contracts beside which a code is to be judged. Memory fails too where its verdict is known.
fn unknown_sources(
    alloc: Global,
    verdicts: &Verdicts,
    contracts: &[Contract],
    question: &Question,
) -> Result<Vec<Source>, AllocError>
    ensures { IfOk result (λ all. map source_of all.items ≡ sources_of (standing (map contract_of contracts.now))) }
{
    let verdict = find_verdict(
        verdicts.all.as_slice(),
        contracts,
        question.address,
        question.code.as_slice(),
    );
    match verdict {
        Some(_) => Err(AllocError),
        None => standing_sources(alloc, contracts),
    }
}

/// A verdict on a code beside contracts is put to those that are known.
fn learn_beside(
    alloc: Global,
    verdicts: &mut Verdicts,
    sources: Vec<Source>,
    question: Question,
) -> Result<(), AllocError>
    ensures right { IsRight (front_of verdicts.old) → IsRight (front_of verdicts.new) }
    ensures keeps { Extends (front_of verdicts.old) (front_of verdicts.new) }
    ensures knows { OnOk result (said_of (find_known (map known_of verdicts.new.all.items) (map source_of sources.items) question.address question.code) ≢ fronts.unknown) }
{
    match verdict(alloc, &mut verdicts.programs, sources, question) {
        Ok(new) => push_verdict(verdicts, new),
        Err(error) => Err(error),
    }
}

/// Learns whether a code is accepted of which a run asked, beside those contracts of the run whose initializer doesn't run: they
/// are read from their codes, and it is checked beside them. Memory fails too where they weren't deployed one after another, and
/// where this was known. What was said of codes stays.
pub fn learn(alloc: Global, verdicts: &mut Verdicts, unknown: Unknown) -> Result<(), AllocError>
    ensures right { IsRight (front_of verdicts.old) → IsRight (front_of verdicts.new) }
    ensures keeps { Extends (front_of verdicts.old) (front_of verdicts.new) }
    ensures knows { OnOk result (front_of verdicts.new (standing (map contract_of unknown.contracts.items)) unknown.question.address unknown.question.code ≢ fronts.unknown) }
{
    let Unknown {
        contracts,
        question,
    } = unknown;
    let sources = unknown_sources(alloc, verdicts, contracts.as_slice(), &question);
    discard_contracts(contracts);
    match sources {
        Ok(sources) => learn_beside(alloc, verdicts, sources, question),
        Err(error) => Err(error),
    }
}
