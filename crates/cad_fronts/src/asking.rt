// What is known of a code.
ghost use Rattle.std.specs.Prelude.{◌≡◌, ◌==◌, IfOk, map, option_map};
ghost use Rattle.std.specs.Cmp.Lexicographic.{pointwise};
ghost use Rattle.cad_evaluation.specs.Adding.{standing};
ghost use Rattle.cad_fronts.specs.Views.{find_known, front_of, is_of, known_of};
ghost use Rattle.cad_loading.specs.Again.{same_source};
ghost use Rattle.cad_loading.specs.Views.{shared_program};
ghost use Rattle.cad_loads.specs.Fronts.{sources_of};
ghost use Rattle.cad_loads.specs.Loads as loads;
ghost use Rattle.cad_loads.specs.Views.{source_of};
ghost use Rattle.cad_state.specs.Views.{contract_of};

use crate::codes::{Verdict, Verdicts};
use cad_declarations::Checked;
use cad_discards::hold;
use cad_installations::FrontEnd;
use cad_loads::Source;
use cad_state::Contract;
use cad_syntax::Address;
use std::alloc::{AllocError, Global};
use std::rc::Rc;

/// Whether a source is a contract's.
fn is_source(source: &Source, contract: &Contract) -> bool
    ensures { result ≡ same_source (source_of source.now) (loads.source_of (loads.loaded_of (contract_of contract.now))) }
{
    source.id.same(&contract.id) && source.code.as_slice() == contract.code.as_slice()
}

/// Whether sources are those of the contracts whose initializer doesn't run, one by one.
fn are_sources(sources: &[Source], contracts: &[Contract]) -> bool
    ensures { result ≡ pointwise same_source (map source_of sources.now) (sources_of (standing (map contract_of contracts.now))) }
{
    let mut left = sources;
    for contract in contracts {
        if !contract.is_running {
            match left.split_first() {
                Some((source, rest)) => {
                    if !is_source(source, contract) {
                        return false;
                    }
                    left = rest;
                }
                None => return false,
            }
        }
    }
    left.is_empty()
}

/// Whether a verdict is one on a code at an address beside the contracts whose initializer doesn't run.
fn is_on(verdict: &Verdict, contracts: &[Contract], address: Address, code: &[u8]) -> bool
    ensures { result ≡ is_of (sources_of (standing (map contract_of contracts.now))) address code.now (known_of verdict.now) }
{
    verdict.address.0 == address.0
        && verdict.code.as_slice() == code
        && are_sources(verdict.sources.as_slice(), contracts)
}

/// The first verdict on a code at an address beside the contracts whose initializer doesn't run.
pub(crate) fn find_verdict<'a>(
    all: &'a [Verdict],
    contracts: &[Contract],
    address: Address,
    code: &[u8],
) -> Option<&'a Verdict>
    ensures { option_map (λ v. known_of v.now) result ≡ find_known (map known_of all.now) (sources_of (standing (map contract_of contracts.now))) address code.now }
{
    for verdict in all {
        if is_on(verdict, contracts, address, code) {
            return Some(verdict);
        }
    }
    None
}

/// A program, where there is one, is held once more.
fn share(checked: &Option<Rc<Checked>>) -> Result<Option<Rc<Checked>>, AllocError>
    ensures { IfOk result (λ more. option_map shared_program more ≡ option_map shared_program checked.now) }
{
    match checked {
        Some(shared) => Ok(Some(hold(shared)?)),
        None => Ok(None),
    }
}

impl FrontEnd for Verdicts {
    ghost use Rattle.cad_fronts.specs.Views.{front_of};

    ghost front = { front_of };

    fn accept(
        &self,
        _alloc: Global,
        contracts: &[Contract],
        address: Address,
        code: &[u8],
    ) -> Result<Option<Rc<Checked>>, AllocError> {
        match find_verdict(self.all.as_slice(), contracts, address, code) {
            Some(verdict) => share(&verdict.checked),
            None => Err(AllocError),
        }
    }
}
