// What is declared once a contract is there.
ghost use Rattle.std.specs.Prelude.{◌≡◌, IfErr, IfOk, List, map};
ghost use Rattle.cad_evaluation.specs.Adding as spec;
ghost use Rattle.cad_installations.specs.Code.Kinds.{AreTold, Hands};
ghost use Rattle.cad_outcomes.specs.declared.stop.Stop.TheVariants.{Memory};
ghost use Rattle.cad_state.specs.Views.{contract_of, state_over};
ghost use Rattle.cad_types.specs.Views.{declarations};
ghost use Rattle.cad_world.specs.State.{Account};

use cad_access::kinds_of_run;
use cad_outcomes::Stop;
use cad_state::{Contract, RunState, discard_contract};
use cad_types::DeclaredTypes;
use std::alloc::AllocError;

/// A contract with the declared types of a run in which it is. Where those aren't told it is let go.
fn with_kinds(
    contract: Contract,
    kinds: Result<Option<DeclaredTypes>, AllocError>,
) -> Result<(Contract, DeclaredTypes), Stop>
    ensures { Hands contract kinds result }
{
    match kinds {
        Ok(Some(told)) => Ok((contract, told)),
        Ok(None) => {
            discard_contract(contract);
            Err(Stop::Memory)
        }
        Err(_) => {
            discard_contract(contract);
            Err(Stop::Memory)
        }
    }
}

/// The last contract is taken out again, with the types that are declared by all of them.
fn take_last(state: &mut RunState) -> Result<(Contract, DeclaredTypes), Stop>
    ensures { AreTold (map contract_of state.old.contracts.items) state.old state.new result }
{
    let kinds = kinds_of_run(*state.making.allocator(), state.contracts.as_slice());
    match state.contracts.pop() {
        Some(contract) => with_kinds(contract, kinds),
        None => Err(Stop::Memory),
    }
}

/// A contract, with what is declared once it stands behind the contracts of the run. Only want of memory stops it.
pub(crate) fn kinds_with(
    state: &mut RunState,
    contract: Contract,
) -> Result<(Contract, DeclaredTypes), Stop>
    ensures contract { IfOk result (λ o. contract_of o.0 ≡ contract_of contract) }
    ensures kinds { IfOk result (λ o. declarations o.1 ≡ spec.declarations_with (contract_of contract) (map contract_of state.old.contracts.items)) }
    ensures state { IfOk result (λ o. (accounts : List Account) → state_over accounts state.new ≡ state_over accounts state.old) }
    ensures memory { IfErr result (λ stop. stop ≡ Memory) }
{
    match state.contracts.push(contract) {
        Ok(()) => take_last(state),
        Err(refused) => {
            discard_contract(refused.value);
            Err(Stop::Memory)
        }
    }
}
