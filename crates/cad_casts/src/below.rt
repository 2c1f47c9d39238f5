// The order of types where a program runs.
ghost use Rattle.std.specs.Prelude.{◌≡◌, ◌&&◌, [], List, IfOk, IfErr};
ghost use Rattle.std.specs.List.{list_all};
ghost use Rattle.cad_access.specs.RunContracts.{contracts_of, kinds_among};
ghost use Rattle.cad_syntax.specs.Types.{pure_type};
ghost use Rattle.cad_types.specs.Below.{below};
ghost use Rattle.cad_types.specs.Declarations.{is_declared};
ghost use Rattle.cad_types.specs.Growth.{is_named};
ghost use Rattle.cad_outcomes.specs.declared.stop.Stop.TheVariants.{Memory};
ghost use Rattle.cad_state.specs.Views.{state_over};
ghost use Rattle.cad_world.specs.Declared.{declarations};
ghost use Rattle.cad_world.specs.State.{Account};

use cad_access::{is_below, kinds_of_run};
use cad_outcomes::Stop;
use cad_state::{Contract, RunState};
use cad_syntax::{CadType, TypeId};
use cad_types::laws::the_order_stays;
use std::alloc::Global;

/// Whether one type is below another where these contracts are. Only want of memory stops it.
fn is_below_among(
    alloc: Global,
    contracts: &[Contract],
    own: &CadType,
    wanted: &CadType,
) -> Result<bool, Stop>
    ensures told { IfOk result (λ is. is ≡ below (kinds_among (contracts_of contracts.now)) (pure_type own.now) (pure_type wanted.now)) }
    ensures memory { IfErr result (λ stop. stop ≡ Memory) }
{
    match kinds_of_run(alloc, contracts) {
        Ok(Some(kinds)) => Ok(is_below(&kinds, own, wanted)),
        Ok(None) => Err(Stop::Memory),
        Err(_) => Err(Stop::Memory),
    }
}

/// Whether there are no declared types among these.
fn are_none(ids: &[TypeId]) -> bool
    ensures { result ≡ list_all (is_declared []) ids.now }
{
    match ids {
        [] => true,
        [_, ..] => false,
    }
}

/// Whether a type names no declared type.
fn is_plain(t: &CadType) -> bool
    ensures { result ≡ is_named [] (pure_type t.now) }
{
    match t {
        CadType::Basic(_) | CadType::Capability => true,
        CadType::Optional(part) | CadType::Array(part) | CadType::CapabilityOf(part) => {
            is_plain(part)
        }
        CadType::Dictionary(key, value) => is_plain(key) && is_plain(value),
        CadType::Intersection(ids) => are_none(ids.as_slice()),
        CadType::Declared(_) => false,
        CadType::Reference(_, target) => is_plain(target),
    }
}

/// Whether a value of one type is a value of another where the program runs. Only want of memory stops it. Contracts are walked
/// only where one of two different types names a declared type.
pub fn is_instance(state: &RunState, own: &CadType, wanted: &CadType) -> Result<bool, Stop>
    ensures told { IfOk result (λ is. (accounts : List Account) → is ≡ below (declarations (state_over accounts state.now)) (pure_type own.now) (pure_type wanted.now)) }
    ensures memory { IfErr result (λ stop. stop ≡ Memory) }
{
    the_order_stays();
    let alloc = *state.making.allocator();
    if own.same(wanted) {
        return Ok(true);
    }
    if is_plain(own) && is_plain(wanted) {
        return is_below_among(alloc, &[], own, wanted);
    }
    is_below_among(alloc, state.contracts.as_slice(), own, wanted)
}
