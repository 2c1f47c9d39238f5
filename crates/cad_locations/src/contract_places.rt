// The contract whose value is named.
ghost use Rattle.std.specs.Prelude.{IfSome};
ghost use Rattle.cad_locations.specs.Code.Values.{IsFirst};

use cad_state::RunState;
use cad_syntax::TypeId;

/// The number of the contract with an identifier.
#[tactic(auto, using(crate::proofs::Contracts::not_before, crate::proofs::Contracts::is_first))]
pub(crate) fn contract_index(state: &RunState, id: &TypeId) -> Option<usize>
    ensures { IfSome result (λ i. IsFirst id.now i state.now.contracts.items) }
{
    for i in 0..state.contracts.len() {
        if state.contracts[i].id.same(id) {
            return Some(i);
        }
    }
    None
}
