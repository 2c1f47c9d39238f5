// The front end by which contracts are added.
ghost use Rattle.std.specs.Prelude.{◌≡◌, IfOk, map, option_map};
ghost use Rattle.cad_evaluation.specs.Adding.{standing};
ghost use Rattle.cad_evaluation.specs.Callees.{Front};
ghost use Rattle.cad_state.specs.Views.{contract_of, program_of};
ghost use Rattle.cad_world.specs.Fronts.{said};

use cad_declarations::Checked;
use cad_state::Contract;
use cad_syntax::Address;
use std::alloc::{AllocError, Global};
use std::rc::Rc;

/// The front end by which contracts are added.
pub trait FrontEnd {
    /// What it answers.
    ghost front: { Self → Front };

    /// The program that a code is at an address beside those of these contracts whose initializer doesn't run; None where it isn't accepted.
    /// Memory fails too of a code of which nothing is said.
    fn accept(
        &self,
        alloc: Global,
        contracts: &[Contract],
        address: Address,
        code: &[u8],
    ) -> Result<Option<Rc<Checked>>, AllocError>
        ensures { IfOk result (λ o. said (option_map (λ c. program_of c.value) o) ≡ front self.now (standing (map contract_of contracts.now)) address code.now) };
}
