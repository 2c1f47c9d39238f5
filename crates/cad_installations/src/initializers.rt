// What runs the initializers of contracts: a parameter of their installation.
ghost use Rattle.cad_evaluation.specs.Callees.{Calls, initializer};
ghost use Rattle.cad_rows.specs.Views.{pure_row, pure_tree};
ghost use Rattle.cad_state.specs.Views.{FindsAndCarriesOut};

use cad_outcomes::Stop;
use cad_rows::{Place, Tree};
use cad_state::RunState;
use cad_syntax::TypeId;

/// What runs the written initializers of contracts.
pub trait Initializers {
    /// What each call does.
    ghost calls: { Self → Calls };

    /// What the code that runs them rests on.
    ghost is_ready: { Self → Type 0 };

    /// The written initializer of a type runs, for the node with the label, whose fields it sets. Errors are its own.
    fn initialize(
        &self,
        state: &mut RunState,
        of: &TypeId,
        label: u64,
        arguments: Vec<Place>,
    ) -> Result<Tree, Stop>
        requires { is_ready self.now }
        ensures { FindsAndCarriesOut pure_tree (calls self.now (initializer of.now label) (pure_row arguments.items)) state.old state.new result };
}
