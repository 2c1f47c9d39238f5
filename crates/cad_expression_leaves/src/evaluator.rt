// What evaluates the parts of an expression: a parameter of its forms, so that each is proved by itself.
ghost use Rattle.cad_declarations.specs.Views.{term_of};
ghost use Rattle.cad_evaluation.specs.Adding as adding;
ghost use Rattle.cad_evaluation.specs.Callees.{Calls, Front};
ghost use Rattle.cad_expression_leaves.specs.Code.Steps as steps;
ghost use Rattle.cad_expression_leaves.specs.Views.{callee_of, tree_in};
ghost use Rattle.cad_labels.specs.Laws.{CalleesKeep};
ghost use Rattle.cad_rows.specs.Views.{pure_row};
ghost use Rattle.cad_state.specs.Views.{FindsAndCarriesOut};

use crate::callees::Callee;
use cad_declarations::Term;
use cad_outcomes::Stop;
use cad_rows::{Place, Tree};
use cad_state::RunState;
use cad_syntax::Address;

/// What parts of expressions mean, over what calls mean and the front end by which contracts are added.
pub trait Evaluator {
    /// The front end.
    ghost front: { Self → Front };

    /// What each call does.
    ghost calls: { Self → Calls };

    /// What the code that evaluates rests on.
    ghost is_ready: { Self → Type 0 };

    /// The value of a part. Errors are those of its own parts.
    fn value(&self, state: &mut RunState, term: &Term) -> Result<Box<Tree>, Stop>
        requires { is_ready self.now }
        ensures { FindsAndCarriesOut tree_in (steps.evaluated (front self.now) (calls self.now) (term_of term.now)) state.old state.new result };

    /// Calls, with arguments in order. Errors are those of what is called.
    fn call(
        &self,
        state: &mut RunState,
        callee: Callee<'_>,
        arguments: Vec<Place>,
    ) -> Result<Box<Tree>, Stop>
        requires { is_ready self.now }
        ensures { FindsAndCarriesOut tree_in (calls self.now (callee_of callee.entry) (pure_row arguments.items)) state.old state.new result };

    /// Adds a contract to the account of an address, as `Callees` does.
    fn add(
        &self,
        state: &mut RunState,
        address: Address,
        arguments: Vec<Place>,
    ) -> Result<Box<Tree>, Stop>
        requires { is_ready self.now }
        ensures { FindsAndCarriesOut tree_in (adding.add (front self.now) (calls self.now) (pure_row arguments.items) address) state.old state.new result };

    /// Results of calls over arguments without labels have none, and labels are kept apart.
    ghost keeps: { (it : Self) → CalleesKeep (calls it) };
}
