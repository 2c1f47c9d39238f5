// The knot: an expression is evaluated by its form, and the parts of the form by this again.
ghost use Rattle.cad_declarations.specs.Views.{term_of};
ghost use Rattle.cad_expression_leaves.specs.Code.Steps as steps;
ghost use Rattle.cad_expression_leaves.specs.Views.{tree_in};
ghost use Rattle.cad_state.specs.Views.{FindsAndCarriesOut};

use crate::terms::evaluate;
use cad_declarations::Term;
use cad_expression_leaves::{Callee, Callees, Evaluator, boxed_number, number_at_once};
use cad_outcomes::Stop;
use cad_rows::{Place, Tree};
use cad_state::RunState;
use cad_syntax::Address;

/// Evaluates parts that are nested at most so deep, over what calls mean.
#[derive(Clone, Copy, Drop)]
pub(crate) struct Nesting<'c, C, F> {
    pub depth: u64,
    pub callees: &'c C,
    pub run: F,
}

impl<C: Callees, F: Fn(u64, &C, &mut RunState, &Term) -> Result<Box<Tree>, Stop>> Evaluator
    for Nesting<'_, C, F> {
    ghost use Rattle.cad_expressions.specs.Nests.{Nests};

    ghost front = { λ it. C.front it.callees.now };

    ghost calls = { λ it. C.calls it.callees.now };

    ghost is_ready = { λ it. Nests C.is_ready C.front C.calls it.callees it.depth (F.pre it.run) (F.post it.run) };

    fn value(&self, state: &mut RunState, term: &Term) -> Result<Box<Tree>, Stop> {
        (self.run)(self.depth, self.callees, state, term)
    }

    fn call(
        &self,
        state: &mut RunState,
        callee: Callee<'_>,
        arguments: Vec<Place>,
    ) -> Result<Box<Tree>, Stop> {
        self.callees.call(state, callee, arguments)
    }

    fn add(
        &self,
        state: &mut RunState,
        address: Address,
        arguments: Vec<Place>,
    ) -> Result<Box<Tree>, Stop> {
        self.callees.add(state, address, arguments)
    }

    ghost keeps = { λ it. C.keeps it.callees.now };
}

/// The value of an expression that is nested at most so deep; no memory of any other.
#[inline(never)]
#[tactic(auto, using(cad_expression_leaves::proofs::Told::told))]
pub(crate) fn evaluate_to<C: Callees>(
    depth: u64,
    callees: &C,
    state: &mut RunState,
    term: &Term,
) -> Result<Box<Tree>, Stop>
    requires { C.is_ready callees.now }
    ensures { FindsAndCarriesOut tree_in (steps.evaluated (C.front callees.now) (C.calls callees.now) (term_of term.now)) state.old state.new result }
{
    if depth == 0 {
        return Err(Stop::Memory);
    }
    match number_at_once(term, state) {
        Some(n) => boxed_number(state, n),
        None => {
            let nesting = Nesting {
                depth: depth - 1,
                callees,
                run: evaluate_to,
            };
            evaluate(term, &nesting, state)
        }
    }
}
