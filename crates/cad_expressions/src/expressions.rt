// Expressions, places and arguments, for the crates above.
ghost use Rattle.std.specs.Prelude.{map};
ghost use Rattle.cad_declarations.specs.Typed.{arguments_of};
ghost use Rattle.cad_declarations.specs.Views.{argument_of, place_of, term_of};
ghost use Rattle.cad_evaluation.specs.Terms as spec;
ghost use Rattle.cad_expression_leaves.specs.Views.{items_row, tree_in};
ghost use Rattle.cad_expression_leaves.specs.Passed.{standing_of};
ghost use Rattle.cad_state.specs.Views.{FindsAndCarriesOut};

use crate::nesting::{Nesting, evaluate_to};
use crate::places::evaluate_place;
use crate::rows::evaluate_arguments;
use cad_declarations::{Argument, Place as TypedPlace, Term};
use cad_expression_leaves::{Callees, Standing};
use cad_outcomes::Stop;
use cad_rows::{Place, Tree};
use cad_state::RunState;

/// The value of an expression. Errors are those of its parts.
#[tactic(auto, unfolding(cad_expression_leaves::specs::Code::Steps::evaluated))]
pub fn eval<C: Callees>(term: &Term, callees: &C, state: &mut RunState) -> Result<Box<Tree>, Stop>
    requires { C.is_ready callees.now }
    ensures { FindsAndCarriesOut tree_in (spec.eval (C.front callees.now) (C.calls callees.now) (term_of term.now)) state.old state.new result }
{
    evaluate_to(u64::MAX, callees, state, term)
}

/// What the place of an expression comes to; whether it is written. Errors are those of its parts.
#[tactic(auto, unfolding(cad_expression_leaves::specs::Code::Steps::placed))]
pub fn eval_place<C: Callees>(
    place: &TypedPlace,
    writes: bool,
    callees: &C,
    state: &mut RunState,
) -> Result<Standing, Stop>
    requires { C.is_ready callees.now }
    ensures { FindsAndCarriesOut standing_of (spec.eval_place (C.front callees.now) (C.calls callees.now) (place_of place.now) writes) state.old state.new result }
{
    let nesting = Nesting {
        depth: u64::MAX,
        callees,
        run: evaluate_to,
    };
    evaluate_place(place, &nesting, state, writes)
}

/// Arguments, each come to the type of its place. Errors are those of their evaluation and of their transfer.
#[tactic(auto, unfolding(cad_expression_leaves::specs::Code::Steps::arguments))]
pub fn eval_arguments<C: Callees>(
    all: &[Argument],
    callees: &C,
    state: &mut RunState,
) -> Result<Vec<Place>, Stop>
    requires { C.is_ready callees.now }
    ensures { FindsAndCarriesOut items_row (spec.eval_arguments (C.front callees.now) (C.calls callees.now) (arguments_of (map argument_of all.now))) state.old state.new result }
{
    let nesting = Nesting {
        depth: u64::MAX,
        callees,
        run: evaluate_to,
    };
    evaluate_arguments(all, &nesting, state)
}
