// Arguments and elements, in the recursion over expressions.
ghost use Rattle.std.specs.Prelude.{map};
ghost use Rattle.cad_declarations.specs.Typed.{arguments_of, terms_of};
ghost use Rattle.cad_declarations.specs.Views.{argument_of, term_of};
ghost use Rattle.cad_expression_leaves.specs.Code.Steps as steps;
ghost use Rattle.cad_expression_leaves.specs.Views.{items_row};
ghost use Rattle.cad_rows.specs.Views.{pure_row};
ghost use Rattle.cad_state.specs.Views.{FindsAndCarriesOut};
ghost use Rattle.cad_syntax.specs.Types.{pure_type};

use cad_declarations::{Argument, Term};
use cad_expression_leaves::{Evaluator, discard_row, memory, push_value};
use cad_outcomes::Stop;
use cad_rows::Place;
use cad_state::RunState;
use cad_syntax::CadType;

/// Elements, each come to the type.
pub(crate) fn evaluate_terms<E: Evaluator>(
    all: &[Term],
    evaluator: &E,
    state: &mut RunState,
    element: &CadType,
) -> Result<Vec<Place>, Stop>
    requires { E.is_ready evaluator.now }
    ensures { FindsAndCarriesOut items_row (steps.elements (E.front evaluator.now) (E.calls evaluator.now) (pure_type element.now) (terms_of (map term_of all.now))) state.old state.new result }
{
    let mut row = Vec::new(memory(state));
    match push_terms(all, evaluator, state, element, &mut row) {
        Ok(()) => Ok(row),
        Err(stop) => {
            discard_row(row);
            Err(stop)
        }
    }
}

/// Appends elements, each come to the type.
fn push_terms<E: Evaluator>(
    all: &[Term],
    evaluator: &E,
    state: &mut RunState,
    element: &CadType,
    row: &mut Vec<Place>,
) -> Result<(), Stop>
    requires { E.is_ready evaluator.now }
    ensures { FindsAndCarriesOut (λ _. pure_row row.new.items) (steps.behind (pure_row row.old.items) (steps.elements (E.front evaluator.now) (E.calls evaluator.now) (pure_type element.now) (terms_of (map term_of all.now)))) state.old state.new result }
{
    for a in all {
        let found = evaluator.value(state, a);
        match push_value(state, element, found, row) {
            Ok(()) => {}
            Err(stop) => return Err(stop),
        }
    }
    Ok(())
}

/// Arguments, each come to the type of its place.
pub(crate) fn evaluate_arguments<E: Evaluator>(
    all: &[Argument],
    evaluator: &E,
    state: &mut RunState,
) -> Result<Vec<Place>, Stop>
    requires { E.is_ready evaluator.now }
    ensures { FindsAndCarriesOut items_row (steps.arguments (E.front evaluator.now) (E.calls evaluator.now) (arguments_of (map argument_of all.now))) state.old state.new result }
{
    let mut row = Vec::new(memory(state));
    match push_arguments(all, evaluator, state, &mut row) {
        Ok(()) => Ok(row),
        Err(stop) => {
            discard_row(row);
            Err(stop)
        }
    }
}

/// Appends arguments, each come to the type of its place.
fn push_arguments<E: Evaluator>(
    all: &[Argument],
    evaluator: &E,
    state: &mut RunState,
    row: &mut Vec<Place>,
) -> Result<(), Stop>
    requires { E.is_ready evaluator.now }
    ensures { FindsAndCarriesOut (λ _. pure_row row.new.items) (steps.behind (pure_row row.old.items) (steps.arguments (E.front evaluator.now) (E.calls evaluator.now) (arguments_of (map argument_of all.now)))) state.old state.new result }
{
    for a in all {
        let found = evaluator.value(state, &a.value);
        match push_value(state, &a.target, found, row) {
            Ok(()) => {}
            Err(stop) => return Err(stop),
        }
    }
    Ok(())
}
