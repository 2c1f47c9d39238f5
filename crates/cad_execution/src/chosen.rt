// What statements evaluate before they choose a block.
ghost use Rattle.std.specs.Prelude.{◌≡◌, ◌||◌, Bool, option_map};
ghost use Rattle.cad_declarations.specs.Views.{place_of, term_of};
ghost use Rattle.cad_evaluation.specs.Flows as flows;
ghost use Rattle.cad_expressions.specs.Passed.{items_row, tree_in};
ghost use Rattle.cad_outcomes.specs.Outcomes.{no_value};
ghost use Rattle.cad_rows.specs.Views.{pure_tree};
ghost use Rattle.cad_state.specs.Views.{CarriesOut, FindsAndCarriesOut};
ghost use Rattle.cad_statement_leaves.specs.Code.Parts as parts;
ghost use Rattle.cad_syntax.specs.Types.{pure_type};

use crate::leaves::first_come;
use crate::places::first_place;
use cad_declarations::{Argument, Place, Term};
use cad_expressions::{Callees, eval, open, truth_at_once, unboxed};
use cad_operators::nil_tree;
use cad_outcomes::Stop;
use cad_rows::Tree;
use cad_state::RunState;
use cad_statement_leaves::{boxed_content, cast_standing, elements_in, is_case, truth};
use cad_syntax::CadType;

/// Whether the test of a loop holds.
#[inline(never)]
pub(crate) fn holds<C: Callees>(
    test: &Term,
    callees: &C,
    state: &mut RunState,
) -> Result<bool, Stop>
    requires { C.is_ready callees.now }
    ensures { FindsAndCarriesOut (λ x. x) (parts.holds (C.front callees.now) (C.calls callees.now) (term_of test.now)) state.old state.new result }
{
    match truth_at_once(test, state) {
        Some(told) => Ok(told),
        None => match eval(test, callees, state) {
            Ok(tree) => truth(tree),
            Err(stop) => Err(stop),
        },
    }
}

/// Whether a test holds, after the unit of its statement.
#[inline(never)]
pub(crate) fn first_holds<C: Callees>(
    test: &Term,
    callees: &C,
    state: &mut RunState,
) -> Result<bool, Stop>
    requires { C.is_ready callees.now }
    ensures { FindsAndCarriesOut (λ x. x) (parts.test (C.front callees.now) (C.calls callees.now) (term_of test.now)) state.old state.new result }
{
    match state.tick() {
        Ok(()) => holds(test, callees, state),
        Err(stop) => Err(stop),
    }
}

/// The variable that a place is.
fn place_variable(place: &Place) -> Option<u32>
    ensures { result ≡ parts.place_variable (place_of place.now) }
{
    match place {
        Place::Variable(number) => Some(*number),
        Place::Self_ => None,
        Place::Contract(_) => None,
        Place::Target(_) => None,
        Place::Field { .. } => None,
        Place::Element { .. } => None,
        Place::Content { .. } => None,
    }
}

/// The variable that a move empties.
fn term_variable(value: &Term) -> Option<u32>
    ensures { result ≡ parts.term_variable (term_of value.now) }
{
    match value {
        Term::Take(place) => place_variable(place),
        _ => None,
    }
}

/// Nil comes to a variable from which it was taken.
fn nil_stays(moved: Option<u32>, state: &mut RunState) -> Result<(), Stop>
    ensures { CarriesOut no_value (flows.nil_stays moved) state.old state.new result }
{
    match moved {
        Some(n) => {
            let alloc = *state.making.allocator();
            state.fill_variable(n as usize, nil_tree(alloc))
        }
        None => Ok(()),
    }
}

/// What was found in an optional; where that is nil, it stays in the variable from which it was taken.
fn or_nil(
    moved: Option<u32>,
    found: Option<Tree>,
    state: &mut RunState,
) -> Result<Option<Tree>, Stop>
    ensures { CarriesOut (option_map pure_tree) (parts.or_nil moved (option_map pure_tree found)) state.old state.new result }
{
    match found {
        Some(inside) => Ok(Some(inside)),
        None => match nil_stays(moved, state) {
            Ok(()) => Ok(None),
            Err(stop) => Err(stop),
        },
    }
}

/// The content of an optional; where it is nil, that stays in the variable from which it was taken.
fn open_or_nil(moved: Option<u32>, tree: Tree, state: &mut RunState) -> Result<Option<Tree>, Stop>
    ensures { CarriesOut (option_map pure_tree) (parts.content_of moved (pure_tree tree)) state.old state.new result }
{
    match open(tree) {
        Ok(found) => or_nil(moved, found, state),
        Err(stop) => Err(stop),
    }
}

/// The same of a value on the heap.
#[inline(never)]
fn content_of(
    moved: Option<u32>,
    value: Box<Tree>,
    state: &mut RunState,
) -> Result<Option<Box<Tree>>, Stop>
    ensures { CarriesOut (option_map tree_in) (parts.content_of moved (tree_in value)) state.old state.new result }
{
    boxed_content(open_or_nil(moved, unboxed(value), state))
}

/// The content of the optional of `if let`.
#[inline(never)]
pub(crate) fn unwrap<C: Callees>(
    value: &Argument,
    callees: &C,
    state: &mut RunState,
) -> Result<Option<Box<Tree>>, Stop>
    requires { C.is_ready callees.now }
    ensures { FindsAndCarriesOut (option_map tree_in) (parts.content_come (C.front callees.now) (C.calls callees.now) (parts.term_variable (term_of value.now.value)) (term_of value.now.value) (pure_type value.now.target)) state.old state.new result }
{
    match first_come(&value.value, &value.target, callees, state) {
        Ok(tree) => content_of(term_variable(&value.value), tree, state),
        Err(stop) => Err(stop),
    }
}

/// The content of what was cast.
#[inline(never)]
fn content_cast(found: Option<Box<Tree>>, state: &mut RunState) -> Result<Option<Box<Tree>>, Stop>
    ensures { CarriesOut (option_map tree_in) (parts.content_cast (option_map tree_in found)) state.old state.new result }
{
    match found {
        Some(tree) => content_of(None, tree, state),
        None => Ok(None),
    }
}

/// The value of a place that is of a type, as an optional of it.
fn cast_value<C: Callees>(
    place: &Place,
    target: &CadType,
    callees: &C,
    state: &mut RunState,
) -> Result<Option<Box<Tree>>, Stop>
    requires { C.is_ready callees.now }
    ensures { FindsAndCarriesOut (option_map tree_in) (parts.cast_value (C.front callees.now) (C.calls callees.now) (place_of place.now) (pure_type target.now)) state.old state.new result }
{
    match first_place(place, false, callees, state) {
        Ok(found) => cast_standing(found, target, state),
        Err(stop) => Err(stop),
    }
}

/// The value of a place that is of a type, taken out of it; None where it isn't, and it stays.
#[inline(never)]
pub(crate) fn cast<C: Callees>(
    place: &Place,
    target: &CadType,
    callees: &C,
    state: &mut RunState,
) -> Result<Option<Box<Tree>>, Stop>
    requires { C.is_ready callees.now }
    ensures { FindsAndCarriesOut (option_map tree_in) (parts.cast_come (C.front callees.now) (C.calls callees.now) (place_of place.now) (pure_type target.now)) state.old state.new result }
{
    match cast_value(place, target, callees, state) {
        Ok(found) => content_cast(found, state),
        Err(stop) => Err(stop),
    }
}

/// The elements that `for` goes over.
#[inline(never)]
pub(crate) fn elements_of<C: Callees>(
    array: &Argument,
    callees: &C,
    state: &mut RunState,
) -> Result<Vec<cad_rows::Place>, Stop>
    requires { C.is_ready callees.now }
    ensures { FindsAndCarriesOut items_row (parts.elements_come (C.front callees.now) (C.calls callees.now) (term_of array.now.value) (pure_type array.now.target)) state.old state.new result }
{
    match first_come(&array.value, &array.target, callees, state) {
        Ok(tree) => elements_in(tree),
        Err(stop) => Err(stop),
    }
}

/// Whether an expression is the literal nil.
pub(crate) fn is_nil(value: &Term) -> bool
    ensures { result ≡ flows.is_nil_literal (term_of value.now) }
{
    match value {
        Term::Nil => true,
        _ => false,
    }
}

/// Whether a case is compared without units.
fn is_free(nil: bool, case: &Term) -> bool
    ensures { result ≡ (nil || flows.is_nil_literal (term_of case.now)) }
{
    nil || is_nil(case)
}

/// Whether the value of a case is that of the `switch`.
#[inline(never)]
pub(crate) fn is_chosen<C: Callees>(
    case: &Term,
    nil: bool,
    value: &Tree,
    callees: &C,
    state: &mut RunState,
) -> Result<bool, Stop>
    requires { C.is_ready callees.now }
    ensures { FindsAndCarriesOut (λ x. x) (parts.is_chosen (C.front callees.now) (C.calls callees.now) nil (pure_tree value.now) (term_of case.now)) state.old state.new result }
{
    match eval(case, callees, state) {
        Ok(tree) => is_case(is_free(nil, case), value, tree, state),
        Err(stop) => Err(stop),
    }
}
