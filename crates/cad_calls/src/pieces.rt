// The declarations of a function that take part in a call, one after another.
ghost use Rattle.std.specs.Prelude.{◌≡◌, IfOk, Some, length, map, reverse};
ghost use Rattle.cad_calls.specs.Code.Parts as parts;
ghost use Rattle.cad_calls.specs.Pieces.{maybe_piece};
ghost use Rattle.cad_declarations.specs.Views.{function_of, variable_of};
ghost use Rattle.cad_evaluation.specs.Bodies as spec;
ghost use Rattle.cad_function_sources.specs.Sources.{as_run, piece_of};
ghost use Rattle.cad_outcomes.specs.Outcomes.{no_value};
ghost use Rattle.cad_state.specs.Views.{CarriesOut, FindsAndCarriesOut};
ghost use Rattle.cad_syntax.specs.Types.{pure_type};

use crate::conditions::{keep_values, test_conditions};
use cad_declarations::{TypedFunction, Variable};
use cad_execution::Callees;
use cad_function_sources::Piece;
use cad_making::{end_variables, move_to, pass_before, result_value};
use cad_outcomes::Stop;
use cad_state::RunState;
use cad_syntax::{CadType, TypeId};
use std::alloc::AllocError;

/// A copy of the type in which a declaration stands.
fn type_of(piece: Piece<'_>) -> Result<Option<TypeId>, AllocError>
    ensures { IfOk result (λ o. o ≡ (piece_of piece.entry).within) }
{
    match piece.within {
        Some(id) => Ok(Some(id.clone()?)),
        None => Ok(None),
    }
}

/// The code of a declaration runs from then on.
#[inline(never)]
pub fn move_into(piece: Piece<'_>, state: &mut RunState) -> Result<(), Stop>
    ensures { CarriesOut no_value (spec.moved_to (piece_of piece.entry).within) state.old state.new result }
{
    match type_of(piece) {
        Ok(within) => move_to(state, within),
        Err(_) => Err(Stop::Memory),
    }
}

/// The preconditions of a function.
fn test_before<C: Callees>(
    function: &TypedFunction,
    callees: &C,
    state: &mut RunState,
) -> Result<(), Stop>
    requires { C.is_ready callees.now }
    ensures { FindsAndCarriesOut no_value (spec.all_tested (C.front callees.now) (C.calls callees.now) (function_of function.now).pre) state.old state.new result }
{
    test_conditions(function.pre.as_slice(), callees, state)
}

/// The values of `before` of a function are kept.
fn keep_function<C: Callees>(
    function: &TypedFunction,
    callees: &C,
    state: &mut RunState,
) -> Result<(), Stop>
    requires { C.is_ready callees.now }
    ensures { FindsAndCarriesOut no_value (spec.values_before (C.front callees.now) (C.calls callees.now) (function_of function.now).before) state.old state.new result }
{
    keep_values(function.before.as_slice(), callees, state)
}

/// They aren't wanted any more.
#[inline(never)]
fn pass_function(function: &TypedFunction, state: &mut RunState) -> Result<(), Stop>
    ensures { CarriesOut no_value (spec.passed_before (length (function_of function.now).before)) state.old state.new result }
{
    pass_before(state, function.before.len())
}

/// The postconditions of a function, where no variable is its result.
fn test_plain<C: Callees>(
    function: &TypedFunction,
    callees: &C,
    state: &mut RunState,
) -> Result<(), Stop>
    requires { C.is_ready callees.now }
    ensures { FindsAndCarriesOut no_value (spec.all_tested (C.front callees.now) (C.calls callees.now) (function_of function.now).post) state.old state.new result }
{
    test_conditions(function.post.as_slice(), callees, state)
}

/// The preconditions of a declaration.
fn precondition<C: Callees>(piece: Piece<'_>, callees: &C, state: &mut RunState) -> Result<(), Stop>
    requires { C.is_ready callees.now }
    ensures { FindsAndCarriesOut no_value (parts.precondition (C.front callees.now) (C.calls callees.now) (piece_of piece.entry).within (piece_of piece.entry).function) state.old state.new result }
{
    match move_into(piece, state) {
        Ok(()) => test_before(piece.function, callees, state),
        Err(stop) => Err(stop),
    }
}

/// Those of the own declaration, where there is one.
fn own_precondition<C: Callees>(
    own: Option<Piece<'_>>,
    callees: &C,
    state: &mut RunState,
) -> Result<(), Stop>
    requires { C.is_ready callees.now }
    ensures { FindsAndCarriesOut no_value (spec.preconditions (C.front callees.now) (C.calls callees.now) (spec.listed (maybe_piece own.entry))) state.old state.new result }
{
    match own {
        Some(piece) => precondition(piece, callees, state),
        None => Ok(()),
    }
}

/// Preconditions: inherited ones first.
#[inline(never)]
pub fn preconditions<C: Callees>(
    own: Option<Piece<'_>>,
    others: &[Piece<'_>],
    callees: &C,
    state: &mut RunState,
) -> Result<(), Stop>
    requires { C.is_ready callees.now }
    ensures { FindsAndCarriesOut no_value (spec.preconditions (C.front callees.now) (C.calls callees.now) (spec.inward (maybe_piece own.entry) (map piece_of others.now))) state.old state.new result }
{
    for piece in others {
        match precondition(*piece, callees, state) {
            Ok(()) => {}
            Err(stop) => return Err(stop),
        }
    }
    own_precondition(own, callees, state)
}

/// The values of `before` of a declaration are kept.
fn keep_piece<C: Callees>(piece: Piece<'_>, callees: &C, state: &mut RunState) -> Result<(), Stop>
    requires { C.is_ready callees.now }
    ensures { FindsAndCarriesOut no_value (parts.piece_before (C.front callees.now) (C.calls callees.now) (piece_of piece.entry).within (piece_of piece.entry).function) state.old state.new result }
{
    match move_into(piece, state) {
        Ok(()) => keep_function(piece.function, callees, state),
        Err(stop) => Err(stop),
    }
}

/// Those of inherited declarations, from the last.
fn keep_others<C: Callees>(
    others: &[Piece<'_>],
    callees: &C,
    state: &mut RunState,
) -> Result<(), Stop>
    requires { C.is_ready callees.now }
    ensures { FindsAndCarriesOut no_value (spec.all_before (C.front callees.now) (C.calls callees.now) (reverse (map piece_of others.now))) state.old state.new result }
{
    let mut left = others.len();
    while 0 < left {
        left -= 1;
        match keep_piece(others[left], callees, state) {
            Ok(()) => {}
            Err(stop) => return Err(stop),
        }
    }
    Ok(())
}

/// The values of `before`, in the order in which postconditions will run: own ones first, inherited ones from the last.
#[inline(never)]
pub fn keep_before_all<C: Callees>(
    own: Option<Piece<'_>>,
    others: &[Piece<'_>],
    callees: &C,
    state: &mut RunState,
) -> Result<(), Stop>
    requires { C.is_ready callees.now }
    ensures { FindsAndCarriesOut no_value (spec.all_before (C.front callees.now) (C.calls callees.now) (spec.outward (maybe_piece own.entry) (map piece_of others.now))) state.old state.new result }
{
    match own {
        Some(piece) => match keep_piece(piece, callees, state) {
            Ok(()) => keep_others(others, callees, state),
            Err(stop) => Err(stop),
        },
        None => keep_others(others, callees, state),
    }
}

/// A variable holds the result.
#[inline(never)]
fn fill_result(declared: &CadType, variable: &Variable, state: &mut RunState) -> Result<(), Stop>
    ensures { CarriesOut no_value (parts.result_filled (pure_type declared.now) (variable_of variable.now)) state.old state.new result }
{
    match result_value(state, declared) {
        Ok(value) => state.fill_variable(variable.number as usize, value),
        Err(stop) => Err(stop),
    }
}

/// Postconditions, over a variable that holds the result.
fn test_result<C: Callees>(
    function: &TypedFunction,
    variable: &Variable,
    callees: &C,
    state: &mut RunState,
) -> Result<(), Stop>
    requires { C.is_ready callees.now }
    ensures { FindsAndCarriesOut no_value (parts.result_tested (C.front callees.now) (C.calls callees.now) (function_of function.now) (variable_of variable.now)) state.old state.new result }
{
    match fill_result(&function.result, variable, state) {
        Ok(()) => test_plain(function, callees, state),
        Err(stop) => Err(stop),
    }
}

/// The same, and the variable goes.
fn with_result<C: Callees>(
    function: &TypedFunction,
    variable: &Variable,
    callees: &C,
    state: &mut RunState,
) -> Result<(), Stop>
    requires { C.is_ready callees.now }
    ensures { FindsAndCarriesOut no_value (spec.with_result (pure_type function.now.result) (Some (variable_of variable.now)) (spec.all_tested (C.front callees.now) (C.calls callees.now) (function_of function.now).post)) state.old state.new result }
{
    match test_result(function, variable, callees, state) {
        Ok(()) => end_variables(state, variable.number as usize),
        Err(stop) => Err(stop),
    }
}

/// The postconditions of a function, over its result where they name it. An initializer has none.
fn test_after<C: Callees>(
    function: &TypedFunction,
    initializes: bool,
    callees: &C,
    state: &mut RunState,
) -> Result<(), Stop>
    requires { C.is_ready callees.now }
    ensures { FindsAndCarriesOut no_value (parts.after_body (C.front callees.now) (C.calls callees.now) (as_run initializes (function_of function.now))) state.old state.new result }
{
    if initializes {
        return test_plain(function, callees, state);
    }
    match &function.result_variable {
        Some(variable) => with_result(function, variable, callees, state),
        None => test_plain(function, callees, state),
    }
}

/// The postconditions of a declaration.
fn piece_after<C: Callees>(piece: Piece<'_>, callees: &C, state: &mut RunState) -> Result<(), Stop>
    requires { C.is_ready callees.now }
    ensures { FindsAndCarriesOut no_value (parts.moved_after (C.front callees.now) (C.calls callees.now) (piece_of piece.entry).within (piece_of piece.entry).function) state.old state.new result }
{
    match move_into(piece, state) {
        Ok(()) => test_after(piece.function, piece.initializes, callees, state),
        Err(stop) => Err(stop),
    }
}

/// The same, and its values of `before` go.
fn postcondition<C: Callees>(
    piece: Piece<'_>,
    callees: &C,
    state: &mut RunState,
) -> Result<(), Stop>
    requires { C.is_ready callees.now }
    ensures { FindsAndCarriesOut no_value (parts.postcondition (C.front callees.now) (C.calls callees.now) (piece_of piece.entry).within (piece_of piece.entry).function) state.old state.new result }
{
    match piece_after(piece, callees, state) {
        Ok(()) => pass_function(piece.function, state),
        Err(stop) => Err(stop),
    }
}

/// Those of inherited declarations, from the last.
fn other_postconditions<C: Callees>(
    others: &[Piece<'_>],
    callees: &C,
    state: &mut RunState,
) -> Result<(), Stop>
    requires { C.is_ready callees.now }
    ensures { FindsAndCarriesOut no_value (spec.postconditions (C.front callees.now) (C.calls callees.now) (reverse (map piece_of others.now))) state.old state.new result }
{
    let mut left = others.len();
    while 0 < left {
        left -= 1;
        match postcondition(others[left], callees, state) {
            Ok(()) => {}
            Err(stop) => return Err(stop),
        }
    }
    Ok(())
}

/// Postconditions: own ones first, and inherited ones from the last.
#[inline(never)]
pub fn postconditions<C: Callees>(
    own: Option<Piece<'_>>,
    others: &[Piece<'_>],
    callees: &C,
    state: &mut RunState,
) -> Result<(), Stop>
    requires { C.is_ready callees.now }
    ensures { FindsAndCarriesOut no_value (spec.postconditions (C.front callees.now) (C.calls callees.now) (spec.outward (maybe_piece own.entry) (map piece_of others.now))) state.old state.new result }
{
    match own {
        Some(piece) => match postcondition(piece, callees, state) {
            Ok(()) => other_postconditions(others, callees, state),
            Err(stop) => Err(stop),
        },
        None => other_postconditions(others, callees, state),
    }
}
