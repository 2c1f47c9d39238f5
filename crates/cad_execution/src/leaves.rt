// What statements have in common that run no others.
ghost use Rattle.std.specs.Prelude.{map};
ghost use Rattle.cad_declarations.specs.Typed.{arguments_of};
ghost use Rattle.cad_declarations.specs.Views.{argument_of, term_of};
ghost use Rattle.cad_evaluation.specs.Statements as spec;
ghost use Rattle.cad_expressions.specs.Passed.{tree_in};
ghost use Rattle.cad_outcomes.specs.Outcomes.{no_value};
ghost use Rattle.cad_state.specs.Views.{FindsAndCarriesOut};
ghost use Rattle.cad_statement_leaves.specs.Code.Parts as parts;
ghost use Rattle.cad_statement_leaves.specs.Values as values;
ghost use Rattle.cad_syntax.specs.Types.{pure_type};

use cad_declarations::{Argument, Term};
use cad_expressions::{Callees, eval, eval_arguments};
use cad_outcomes::Stop;
use cad_rows::Tree;
use cad_state::RunState;
use cad_statement_leaves::{emit_row, transfer};
use cad_syntax::{CadType, TypeId};

/// The value of an expression, after the unit of its statement. Errors are those of the expression.
pub(crate) fn first_value<C: Callees>(
    value: &Term,
    callees: &C,
    state: &mut RunState,
) -> Result<Box<Tree>, Stop>
    requires { C.is_ready callees.now }
    ensures { FindsAndCarriesOut tree_in (parts.value_of (C.front callees.now) (C.calls callees.now) (term_of value.now)) state.old state.new result }
{
    match state.tick() {
        Ok(()) => eval(value, callees, state),
        Err(stop) => Err(stop),
    }
}

/// The value of an expression, come to a place of a type. Errors are those of its evaluation and of its transfer.
pub fn come<C: Callees>(
    value: &Term,
    target: &CadType,
    callees: &C,
    state: &mut RunState,
) -> Result<Box<Tree>, Stop>
    requires { C.is_ready callees.now }
    ensures { FindsAndCarriesOut tree_in (values.come (C.front callees.now) (C.calls callees.now) (term_of value.now) (pure_type target.now)) state.old state.new result }
{
    match eval(value, callees, state) {
        Ok(tree) => transfer(tree, target, state),
        Err(stop) => Err(stop),
    }
}

/// The same, after the unit of the statement.
pub(crate) fn first_come<C: Callees>(
    value: &Term,
    target: &CadType,
    callees: &C,
    state: &mut RunState,
) -> Result<Box<Tree>, Stop>
    requires { C.is_ready callees.now }
    ensures { FindsAndCarriesOut tree_in (parts.value_come (C.front callees.now) (C.calls callees.now) (term_of value.now) (pure_type target.now)) state.old state.new result }
{
    match first_value(value, callees, state) {
        Ok(tree) => transfer(tree, target, state),
        Err(stop) => Err(stop),
    }
}

/// An event is made of its arguments and joins the events. Errors are those of its arguments; 134 where a part has no form outside.
pub fn emit_event<C: Callees>(
    id: &TypeId,
    arguments: &[Argument],
    callees: &C,
    state: &mut RunState,
) -> Result<(), Stop>
    requires { C.is_ready callees.now }
    ensures { FindsAndCarriesOut no_value (spec.emits (C.front callees.now) (C.calls callees.now) id.now (arguments_of (map argument_of arguments.now))) state.old state.new result }
{
    match eval_arguments(arguments, callees, state) {
        Ok(row) => emit_row(id, row, state),
        Err(stop) => Err(stop),
    }
}
