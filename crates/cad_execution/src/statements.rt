// Statements and blocks: one recursion over the typed trees.
ghost use Rattle.std.specs.Prelude.{suc, List, ◌∷◌, map, option_map, Some};
ghost use Rattle.cad_declarations.specs.Typed as e;
ghost use Rattle.cad_declarations.specs.Views.{block_of, case_of, statement_of, term_of, variable_of};
ghost use Rattle.cad_evaluation.specs.Flows as flows;
ghost use Rattle.cad_evaluation.specs.Statements as spec;
ghost use Rattle.cad_evaluation.specs.Terms as terms;
ghost use Rattle.cad_expressions.specs.Passed.{tree_in};
ghost use Rattle.cad_labels.specs.Laws.{HasNone, HasNoneInRow};
ghost use Rattle.cad_outcomes.specs.Outcomes.{Gives};
ghost use Rattle.cad_rows.specs.Views.{PlaceView, pure_place, pure_row, pure_tree};
ghost use Rattle.cad_state.specs.Views.{FindsAndCarriesOut};
ghost use Rattle.cad_state.specs.declared.state.RunState.{RunState};
ghost use Rattle.cad_statement_leaves.specs.Code.Parts as parts;
ghost use Rattle.cad_statement_leaves.specs.Views.{flow_of};
ghost use Rattle.cad_world.specs.State.{Action};

use crate::chosen::{cast, elements_of, first_holds, holds, is_chosen, is_nil, unwrap};
use crate::leaves::first_value;
use crate::plain;
use cad_declarations::{Term, TypedBlock, TypedCase, TypedStatement, Variable};
use cad_expressions::{Callees, discard_boxed};
use cad_outcomes::Stop;
use cad_rows::{Place, Tree};
use cad_state::RunState;
use cad_statement_leaves::{
    Flow, case_end, case_ran, close, fill_counter, fill_variable, leave, leave_switch,
    next_element, statement_end, turn_end,
};

/// A block: its variables go at its end. `turns` bounds the turns of each loop. Errors are those of its statements.
#[cycle(runs)]
pub fn exec_block<C: Callees>(
    block: &TypedBlock,
    turns: u64,
    callees: &C,
    state: &mut RunState,
) -> Result<Flow, Stop>
    requires { C.is_ready callees.now }
    ensures { FindsAndCarriesOut flow_of (spec.exec_block (C.front callees.now) (C.calls callees.now) turns (block_of block.now)) state.old state.new result }
{
    match exec_all(&block.statements, turns, callees, state) {
        Ok(flow) => close(block.in_scope, flow, state),
        Err(stop) => Err(stop),
    }
}

/// Statements one behind the other, up to one that doesn't lead to the next.
#[cycle(runs)]
fn exec_all<C: Callees>(
    all: &[TypedStatement],
    turns: u64,
    callees: &C,
    state: &mut RunState,
) -> Result<Flow, Stop>
    requires { C.is_ready callees.now }
    ensures { FindsAndCarriesOut flow_of (spec.exec_all (C.front callees.now) (C.calls callees.now) turns (e.statements_of (map statement_of all.now))) state.old state.new result }
{
    for statement in all {
        match statement_end(exec(statement, turns, callees, state)) {
            Some(ran) => return ran,
            None => {}
        }
    }
    Ok(Flow::Next)
}

/// A value comes to a variable, and a block runs.
#[cycle(runs)]
fn run_over<C: Callees>(
    body: &TypedBlock,
    variable: &Variable,
    value: Box<Tree>,
    turns: u64,
    callees: &C,
    state: &mut RunState,
) -> Result<Flow, Stop>
    requires { C.is_ready callees.now }
    ensures { HasNone (tree_in value) → FindsAndCarriesOut flow_of (parts.run_over (C.front callees.now) (C.calls callees.now) turns (variable_of variable.now) (tree_in value) (block_of body.now)) state.old state.new result }
{
    match fill_variable(variable.number, value, state) {
        Ok(()) => exec_block(body, turns, callees, state),
        Err(stop) => Err(stop),
    }
}

/// A block over a variable that holds a value.
#[cycle(runs)]
#[inline(never)]
fn with_variable<C: Callees>(
    body: &TypedBlock,
    variable: &Variable,
    value: Box<Tree>,
    turns: u64,
    callees: &C,
    state: &mut RunState,
) -> Result<Flow, Stop>
    requires { C.is_ready callees.now }
    ensures { HasNone (tree_in value) → FindsAndCarriesOut flow_of (flows.with_variable (variable_of variable.now) (tree_in value) (spec.exec_block (C.front callees.now) (C.calls callees.now) turns (block_of body.now))) state.old state.new result }
{
    match run_over(body, variable, value, turns, callees, state) {
        Ok(flow) => close(variable.number, flow, state),
        Err(stop) => Err(stop),
    }
}

/// A block, after the unit of its turn.
#[cycle(runs)]
fn run_turn<C: Callees>(
    body: &TypedBlock,
    turns: u64,
    callees: &C,
    state: &mut RunState,
) -> Result<Flow, Stop>
    requires { C.is_ready callees.now }
    ensures { FindsAndCarriesOut flow_of (parts.run_turn (C.front callees.now) (C.calls callees.now) turns (block_of body.now)) state.old state.new result }
{
    match state.tick() {
        Ok(()) => exec_block(body, turns, callees, state),
        Err(stop) => Err(stop),
    }
}

/// The turns of `while`, at most so many; the limit beyond. One unit is taken before a turn, after the test has been true.
#[cycle(runs)]
#[inline(never)]
fn repeat<C: Callees>(
    body: &TypedBlock,
    test: &Term,
    turns: u64,
    callees: &C,
    state: &mut RunState,
) -> Result<Flow, Stop>
    requires { C.is_ready callees.now }
    ensures { FindsAndCarriesOut flow_of (flows.turns turns (terms.eval (C.front callees.now) (C.calls callees.now) (term_of test.now)) (spec.exec_block (C.front callees.now) (C.calls callees.now) turns (block_of body.now))) state.old state.new result }
{
    for _ in 0..turns {
        match holds(test, callees, state) {
            Ok(is) => {
                if !is {
                    return Ok(Flow::Next);
                }
            }
            Err(stop) => return Err(stop),
        }
        match turn_end(run_turn(body, turns, callees, state)) {
            Some(ran) => return ran,
            None => {}
        }
    }
    Err(Stop::Limit)
}

/// A case runs, where it has the value of the `switch`.
#[cycle(runs)]
fn exec_case<C: Callees>(
    case: &TypedCase,
    nil: bool,
    value: &Tree,
    turns: u64,
    callees: &C,
    state: &mut RunState,
) -> Result<Option<Flow>, Stop>
    requires { C.is_ready callees.now }
    ensures { FindsAndCarriesOut (option_map flow_of) (parts.exec_case (C.front callees.now) (C.calls callees.now) turns nil (pure_tree value.now) (case_of case.now).value (case_of case.now).body) state.old state.new result }
{
    match is_chosen(&case.value, nil, value, callees, state) {
        Ok(is) => {
            if is {
                case_ran(exec_block(&case.body, turns, callees, state))
            } else {
                Ok(None)
            }
        }
        Err(stop) => Err(stop),
    }
}

/// The first case runs that has the value of the `switch`.
#[cycle(runs)]
fn exec_cases<C: Callees>(
    cases: &[TypedCase],
    nil: bool,
    value: &Tree,
    turns: u64,
    callees: &C,
    state: &mut RunState,
) -> Result<Option<Flow>, Stop>
    requires { C.is_ready callees.now }
    ensures { FindsAndCarriesOut (option_map flow_of) (parts.exec_cases (C.front callees.now) (C.calls callees.now) turns nil (pure_tree value.now) (e.cases_of (map case_of cases.now))) state.old state.new result }
{
    for case in cases {
        match case_end(exec_case(case, nil, value, turns, callees, state)) {
            Some(ran) => return ran,
            None => {}
        }
    }
    Ok(None)
}

/// The value of a `switch`, and the first case that has it.
#[cycle(runs)]
#[inline(never)]
fn exec_chosen<C: Callees>(
    cases: &[TypedCase],
    value: &Term,
    turns: u64,
    callees: &C,
    state: &mut RunState,
) -> Result<Option<Flow>, Stop>
    requires { C.is_ready callees.now }
    ensures { FindsAndCarriesOut (option_map flow_of) (parts.exec_chosen (C.front callees.now) (C.calls callees.now) turns (term_of value.now) (e.cases_of (map case_of cases.now))) state.old state.new result }
{
    match first_value(value, callees, state) {
        Ok(tree) => {
            let ran = exec_cases(cases, is_nil(value), &tree, turns, callees, state);
            discard_boxed(tree);
            ran
        }
        Err(stop) => Err(stop),
    }
}

/// A counter comes to its variable, and a block runs over the variable of an element.
#[cycle(runs)]
fn run_counted<C: Callees>(
    body: &TypedBlock,
    index: &Variable,
    i: u64,
    variable: &Variable,
    value: Box<Tree>,
    turns: u64,
    callees: &C,
    state: &mut RunState,
) -> Result<Flow, Stop>
    requires { C.is_ready callees.now }
    ensures { HasNone (tree_in value) → FindsAndCarriesOut flow_of (parts.run_counted (C.front callees.now) (C.calls callees.now) turns (variable_of index.now) i (variable_of variable.now) (tree_in value) (block_of body.now)) state.old state.new result }
{
    match fill_counter(index.number, i, state) {
        Ok(()) => with_variable(body, variable, value, turns, callees, state),
        Err(stop) => {
            discard_boxed(value);
            Err(stop)
        }
    }
}

/// A block over the variables of a counter and of an element.
#[cycle(runs)]
#[inline(never)]
fn with_counter<C: Callees>(
    body: &TypedBlock,
    index: &Variable,
    i: u64,
    variable: &Variable,
    value: Box<Tree>,
    turns: u64,
    callees: &C,
    state: &mut RunState,
) -> Result<Flow, Stop>
    requires { C.is_ready callees.now }
    ensures { HasNone (tree_in value) → FindsAndCarriesOut flow_of (parts.run_indexed (C.front callees.now) (C.calls callees.now) turns (Some (variable_of index.now)) i (variable_of variable.now) (tree_in value) (block_of body.now)) state.old state.new result }
{
    match run_counted(body, index, i, variable, value, turns, callees, state) {
        Ok(flow) => close(index.number, flow, state),
        Err(stop) => Err(stop),
    }
}

/// A block over the variables of a counter, where there is one, and of an element, after the unit of its turn.
#[cycle(runs)]
fn run_element<C: Callees>(
    body: &TypedBlock,
    index: &Option<Variable>,
    i: u64,
    variable: &Variable,
    value: Box<Tree>,
    turns: u64,
    callees: &C,
    state: &mut RunState,
) -> Result<Flow, Stop>
    requires { C.is_ready callees.now }
    ensures { HasNone (tree_in value) → FindsAndCarriesOut flow_of (parts.run_element (C.front callees.now) (C.calls callees.now) turns (option_map variable_of index.now) i (variable_of variable.now) (tree_in value) (block_of body.now)) state.old state.new result }
{
    match state.tick() {
        Ok(()) => match index {
            Some(counter) => {
                with_counter(body, counter, i, variable, value, turns, callees, state)
            }
            None => with_variable(body, variable, value, turns, callees, state),
        },
        Err(stop) => {
            discard_boxed(value);
            Err(stop)
        }
    }
}

/// The turn of an element, where there is one.
#[cycle(runs)]
fn run_place<C: Callees>(
    body: &TypedBlock,
    index: &Option<Variable>,
    i: u64,
    variable: &Variable,
    element: Result<Box<Tree>, Stop>,
    turns: u64,
    callees: &C,
    state: &mut RunState,
) -> Result<Flow, Stop>
    requires { C.is_ready callees.now }
    ensures { (place : PlaceView) → Gives tree_in (parts.element_in place) element → parts.PlaceHasNone place → FindsAndCarriesOut flow_of (parts.run_place (C.front callees.now) (C.calls callees.now) turns (option_map variable_of index.now) i (variable_of variable.now) (block_of body.now) place) state.old state.new result }
{
    match element {
        Ok(value) => run_element(body, index, i, variable, value, turns, callees, state),
        Err(stop) => Err(stop),
    }
}

/// Lets an element go.
fn discard_element(element: Result<Box<Tree>, Stop>) {
    match element {
        Ok(value) => discard_boxed(value),
        Err(_) => {}
    }
}

/// The turn of the next element, unless the loop has ended.
#[cycle(runs)]
#[inline(never)]
fn run_next<C: Callees>(
    body: &TypedBlock,
    index: &Option<Variable>,
    i: u64,
    variable: &Variable,
    element: Result<Box<Tree>, Stop>,
    ended: Option<Result<Flow, Stop>>,
    turns: u64,
    callees: &C,
    state: &mut RunState,
) -> Option<Result<Flow, Stop>>
    requires { C.is_ready callees.now }
    ensures { (whole : Action flows.Flow) (start : RunState) (place : PlaceView) (places : List PlaceView) → Gives tree_in (parts.element_in place) element → parts.PlaceHasNone place → parts.HasRun whole start (parts.elements_left (C.front callees.now) (C.calls callees.now) turns (option_map variable_of index.now) (variable_of variable.now) (block_of body.now) i (place ∷ places)) state.old ended → parts.HasRun whole start (parts.elements_left (C.front callees.now) (C.calls callees.now) turns (option_map variable_of index.now) (variable_of variable.now) (block_of body.now) (suc i) places) state.new result }
{
    match ended {
        Some(ran) => {
            discard_element(element);
            Some(ran)
        }
        None => turn_end(run_place(body, index, i, variable, element, turns, callees, state)),
    }
}

/// A turn for each element, in order.
#[cycle(runs)]
#[inline(never)]
fn run_elements<C: Callees>(
    body: &TypedBlock,
    index: &Option<Variable>,
    variable: &Variable,
    row: Vec<Place>,
    turns: u64,
    callees: &C,
    state: &mut RunState,
) -> Result<Flow, Stop>
    requires { C.is_ready callees.now }
    ensures { HasNoneInRow (pure_row row.items) → FindsAndCarriesOut flow_of (parts.elements_left (C.front callees.now) (C.calls callees.now) turns (option_map variable_of index.now) (variable_of variable.now) (block_of body.now) 0 (map pure_place row.items)) state.old state.new result }
{
    let mut ended = None;
    let mut i = 0u64;
    let mut left = row.into_iter();
    while let Some(element) = next_element(&mut left) {
        ended = run_next(
            body, index, i, variable, element, ended, turns, callees, state,
        );
        i += 1;
    }
    left.destroy_empty();
    match ended {
        Some(ran) => ran,
        None => Ok(Flow::Next),
    }
}

/// A statement. One unit is taken before it.
#[cycle(runs)]
#[inline(never)]
fn exec<C: Callees>(
    statement: &TypedStatement,
    turns: u64,
    callees: &C,
    state: &mut RunState,
) -> Result<Flow, Stop>
    requires { C.is_ready callees.now }
    ensures { FindsAndCarriesOut flow_of (spec.exec (C.front callees.now) (C.calls callees.now) turns (statement_of statement.now)) state.old state.new result }
{
    match statement {
        TypedStatement::Declare {
            at: _,
            variable,
            value,
        } => plain::declare(variable, value, callees, state),
        TypedStatement::Exchange {
            at: _,
            variable,
            place,
            of,
            value,
        } => plain::exchange(variable, place, of, value, callees, state),
        TypedStatement::Assign {
            at: _,
            place,
            value,
        } => plain::assign(place, value, callees, state),
        TypedStatement::ForceAssign {
            at: _,
            place,
            value,
        } => plain::force_assign(place, value, callees, state),
        TypedStatement::Swap {
            at: _,
            left,
            left_type,
            right,
            right_type,
        } => plain::swap(left, left_type, right, right_type, callees, state),
        TypedStatement::Expression { at: _, value } => plain::expression(value, callees, state),
        TypedStatement::If { .. } => exec_if(statement, turns, callees, state),
        TypedStatement::IfLet { .. } => exec_if_let(statement, turns, callees, state),
        TypedStatement::IfCast { .. } => exec_if_cast(statement, turns, callees, state),
        TypedStatement::While { .. } => exec_while(statement, turns, callees, state),
        TypedStatement::For { .. } => exec_for(statement, turns, callees, state),
        TypedStatement::Switch { .. } => exec_switch(statement, turns, callees, state),
        TypedStatement::Break { at: _ } => plain::break_loop(state),
        TypedStatement::Continue { at: _ } => plain::continue_loop(state),
        TypedStatement::Return { at: _, value } => plain::return_value(value, callees, state),
        TypedStatement::Emit {
            at: _,
            event,
            arguments,
        } => plain::emit(event, arguments, callees, state),
    }
}

/// `if`, in a function by itself, which takes room on the stack for its own values alone. No run gives it any other statement.
#[cycle(runs)]
#[inline(never)]
fn exec_if<C: Callees>(
    statement: &TypedStatement,
    turns: u64,
    callees: &C,
    state: &mut RunState,
) -> Result<Flow, Stop>
    requires { C.is_ready callees.now }
    ensures { FindsAndCarriesOut flow_of (spec.exec (C.front callees.now) (C.calls callees.now) turns (statement_of statement.now)) state.old state.new result }
{
    match statement {
        TypedStatement::If {
            at: _,
            test,
            then,
            otherwise,
        } => match first_holds(test, callees, state) {
            Ok(is) => {
                if is {
                    exec_block(then, turns, callees, state)
                } else {
                    exec_block(otherwise, turns, callees, state)
                }
            }
            Err(stop) => Err(stop),
        },
        _ => Err(Stop::Memory),
    }
}

/// `while`, in the same way.
#[cycle(runs)]
#[inline(never)]
fn exec_while<C: Callees>(
    statement: &TypedStatement,
    turns: u64,
    callees: &C,
    state: &mut RunState,
) -> Result<Flow, Stop>
    requires { C.is_ready callees.now }
    ensures { FindsAndCarriesOut flow_of (spec.exec (C.front callees.now) (C.calls callees.now) turns (statement_of statement.now)) state.old state.new result }
{
    match statement {
        TypedStatement::While { at: _, test, body } => match state.tick() {
            Ok(()) => repeat(body, test, turns, callees, state),
            Err(stop) => Err(stop),
        },
        _ => Err(Stop::Memory),
    }
}

/// `for`, in the same way.
#[cycle(runs)]
#[inline(never)]
fn exec_for<C: Callees>(
    statement: &TypedStatement,
    turns: u64,
    callees: &C,
    state: &mut RunState,
) -> Result<Flow, Stop>
    requires { C.is_ready callees.now }
    ensures { FindsAndCarriesOut flow_of (spec.exec (C.front callees.now) (C.calls callees.now) turns (statement_of statement.now)) state.old state.new result }
{
    match statement {
        TypedStatement::For {
            at: _,
            index,
            variable,
            array,
            body,
        } => match elements_of(array, callees, state) {
            Ok(row) => run_elements(body, index, variable, row, turns, callees, state),
            Err(stop) => Err(stop),
        },
        _ => Err(Stop::Memory),
    }
}

/// `if let`, in the same way.
#[cycle(runs)]
#[inline(never)]
fn exec_if_let<C: Callees>(
    statement: &TypedStatement,
    turns: u64,
    callees: &C,
    state: &mut RunState,
) -> Result<Flow, Stop>
    requires { C.is_ready callees.now }
    ensures { FindsAndCarriesOut flow_of (spec.exec (C.front callees.now) (C.calls callees.now) turns (statement_of statement.now)) state.old state.new result }
{
    match statement {
        TypedStatement::IfLet {
            at: _,
            variable,
            value,
            then,
            otherwise,
        } => match unwrap(value, callees, state) {
            Ok(found) => match found {
                Some(inside) => with_variable(then, variable, inside, turns, callees, state),
                None => exec_block(otherwise, turns, callees, state),
            },
            Err(stop) => Err(stop),
        },
        _ => Err(Stop::Memory),
    }
}

/// `if let a = p as? T`, in the same way.
#[cycle(runs)]
#[inline(never)]
fn exec_if_cast<C: Callees>(
    statement: &TypedStatement,
    turns: u64,
    callees: &C,
    state: &mut RunState,
) -> Result<Flow, Stop>
    requires { C.is_ready callees.now }
    ensures { FindsAndCarriesOut flow_of (spec.exec (C.front callees.now) (C.calls callees.now) turns (statement_of statement.now)) state.old state.new result }
{
    match statement {
        TypedStatement::IfCast {
            at: _,
            variable,
            place,
            target,
            then,
            otherwise,
        } => match cast(place, target, callees, state) {
            Ok(found) => match found {
                Some(inside) => with_variable(then, variable, inside, turns, callees, state),
                None => exec_block(otherwise, turns, callees, state),
            },
            Err(stop) => Err(stop),
        },
        _ => Err(Stop::Memory),
    }
}

/// `switch`, in the same way.
#[cycle(runs)]
#[inline(never)]
fn exec_switch<C: Callees>(
    statement: &TypedStatement,
    turns: u64,
    callees: &C,
    state: &mut RunState,
) -> Result<Flow, Stop>
    requires { C.is_ready callees.now }
    ensures { FindsAndCarriesOut flow_of (spec.exec (C.front callees.now) (C.calls callees.now) turns (statement_of statement.now)) state.old state.new result }
{
    match statement {
        TypedStatement::Switch {
            at: _,
            value,
            cases,
            default,
        } => match exec_chosen(cases, value, turns, callees, state) {
            Ok(found) => match found {
                Some(flow) => Ok(leave_switch(flow)),
                None => leave(exec_block(default, turns, callees, state)),
            },
            Err(stop) => Err(stop),
        },
        _ => Err(Stop::Memory),
    }
}
