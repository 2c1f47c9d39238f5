// Statements that run no others.
ghost use Rattle.std.specs.Prelude.{◌≡◌, ℕ, map};
ghost use Rattle.cad_declarations.specs.Typed as e;
ghost use Rattle.cad_declarations.specs.Views.{argument_of, place_of, return_of, term_of, variable_of};
ghost use Rattle.cad_evaluation.specs.Containers as containers;
ghost use Rattle.cad_evaluation.specs.Statements as spec;
ghost use Rattle.cad_expressions.specs.Passed.{tree_in};
ghost use Rattle.cad_locations.specs.Views.{location_of};
ghost use Rattle.cad_outcomes.specs.Outcomes.{Gives, no_value};
ghost use Rattle.cad_state.specs.Views.{FindsAndCarriesOut};
ghost use Rattle.cad_statement_leaves.specs.Code.Parts as parts;
ghost use Rattle.cad_statement_leaves.specs.Views.{flow_of};
ghost use Rattle.cad_syntax.specs.Types.{pure_type};
ghost use Rattle.cad_values.specs.Values.{pure_value, void};
ghost use Rattle.cad_world.specs.State.{give};

use crate::leaves::{come, emit_event, first_come, first_value};
use crate::places::{first_location, locate};
use cad_declarations::{Argument, Place, Term, Variable};
use cad_expressions::{Callees, boxed};
use cad_locations::{Location, discard_location};
use cad_operators::plain_tree;
use cad_outcomes::Stop;
use cad_rows::Tree;
use cad_state::RunState;
use cad_statement_leaves::{Flow, fill_variable, give_back, let_go, next};
use cad_syntax::{CadType, TypeId};
use cad_values::Value;
use std::alloc::Global;

/// `let a: T = e`
#[inline(never)]
pub(crate) fn declare<C: Callees>(
    variable: &Variable,
    value: &Term,
    callees: &C,
    state: &mut RunState,
) -> Result<Flow, Stop>
    requires { C.is_ready callees.now }
    ensures { (at n : ℕ) → FindsAndCarriesOut flow_of (spec.exec (C.front callees.now) (C.calls callees.now) n (e.declare at (variable_of variable.now) (term_of value.now))) state.old state.new result }
{
    match first_come(value, &variable.declared, callees, state) {
        Ok(tree) => next(fill_variable(variable.number, tree, state)),
        Err(stop) => Err(stop),
    }
}

/// What stood at a location, where the value of an expression comes to, as it comes to a variable.
fn exchange_value<C: Callees>(
    location: &Location,
    own: &CadType,
    value: &Term,
    target: &CadType,
    callees: &C,
    state: &mut RunState,
) -> Result<Box<Tree>, Stop>
    requires { C.is_ready callees.now }
    ensures { FindsAndCarriesOut tree_in (parts.exchange_at (C.front callees.now) (C.calls callees.now) (location_of location.now) (pure_type own.now) (term_of value.now) (pure_type target.now)) state.old state.new result }
{
    match come(value, target, callees, state) {
        Ok(tree) => cad_statement_leaves::exchange(location, own, tree, state),
        Err(stop) => Err(stop),
    }
}

/// The value of an expression comes to a location, and what stood there to a variable.
#[inline(never)]
fn exchange_into<C: Callees>(
    location: &Location,
    variable: &Variable,
    value: &Term,
    target: &CadType,
    callees: &C,
    state: &mut RunState,
) -> Result<Flow, Stop>
    requires { C.is_ready callees.now }
    ensures { FindsAndCarriesOut flow_of (parts.exchange_into (C.front callees.now) (C.calls callees.now) (location_of location.now) (variable_of variable.now) (term_of value.now) (pure_type target.now)) state.old state.new result }
{
    match exchange_value(location, &variable.declared, value, target, callees, state) {
        Ok(old) => next(fill_variable(variable.number, old, state)),
        Err(stop) => Err(stop),
    }
}

/// `let old: T <- place <- e`
#[inline(never)]
pub(crate) fn exchange<C: Callees>(
    variable: &Variable,
    place: &Place,
    of: &CadType,
    value: &Term,
    callees: &C,
    state: &mut RunState,
) -> Result<Flow, Stop>
    requires { C.is_ready callees.now }
    ensures { (at n : ℕ) → FindsAndCarriesOut flow_of (spec.exec (C.front callees.now) (C.calls callees.now) n (e.exchange at (variable_of variable.now) (place_of place.now) (pure_type of.now) (term_of value.now))) state.old state.new result }
{
    match first_location(place, callees, state) {
        Ok(location) => {
            let flow = exchange_into(&location, variable, value, of, callees, state);
            discard_location(location);
            flow
        }
        Err(stop) => Err(stop),
    }
}

/// The value of an expression is assigned to a location.
#[inline(never)]
fn assign_at<C: Callees>(
    location: &Location,
    value: &Term,
    target: &CadType,
    callees: &C,
    state: &mut RunState,
) -> Result<Flow, Stop>
    requires { C.is_ready callees.now }
    ensures { FindsAndCarriesOut flow_of (parts.assign_at (C.front callees.now) (C.calls callees.now) (location_of location.now) (term_of value.now) (pure_type target.now)) state.old state.new result }
{
    match come(value, target, callees, state) {
        Ok(tree) => next(cad_statement_leaves::assign(location, tree, state)),
        Err(stop) => Err(stop),
    }
}

/// `place = e`
#[inline(never)]
pub(crate) fn assign<C: Callees>(
    place: &Place,
    value: &Argument,
    callees: &C,
    state: &mut RunState,
) -> Result<Flow, Stop>
    requires { C.is_ready callees.now }
    ensures { (at n : ℕ) → FindsAndCarriesOut flow_of (spec.exec (C.front callees.now) (C.calls callees.now) n (e.assign at (place_of place.now) (term_of value.now.value) (pure_type value.now.target))) state.old state.new result }
{
    match first_location(place, callees, state) {
        Ok(location) => {
            let flow = assign_at(&location, &value.value, &value.target, callees, state);
            discard_location(location);
            flow
        }
        Err(stop) => Err(stop),
    }
}

/// The value of an expression comes to a location that is nil.
#[inline(never)]
fn force_assign_at<C: Callees>(
    location: &Location,
    value: &Term,
    target: &CadType,
    callees: &C,
    state: &mut RunState,
) -> Result<Flow, Stop>
    requires { C.is_ready callees.now }
    ensures { FindsAndCarriesOut flow_of (parts.force_assign_at (C.front callees.now) (C.calls callees.now) (location_of location.now) (term_of value.now) (pure_type target.now)) state.old state.new result }
{
    match come(value, target, callees, state) {
        Ok(tree) => next(cad_statement_leaves::force_assign(location, tree, state)),
        Err(stop) => Err(stop),
    }
}

/// `place <-! e`
#[inline(never)]
pub(crate) fn force_assign<C: Callees>(
    place: &Place,
    value: &Argument,
    callees: &C,
    state: &mut RunState,
) -> Result<Flow, Stop>
    requires { C.is_ready callees.now }
    ensures { (at n : ℕ) → FindsAndCarriesOut flow_of (spec.exec (C.front callees.now) (C.calls callees.now) n (e.force_assign at (place_of place.now) (term_of value.now.value) (pure_type value.now.target))) state.old state.new result }
{
    match first_location(place, callees, state) {
        Ok(location) => {
            let flow = force_assign_at(&location, &value.value, &value.target, callees, state);
            discard_location(location);
            flow
        }
        Err(stop) => Err(stop),
    }
}

/// What stands at a location and what stands in a place change places.
#[inline(never)]
fn swap_with<C: Callees>(
    left: &Location,
    left_type: &CadType,
    right: &Place,
    right_type: &CadType,
    callees: &C,
    state: &mut RunState,
) -> Result<Flow, Stop>
    requires { C.is_ready callees.now }
    ensures { FindsAndCarriesOut flow_of (parts.swap_with (C.front callees.now) (C.calls callees.now) (location_of left.now) (pure_type left_type.now) (place_of right.now) (pure_type right_type.now)) state.old state.new result }
{
    match locate(right, callees, state) {
        Ok(location) => {
            let flow = next(cad_assignments::swap(state, left, left_type, &location, right_type));
            discard_location(location);
            flow
        }
        Err(stop) => Err(stop),
    }
}

/// `a <-> b`
#[inline(never)]
pub(crate) fn swap<C: Callees>(
    left: &Place,
    left_type: &CadType,
    right: &Place,
    right_type: &CadType,
    callees: &C,
    state: &mut RunState,
) -> Result<Flow, Stop>
    requires { C.is_ready callees.now }
    ensures { (at n : ℕ) → FindsAndCarriesOut flow_of (spec.exec (C.front callees.now) (C.calls callees.now) n (e.swap at (place_of left.now) (pure_type left_type.now) (place_of right.now) (pure_type right_type.now))) state.old state.new result }
{
    match first_location(left, callees, state) {
        Ok(location) => {
            let flow = swap_with(&location, left_type, right, right_type, callees, state);
            discard_location(location);
            flow
        }
        Err(stop) => Err(stop),
    }
}

/// An expression whose value goes.
#[inline(never)]
pub(crate) fn expression<C: Callees>(
    value: &Term,
    callees: &C,
    state: &mut RunState,
) -> Result<Flow, Stop>
    requires { C.is_ready callees.now }
    ensures { (at n : ℕ) → FindsAndCarriesOut flow_of (spec.exec (C.front callees.now) (C.calls callees.now) n (e.expression at (term_of value.now))) state.old state.new result }
{
    match first_value(value, callees, state) {
        Ok(tree) => next(let_go(tree)),
        Err(stop) => Err(stop),
    }
}

/// `break`
#[inline(never)]
pub(crate) fn break_loop(state: &mut RunState) -> Result<Flow, Stop>
    ensures { FindsAndCarriesOut flow_of parts.break_flow state.old state.new result }
{
    match state.tick() {
        Ok(()) => Ok(Flow::Broken),
        Err(stop) => Err(stop),
    }
}

/// `continue`
#[inline(never)]
pub(crate) fn continue_loop(state: &mut RunState) -> Result<Flow, Stop>
    ensures { FindsAndCarriesOut flow_of parts.continue_flow state.old state.new result }
{
    match state.tick() {
        Ok(()) => Ok(Flow::Continued),
        Err(stop) => Err(stop),
    }
}

/// The value of a function without a result.
fn void_value() -> Value
    ensures { pure_value result ≡ void }
{
    Value::Void
}

/// The same as a tree on the heap.
fn void_tree(alloc: Global) -> Result<Box<Tree>, Stop>
    ensures { Gives tree_in (give containers.void_tree) result }
{
    boxed(Ok(plain_tree(alloc, void_value())))
}

/// `return` without a value
#[inline(never)]
fn return_nothing(state: &mut RunState) -> Result<Flow, Stop>
    ensures { FindsAndCarriesOut flow_of parts.return_flow state.old state.new result }
{
    match state.tick() {
        Ok(()) => {
            let alloc = *state.making.allocator();
            give_back(void_tree(alloc))
        }
        Err(stop) => Err(stop),
    }
}

/// `return`
#[inline(never)]
pub(crate) fn return_value<C: Callees>(
    value: &Option<Argument>,
    callees: &C,
    state: &mut RunState,
) -> Result<Flow, Stop>
    requires { C.is_ready callees.now }
    ensures { (at n : ℕ) → FindsAndCarriesOut flow_of (spec.exec (C.front callees.now) (C.calls callees.now) n (return_of at value.now)) state.old state.new result }
{
    match value {
        Some(given) => give_back(first_come(&given.value, &given.target, callees, state)),
        None => return_nothing(state),
    }
}

/// An event is emitted, after the unit of the statement.
fn first_emit<C: Callees>(
    event: &TypeId,
    arguments: &[Argument],
    callees: &C,
    state: &mut RunState,
) -> Result<(), Stop>
    requires { C.is_ready callees.now }
    ensures { FindsAndCarriesOut no_value (parts.first_emit (C.front callees.now) (C.calls callees.now) event.now (e.arguments_of (map argument_of arguments.now))) state.old state.new result }
{
    match state.tick() {
        Ok(()) => emit_event(event, arguments, callees, state),
        Err(stop) => Err(stop),
    }
}

/// `emit E(..)`
#[inline(never)]
pub(crate) fn emit<C: Callees>(
    event: &TypeId,
    arguments: &[Argument],
    callees: &C,
    state: &mut RunState,
) -> Result<Flow, Stop>
    requires { C.is_ready callees.now }
    ensures { (at n : ℕ) → FindsAndCarriesOut flow_of (spec.exec (C.front callees.now) (C.calls callees.now) n (e.emit at event.now (e.arguments_of (map argument_of arguments.now)))) state.old state.new result }
{
    next(first_emit(event, arguments, callees, state))
}
