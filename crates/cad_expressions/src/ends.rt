// The end of resources, with the events that tell of it.
ghost use Rattle.std.specs.Prelude.{◌≡◌, ◌+◌, ◌<◌, ◌^◌, ◌++◌, ◌∷◌, List, [], length, OnOk};
ghost use Rattle.cad_evaluation.specs.Callees as callees;
ghost use Rattle.cad_evaluation.specs.Containers as containers;
ghost use Rattle.cad_evaluation.specs.Ending as spec;
ghost use Rattle.cad_expressions.specs.Code.Ending as ending;
ghost use Rattle.cad_expressions.specs.Code.Ending.{HasEmitted};
ghost use Rattle.cad_expression_leaves.specs.Code.Steps as steps;
ghost use Rattle.cad_expression_leaves.specs.Code.Steps.{GoesOn};
ghost use Rattle.cad_expression_leaves.specs.Views.{tree_in, trees_of};
ghost use Rattle.cad_labels.specs.Laws.{HasNone};
ghost use Rattle.cad_making.specs.Dying.{dying_of, laid_out};
ghost use Rattle.cad_outcomes.specs.Outcomes.{no_value};
ghost use Rattle.cad_rows.specs.Views.{pure_tree};
ghost use Rattle.cad_state.specs.Views.{CarriesOut, FindsAndCarriesOut};
ghost use Rattle.cad_state.specs.declared.state.RunState.{RunState};
ghost use Rattle.cad_world.specs.Rows as rows;
ghost use Rattle.cad_world.specs.State.{Action};

use cad_expression_leaves::{Callee, Evaluator, boxed, memory, unboxed};
use cad_making::{Dying, bury, emit, lay_out};
use cad_operators::plain_tree;
use cad_outcomes::Stop;
use cad_rows::{Tree, discard_tree};
use cad_state::RunState;
use cad_syntax::TypeId;
use cad_values::Value;
use std::alloc::{AllocError, Global};

/// The value of what gives none.
fn void_tree(alloc: Global) -> Tree
    ensures { pure_tree result ≡ containers.void_tree }
{
    plain_tree(alloc, Value::Void)
}

/// Lets events go.
#[inline(never)]
fn discard_events(events: Vec<Tree>) {
    let mut left = events;
    while let Some(event) = left.pop() {
        discard_tree(event);
    }
    left.destroy_empty()
}

/// Appends an event. Where memory fails, it is let go.
#[inline(never)]
fn push_event(events: &mut Vec<Tree>, event: Box<Tree>) -> Result<(), AllocError>
    ensures { OnOk result (trees_of events.new ≡ trees_of events.old ++ tree_in event ∷ []) }
{
    match events.push(unboxed(event)) {
        Ok(()) => Ok(()),
        Err(refused) => {
            discard_tree(refused.value);
            Err(AllocError)
        }
    }
}

/// The event that tells of the end of the node with the label.
fn make_event<E: Evaluator>(
    evaluator: &E,
    state: &mut RunState,
    of: &TypeId,
    label: u64,
) -> Result<Box<Tree>, Stop>
    requires { E.is_ready evaluator.now }
    ensures { FindsAndCarriesOut tree_in (E.calls evaluator.now (callees.destroyed_event of.now label) rows.stop) state.old state.new result }
{
    let none = Vec::new(memory(state));
    evaluator.call(state, Callee::DestroyedEvent { of, label }, none)
}

/// Appends the events of these types in order, by labels from the first on.
fn push_events<E: Evaluator>(
    evaluator: &E,
    state: &mut RunState,
    types: &[TypeId],
    first_label: u64,
    events: &mut Vec<Tree>,
) -> Result<(), Stop>
    requires ready { E.is_ready evaluator.now }
    requires labels { first_label + length types.now < 2 ^ 64 }
    ensures { FindsAndCarriesOut (λ _. trees_of events.new) (ending.made_behind (trees_of events.old) (spec.events_of (E.calls evaluator.now) first_label types.now)) state.old state.new result }
{
    let mut label = first_label;
    for of in types {
        match make_event(evaluator, state, of, label) {
            Ok(event) => match push_event(events, event) {
                Ok(()) => {}
                Err(_) => return Err(Stop::Memory),
            },
            Err(stop) => return Err(stop),
        }
        label += 1;
    }
    Ok(())
}

/// The events of what is laid out, in order.
fn make_events<E: Evaluator>(
    evaluator: &E,
    state: &mut RunState,
    dying: &Dying,
) -> Result<Vec<Tree>, Stop>
    requires ready { E.is_ready evaluator.now }
    requires labels { dying.now.first_label + length dying.now.types < 2 ^ 64 }
    ensures { FindsAndCarriesOut trees_of (spec.events_of (E.calls evaluator.now) dying.now.first_label dying.now.types) state.old state.new result }
{
    let mut events = Vec::new(memory(state));
    match push_events(
        evaluator,
        state,
        dying.types.as_slice(),
        dying.first_label,
        &mut events,
    ) {
        Ok(()) => Ok(events),
        Err(stop) => {
            discard_events(events);
            Err(stop)
        }
    }
}

/// Emits one event more; where emission stopped before, it is let go.
fn emit_next(state: &mut RunState, emitted: Result<(), Stop>, event: Tree) -> Result<(), Stop>
    ensures { (whole : Action (Unit {0})) (start : RunState) (rest : List rows.Tree) → HasEmitted whole start (pure_tree event ∷ rest) state.old emitted → HasEmitted whole start rest state.new result }
{
    match emitted {
        Ok(()) => emit(state, event),
        Err(stop) => {
            discard_tree(event);
            Err(stop)
        }
    }
}

/// Emits events in order; 134 where a part of one has no form outside.
fn emit_all(state: &mut RunState, events: Vec<Tree>) -> Result<(), Stop>
    ensures { CarriesOut no_value (spec.all_emitted (trees_of events)) state.old state.new result }
{
    let mut emitted = Ok(());
    let mut left = events.into_iter();
    while let Some(event) = left.next() {
        emitted = emit_next(state, emitted, event);
    }
    left.destroy_empty();
    emitted
}

/// The events are emitted, and what ends goes.
fn emit_and_bury(state: &mut RunState, dying: Dying, events: Vec<Tree>) -> Result<Tree, Stop>
    ensures { CarriesOut pure_tree (ending.told_and_gone (dying_of dying) (trees_of events)) state.old state.new result }
{
    let alloc = memory(state);
    match emit_all(state, events) {
        Ok(()) => match bury(state, dying) {
            Ok(()) => Ok(void_tree(alloc)),
            Err(stop) => Err(stop),
        },
        Err(stop) => Err(stop),
    }
}

/// The same, and the value is on the heap.
#[inline(never)]
fn emit_and_bury_boxed(
    state: &mut RunState,
    dying: Dying,
    events: Vec<Tree>,
) -> Result<Box<Tree>, Stop>
    ensures { CarriesOut tree_in (ending.told_and_gone (dying_of dying) (trees_of events)) state.old state.new result }
{
    boxed(emit_and_bury(state, dying, events))
}

/// What is laid out ends: its events are all made before one is emitted.
fn end_laid_out<E: Evaluator>(
    evaluator: &E,
    state: &mut RunState,
    dying: Dying,
) -> Result<Box<Tree>, Stop>
    requires ready { E.is_ready evaluator.now }
    requires labels { dying.first_label + length dying.types < 2 ^ 64 }
    ensures { FindsAndCarriesOut tree_in (ending.ended_from (E.calls evaluator.now) (dying_of dying)) state.old state.new result }
{
    match make_events(evaluator, state, &dying) {
        Ok(events) => emit_and_bury_boxed(state, dying, events),
        Err(stop) => Err(stop),
    }
}

/// What ends with a resource, set aside.
#[inline(never)]
fn lay_out_boxed(state: &mut RunState, value: Box<Tree>) -> Result<Dying, Stop>
    ensures { CarriesOut dying_of (laid_out (tree_in value)) state.old state.new result }
{
    lay_out(state, unboxed(value))
}

/// A resource in hand ends.
fn destroy<E: Evaluator>(
    evaluator: &E,
    state: &mut RunState,
    value: Box<Tree>,
) -> Result<Box<Tree>, Stop>
    requires { E.is_ready evaluator.now }
    ensures { HasNone (tree_in value) → FindsAndCarriesOut tree_in (steps.ended_by (E.calls evaluator.now) (tree_in value)) state.old state.new result }
{
    match lay_out_boxed(state, value) {
        Ok(dying) => {
            // The labels of what is laid out lie before this one, so there is room to count them up.
            let _next_label = state.next_label;
            end_laid_out(evaluator, state, dying)
        }
        Err(stop) => Err(stop),
    }
}

/// A resource ends, and its events are emitted.
pub(crate) fn destroy_found<E: Evaluator>(
    evaluator: &E,
    state: &mut RunState,
    value: Result<Box<Tree>, Stop>,
) -> Result<Box<Tree>, Stop>
    requires { E.is_ready evaluator.now }
    ensures { GoesOn HasNone tree_in tree_in (steps.ended_by (E.calls evaluator.now)) value state.old state.new result }
{
    match value {
        Ok(found) => destroy(evaluator, state, found),
        Err(stop) => Err(stop),
    }
}
