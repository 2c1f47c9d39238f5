// Calls begin and end.
ghost use Rattle.std.specs.Prelude.{◌≡◌, List, IfOk, OnOk};
ghost use Rattle.cad_evaluation.specs.Bodies as spec;
ghost use Rattle.cad_evaluation.specs.Evaluation as evaluation;
ghost use Rattle.cad_outcomes.specs.Outcomes.{no_value};
ghost use Rattle.cad_rows.specs.Views.{pure_row};
ghost use Rattle.cad_state.specs.Views.{CarriesOut, frame_of, state_over};
ghost use Rattle.cad_world.specs.Rows.{stop};
ghost use Rattle.cad_world.specs.State.{Account};
ghost use Rattle.cad_making.specs.Code.Calls.{with_call, without_call, in_type};

use crate::ending::end_variables;
use cad_outcomes::{RunError, Stop};
use cad_rows::{Place, discard_row};
use cad_state::{Call, RunState, discard_call};
use cad_syntax::TypeId;
use std::alloc::{AllocError, Global};

/// A call of these variables, of which nothing is kept yet. It takes no memory.
fn call_of(
    alloc: Global,
    within: Option<TypeId>,
    own: Option<u64>,
    initializes: bool,
    variables: Vec<Place>,
) -> Call
    ensures { frame_of result ≡ (record { within = within; self = own; initializes = initializes; variables = pure_row variables.items; before = stop; result = stop }) }
{
    Call {
        within,
        own,
        initializes,
        variables,
        before: Vec::new(alloc),
        result: Vec::new(alloc),
    }
}

/// A call becomes the newest one. Where memory fails, it is let go.
#[tactic(auto, using(crate::proofs::Frames::call_added))]
fn push_call(state: &mut RunState, call: Call) -> Result<(), AllocError>
    ensures { OnOk result ((accounts : List Account) → state_over accounts state.new ≡ with_call (frame_of call) (state_over accounts state.old)) }
{
    match state.calls.push(call) {
        Ok(()) => Ok(()),
        Err(refused) => {
            discard_call(refused.value);
            Err(AllocError)
        }
    }
}

/// The newest call goes.
#[tactic(auto, using(crate::proofs::Frames::call_ended))]
fn pop_call(state: &mut RunState)
    ensures { (accounts : List Account) → state_over accounts state.new ≡ without_call (state_over accounts state.old) }
{
    match state.calls.pop() {
        Some(call) => discard_call(call),
        None => {}
    }
}

/// A call begins, with its arguments as its variables; 124 where too many are in progress.
pub fn enter(
    state: &mut RunState,
    within: Option<TypeId>,
    own: Option<u64>,
    initializes: bool,
    arguments: Vec<Place>,
) -> Result<(), Stop>
    ensures { CarriesOut no_value (spec.entered within own initializes (pure_row arguments.items)) state.old state.new result }
{
    if 2000 <= state.depth {
        discard_row(arguments);
        return Err(Stop::Failed(RunError::CallDepth));
    }
    let depth = state.depth + 1;
    let call = call_of(
        *state.making.allocator(),
        within,
        own,
        initializes,
        arguments,
    );
    match push_call(state, call) {
        Ok(()) => {
            state.depth = depth;
            Ok(())
        }
        Err(_) => Err(Stop::Memory),
    }
}

/// A call ends; IllTyped where a resource stands in one of its variables.
pub fn leave(state: &mut RunState) -> Result<(), Stop>
    ensures { CarriesOut no_value spec.left state.old state.new result }
{
    match end_variables(state, 0) {
        Ok(()) => {
            pop_call(state);
            state.depth = state.depth.saturating_sub(1);
            Ok(())
        }
        Err(stop) => Err(stop),
    }
}

/// The code of this type is what a call runs.
fn set_within(call: &mut Call, within: Option<TypeId>)
    ensures { frame_of call.new ≡ in_type within (frame_of call.old) }
{
    call.within = within;
}

/// The code of this type runs from then on.
pub fn move_to(state: &mut RunState, within: Option<TypeId>) -> Result<(), Stop>
    ensures { CarriesOut no_value (spec.moved_to within) state.old state.new result }
{
    let n = state.calls.len();
    if n == 0 {
        return Ok(());
    }
    set_within(&mut state.calls[n - 1], within);
    Ok(())
}

/// The frame in which the default arguments of an event are evaluated.
fn look_call(alloc: Global, id: &TypeId, label: u64) -> Result<Call, AllocError>
    ensures { IfOk result (λ call. frame_of call ≡ evaluation.frame_of id.now label) }
{
    let within = id.clone()?;
    Ok(call_of(alloc, Some(within), Some(label), false, Vec::new(alloc)))
}

/// The default arguments of an event are evaluated, with the resource of which it tells as `self`. This is no call.
pub fn look_in(state: &mut RunState, id: &TypeId, label: u64) -> Result<(), Stop>
    ensures { CarriesOut no_value (evaluation.looking id.now label) state.old state.new result }
{
    match look_call(*state.making.allocator(), id, label) {
        Ok(call) => match push_call(state, call) {
            Ok(()) => Ok(()),
            Err(_) => Err(Stop::Memory),
        },
        Err(_) => Err(Stop::Memory),
    }
}

/// They have been evaluated; IllTyped where a resource stands in a variable.
pub fn look_out(state: &mut RunState) -> Result<(), Stop>
    ensures { CarriesOut no_value evaluation.looked state.old state.new result }
{
    match end_variables(state, 0) {
        Ok(()) => {
            pop_call(state);
            Ok(())
        }
        Err(stop) => Err(stop),
    }
}
