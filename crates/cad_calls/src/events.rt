// The event that tells of the end of a resource, by its default arguments.
ghost use Rattle.std.specs.Prelude.{◌≡◌, option_map};
ghost use Rattle.cad_calls.specs.Code.Parts as parts;
ghost use Rattle.cad_calls.specs.Pieces.{event_in};
ghost use Rattle.cad_declarations.specs.Views.{destroyed_of};
ghost use Rattle.cad_evaluation.specs.Evaluation.{destroying_nothing, event_made};
ghost use Rattle.cad_execution.specs.Passed.{items_row, tree_in};
ghost use Rattle.cad_state.specs.Views.{CarriesOut, FindsAndCarriesOut};

use crate::apart::{discard_own, event};
use cad_declarations::DestroyedEvent;
use cad_execution::{Callees, Quiet, discard_boxed, eval_arguments};
use cad_function_sources::{Source, destroyed_event, source_of};
use cad_making::{look_in, look_out};
use cad_outcomes::Stop;
use cad_rows::{Place, Tree};
use cad_state::RunState;
use cad_syntax::TypeId;

/// The default arguments of an event, with the resource as `self`.
fn evaluate_defaults<C: Callees>(
    destroyed: &DestroyedEvent,
    id: &TypeId,
    label: u64,
    callees: &C,
    state: &mut RunState,
) -> Result<Vec<Place>, Stop>
    requires { C.is_ready callees.now }
    ensures { FindsAndCarriesOut items_row (parts.event_row (C.front callees.now) (C.calls callees.now) id.now label (destroyed_of destroyed.now)) state.old state.new result }
{
    match look_in(state, id, label) {
        Ok(()) => eval_arguments(destroyed.arguments.as_slice(), callees, state),
        Err(stop) => Err(stop),
    }
}

/// The event of them, while the resource is still `self`.
#[inline(never)]
fn make_inside<C: Callees>(
    destroyed: &DestroyedEvent,
    id: &TypeId,
    label: u64,
    callees: &C,
    state: &mut RunState,
) -> Result<Box<Tree>, Stop>
    requires { C.is_ready callees.now }
    ensures { FindsAndCarriesOut tree_in (parts.event_inside (C.front callees.now) (C.calls callees.now) id.now label (destroyed_of destroyed.now)) state.old state.new result }
{
    match evaluate_defaults(destroyed, id, label, callees, state) {
        Ok(row) => event(state, &destroyed.event, row),
        Err(stop) => Err(stop),
    }
}

/// The resource isn't `self` any more; the event is handed over.
#[inline(never)]
fn look_out_with(value: Box<Tree>, state: &mut RunState) -> Result<Box<Tree>, Stop>
    ensures { CarriesOut tree_in (parts.looked_with (tree_in value)) state.old state.new result }
{
    match look_out(state) {
        Ok(()) => Ok(value),
        Err(stop) => {
            discard_boxed(value);
            Err(stop)
        }
    }
}

/// The event that tells of the end of a resource.
#[inline(never)]
fn make_event<C: Callees>(
    destroyed: &DestroyedEvent,
    id: &TypeId,
    label: u64,
    callees: &C,
    state: &mut RunState,
) -> Result<Box<Tree>, Stop>
    requires { C.is_ready callees.now }
    ensures { FindsAndCarriesOut tree_in (event_made (C.front callees.now) (C.calls callees.now) id.now label (destroyed_of destroyed.now)) state.old state.new result }
{
    match make_inside(destroyed, id, label, callees, state) {
        Ok(value) => look_out_with(value, state),
        Err(stop) => Err(stop),
    }
}

/// The event that a type declares, as its source has it.
fn own_event(own: &Option<Source>) -> Option<&DestroyedEvent>
    ensures { option_map (λ d. destroyed_of d.now) result ≡ event_in own.now }
{
    match own {
        Some(source) => destroyed_event(source),
        None => None,
    }
}

/// The event of the source of a type; IllTyped where there is none.
fn tell_event<C: Callees>(
    own: &Option<Source>,
    id: &TypeId,
    label: u64,
    callees: &C,
    state: &mut RunState,
) -> Result<Box<Tree>, Stop>
    requires { C.is_ready callees.now }
    ensures { FindsAndCarriesOut tree_in (parts.event_told (C.front callees.now) (C.calls callees.now) id.now label (event_in own.now)) state.old state.new result }
{
    match own_event(own) {
        Some(destroyed) => make_event(destroyed, id, label, callees, state),
        None => Err(Stop::IllTyped),
    }
}

/// The same, where default arguments destroy nothing but by what they call.
fn tell_quietly<C: Callees>(
    own: &Option<Source>,
    id: &TypeId,
    label: u64,
    callees: &C,
    state: &mut RunState,
) -> Result<Box<Tree>, Stop>
    requires { C.is_ready callees.now }
    ensures { FindsAndCarriesOut tree_in (parts.event_told (C.front callees.now) (destroying_nothing (C.calls callees.now)) id.now label (event_in own.now)) state.old state.new result }
{
    let quiet = Quiet { inner: callees };
    let result = tell_event(own, id, label, &quiet, state);
    let Quiet { inner: _ } = quiet;
    result
}

/// The event that tells of the end of a resource of a type, whose node has the label. Errors are those of its default
/// arguments; IllTyped where the type declares none.
#[inline(never)]
pub fn call_event<C: Callees>(
    id: &TypeId,
    label: u64,
    callees: &C,
    state: &mut RunState,
) -> Result<Box<Tree>, Stop>
    requires { C.is_ready callees.now }
    ensures { FindsAndCarriesOut tree_in (parts.end_told (C.front callees.now) (C.calls callees.now) id.now label) state.old state.new result }
{
    match source_of(state, id) {
        Ok(own) => {
            let result = tell_quietly(&own, id, label, callees, state);
            discard_own(own);
            result
        }
        Err(_) => Err(Stop::Memory),
    }
}
