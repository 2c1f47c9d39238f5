// What is done before and behind what is called. None of these is inlined, so that a call holds no room on the stack for them while
// what it calls runs.
ghost use Rattle.std.specs.Prelude.{◌≡◌};
ghost use Rattle.cad_calls.specs.Code.Results as results;
ghost use Rattle.cad_evaluation.specs.Bodies as spec;
ghost use Rattle.cad_evaluation.specs.Ending.{event_of};
ghost use Rattle.cad_execution.specs.Passed.{tree_in};
ghost use Rattle.cad_outcomes.specs.Outcomes.{no_value};
ghost use Rattle.cad_rows.specs.Views.{pure_row};
ghost use Rattle.cad_state.specs.Views.{CarriesOut};

use cad_declarations::Checked;
use cad_execution::{boxed, unboxed};
use cad_function_sources::Source;
use cad_outcomes::Stop;
use cad_rows::{Place, Tree};
use cad_state::RunState;
use cad_syntax::TypeId;
use std::rc::Rc;

/// A call begins, with its arguments as its variables; 124 where too many are in progress.
#[inline(never)]
pub(crate) fn enter(
    state: &mut RunState,
    within: Option<TypeId>,
    own: Option<u64>,
    initializes: bool,
    arguments: Vec<Place>,
) -> Result<(), Stop>
    ensures { CarriesOut no_value (spec.entered within own initializes (pure_row arguments.items)) state.old state.new result }
{
    cad_making::enter(state, within, own, initializes, arguments)
}

/// A result is set aside.
#[inline(never)]
pub(crate) fn put_result(state: &mut RunState, value: Box<Tree>) -> Result<(), Stop>
    ensures { CarriesOut no_value (spec.result_aside (tree_in value)) state.old state.new result }
{
    cad_making::put_result(state, unboxed(value))
}

/// The result that was set aside.
#[inline(never)]
pub(crate) fn take_result(state: &mut RunState) -> Result<Box<Tree>, Stop>
    ensures { CarriesOut tree_in spec.result_taken state.old state.new result }
{
    boxed(cad_making::take_result(state))
}

/// A value of `before` is kept.
#[inline(never)]
pub(crate) fn keep_before(state: &mut RunState, value: Box<Tree>) -> Result<(), Stop>
    ensures { CarriesOut no_value (spec.kept_before (tree_in value)) state.old state.new result }
{
    cad_making::keep_before(state, unboxed(value))
}

/// The event of a type, with these fields in order; IllTyped where the type isn't declared.
#[inline(never)]
pub(crate) fn event(state: &RunState, id: &TypeId, row: Vec<Place>) -> Result<Box<Tree>, Stop>
    ensures { CarriesOut tree_in (event_of id.now (pure_row row.items)) state.now state.now result }
{
    boxed(cad_making::event(state, id, row))
}

/// What was given, out of its box.
#[inline(never)]
pub(crate) fn unbox(given: Result<Box<Tree>, Stop>) -> Result<Tree, Stop>
    ensures { result ≡ results.content_of given }
{
    match given {
        Ok(value) => Ok(unboxed(value)),
        Err(stop) => Err(stop),
    }
}

/// Lets a row of values go.
#[inline(never)]
pub(crate) fn discard_row(row: Vec<Place>) {
    cad_rows::discard_row(row)
}

/// Lets a program go.
#[inline(never)]
pub(crate) fn discard_shared(checked: Rc<Checked>) {
    cad_state::discard_shared(checked)
}

/// Lets a source go.
#[inline(never)]
pub(crate) fn discard_own(own: Option<Source>) {
    cad_function_sources::discard_own(own)
}

/// Lets sources go.
#[inline(never)]
pub(crate) fn discard_sources(sources: Vec<Source>) {
    cad_function_sources::discard_sources(sources)
}
