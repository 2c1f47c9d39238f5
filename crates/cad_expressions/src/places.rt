// Places, in the recursion over expressions.
ghost use Rattle.cad_declarations.specs.Views.{place_of, term_of};
ghost use Rattle.cad_expression_leaves.specs.Code.Steps as steps;
ghost use Rattle.cad_expression_leaves.specs.Code.Steps.{GoesOn};
ghost use Rattle.cad_labels.specs.Laws.{AnyOne};
ghost use Rattle.cad_expression_leaves.specs.Passed.{receiver_of};
ghost use Rattle.cad_expression_leaves.specs.Passed.{standing_of};
ghost use Rattle.cad_state.specs.Views.{FindsAndCarriesOut};

use cad_declarations::{Place, Term};
use cad_expression_leaves::{
    Evaluator, Receiver, Standing, content_at, discard_receiver, element_with, field_at,
    here_contract, here_variable, is_nowhere, lead, own_self, receiver,
};
use cad_outcomes::Stop;
use cad_state::RunState;

/// Where the value of a place stands; whether it is written.
pub(crate) fn evaluate_place<E: Evaluator>(
    place: &Place,
    evaluator: &E,
    state: &mut RunState,
    writes: bool,
) -> Result<Standing, Stop>
    requires { E.is_ready evaluator.now }
    ensures { FindsAndCarriesOut standing_of (steps.placed (E.front evaluator.now) (E.calls evaluator.now) (place_of place.now) writes) state.old state.new result }
{
    match place {
        Place::Variable(n) => Ok(here_variable(*n as usize)),
        Place::Self_ => own_self(state),
        Place::Contract(id) => here_contract(id),
        Place::Target(a) => {
            let found = evaluator.value(state, a);
            lead(found)
        }
        Place::Field { base, of: _, name } => {
            let found = evaluate_place(base, evaluator, state, false);
            field_at(state, writes, name, found)
        }
        Place::Element { base, of: _, index } => {
            let found = evaluate_place(base, evaluator, state, false);
            element_at(index, evaluator, state, writes, found)
        }
        Place::Content { base, forces } => {
            let found = evaluate_place(base, evaluator, state, false);
            content_at(state, *forces, found)
        }
    }
}

/// The element of what stands in a place, at an index that is evaluated then.
#[inline(never)]
fn element_at<E: Evaluator>(
    index: &Term,
    evaluator: &E,
    state: &mut RunState,
    writes: bool,
    base: Result<Standing, Stop>,
) -> Result<Standing, Stop>
    requires { E.is_ready evaluator.now }
    ensures { GoesOn AnyOne standing_of standing_of (steps.element_at (E.front evaluator.now) (E.calls evaluator.now) writes (term_of index.now)) base state.old state.new result }
{
    match base {
        Ok(place) => {
            if is_nowhere(&place) {
                return Ok(place);
            }
            let received = receiver(state, place);
            element_in(index, evaluator, state, writes, received)
        }
        Err(stop) => Err(stop),
    }
}

/// The element of a receiver, at an index that is evaluated first.
#[inline(never)]
fn element_in<E: Evaluator>(
    index: &Term,
    evaluator: &E,
    state: &mut RunState,
    writes: bool,
    base: Result<Receiver, Stop>,
) -> Result<Standing, Stop>
    requires { E.is_ready evaluator.now }
    ensures { GoesOn AnyOne receiver_of standing_of (steps.element_in (E.front evaluator.now) (E.calls evaluator.now) writes (term_of index.now)) base state.old state.new result }
{
    match base {
        Ok(own) => {
            let at = evaluator.value(state, index);
            let found = element_with(state, &own, writes, at);
            discard_receiver(own);
            found
        }
        Err(stop) => Err(stop),
    }
}
