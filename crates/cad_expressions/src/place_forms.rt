// Forms over a place, in the recursion over expressions. Each is a function by itself, so that a form takes room on the stack for
// its own values alone.
ghost use Rattle.std.specs.Prelude.{option_map};
ghost use Rattle.cad_declarations.specs.Typed as e;
ghost use Rattle.cad_declarations.specs.Views.{place_of, term_of, use_of};
ghost use Rattle.cad_expression_leaves.specs.Code.Steps as steps;
ghost use Rattle.cad_expression_leaves.specs.Views.{tree_in};
ghost use Rattle.cad_expression_leaves.specs.Passed.{receiver_of};
ghost use Rattle.cad_state.specs.Views.{FindsAndCarriesOut};
ghost use Rattle.cad_syntax.specs.Types.{PureType};

use crate::operands::{index_on, use_in_chain, use_on};
use crate::places::evaluate_place;
use cad_declarations::{Place, Term, Use};
use cad_expression_leaves::{
    Evaluator, Receiver, borrow_at, chain_at, copy_at, nil_at, receive_at, take_at,
};
use cad_outcomes::Stop;
use cad_rows::Tree;
use cad_state::RunState;
use cad_syntax::Authorization;

/// A copy of what stands in a place.
#[inline(never)]
pub(crate) fn copy_form<E: Evaluator>(
    place: &Place,
    evaluator: &E,
    state: &mut RunState,
) -> Result<Box<Tree>, Stop>
    requires { E.is_ready evaluator.now }
    ensures { FindsAndCarriesOut tree_in (steps.evaluated (E.front evaluator.now) (E.calls evaluator.now) (e.copy (place_of place.now))) state.old state.new result }
{
    let found = evaluate_place(place, evaluator, state, false);
    copy_at(state, found)
}

/// What stands in a place, taken out of it.
#[inline(never)]
pub(crate) fn take_form<E: Evaluator>(
    place: &Place,
    evaluator: &E,
    state: &mut RunState,
) -> Result<Box<Tree>, Stop>
    requires { E.is_ready evaluator.now }
    ensures { FindsAndCarriesOut tree_in (steps.evaluated (E.front evaluator.now) (E.calls evaluator.now) (e.take (place_of place.now))) state.old state.new result }
{
    let found = evaluate_place(place, evaluator, state, false);
    take_at(state, found)
}

/// Whether what stands in a place is nil.
#[inline(never)]
pub(crate) fn nil_form<E: Evaluator>(
    place: &Place,
    is_negated: bool,
    evaluator: &E,
    state: &mut RunState,
) -> Result<Box<Tree>, Stop>
    requires { E.is_ready evaluator.now }
    ensures { FindsAndCarriesOut tree_in (steps.evaluated (E.front evaluator.now) (E.calls evaluator.now) (e.is_nil (place_of place.now) is_negated)) state.old state.new result }
{
    let found = evaluate_place(place, evaluator, state, false);
    nil_at(state, is_negated, found)
}

/// A reference to what stands in a place.
#[inline(never)]
pub(crate) fn borrow_form<E: Evaluator>(
    place: &Place,
    authorization: &Authorization,
    takes_off: bool,
    gives_optional: bool,
    evaluator: &E,
    state: &mut RunState,
) -> Result<Box<Tree>, Stop>
    requires { E.is_ready evaluator.now }
    ensures { (type : PureType) → FindsAndCarriesOut tree_in (steps.evaluated (E.front evaluator.now) (E.calls evaluator.now) (e.borrow (place_of place.now) authorization.now type takes_off gives_optional)) state.old state.new result }
{
    let found = evaluate_place(place, evaluator, state, false);
    borrow_at(state, authorization, takes_off, gives_optional, found)
}

/// What stands in a place, as what a member is used on.
#[inline(never)]
fn receiver_in<E: Evaluator>(
    place: &Place,
    evaluator: &E,
    state: &mut RunState,
) -> Result<Receiver, Stop>
    requires { E.is_ready evaluator.now }
    ensures { FindsAndCarriesOut receiver_of (steps.received (E.front evaluator.now) (E.calls evaluator.now) (place_of place.now)) state.old state.new result }
{
    let found = evaluate_place(place, evaluator, state, false);
    receive_at(state, found)
}

/// The same of a chain: none where an optional on the way is nil.
#[inline(never)]
fn chain_receiver_in<E: Evaluator>(
    place: &Place,
    evaluator: &E,
    state: &mut RunState,
) -> Result<Option<Receiver>, Stop>
    requires { E.is_ready evaluator.now }
    ensures { FindsAndCarriesOut (option_map receiver_of) (steps.received_in_chain (E.front evaluator.now) (E.calls evaluator.now) (place_of place.now)) state.old state.new result }
{
    let found = evaluate_place(place, evaluator, state, false);
    chain_at(state, found)
}

/// What is done with what stands in a place.
#[inline(never)]
pub(crate) fn use_form<E: Evaluator>(
    place: &Place,
    member: &Use,
    evaluator: &E,
    state: &mut RunState,
) -> Result<Box<Tree>, Stop>
    requires { E.is_ready evaluator.now }
    ensures { FindsAndCarriesOut tree_in (steps.evaluated (E.front evaluator.now) (E.calls evaluator.now) (e.on (place_of place.now) (use_of member.now))) state.old state.new result }
{
    let receiver = receiver_in(place, evaluator, state);
    use_on(member, evaluator, state, receiver)
}

/// What is done with the content of what stands in a place; nil where there is none.
#[inline(never)]
pub(crate) fn chain_form<E: Evaluator>(
    place: &Place,
    member: &Use,
    wraps: bool,
    evaluator: &E,
    state: &mut RunState,
) -> Result<Box<Tree>, Stop>
    requires { E.is_ready evaluator.now }
    ensures { FindsAndCarriesOut tree_in (steps.evaluated (E.front evaluator.now) (E.calls evaluator.now) (e.chain (place_of place.now) (use_of member.now) wraps)) state.old state.new result }
{
    let receiver = chain_receiver_in(place, evaluator, state);
    use_in_chain(member, evaluator, state, wraps, receiver)
}

/// What stands at an index in what stands in a place.
#[inline(never)]
pub(crate) fn index_form<E: Evaluator>(
    place: &Place,
    index: &Term,
    evaluator: &E,
    state: &mut RunState,
) -> Result<Box<Tree>, Stop>
    requires { E.is_ready evaluator.now }
    ensures { (type : PureType) → FindsAndCarriesOut tree_in (steps.evaluated (E.front evaluator.now) (E.calls evaluator.now) (e.index (place_of place.now) type (term_of index.now))) state.old state.new result }
{
    let receiver = receiver_in(place, evaluator, state);
    index_on(index, evaluator, state, receiver)
}
