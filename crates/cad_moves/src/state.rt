// How a variable goes on from letter to letter.
ghost use Rattle.std.specs.Prelude.{◌≡◌};
ghost use Rattle.cad_paths.specs.Linear.{part_order};
ghost use Rattle.cad_moves.specs.Code.Machine as spec;

use cad_paths::{BodyPart, Letter, Position};

/// What is judged: the moves of variables of resource type, or fields that are to be set.
#[derive(Clone, Copy)]
pub enum Rules {
    Moves,
    Fields,
}

/// Where a variable has come to. Of moves: it has a value, is nil, has a value again, or its value has left it. A field is
/// unset while it is `Live`, and set while it is `Vacant`.
#[derive(Clone, Copy)]
pub enum State {
    Live,
    Vacant,
    Refilled,
    Gone,
}

/// The state after a letter of moves; None where no linear word goes on so.
fn moved(state: State, letter: Letter) -> Option<State>
    ensures { result ≡ spec.moved state letter }
{
    match state {
        State::Live => match letter {
            Letter::Use => Some(State::Live),
            Letter::Fill => Some(State::Live),
            Letter::Spend => Some(State::Gone),
            Letter::Empty => Some(State::Vacant),
            _ => None,
        },
        State::Vacant => match letter {
            Letter::Use => Some(State::Vacant),
            Letter::Fill => Some(State::Refilled),
            Letter::Spend => Some(State::Gone),
            _ => None,
        },
        State::Refilled => match letter {
            Letter::Use => Some(State::Refilled),
            Letter::Fill => Some(State::Refilled),
            Letter::Spend => Some(State::Gone),
            _ => None,
        },
        State::Gone => None,
    }
}

/// The state of a field after a letter.
fn field_moved(state: State, letter: Letter) -> State
    ensures { result ≡ spec.field_moved state letter }
{
    match letter {
        Letter::Set => match state {
            State::Live => State::Vacant,
            _ => state,
        },
        _ => state,
    }
}

/// The state after a letter, where there is one.
pub(crate) fn steps(rules: Rules, state: State, letter: Letter) -> Option<State>
    ensures { result ≡ spec.steps rules state letter }
{
    match rules {
        Rules::Moves => moved(state, letter),
        Rules::Fields => Some(field_moved(state, letter)),
    }
}

fn is_absent(state: Option<State>) -> bool
    ensures { result ≡ spec.is_absent state }
{
    match state {
        None => true,
        Some(_) => false,
    }
}

/// Whether a field is needed while unset, or set again.
fn is_misset(state: State, letter: Letter) -> bool
    ensures { result ≡ spec.is_misset state letter }
{
    match state {
        State::Live => match letter {
            Letter::Need => true,
            _ => false,
        },
        State::Vacant => match letter {
            Letter::Fresh => true,
            _ => false,
        },
        _ => false,
    }
}

/// Whether a letter is wrong in a state.
pub(crate) fn is_wrong(rules: Rules, state: State, letter: Letter) -> bool
    ensures { result ≡ spec.is_wrong rules state letter }
{
    match rules {
        Rules::Moves => is_absent(moved(state, letter)),
        Rules::Fields => is_misset(state, letter),
    }
}

/// The order of the parts in the source.
fn part_order_of(part: BodyPart) -> u8
    ensures { result ≡ part_order part }
{
    match part {
        BodyPart::Whole => 0,
        BodyPart::Declaration => 1,
        BodyPart::Prepare => 2,
        BodyPart::Pre => 3,
        BodyPart::Execute => 4,
        BodyPart::Post => 5,
    }
}

/// Whether `s` doesn't stand after `t`.
pub(crate) fn is_before(s: Position, t: Position) -> bool
    ensures { result ≡ spec.is_before s t }
{
    let left = part_order_of(s.part);
    let right = part_order_of(t.part);
    if left == right {
        s.at <= t.at
    } else {
        left < right
    }
}

/// Whether the two are one position.
pub(crate) fn is_same(s: Position, t: Position) -> bool
    ensures { result ≡ spec.is_same s t }
{
    let left = part_order_of(s.part);
    let right = part_order_of(t.part);
    if left == right { s.at == t.at } else { false }
}
