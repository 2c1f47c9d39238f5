// What a sweep over a body gathers: for each state that a variable may be in, where the paths lead.
ghost use Rattle.std.specs.Prelude.{◌≡◌};
ghost use Rattle.cad_moves.specs.Code.Tables as spec;

use crate::state::{Rules, State, is_before, is_wrong, steps};
use cad_paths::{Letter, Position, Way};

/// States that a variable may be in.
#[derive(Clone, Copy)]
pub struct States {
    pub live: bool,
    pub vacant: bool,
    pub refilled: bool,
    pub gone: bool,
}

/// What the paths of a body from one state come to: the states for each way to leave it, and the first wrong statement.
#[derive(Clone, Copy)]
pub struct Effect {
    pub next: States,
    pub broken: States,
    pub continued: States,
    pub returned: States,
    pub ended: States,
    pub wrong: Option<Position>,
}

/// The effect from each state.
#[derive(Clone, Copy)]
pub struct Table {
    pub live: Effect,
    pub vacant: Effect,
    pub refilled: Effect,
    pub gone: Effect,
}

/// No state.
fn none() -> States
    ensures { result ≡ spec.none }
{
    States {
        live: false,
        vacant: false,
        refilled: false,
        gone: false,
    }
}

/// One state.
fn just(state: State) -> States
    ensures { result ≡ spec.just state }
{
    match state {
        State::Live => States {
            live: true,
            vacant: false,
            refilled: false,
            gone: false,
        },
        State::Vacant => States {
            live: false,
            vacant: true,
            refilled: false,
            gone: false,
        },
        State::Refilled => States {
            live: false,
            vacant: false,
            refilled: true,
            gone: false,
        },
        State::Gone => States {
            live: false,
            vacant: false,
            refilled: false,
            gone: true,
        },
    }
}

/// The states of both.
#[tactic(auto, unfolding(crate::specs::Code::Tables::unite))]
fn unite(a: States, b: States) -> States
    ensures { result ≡ spec.unite a b }
{
    States {
        live: a.live || b.live,
        vacant: a.vacant || b.vacant,
        refilled: a.refilled || b.refilled,
        gone: a.gone || b.gone,
    }
}

/// No path.
#[tactic(auto, unfolding(crate::specs::Code::Tables::nothing))]
fn nothing() -> Effect
    ensures { result ≡ spec.nothing }
{
    Effect {
        next: none(),
        broken: none(),
        continued: none(),
        returned: none(),
        ended: none(),
        wrong: None,
    }
}

/// Paths that leave by one way, in these states.
#[tactic(auto, unfolding(crate::specs::Code::Tables::only))]
fn only(way: Way, states: States) -> Effect
    ensures { result ≡ spec.only way states }
{
    match way {
        Way::Next => Effect {
            next: states,
            broken: none(),
            continued: none(),
            returned: none(),
            ended: none(),
            wrong: None,
        },
        Way::Broken => Effect {
            next: none(),
            broken: states,
            continued: none(),
            returned: none(),
            ended: none(),
            wrong: None,
        },
        Way::Continued => Effect {
            next: none(),
            broken: none(),
            continued: states,
            returned: none(),
            ended: none(),
            wrong: None,
        },
        Way::Returned => Effect {
            next: none(),
            broken: none(),
            continued: none(),
            returned: states,
            ended: none(),
            wrong: None,
        },
        Way::Never => Effect {
            next: none(),
            broken: none(),
            continued: none(),
            returned: none(),
            ended: states,
            wrong: None,
        },
    }
}

/// The earlier of two statements.
fn earlier(a: Option<Position>, b: Option<Position>) -> Option<Position>
    ensures { result ≡ spec.earlier a b }
{
    match a {
        None => b,
        Some(s) => match b {
            None => Some(s),
            Some(t) => { if is_before(s, t) { Some(s) } else { Some(t) } }
        },
    }
}

/// The paths of both.
#[tactic(auto, unfolding(crate::specs::Code::Tables::merge))]
fn merge(a: Effect, b: Effect) -> Effect
    ensures { result ≡ spec.merge a b }
{
    Effect {
        next: unite(a.next, b.next),
        broken: unite(a.broken, b.broken),
        continued: unite(a.continued, b.continued),
        returned: unite(a.returned, b.returned),
        ended: unite(a.ended, b.ended),
        wrong: earlier(a.wrong, b.wrong),
    }
}

/// The paths, or none.
#[tactic(auto, unfolding(crate::specs::Code::Tables::pick))]
fn pick(is_in: bool, effect: Effect) -> Effect
    ensures { result ≡ spec.pick is_in effect }
{
    if is_in { effect } else { nothing() }
}

/// What follows from a set of states.
#[tactic(auto, unfolding(crate::specs::Code::Tables::over))]
fn over(states: States, table: Table) -> Effect
    ensures { result ≡ spec.over states table }
{
    let early = merge(
        pick(states.live, table.live),
        pick(states.vacant, table.vacant),
    );
    let late = merge(
        pick(states.refilled, table.refilled),
        pick(states.gone, table.gone),
    );
    merge(early, late)
}

/// The paths that leave other than at the end.
#[tactic(auto, unfolding(crate::specs::Code::Tables::kept))]
fn kept(e: Effect) -> Effect
    ensures { result ≡ spec.kept e }
{
    Effect {
        next: none(),
        broken: e.broken,
        continued: e.continued,
        returned: e.returned,
        ended: e.ended,
        wrong: e.wrong,
    }
}

/// Paths, and those that come to the end with what stands behind.
#[tactic(auto, unfolding(crate::specs::Code::Tables::followed))]
fn followed(e: Effect, table: Table) -> Effect
    ensures { result ≡ spec.followed e table }
{
    merge(kept(e), over(e.next, table))
}

/// Paths that leave by a way that is caught go on.
#[tactic(auto, unfolding(crate::specs::Code::Tables::catching))]
fn catching(way: Way, e: Effect) -> Effect
    ensures { result ≡ spec.catching way e }
{
    match way {
        Way::Broken => Effect {
            next: unite(e.next, e.broken),
            broken: none(),
            continued: e.continued,
            returned: e.returned,
            ended: e.ended,
            wrong: e.wrong,
        },
        Way::Continued => Effect {
            next: unite(e.next, e.continued),
            broken: e.broken,
            continued: none(),
            returned: e.returned,
            ended: e.ended,
            wrong: e.wrong,
        },
        Way::Returned => Effect {
            next: unite(e.next, e.returned),
            broken: e.broken,
            continued: e.continued,
            returned: none(),
            ended: e.ended,
            wrong: e.wrong,
        },
        _ => e,
    }
}

/// A loop that turns no more.
#[tactic(auto, unfolding(crate::specs::Code::Tables::finished))]
fn finished(state: State, e: Effect) -> Effect
    ensures { result ≡ spec.finished state e }
{
    Effect {
        next: just(state),
        broken: e.broken,
        continued: e.continued,
        returned: e.returned,
        ended: e.ended,
        wrong: e.wrong,
    }
}

/// Paths that leave by this way.
#[tactic(auto, unfolding(crate::specs::Code::Tables::leaving))]
pub(crate) fn leaving(way: Way) -> Table
    ensures { result ≡ spec.leaving way }
{
    Table {
        live: only(way, just(State::Live)),
        vacant: only(way, just(State::Vacant)),
        refilled: only(way, just(State::Refilled)),
        gone: only(way, just(State::Gone)),
    }
}

/// The state where there is one.
fn maybe_just(state: Option<State>) -> States
    ensures { result ≡ spec.maybe_just state }
{
    match state {
        None => none(),
        Some(state) => just(state),
    }
}

/// The statement, where it is wrong.
fn wrong_where(is_wrong: bool, at: Position) -> Option<Position>
    ensures { result ≡ spec.wrong_where is_wrong at }
{
    if is_wrong { Some(at) } else { None }
}

/// What a letter does that leads to this state.
#[tactic(auto, unfolding(crate::specs::Code::Tables::spelling))]
fn spelling(state: Option<State>, is_wrong: bool, at: Position) -> Effect
    ensures { result ≡ spec.spelling state is_wrong at }
{
    Effect {
        next: maybe_just(state),
        broken: none(),
        continued: none(),
        returned: none(),
        ended: none(),
        wrong: wrong_where(is_wrong, at),
    }
}

/// What a letter does from a state, where it is the variable's own.
fn marked(rules: Rules, is_own: bool, letter: Letter, at: Position, state: State) -> Effect
    ensures { result ≡ spec.marked rules is_own letter at state }
{
    if is_own {
        spelling(
            steps(rules, state, letter),
            is_wrong(rules, state, letter),
            at,
        )
    } else {
        only(Way::Next, just(state))
    }
}

/// What a letter does from each state.
#[tactic(auto, unfolding(crate::specs::Code::Tables::letter))]
pub(crate) fn letter_table(rules: Rules, is_own: bool, letter: Letter, at: Position) -> Table
    ensures { result ≡ spec.letter rules is_own letter at }
{
    Table {
        live: marked(rules, is_own, letter, at, State::Live),
        vacant: marked(rules, is_own, letter, at, State::Vacant),
        refilled: marked(rules, is_own, letter, at, State::Refilled),
        gone: marked(rules, is_own, letter, at, State::Gone),
    }
}

/// One body, and then the other.
#[tactic(auto, unfolding(crate::specs::Code::Tables::in_turn))]
pub(crate) fn in_turn(a: Table, b: Table) -> Table
    ensures { result ≡ spec.in_turn a b }
{
    Table {
        live: followed(a.live, b),
        vacant: followed(a.vacant, b),
        refilled: followed(a.refilled, b),
        gone: followed(a.gone, b),
    }
}

/// One body or the other.
#[tactic(auto, unfolding(crate::specs::Code::Tables::choice))]
pub(crate) fn choice(a: Table, b: Table) -> Table
    ensures { result ≡ spec.choice a b }
{
    Table {
        live: merge(a.live, b.live),
        vacant: merge(a.vacant, b.vacant),
        refilled: merge(a.refilled, b.refilled),
        gone: merge(a.gone, b.gone),
    }
}

/// A body whose paths are caught where they leave by this way.
#[tactic(auto, unfolding(crate::specs::Code::Tables::catch_all))]
pub(crate) fn catch_all(way: Way, a: Table) -> Table
    ensures { result ≡ spec.catch_all way a }
{
    Table {
        live: catching(way, a.live),
        vacant: catching(way, a.vacant),
        refilled: catching(way, a.refilled),
        gone: catching(way, a.gone),
    }
}

/// Any number of turns. No letter leads to an earlier state, so the states are gone through from the last.
#[tactic(auto, unfolding(crate::specs::Code::Tables::looped, crate::specs::Code::Tables::loop_live, crate::specs::Code::Tables::loop_vacant, crate::specs::Code::Tables::loop_refilled, crate::specs::Code::Tables::loop_gone))]
pub(crate) fn looped(a: Table) -> Table
    ensures { result ≡ spec.looped a }
{
    let gone = finished(State::Gone, a.gone);
    let refilled = merge(
        finished(State::Refilled, a.refilled),
        pick(a.refilled.next.gone, gone),
    );
    let after_vacant = a.vacant.next;
    let vacant = merge(
        finished(State::Vacant, a.vacant),
        merge(
            pick(after_vacant.refilled, refilled),
            pick(after_vacant.gone, gone),
        ),
    );
    let after_live = a.live.next;
    let late = merge(
        pick(after_live.refilled, refilled),
        pick(after_live.gone, gone),
    );
    let live = merge(
        finished(State::Live, a.live),
        merge(pick(after_live.vacant, vacant), late),
    );
    Table {
        live,
        vacant,
        refilled,
        gone,
    }
}
