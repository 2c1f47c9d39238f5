// The first misuse of a body's variables.
ghost use Rattle.std.specs.Prelude.{◌≡◌, option_map, IfOk, map};
ghost use Rattle.cad_paths.specs.Paths.{is_spelled, PathVariable};
ghost use Rattle.cad_moves.specs.Code.Tables as table;
ghost use Rattle.cad_moves.specs.Code.Firsts as spec;
ghost use Rattle.cad_moves.specs.Views.{body_of, item_of, row_of, offence_of, named};

use crate::body::{Body, Item};
use crate::misuse::Misuse;
use crate::state::{Rules, is_before, is_same};
use crate::table::{
    Effect, States, Table, catch_all, choice, in_turn, leaving, letter_table, looped,
};
use cad_paths::{MoveKind, Position, Way};
use cad_syntax::Name;
use std::alloc::AllocError;

/// Whether a letter is that of the variable whose letters are spelled.
fn is_own(who: Option<u64>, variable: u64) -> bool
    ensures { result ≡ is_spelled who variable }
{
    match who {
        None => false,
        Some(own) => own == variable,
    }
}

/// What the paths of a body come to for one variable, or where no letters are anyone's.
#[cycle(sweeps)]
fn sweep(rules: Rules, who: Option<u64>, body: &Body) -> Table
    ensures { result ≡ table.sweep rules who (body_of body.now) }
{
    match body {
        Body::Leave(way) => leaving(*way),
        Body::Spell(variable, letter, at) => {
            letter_table(rules, is_own(who, *variable), *letter, *at)
        }
        Body::Loop(turn) => looped(sweep(rules, who, turn)),
        Body::Catch(way, inner) => catch_all(*way, sweep(rules, who, inner)),
        Body::Block(items) => sweep_row(rules, who, items),
    }
}

/// The same of the parts of a block.
#[cycle(sweeps)]
#[tactic(auto, using(crate::proofs::Rows::row_at))]
fn sweep_row(rules: Rules, who: Option<u64>, items: &[Item]) -> Table
    ensures { result ≡ table.sweep rules who (row_of (map item_of items.now)) }
{
    let mut found = leaving(Way::Next);
    for i in (0..items.len()).rev() {
        found = match &items[i] {
            Item::Declare(_, _, _) => found,
            Item::Do(body) => in_turn(sweep(rules, who, body), found),
            Item::Or(body) => choice(sweep(rules, who, body), found),
            Item::Last(body) => sweep(rules, who, body),
        };
    }
    found
}

fn kind_after(a: MoveKind, b: MoveKind, otherwise: bool) -> bool
    ensures { result ≡ spec.kind_after a b otherwise }
{
    match a {
        MoveKind::UsedAfterMove => match b {
            MoveKind::UsedAfterMove => otherwise,
            MoveKind::Lost => false,
        },
        MoveKind::Lost => match b {
            MoveKind::UsedAfterMove => true,
            MoveKind::Lost => otherwise,
        },
    }
}

/// Whether `a` comes after `b`.
fn is_after(a: &Misuse, b: &Misuse) -> bool
    ensures { result ≡ spec.is_after (offence_of a.now) (offence_of b.now) }
{
    if is_same(a.at, b.at) {
        kind_after(a.kind, b.kind, b.number < a.number)
    } else {
        is_before(b.at, a.at)
    }
}

/// The first of two misuses.
fn sooner(a: Option<Misuse>, b: Option<Misuse>) -> Option<Misuse>
    ensures { option_map offence_of result ≡ spec.sooner (option_map offence_of a) (option_map offence_of b) }
{
    match a {
        None => b,
        Some(x) => match b {
            None => Some(x),
            Some(y) => { if is_after(&x, &y) { Some(y) } else { Some(x) } }
        },
    }
}

/// Whether a scope may not be left in some of these states.
#[tactic(auto, unfolding(crate::specs::Code::Firsts::holds))]
fn holds(states: States) -> bool
    ensures { result ≡ spec.holds states }
{
    states.live || states.refilled
}

/// Whether some path leaves a scope that it may not leave so.
#[tactic(auto, unfolding(crate::specs::Code::Firsts::leaks))]
fn leaks(e: Effect) -> bool
    ensures { result ≡ spec.leaks e }
{
    let early = holds(e.next) || holds(e.broken);
    let late = holds(e.continued) || holds(e.returned);
    early || late
}

fn misuse(number: u64, variable: &Name, kind: MoveKind, at: Position) -> Result<Misuse, AllocError>
    ensures { IfOk result (λ m. offence_of m ≡ record { at = at; kind = kind; variable = named number variable.now }) }
{
    Ok(Misuse {
        variable: variable.clone()?,
        number,
        kind,
        at,
    })
}

fn wrong(number: u64, variable: &Name, at: Option<Position>) -> Result<Option<Misuse>, AllocError>
    ensures { IfOk result (λ m. option_map offence_of m ≡ spec.wrong_error (named number variable.now) at) }
{
    match at {
        None => Ok(None),
        Some(at) => Ok(Some(misuse(number, variable, MoveKind::UsedAfterMove, at)?)),
    }
}

fn lost(
    number: u64,
    variable: &Name,
    at: Position,
    is_lost: bool,
) -> Result<Option<Misuse>, AllocError>
    ensures { IfOk result (λ m. option_map offence_of m ≡ spec.lost_error (named number variable.now) at is_lost) }
{
    if is_lost {
        Ok(Some(misuse(number, variable, MoveKind::Lost, at)?))
    } else {
        Ok(None)
    }
}

/// The first misuse of a variable in its scope, of which this is the effect.
#[tactic(auto, unfolding(crate::specs::Code::Firsts::judged))]
fn judged(
    number: u64,
    variable: &Name,
    at: Position,
    e: Effect,
) -> Result<Option<Misuse>, AllocError>
    ensures { IfOk result (λ m. option_map offence_of m ≡ spec.judged (named number variable.now) at e) }
{
    let used = wrong(number, variable, e.wrong)?;
    let left = lost(number, variable, at, leaks(e))?;
    Ok(sooner(used, left))
}

/// The first of two misuses, where the second counts only if a path comes to it.
fn nearer(early: Option<Misuse>, comes: bool, late: Option<Misuse>) -> Option<Misuse>
    ensures { option_map offence_of result ≡ spec.nearer (option_map offence_of early) comes (option_map offence_of late) }
{
    if comes { sooner(early, late) } else { early }
}

/// The first misuse in a body, and where its paths lead.
#[derive(Drop)]
pub struct Found {
    pub misuse: Option<Misuse>,
    pub silent: Table,
}

/// The first misuse in a body, and where its paths lead.
#[cycle(searches)]
pub fn search(rules: Rules, body: &Body) -> Result<Found, AllocError>
    ensures first { IfOk result (λ f. option_map offence_of f.misuse ≡ spec.first_of rules (body_of body.now)) }
    ensures leads { IfOk result (λ f. f.silent ≡ table.sweep rules None (body_of body.now)) }
{
    match body {
        Body::Leave(way) => Ok(Found {
            misuse: None,
            silent: leaving(*way),
        }),
        Body::Spell(_, letter, at) => Ok(Found {
            misuse: None,
            silent: letter_table(rules, false, *letter, *at),
        }),
        Body::Loop(turn) => {
            let found = search(rules, turn)?;
            Ok(Found {
                misuse: found.misuse,
                silent: looped(found.silent),
            })
        }
        Body::Catch(way, inner) => {
            let found = search(rules, inner)?;
            Ok(Found {
                misuse: found.misuse,
                silent: catch_all(*way, found.silent),
            })
        }
        Body::Block(items) => search_row(rules, items),
    }
}

/// The same of the parts of a block.
#[cycle(searches)]
#[tactic(auto, using(crate::proofs::Rows::row_at))]
fn search_row(rules: Rules, items: &[Item]) -> Result<Found, AllocError>
    ensures first { IfOk result (λ f. option_map offence_of f.misuse ≡ spec.first_of rules (row_of (map item_of items.now))) }
    ensures leads { IfOk result (λ f. f.silent ≡ table.sweep rules None (row_of (map item_of items.now))) }
{
    let mut best = None;
    let mut silent = leaving(Way::Next);
    for i in (0..items.len()).rev() {
        match &items[i] {
            Item::Declare(number, variable, at) => {
                let scope = sweep_row(rules, Some(*number), &items[i + 1..]);
                let own = judged(*number, variable, *at, scope.live)?;
                best = sooner(own, best);
            }
            Item::Do(body) => {
                let part = search(rules, body)?;
                best = nearer(part.misuse, part.silent.live.next.live, best);
                silent = in_turn(part.silent, silent);
            }
            Item::Or(body) => {
                let part = search(rules, body)?;
                best = sooner(part.misuse, best);
                silent = choice(part.silent, silent);
            }
            Item::Last(body) => {
                let part = search(rules, body)?;
                best = part.misuse;
                silent = part.silent;
            }
        }
    }
    Ok(Found {
        misuse: best,
        silent,
    })
}
