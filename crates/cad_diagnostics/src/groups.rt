// The ends of what stands in brackets, and of types.
use crate::tokens::{begins_expression, closes, is_keyword, is_sign, opens, stands};
use cad_grammar::{Sign, Token};
use cad_syntax::Keyword;

/// The place behind the bracket that closes the one at a place; the end of the tokens where none does.
pub fn behind_group(tokens: &[Token], open: usize) -> usize {
    let mut depth: usize = 0;
    for place in open..tokens.len() {
        let token = &tokens[place];
        if opens(token) {
            depth = depth.saturating_add(1);
        } else if closes(token) {
            depth = depth.saturating_sub(1);
            if depth == 0 {
                return place.saturating_add(1);
            }
        }
    }
    tokens.len()
}

/// The place behind what may stand before a type: `@`, `auth(..)` and `&`.
fn behind_marks(tokens: &[Token], start: usize) -> usize {
    let mut place = start;
    for _ in start..tokens.len() {
        let Some(token) = tokens.get(place) else {
            return place;
        };
        if is_keyword(token, Keyword::Auth) {
            place = behind_group(tokens, place.saturating_add(1));
        } else if is_sign(token, Sign::At) || is_sign(token, Sign::Ampersand) {
            place = place.saturating_add(1);
        } else {
            return place;
        }
    }
    place
}

/// The place behind names with dots between them.
fn behind_dotted(tokens: &[Token], start: usize) -> usize {
    let mut place = start.saturating_add(1);
    for _ in start..tokens.len() {
        if !stands(tokens, place, Sign::Dot) {
            return place;
        }
        place = place.saturating_add(2);
    }
    place
}

/// The place behind the type arguments at a place; the place itself where there are none.
fn behind_arguments(tokens: &[Token], start: usize) -> usize {
    let mut depth: usize = 0;
    for place in start..tokens.len() {
        let token = &tokens[place];
        if is_sign(token, Sign::Less) {
            depth = depth.saturating_add(1);
        } else if depth == 0 {
            return start;
        } else if is_sign(token, Sign::Greater) {
            depth = depth.saturating_sub(1);
            if depth == 0 {
                return place.saturating_add(1);
            }
        }
    }
    start
}

/// Whether a `?` before this place ends the type before it, and isn't the sign of a choice.
fn ends_type(tokens: &[Token], place: usize) -> bool {
    match tokens.get(place) {
        Some(next) => next.after_break
            || is_sign(next, Sign::OpenBrace)
            || !begins_expression(next),
        None => true,
    }
}

/// The place behind each `?` at a place that belongs to the type before it.
fn behind_questions(tokens: &[Token], start: usize) -> usize {
    let mut place = start;
    for _ in start..tokens.len() {
        let next = place.saturating_add(1);
        let is_mark = stands(tokens, place, Sign::Question)
            || stands(tokens, place, Sign::Coalesce);
        if !is_mark || !ends_type(tokens, next) {
            return place;
        }
        place = next;
    }
    place
}

/// The place behind a type without its `?`.
fn behind_core(tokens: &[Token], start: usize) -> usize {
    match tokens.get(start) {
        Some(token) if opens(token) => behind_group(tokens, start),
        _ => behind_arguments(tokens, behind_dotted(tokens, start)),
    }
}

/// The place behind the type at a place.
pub fn behind_type(tokens: &[Token], start: usize) -> usize {
    let core = behind_marks(tokens, start);
    behind_questions(tokens, behind_core(tokens, core))
}
