// The readers of expressions, over each other.
ghost use Rattle.std.specs.Prelude.{◌≡◌, ◌<◌, [], length, IfOk, option_map};
ghost use Rattle.cad_grammar.specs.Levels as levels;
ghost use Rattle.cad_grammar.specs.ExpressionGrammar as grammar;
ghost use Rattle.cad_grammar.specs.Views.{expr_of, argument_of, entry_of};
ghost use Rattle.cad_parse_expr.specs.Code.Reading as spec;
ghost use Rattle.cad_parse_type.specs.Code.Reading.{climb, listed};
ghost use Rattle.cad_parse_expr.specs.Code.Views.{tail_of, exprs_in, arguments_in, entries_in, branches_of};
ghost use Rattle.cad_parse_type.specs.Code.Views.{seen, seen_with, annotations_in};

use crate::leaf::{literal, name_expr, path_tail};
use crate::made::{binary, choice, reference};
use crate::tail::{Tail, as_type, cast_tail, extend, force_tail, member_tail, type_arguments};
use crate::word::{dot, label, operator, tighter, unary_word};
use cad_grammar::{
    Argument, BinaryOperator, Entry, Expr, Level, Sign, TypeAnnotation, UnaryOperator,
};
use cad_parse_type::{Spot, dotted};
use cad_syntax::Keyword;
use std::alloc::{AllocError, Global};

#[cycle(read)]
#[tactic(auto, unfolding(crate::specs::Code::Reading::argument))]
fn argument<'a>(
    alloc: Global,
    depth: u32,
    spot: Spot<'a>,
) -> Result<Option<(Argument, Spot<'a>)>, AllocError>
    ensures { IfOk result (λ o. option_map (seen_with argument_of) o ≡ spec.argument (spec.read depth) (seen spot.entry)) }
{
    if let Some((name, rest)) = label(spot) {
        let Some((value, rest)) = read(alloc, depth, Level::Conditional, rest)? else {
            return Ok(None);
        };
        return match name.clone() {
            Ok(name) => {
                let label = Some(name);
                Ok(Some((Argument { label, value }, rest)))
            }
            Err(error) => {
                drop(value);
                Err(error)
            }
        };
    }
    let Some((value, rest)) = read(alloc, depth, Level::Conditional, spot)? else {
        return Ok(None);
    };
    Ok(Some((Argument { label: None, value }, rest)))
}

#[cycle(read)]
#[tactic(auto, unfolding(crate::specs::Code::Reading::entry))]
fn entry<'a>(
    alloc: Global,
    depth: u32,
    spot: Spot<'a>,
) -> Result<Option<(Entry, Spot<'a>)>, AllocError>
    ensures { IfOk result (λ o. option_map (seen_with entry_of) o ≡ spec.entry (spec.read depth) (seen spot.entry)) }
{
    let Some((key, rest)) = read(alloc, depth, Level::Conditional, spot)? else {
        return Ok(None);
    };
    let Some(rest) = spot.resumed(Sign::Colon, rest) else {
        drop(key);
        return Ok(None);
    };
    match read(alloc, depth, Level::Conditional, rest) {
        Ok(Some((value, rest))) => Ok(Some((Entry { key, value }, rest))),
        Ok(None) => {
            drop(key);
            Ok(None)
        }
        Err(error) => {
            drop(key);
            Err(error)
        }
    }
}

#[cycle(read)]
#[inline(never)]
#[tactic(auto, unfolding(cad_parse_type::specs::Code::Reading::listed))]
fn arguments<'a>(
    alloc: Global,
    depth: u32,
    spot: Spot<'a>,
) -> Result<Option<(Vec<Argument>, Spot<'a>)>, AllocError>
    ensures { IfOk result (λ o. option_map (seen_with arguments_in) o
        ≡ listed (spec.argument (spec.read depth)) Sign.CloseParenthesis (length spot.entry.tokens.now) [] (seen spot.entry)) }
{
    let mut found = Vec::new(alloc);
    let mut rest = spot;
    for _turn in 0..spot.tokens.len() {
        if let Some(end) = rest.after(Sign::CloseParenthesis) {
            return Ok(Some((found, end)));
        }
        let Some((item, next)) = argument(alloc, depth, rest)? else {
            return Ok(None);
        };
        found.push(item)?;
        if let Some(next) = rest.resumed(Sign::Comma, next) {
            rest = next;
        } else {
            return match rest.resumed(Sign::CloseParenthesis, next) {
                Some(end) => Ok(Some((found, end))),
                None => Ok(None),
            };
        }
    }
    Ok(None)
}

#[cycle(read)]
#[inline(never)]
#[tactic(auto, unfolding(cad_parse_type::specs::Code::Reading::listed))]
fn elements<'a>(
    alloc: Global,
    depth: u32,
    spot: Spot<'a>,
) -> Result<Option<(Vec<Expr>, Spot<'a>)>, AllocError>
    ensures { IfOk result (λ o. option_map (seen_with exprs_in) o
        ≡ listed (spec.read depth Level.Conditional) Sign.CloseBracket (length spot.entry.tokens.now) [] (seen spot.entry)) }
{
    let mut found = Vec::new(alloc);
    let mut rest = spot;
    for _turn in 0..spot.tokens.len() {
        if let Some(end) = rest.after(Sign::CloseBracket) {
            return Ok(Some((found, end)));
        }
        let Some((item, next)) = read(alloc, depth, Level::Conditional, rest)? else {
            return Ok(None);
        };
        found.push(item)?;
        if let Some(next) = rest.resumed(Sign::Comma, next) {
            rest = next;
        } else {
            return match rest.resumed(Sign::CloseBracket, next) {
                Some(end) => Ok(Some((found, end))),
                None => Ok(None),
            };
        }
    }
    Ok(None)
}

#[cycle(read)]
#[inline(never)]
#[tactic(auto, unfolding(cad_parse_type::specs::Code::Reading::listed))]
fn entries<'a>(
    alloc: Global,
    depth: u32,
    spot: Spot<'a>,
) -> Result<Option<(Vec<Entry>, Spot<'a>)>, AllocError>
    ensures { IfOk result (λ o. option_map (seen_with entries_in) o
        ≡ listed (spec.entry (spec.read depth)) Sign.CloseBrace (length spot.entry.tokens.now) [] (seen spot.entry)) }
{
    let mut found = Vec::new(alloc);
    let mut rest = spot;
    for _turn in 0..spot.tokens.len() {
        if let Some(end) = rest.after(Sign::CloseBrace) {
            return Ok(Some((found, end)));
        }
        let Some((item, next)) = entry(alloc, depth, rest)? else {
            return Ok(None);
        };
        found.push(item)?;
        if let Some(next) = rest.resumed(Sign::Comma, next) {
            rest = next;
        } else {
            return match rest.resumed(Sign::CloseBrace, next) {
                Some(end) => Ok(Some((found, end))),
                None => Ok(None),
            };
        }
    }
    Ok(None)
}

#[cycle(read)]
#[inline(never)]
#[tactic(auto, unfolding(crate::specs::Code::Reading::grouped))]
fn grouped<'a>(
    alloc: Global,
    depth: u32,
    start: Spot<'a>,
    spot: Spot<'a>,
) -> Result<Option<(Expr, Spot<'a>)>, AllocError>
    ensures { IfOk result (λ o. option_map (seen_with expr_of) o ≡ spec.grouped (spec.read depth) (seen start.entry) (seen spot.entry)) }
{
    let Some(inside) = spot.opened() else {
        return Ok(None);
    };
    let Some((a, rest)) = read(alloc, depth, Level::Conditional, inside)? else {
        return Ok(None);
    };
    let Some(rest) = start.resumed(Sign::CloseParenthesis, rest) else {
        drop(a);
        return Ok(None);
    };
    Ok(Some((a, rest)))
}

#[cycle(read)]
#[inline(never)]
#[tactic(auto, unfolding(crate::specs::Code::Reading::array, crate::specs::Code::Reading::elements, cad_parse_type::specs::Code::Views::seen))]
fn array<'a>(
    alloc: Global,
    depth: u32,
    start: Spot<'a>,
    spot: Spot<'a>,
) -> Result<Option<(Expr, Spot<'a>)>, AllocError>
    ensures { IfOk result (λ o. option_map (seen_with expr_of) o ≡ spec.array (spec.read depth) (seen start.entry) (seen spot.entry)) }
{
    let Some(inside) = spot.opened() else {
        return Ok(None);
    };
    let Some((all, rest)) = elements(alloc, depth, inside)? else {
        return Ok(None);
    };
    Ok(Some((Expr::Array(all), start.back(rest))))
}

#[cycle(read)]
#[inline(never)]
#[tactic(auto, unfolding(crate::specs::Code::Reading::pairs, crate::specs::Code::Reading::entries, cad_parse_type::specs::Code::Views::seen))]
fn pairs<'a>(
    alloc: Global,
    depth: u32,
    start: Spot<'a>,
    spot: Spot<'a>,
) -> Result<Option<(Expr, Spot<'a>)>, AllocError>
    ensures { IfOk result (λ o. option_map (seen_with expr_of) o ≡ spec.pairs (spec.read depth) (seen start.entry) (seen spot.entry)) }
{
    let Some(inside) = spot.opened() else {
        return Ok(None);
    };
    let Some((all, rest)) = entries(alloc, depth, inside)? else {
        return Ok(None);
    };
    Ok(Some((Expr::Dictionary(all), start.back(rest))))
}

#[cycle(read)]
#[inline(never)]
#[tactic(auto, unfolding(crate::specs::Code::Reading::created, crate::specs::Code::Reading::arguments, cad_parse_type::specs::Code::Views::seen))]
fn created<'a>(
    alloc: Global,
    depth: u32,
    start: Spot<'a>,
    spot: Spot<'a>,
) -> Result<Option<(Expr, Spot<'a>)>, AllocError>
    ensures { IfOk result (λ o. option_map (seen_with expr_of) o ≡ spec.created (spec.read depth) (seen start.entry) (seen spot.entry)) }
{
    let Some((composite, rest)) = dotted(alloc, spot)? else {
        return Ok(None);
    };
    let Some(inside) = rest.opening(Sign::OpenParenthesis) else {
        return Ok(None);
    };
    let Some((arguments, rest)) = arguments(alloc, depth, inside)? else {
        return Ok(None);
    };
    let made = Expr::Create {
        composite,
        arguments,
    };
    Ok(Some((made, start.back(rest))))
}

#[cycle(read)]
#[inline(never)]
#[tactic(auto, unfolding(crate::specs::Code::Reading::primary))]
fn primary<'a>(
    alloc: Global,
    depth: u32,
    spot: Spot<'a>,
) -> Result<Option<(Expr, Spot<'a>)>, AllocError>
    ensures { IfOk result (λ o. option_map (seen_with expr_of) o ≡ spec.primary (spec.read depth) (seen spot.entry)) }
{
    if let Some(rest) = spot.after(Sign::OpenParenthesis) {
        return grouped(alloc, depth, spot, rest);
    }
    if let Some(rest) = spot.after(Sign::OpenBracket) {
        return array(alloc, depth, spot, rest);
    }
    if let Some(rest) = spot.after(Sign::OpenBrace) {
        return pairs(alloc, depth, spot, rest);
    }
    if let Some(rest) = spot.after(Sign::Slash) {
        return path_tail(rest);
    }
    if let Some(rest) = spot.keyword(Keyword::Create) {
        return created(alloc, depth, spot, rest);
    }
    if let Some(found) = literal(spot)? {
        return Ok(Some(found));
    }
    name_expr(spot)
}

#[cycle(read)]
#[inline(never)]
#[tactic(auto, unfolding(crate::specs::Code::Reading::index_tail))]
fn index_tail<'a>(
    alloc: Global,
    depth: u32,
    spot: Spot<'a>,
) -> Result<Option<(Tail, Spot<'a>)>, AllocError>
    ensures { IfOk result (λ o. option_map (seen_with tail_of) o ≡ spec.index_tail (spec.read depth) (seen spot.entry)) }
{
    let Some(inside) = spot.opened() else {
        return Ok(None);
    };
    let Some((index, rest)) = read(alloc, depth, Level::Conditional, inside)? else {
        return Ok(None);
    };
    let Some(rest) = inside.resumed(Sign::CloseBracket, rest) else {
        drop(index);
        return Ok(None);
    };
    Ok(Some((Tail::IndexedBy(index), rest)))
}

#[cycle(read)]
#[inline(never)]
#[tactic(auto, unfolding(crate::specs::Code::Reading::call_tail, crate::specs::Code::Reading::arguments, cad_parse_type::specs::Code::Views::seen))]
fn call_tail<'a>(
    alloc: Global,
    depth: u32,
    types: Vec<TypeAnnotation>,
    spot: Spot<'a>,
) -> Result<Option<(Tail, Spot<'a>)>, AllocError>
    ensures { IfOk result (λ o. option_map (seen_with tail_of) o ≡ spec.call_tail (spec.read depth) (annotations_in types) (seen spot.entry)) }
{
    let Some(inside) = spot.opened() else {
        return Ok(None);
    };
    let Some((all, rest)) = arguments(alloc, depth, inside)? else {
        return Ok(None);
    };
    Ok(Some((Tail::CalledWith(types, all), rest)))
}

#[cycle(read)]
#[inline(never)]
#[tactic(auto, unfolding(crate::specs::Code::Reading::typed_call))]
fn typed_call<'a>(
    alloc: Global,
    depth: u32,
    types: Vec<TypeAnnotation>,
    spot: Spot<'a>,
) -> Result<Option<(Tail, Spot<'a>)>, AllocError>
    ensures { IfOk result (λ o. option_map (seen_with tail_of) o ≡ spec.typed_call (spec.read depth) (annotations_in types, seen spot.entry)) }
{
    let Some(rest) = spot.joined(Sign::OpenParenthesis) else {
        return Ok(None);
    };
    call_tail(alloc, depth, types, rest)
}

#[cycle(read)]
#[tactic(auto, unfolding(crate::specs::Code::Reading::postfix_tail))]
fn postfix_tail<'a>(
    alloc: Global,
    depth: u32,
    spot: Spot<'a>,
) -> Result<Option<(Tail, Spot<'a>)>, AllocError>
    ensures { IfOk result (λ o. option_map (seen_with tail_of) o ≡ spec.postfix_tail (spec.read depth) (seen spot.entry)) }
{
    if let Some((is_optional, rest)) = dot(spot) {
        return member_tail(is_optional, rest);
    }
    if let Some((types, rest)) = type_arguments(alloc, spot)? {
        return typed_call(alloc, depth, types, rest);
    }
    if let Some(rest) = spot.joined(Sign::OpenParenthesis) {
        return call_tail(alloc, depth, Vec::new(alloc), rest);
    }
    if let Some(rest) = spot.joined(Sign::OpenBracket) {
        return index_tail(alloc, depth, rest);
    }
    if let Some(rest) = spot.joined(Sign::Bang) {
        return Ok(force_tail(rest));
    }
    Ok(None)
}

#[cycle(read)]
#[inline(never)]
#[tactic(auto, unfolding(crate::specs::Code::Reading::operation))]
fn operation<'a>(
    alloc: Global,
    depth: u32,
    level: Level,
    spot: Spot<'a>,
) -> Result<Option<(Tail, Spot<'a>)>, AllocError>
    requires { spec.looseness (levels.tighter level) < spec.looseness level }
    ensures { IfOk result (λ o. option_map (seen_with tail_of) o ≡ spec.operation level (spec.at (spec.read depth) (levels.tighter level)) (seen spot.entry)) }
{
    let Some((operator, rest)) = operator(level, spot) else {
        return Ok(None);
    };
    if type_arguments(alloc, spot)?.is_some() {
        return Ok(None);
    }
    let Some(rest) = rest.opened() else {
        return Ok(None);
    };
    let Some((b, rest)) = at(alloc, depth, tighter(level), rest)? else {
        return Ok(None);
    };
    Ok(Some((Tail::Operated(operator, b), rest)))
}

#[cycle(read)]
#[tactic(auto, unfolding(crate::specs::Code::Reading::tail))]
fn tail<'a>(
    alloc: Global,
    depth: u32,
    level: Level,
    spot: Spot<'a>,
) -> Result<Option<(Tail, Spot<'a>)>, AllocError>
    requires { spec.looseness (levels.tighter level) < spec.looseness level }
    ensures { IfOk result (λ o. option_map (seen_with tail_of) o ≡ spec.tail (spec.read depth) level (spec.at (spec.read depth) (levels.tighter level)) (seen spot.entry)) }
{
    match level {
        Level::Postfix => postfix_tail(alloc, depth, spot),
        Level::Cast => cast_tail(alloc, spot),
        _ => operation(alloc, depth, level, spot),
    }
}

// The expression with all tails of the level that follow it.
#[cycle(read)]
#[inline(never)]
#[tactic(auto, unfolding(cad_parse_type::specs::Code::Reading::climb))]
fn with_tails<'a>(
    alloc: Global,
    depth: u32,
    level: Level,
    mut a: Expr,
    spot: Spot<'a>,
) -> Result<Option<(Expr, Spot<'a>)>, AllocError>
    requires { spec.looseness (levels.tighter level) < spec.looseness level }
    ensures { IfOk result (λ o. option_map (seen_with expr_of) o
        ≡ climb grammar.extend (spec.tail (spec.read depth) level (spec.at (spec.read depth) (levels.tighter level))) (length spot.entry.tokens.now) (expr_of a) (seen spot.entry)) }
{
    let mut rest = spot;
    for _turn in 0..spot.tokens.len() {
        let (next, behind) = match tail(alloc, depth, level, rest) {
            Ok(Some(found)) => found,
            Ok(None) => return Ok(Some((a, rest))),
            Err(error) => {
                drop(a);
                return Err(error);
            }
        };
        a = extend(alloc, a, next)?;
        rest = behind;
    }
    Ok(Some((a, rest)))
}

#[cycle(read)]
#[tactic(auto, unfolding(crate::specs::Code::Reading::chain, cad_parse_type::specs::Code::Views::seen))]
fn chain<'a>(
    alloc: Global,
    depth: u32,
    level: Level,
    spot: Spot<'a>,
) -> Result<Option<(Expr, Spot<'a>)>, AllocError>
    requires { spec.looseness (levels.tighter level) < spec.looseness level }
    ensures { IfOk result (λ o. option_map (seen_with expr_of) o ≡ spec.chained (spec.read depth) level (spec.at (spec.read depth) (levels.tighter level)) (seen spot.entry)) }
{
    let Some((a, rest)) = at(alloc, depth, tighter(level), spot)? else {
        return Ok(None);
    };
    with_tails(alloc, depth, level, a, rest)
}

#[cycle(read)]
#[inline(never)]
#[tactic(auto, unfolding(crate::specs::Code::Reading::unary))]
fn unary<'a>(
    alloc: Global,
    depth: u32,
    operator: UnaryOperator,
    spot: Spot<'a>,
) -> Result<Option<(Expr, Spot<'a>)>, AllocError>
    ensures { IfOk result (λ o. option_map (seen_with expr_of) o ≡ spec.unary (spec.read depth) operator (seen spot.entry)) }
{
    let Some(rest) = spot.opened() else {
        return Ok(None);
    };
    let Some((a, rest)) = read(alloc, depth, Level::Prefix, rest)? else {
        return Ok(None);
    };
    Ok(Some((Expr::Unary(operator, Box::new(alloc, a)?), rest)))
}

#[cycle(read)]
#[inline(never)]
#[tactic(auto, unfolding(crate::specs::Code::Reading::borrowed))]
fn borrowed<'a>(
    alloc: Global,
    depth: u32,
    spot: Spot<'a>,
) -> Result<Option<(Expr, Spot<'a>)>, AllocError>
    ensures { IfOk result (λ o. option_map (seen_with expr_of) o ≡ spec.borrowed (spec.read depth) (seen spot.entry)) }
{
    let Some(rest) = spot.opened() else {
        return Ok(None);
    };
    let Some((a, rest)) = read(alloc, depth, Level::Prefix, rest)? else {
        return Ok(None);
    };
    match as_type(alloc, rest) {
        Ok(Some((to, rest))) => Ok(Some((reference(alloc, a, to)?, rest))),
        Ok(None) => {
            drop(a);
            Ok(None)
        }
        Err(error) => {
            drop(a);
            Err(error)
        }
    }
}

#[cycle(read)]
#[inline(never)]
#[tactic(auto, unfolding(crate::specs::Code::Reading::prefix))]
fn prefix<'a>(
    alloc: Global,
    depth: u32,
    spot: Spot<'a>,
) -> Result<Option<(Expr, Spot<'a>)>, AllocError>
    ensures { IfOk result (λ o. option_map (seen_with expr_of) o ≡ spec.prefix (spec.read depth) (spec.at (spec.read depth) Level.Postfix) (seen spot.entry)) }
{
    if let Some((operator, rest)) = unary_word(spot) {
        return unary(alloc, depth, operator, rest);
    }
    if let Some(rest) = spot.after(Sign::Ampersand) {
        return borrowed(alloc, depth, rest);
    }
    at(alloc, depth, Level::Postfix, spot)
}

#[cycle(read)]
#[inline(never)]
#[tactic(auto, unfolding(crate::specs::Code::Reading::fallback))]
fn fallback<'a>(
    alloc: Global,
    depth: u32,
    spot: Spot<'a>,
) -> Result<Option<(Expr, Spot<'a>)>, AllocError>
    ensures { IfOk result (λ o. option_map (seen_with expr_of) o ≡ spec.fallback (spec.read depth) (seen spot.entry)) }
{
    let Some(rest) = spot.after(Sign::Coalesce) else {
        return Ok(None);
    };
    let Some(rest) = rest.opened() else {
        return Ok(None);
    };
    read(alloc, depth, Level::Coalesce, rest)
}

#[cycle(read)]
#[inline(never)]
#[tactic(auto, unfolding(crate::specs::Code::Reading::coalesce))]
fn coalesce<'a>(
    alloc: Global,
    depth: u32,
    spot: Spot<'a>,
) -> Result<Option<(Expr, Spot<'a>)>, AllocError>
    ensures { IfOk result (λ o. option_map (seen_with expr_of) o ≡ spec.coalesce (spec.read depth) (spec.at (spec.read depth) Level.BitOr) (seen spot.entry)) }
{
    let Some((a, rest)) = at(alloc, depth, Level::BitOr, spot)? else {
        return Ok(None);
    };
    match fallback(alloc, depth, rest) {
        Ok(Some((b, rest))) => {
            let both = binary(alloc, BinaryOperator::Coalesce, a, b)?;
            Ok(Some((both, rest)))
        }
        Ok(None) => Ok(Some((a, rest))),
        Err(error) => {
            drop(a);
            Err(error)
        }
    }
}

#[cycle(read)]
#[inline(never)]
#[tactic(auto, unfolding(crate::specs::Code::Reading::branches))]
fn branches<'a>(
    alloc: Global,
    depth: u32,
    spot: Spot<'a>,
) -> Result<Option<((Expr, Expr), Spot<'a>)>, AllocError>
    ensures { IfOk result (λ o. option_map (seen_with branches_of) o ≡ spec.branches (spec.read depth) (seen spot.entry)) }
{
    let Some(rest) = spot.after(Sign::Question) else {
        return Ok(None);
    };
    let Some(rest) = rest.opened() else {
        return Ok(None);
    };
    let Some((a, rest)) = read(alloc, depth, Level::Conditional, rest)? else {
        return Ok(None);
    };
    let Some(rest) = rest.after(Sign::Colon) else {
        drop(a);
        return Ok(None);
    };
    match read(alloc, depth, Level::Conditional, rest) {
        Ok(Some((b, rest))) => Ok(Some(((a, b), rest))),
        Ok(None) => {
            drop(a);
            Ok(None)
        }
        Err(error) => {
            drop(a);
            Err(error)
        }
    }
}

#[cycle(read)]
#[inline(never)]
#[tactic(auto, unfolding(crate::specs::Code::Reading::conditional))]
fn conditional<'a>(
    alloc: Global,
    depth: u32,
    spot: Spot<'a>,
) -> Result<Option<(Expr, Spot<'a>)>, AllocError>
    ensures { IfOk result (λ o. option_map (seen_with expr_of) o ≡ spec.conditional (spec.read depth) (spec.at (spec.read depth) Level.Or) (seen spot.entry)) }
{
    let Some((test, rest)) = at(alloc, depth, Level::Or, spot)? else {
        return Ok(None);
    };
    match branches(alloc, depth, rest) {
        Ok(Some((both, rest))) => {
            let (a, b) = both;
            Ok(Some((choice(alloc, test, a, b)?, rest)))
        }
        Ok(None) => Ok(Some((test, rest))),
        Err(error) => {
            drop(test);
            Err(error)
        }
    }
}

#[cycle(read)]
#[tactic(auto, unfolding(crate::specs::Code::Reading::at))]
fn at<'a>(
    alloc: Global,
    depth: u32,
    level: Level,
    spot: Spot<'a>,
) -> Result<Option<(Expr, Spot<'a>)>, AllocError>
    ensures { IfOk result (λ o. option_map (seen_with expr_of) o ≡ spec.at (spec.read depth) level (seen spot.entry)) }
{
    match level {
        Level::Conditional => conditional(alloc, depth, spot),
        Level::Coalesce => coalesce(alloc, depth, spot),
        Level::Prefix => prefix(alloc, depth, spot),
        Level::Primary => primary(alloc, depth, spot),
        Level::Or => chain(alloc, depth, Level::Or, spot),
        Level::And => chain(alloc, depth, Level::And, spot),
        Level::Comparison => chain(alloc, depth, Level::Comparison, spot),
        Level::BitOr => chain(alloc, depth, Level::BitOr, spot),
        Level::BitXor => chain(alloc, depth, Level::BitXor, spot),
        Level::BitAnd => chain(alloc, depth, Level::BitAnd, spot),
        Level::Sum => chain(alloc, depth, Level::Sum, spot),
        Level::Product => chain(alloc, depth, Level::Product, spot),
        Level::Cast => chain(alloc, depth, Level::Cast, spot),
        Level::Postfix => chain(alloc, depth, Level::Postfix, spot),
    }
}

// An expression of a level; `depth` bounds how deep this calls itself.
#[cycle(read)]
fn read<'a>(
    alloc: Global,
    depth: u32,
    level: Level,
    spot: Spot<'a>,
) -> Result<Option<(Expr, Spot<'a>)>, AllocError>
    ensures { IfOk result (λ o. option_map (seen_with expr_of) o ≡ spec.read depth level (seen spot.entry)) }
{
    if depth == 0 {
        return Ok(None);
    }
    at(alloc, depth - 1, level, spot)
}

/// The longest expression from a spot on, and the spot behind it, where its signs are still open; None where none begins.
#[tactic(auto, unfolding(crate::specs::Code::Reading::expression_at, crate::specs::Code::Reading::read, cad_parse_type::specs::Code::Views::seen))]
pub fn expression_at(alloc: Global, spot: Spot<'_>) -> Result<Option<(Expr, Spot<'_>)>, AllocError>
    ensures { IfOk result (λ o. option_map (seen_with expr_of) o ≡ spec.expression_at (seen spot.entry)) }
{
    at(alloc, spot.left, Level::Conditional, spot)
}

/// The longest expression that stands by itself from a spot on, and the spot behind it; None where none begins.
#[tactic(auto, unfolding(crate::specs::Code::Reading::expression))]
pub fn expression(alloc: Global, spot: Spot<'_>) -> Result<Option<(Expr, Spot<'_>)>, AllocError>
    ensures { IfOk result (λ o. option_map (seen_with expr_of) o ≡ spec.expression (seen spot.entry)) }
{
    let Some((a, rest)) = expression_at(alloc, spot)? else {
        return Ok(None);
    };
    Ok(Some((a, spot.back(rest))))
}
