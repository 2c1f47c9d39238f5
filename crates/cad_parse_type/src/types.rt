// Types, by how deep the reader may call itself.
ghost use Rattle.std.specs.Prelude.{◌≡◌, [], length, map, IfOk, Some, option_map};
ghost use Rattle.cad_grammar.specs.declared.token.Sign.TheVariants as s;
ghost use Rattle.cad_grammar.specs.Views.{type_of, annotation_of};
ghost use Rattle.cad_grammar.specs.declared.level.TypePosition.TheVariants as position;
ghost use Rattle.cad_parse_type.specs.Code.Reading as spec;
ghost use Rattle.cad_parse_type.specs.Code.Views.{seen, seen_with, annotations_in};

use crate::marks::type_tail;
use crate::names::{authorized, dotted, dotted_list};
use crate::spot::Spot;
use cad_grammar::{Dotted, Entitlements, Sign, TypeAnnotation, TypeExpr, TypePosition};
use cad_syntax::Keyword;
use std::alloc::{AllocError, Global};

fn marked(alloc: Global, written: TypeExpr, twice: bool) -> Result<TypeExpr, AllocError>
    ensures { IfOk result (λ t. type_of t ≡ spec.marked (type_of written) twice) }
{
    let once = TypeExpr::Optional(Box::new(alloc, written)?);
    if twice {
        Ok(TypeExpr::Optional(Box::new(alloc, once)?))
    } else {
        Ok(once)
    }
}

// A type with all `?` behind it, and the spot behind them.
#[tactic(auto, unfolding(crate::specs::Code::Reading::climb))]
fn with_marks(
    alloc: Global,
    position: TypePosition,
    mut written: TypeExpr,
    spot: Spot<'_>,
) -> Result<(TypeExpr, Spot<'_>), AllocError>
    ensures { IfOk result (λ x. spec.climb spec.marked (spec.type_tail position) (length spot.entry.tokens.now) (type_of written) (seen spot.entry) ≡ Some (seen_with type_of x)) }
{
    let mut rest = spot;
    for _turn in 0..spot.tokens.len() {
        let Some((twice, next)) = type_tail(position, rest) else {
            return Ok((written, rest));
        };
        written = marked(alloc, written, twice)?;
        rest = next;
    }
    Ok((written, rest))
}

// A list that has an annotation.
fn filled(all: Vec<TypeAnnotation>, end: Spot<'_>) -> Option<(Vec<TypeAnnotation>, Spot<'_>)>
    ensures { option_map (seen_with annotations_in) result ≡ spec.filled (annotations_in all, seen end.entry) }
{
    if all.is_empty() {
        None
    } else {
        Some((all, end))
    }
}

/// The longest type from a spot on, and the spot behind it; None where none begins.
#[cycle(types)]
#[tactic(auto, unfolding(crate::specs::Code::Reading::whole, crate::specs::Code::Views::seen))]
pub fn whole(
    alloc: Global,
    depth: u64,
    position: TypePosition,
    spot: Spot<'_>,
) -> Result<Option<(TypeExpr, Spot<'_>)>, AllocError>
    ensures { IfOk result (λ o. option_map (seen_with type_of) o ≡ spec.whole (spec.read_core depth) position (seen spot.entry)) }
{
    let Some((written, rest)) = read_core(alloc, depth, spot)? else {
        return Ok(None);
    };
    Ok(Some(with_marks(alloc, position, written, rest)?))
}

/// The longest type annotation from a spot on, and the spot behind it; None where none begins.
#[cycle(types)]
#[tactic(auto, unfolding(crate::specs::Code::Reading::annotated))]
pub fn annotated(
    alloc: Global,
    depth: u64,
    position: TypePosition,
    spot: Spot<'_>,
) -> Result<Option<(TypeAnnotation, Spot<'_>)>, AllocError>
    ensures { IfOk result (λ o. option_map (seen_with annotation_of) o ≡ spec.annotated (spec.read_core depth) position (seen spot.entry)) }
{
    if let Some(rest) = spot.after(Sign::At) {
        let Some((written, rest)) = whole(alloc, depth, position, rest)? else {
            return Ok(None);
        };
        let is_resource = true;
        return Ok(Some((
            TypeAnnotation {
                is_resource,
                written,
            },
            rest,
        )));
    }
    let Some((written, rest)) = whole(alloc, depth, position, spot)? else {
        return Ok(None);
    };
    let is_resource = false;
    Ok(Some((
        TypeAnnotation {
            is_resource,
            written,
        },
        rest,
    )))
}

// A reference, behind the `&`.
#[cycle(types)]
#[tactic(auto, unfolding(crate::specs::Code::Reading::referenced))]
fn referenced(
    alloc: Global,
    depth: u64,
    authorization: Option<Entitlements>,
    spot: Spot<'_>,
) -> Result<Option<(TypeExpr, Spot<'_>)>, AllocError>
    ensures { IfOk result (λ o. option_map (seen_with type_of) o ≡ spec.referenced (spec.read_core depth) authorization (seen spot.entry)) }
{
    let Some(rest) = spot.opened() else {
        return Ok(None);
    };
    let Some((target, rest)) = read_core(alloc, depth, rest)? else {
        return Ok(None);
    };
    let target = Box::new(alloc, target)?;
    Ok(Some((
        TypeExpr::Reference {
            authorization,
            target,
        },
        rest,
    )))
}

// A reference, behind the `auth`.
#[cycle(types)]
#[tactic(auto, unfolding(crate::specs::Code::Reading::authorized_reference))]
fn authorized_reference(
    alloc: Global,
    depth: u64,
    spot: Spot<'_>,
) -> Result<Option<(TypeExpr, Spot<'_>)>, AllocError>
    ensures { IfOk result (λ o. option_map (seen_with type_of) o ≡ spec.authorized_reference (spec.read_core depth) (seen spot.entry)) }
{
    let Some((entitlements, rest)) = authorized(alloc, spot)? else {
        return Ok(None);
    };
    let Some(rest) = rest.after(Sign::Ampersand) else {
        return Ok(None);
    };
    referenced(alloc, depth, Some(entitlements), rest)
}

// A type in parentheses, from `(` at the start on, behind which the spot `inside` is.
#[cycle(types)]
#[tactic(auto, unfolding(crate::specs::Code::Reading::grouped))]
fn grouped<'a>(
    alloc: Global,
    depth: u64,
    start: Spot<'a>,
    inside: Spot<'a>,
) -> Result<Option<(TypeExpr, Spot<'a>)>, AllocError>
    ensures { IfOk result (λ o. option_map (seen_with type_of) o ≡ spec.grouped (spec.read_core depth) (seen start.entry) (seen inside.entry)) }
{
    let Some(rest) = inside.opened() else {
        return Ok(None);
    };
    let Some((written, rest)) = whole(alloc, depth, TypePosition::Anywhere, rest)? else {
        return Ok(None);
    };
    let Some(end) = start.resumed(Sign::CloseParenthesis, rest) else {
        return Ok(None);
    };
    Ok(Some((written, end)))
}

// An array, from `[` at the start on, behind which the spot `inside` is.
#[cycle(types)]
#[tactic(auto, unfolding(crate::specs::Code::Reading::array))]
fn array<'a>(
    alloc: Global,
    depth: u64,
    start: Spot<'a>,
    inside: Spot<'a>,
) -> Result<Option<(TypeExpr, Spot<'a>)>, AllocError>
    ensures { IfOk result (λ o. option_map (seen_with type_of) o ≡ spec.array (spec.read_core depth) (seen start.entry) (seen inside.entry)) }
{
    let Some(rest) = inside.opened() else {
        return Ok(None);
    };
    let Some((item, rest)) = whole(alloc, depth, TypePosition::Anywhere, rest)? else {
        return Ok(None);
    };
    let Some(end) = start.resumed(Sign::CloseBracket, rest) else {
        return Ok(None);
    };
    Ok(Some((TypeExpr::Array(Box::new(alloc, item)?), end)))
}

// A dictionary, from `{` at the start on, in which the spot `inside` is.
#[cycle(types)]
#[tactic(auto, unfolding(crate::specs::Code::Reading::dictionary))]
fn dictionary<'a>(
    alloc: Global,
    depth: u64,
    start: Spot<'a>,
    inside: Spot<'a>,
) -> Result<Option<(TypeExpr, Spot<'a>)>, AllocError>
    ensures { IfOk result (λ o. option_map (seen_with type_of) o ≡ spec.dictionary (spec.read_core depth) (seen start.entry) (seen inside.entry)) }
{
    let Some((key, rest)) = whole(alloc, depth, TypePosition::Anywhere, inside)? else {
        return Ok(None);
    };
    let Some(rest) = inside.resumed(Sign::Colon, rest) else {
        return Ok(None);
    };
    let Some((value, rest)) = whole(alloc, depth, TypePosition::Anywhere, rest)? else {
        return Ok(None);
    };
    let Some(end) = start.resumed(Sign::CloseBrace, rest) else {
        return Ok(None);
    };
    let key = Box::new(alloc, key)?;
    let value = Box::new(alloc, value)?;
    Ok(Some((TypeExpr::Dictionary(key, value), end)))
}

// A dictionary or an intersection, from `{` at the start on, behind which the spot `inside` is.
#[cycle(types)]
#[tactic(auto, unfolding(crate::specs::Code::Reading::braced))]
fn braced<'a>(
    alloc: Global,
    depth: u64,
    start: Spot<'a>,
    inside: Spot<'a>,
) -> Result<Option<(TypeExpr, Spot<'a>)>, AllocError>
    ensures { IfOk result (λ o. option_map (seen_with type_of) o ≡ spec.braced (spec.read_core depth) (seen start.entry) (seen inside.entry)) }
{
    let Some(rest) = inside.opened() else {
        return Ok(None);
    };
    if let Some((written, end)) = dictionary(alloc, depth, start, rest)? {
        return Ok(Some((written, end)));
    }
    let Some((all, end)) = dotted_list(alloc, Sign::CloseBrace, rest)? else {
        return Ok(None);
    };
    Ok(Some((TypeExpr::Intersection(all), start.back(end))))
}

// Annotations with commas between them, and the spot behind the `>`; None where they don't go on up to it.
#[cycle(types)]
#[tactic(auto, unfolding(crate::specs::Code::Reading::listed))]
fn listed(
    alloc: Global,
    depth: u64,
    spot: Spot<'_>,
) -> Result<Option<(Vec<TypeAnnotation>, Spot<'_>)>, AllocError>
    ensures { IfOk result (λ o. option_map (seen_with annotations_in) o
        ≡ spec.listed (spec.annotated (spec.read_core depth) position.Anywhere) s.Greater (length spot.entry.tokens.now) [] (seen spot.entry)) }
{
    let mut found = Vec::new(alloc);
    let mut rest = spot;
    for _turn in 0..spot.tokens.len() {
        if let Some(end) = rest.after(Sign::Greater) {
            return Ok(Some((found, end)));
        }
        let Some((item, next)) = annotated(alloc, depth, TypePosition::Anywhere, rest)? else {
            return Ok(None);
        };
        found.push(item)?;
        if let Some(next) = rest.resumed(Sign::Comma, next) {
            rest = next;
        } else {
            return match rest.resumed(Sign::Greater, next) {
                Some(end) => Ok(Some((found, end))),
                None => Ok(None),
            };
        }
    }
    Ok(None)
}

/// One annotation or more, with commas between them, and the spot behind the `>`; None where no such list stands there.
#[cycle(types)]
#[tactic(auto, unfolding(crate::specs::Code::Reading::annotation_list, crate::specs::Code::Views::seen))]
pub fn annotation_list(
    alloc: Global,
    depth: u64,
    spot: Spot<'_>,
) -> Result<Option<(Vec<TypeAnnotation>, Spot<'_>)>, AllocError>
    ensures { IfOk result (λ o. option_map (seen_with annotations_in) o ≡ spec.annotation_list (spec.read_core depth) (seen spot.entry)) }
{
    let Some((all, end)) = listed(alloc, depth, spot)? else {
        return Ok(None);
    };
    Ok(filled(all, end))
}

// A name with type arguments, from the spot behind the name on; the spot `inside` is behind the `<`.
#[cycle(types)]
#[tactic(auto, unfolding(crate::specs::Code::Reading::applied))]
fn applied<'a>(
    alloc: Global,
    depth: u64,
    name: Dotted,
    start: Spot<'a>,
    inside: Spot<'a>,
) -> Result<Option<(TypeExpr, Spot<'a>)>, AllocError>
    ensures { IfOk result (λ o. option_map (seen_with type_of) o ≡ spec.applied (spec.read_core depth) name (seen start.entry) (seen inside.entry)) }
{
    let Some(rest) = inside.opened() else {
        return Ok(None);
    };
    let Some((arguments, end)) = annotation_list(alloc, depth, rest)? else {
        return Ok(None);
    };
    Ok(Some((TypeExpr::Named { name, arguments }, start.back(end))))
}

// A name, with type arguments where a `<` follows.
#[cycle(types)]
#[tactic(auto, unfolding(crate::specs::Code::Reading::named_type))]
fn named_type(
    alloc: Global,
    depth: u64,
    spot: Spot<'_>,
) -> Result<Option<(TypeExpr, Spot<'_>)>, AllocError>
    ensures { IfOk result (λ o. option_map (seen_with type_of) o ≡ spec.named_type (spec.read_core depth) (seen spot.entry)) }
{
    let Some((name, rest)) = dotted(alloc, spot)? else {
        return Ok(None);
    };
    if let Some(inside) = rest.after(Sign::Less) {
        return applied(alloc, depth, name, rest, inside);
    }
    let arguments = Vec::new(alloc);
    Ok(Some((TypeExpr::Named { name, arguments }, rest)))
}

// A type that begins with a sign, or a name.
#[cycle(types)]
#[tactic(auto, unfolding(crate::specs::Code::Reading::core_of))]
fn core_of(
    alloc: Global,
    depth: u64,
    spot: Spot<'_>,
) -> Result<Option<(TypeExpr, Spot<'_>)>, AllocError>
    ensures { IfOk result (λ o. option_map (seen_with type_of) o ≡ spec.core_of (spec.read_core depth) (seen spot.entry)) }
{
    if let Some(rest) = spot.keyword(Keyword::Auth) {
        return authorized_reference(alloc, depth, rest);
    }
    if let Some(rest) = spot.after(Sign::Ampersand) {
        return referenced(alloc, depth, None, rest);
    }
    if let Some(rest) = spot.after(Sign::OpenParenthesis) {
        return grouped(alloc, depth, spot, rest);
    }
    if let Some(rest) = spot.after(Sign::OpenBracket) {
        return array(alloc, depth, spot, rest);
    }
    if let Some(rest) = spot.after(Sign::OpenBrace) {
        return braced(alloc, depth, spot, rest);
    }
    named_type(alloc, depth, spot)
}

// A type with no `?` behind it, and the spot behind it; None where none begins.
#[cycle(types)]
fn read_core(
    alloc: Global,
    depth: u64,
    spot: Spot<'_>,
) -> Result<Option<(TypeExpr, Spot<'_>)>, AllocError>
    ensures { IfOk result (λ o. option_map (seen_with type_of) o ≡ spec.read_core depth (seen spot.entry)) }
{
    if depth == 0 {
        return Ok(None);
    }
    core_of(alloc, depth - 1, spot)
}
