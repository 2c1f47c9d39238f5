// Composites, interfaces, enums, entitlements and mappings, each behind its access and its first words.
ghost use Rattle.std.specs.Prelude.{◌≡◌, [], length, IfOk, option_map};
ghost use Rattle.cad_grammar.specs.declared.token.Sign.TheVariants as s;
ghost use Rattle.cad_grammar.specs.Spots.{read};
ghost use Rattle.cad_grammar.specs.ProgramGrammar as grammar;
ghost use Rattle.cad_grammar.specs.Views.{composite_of, interface_of, enum_of, mapping_of};
ghost use Rattle.cad_parse.specs.Code.Parts as parts;
ghost use Rattle.cad_parse.specs.Code.Reading as spec;
ghost use Rattle.cad_parse.specs.Code.Views.{same, items_in, composite_body_in, interface_body_in, enum_body_in};
ghost use Rattle.cad_parse_type.specs.Code.Views.{seen, seen_with, seen_name};

use crate::access::accessed;
use crate::function::labelled;
use crate::member::{composite_members, interface_members};
use cad_grammar::{
    Access, Composite, CompositeKind, CompositeMember, Dotted, Entitlement, Enum, EnumCase,
    Interface, InterfaceMember, Mapping, MappingItem, Sign, TokenKind,
};
use cad_parse_type::{Spot, dotted, dotted_list};
use cad_syntax::{Items, Keyword, Name};
use std::alloc::{AllocError, Global};

fn composite_kind_of(kind: &TokenKind) -> Option<CompositeKind>
    ensures { result ≡ grammar.composite_kind_of kind.now }
{
    match kind {
        TokenKind::Keyword(Keyword::Struct) => Some(CompositeKind::Struct),
        TokenKind::Keyword(Keyword::Resource) => Some(CompositeKind::Resource),
        _ => None,
    }
}

/// The `struct` or `resource` that comes next, and the spot behind it.
#[tactic(auto, unfolding(cad_grammar::specs::Spots::read, cad_parse_type::specs::Code::Views::seen))]
pub fn composite_word(spot: Spot<'_>) -> Option<(CompositeKind, Spot<'_>)>
    ensures { option_map (seen_with same) result ≡ read grammar.composite_kind_of (seen spot.entry) }
{
    match spot.tokens {
        [first, rest @ ..] => Some((composite_kind_of(&first.kind)?, spot.behind(rest))),
        [] => None,
    }
}

#[tactic(auto, unfolding(crate::specs::Code::Reading::conforms))]
fn conforms(alloc: Global, spot: Spot<'_>) -> Result<Option<(Items<Dotted>, Spot<'_>)>, AllocError>
    ensures { IfOk result (λ o. option_map (seen_with same) o ≡ spec.conforms (seen spot.entry)) }
{
    let Some((all, end)) = dotted_list(alloc, Sign::OpenBrace, spot)? else {
        return Ok(None);
    };
    let Some(inner) = end.opened() else {
        return Ok(None);
    };
    Ok(Some((all, inner)))
}

#[tactic(auto, unfolding(crate::specs::Code::Reading::conforming))]
fn conforming(
    alloc: Global,
    spot: Spot<'_>,
) -> Result<Option<(Items<Dotted>, Spot<'_>)>, AllocError>
    ensures { IfOk result (λ o. option_map (seen_with same) o ≡ spec.conforming (seen spot.entry)) }
{
    if let Some(behind) = spot.after(Sign::Colon) {
        return conforms(alloc, behind);
    }
    let Some(inner) = spot.opening(Sign::OpenBrace) else {
        return Ok(None);
    };
    Ok(Some((Items::new(alloc), inner)))
}

// What stands behind the name of a composite, and the spot behind its `}`.
#[tactic(auto, unfolding(crate::specs::Code::Reading::composite_body, cad_parse_type::specs::Code::Views::seen))]
fn composite_body(
    alloc: Global,
    spot: Spot<'_>,
) -> Result<Option<((Items<Dotted>, Vec<CompositeMember>), Spot<'_>)>, AllocError>
    ensures { IfOk result (λ o. option_map (seen_with composite_body_in) o ≡ spec.composite_body (seen spot.entry)) }
{
    let Some((conformances, spot)) = conforming(alloc, spot)? else {
        return Ok(None);
    };
    let Some((members, end)) = composite_members(alloc, spot)? else {
        return Ok(None);
    };
    Ok(Some(((conformances, members), end)))
}

/// The composite that begins behind its `struct` or `resource`, with its access at `from`, and the spot behind its `}`; None where none begins.
#[tactic(auto, unfolding(crate::specs::Code::Reading::composite, crate::specs::Code::Reading::composite_body, cad_parse_type::specs::Code::Views::seen))]
pub fn composite<'a>(
    alloc: Global,
    from: Spot<'a>,
    access: Access,
    kind: CompositeKind,
    spot: Spot<'a>,
) -> Result<Option<(Composite, Spot<'a>)>, AllocError>
    ensures { IfOk result (λ o. option_map (seen_with composite_of) o ≡ spec.composite (seen from.entry) access kind (seen spot.entry)) }
{
    let Some((name, spot)) = spot.name() else {
        drop(access);
        return Ok(None);
    };
    match composite_body(alloc, spot) {
        Ok(Some((body, end))) => match name.clone() {
            Ok(name) => {
                let composite = Composite {
                    access,
                    kind,
                    name,
                    conformances: body.0,
                    members: body.1,
                };
                Ok(Some((composite, from.back(end))))
            }
            Err(error) => {
                drop(access);
                Err(error)
            }
        },
        Ok(None) => {
            drop(access);
            Ok(None)
        }
        Err(error) => {
            drop(access);
            Err(error)
        }
    }
}

// What stands behind the name of an interface, and the spot behind its `}`.
#[tactic(auto, unfolding(crate::specs::Code::Reading::interface_body, cad_parse_type::specs::Code::Views::seen))]
fn interface_body(
    alloc: Global,
    spot: Spot<'_>,
) -> Result<Option<((Items<Dotted>, Vec<InterfaceMember>), Spot<'_>)>, AllocError>
    ensures { IfOk result (λ o. option_map (seen_with interface_body_in) o ≡ spec.interface_body (seen spot.entry)) }
{
    let Some((conformances, spot)) = conforming(alloc, spot)? else {
        return Ok(None);
    };
    let Some((members, end)) = interface_members(alloc, spot)? else {
        return Ok(None);
    };
    Ok(Some(((conformances, members), end)))
}

/// The interface that begins behind its `interface`, with its access at `from`, and the spot behind its `}`; None where none begins.
#[tactic(auto, unfolding(crate::specs::Code::Reading::interface, crate::specs::Code::Reading::interface_body, cad_parse_type::specs::Code::Views::seen))]
pub fn interface<'a>(
    alloc: Global,
    from: Spot<'a>,
    access: Access,
    kind: CompositeKind,
    spot: Spot<'a>,
) -> Result<Option<(Interface, Spot<'a>)>, AllocError>
    ensures { IfOk result (λ o. option_map (seen_with interface_of) o ≡ spec.interface (seen from.entry) access kind (seen spot.entry)) }
{
    let Some((name, spot)) = spot.name() else {
        drop(access);
        return Ok(None);
    };
    match interface_body(alloc, spot) {
        Ok(Some((body, end))) => match name.clone() {
            Ok(name) => {
                let interface = Interface {
                    access,
                    kind,
                    name,
                    conformances: body.0,
                    members: body.1,
                };
                Ok(Some((interface, from.back(end))))
            }
            Err(error) => {
                drop(access);
                Err(error)
            }
        },
        Ok(None) => {
            drop(access);
            Ok(None)
        }
        Err(error) => {
            drop(access);
            Err(error)
        }
    }
}

#[tactic(auto, unfolding(crate::specs::Code::Reading::enum_case))]
fn enum_case(alloc: Global, spot: Spot<'_>) -> Result<Option<(EnumCase, Spot<'_>)>, AllocError>
    ensures { IfOk result (λ o. option_map (seen_with same) o ≡ spec.enum_case (seen spot.entry)) }
{
    let Some((access, spot)) = accessed(alloc, spot)? else {
        return Ok(None);
    };
    let Some(spot) = spot.keyword(Keyword::Case) else {
        drop(access);
        return Ok(None);
    };
    let Some((name, spot)) = spot.name() else {
        drop(access);
        return Ok(None);
    };
    match name.clone() {
        Ok(name) => Ok(Some((EnumCase { access, name }, spot))),
        Err(error) => {
            drop(access);
            Err(error)
        }
    }
}

#[tactic(auto, unfolding(crate::specs::Code::Parts::repeated))]
fn enum_cases(
    alloc: Global,
    spot: Spot<'_>,
) -> Result<Option<(Vec<EnumCase>, Spot<'_>)>, AllocError>
    ensures { IfOk result (λ o. option_map (seen_with items_in) o ≡ parts.repeated spec.enum_case s.CloseBrace (length spot.entry.tokens.now) [] (seen spot.entry)) }
{
    let mut found = Vec::new(alloc);
    let mut here = spot;
    for _turn in 0..spot.tokens.len() {
        if let Some(end) = here.after(Sign::CloseBrace) {
            return Ok(Some((found, end)));
        }
        let Some((item, next)) = enum_case(alloc, here)? else {
            return Ok(None);
        };
        found.push(item)?;
        here = next;
    }
    Ok(None)
}

// What stands behind the name of an enum and its `:`, and the spot behind its `}`.
#[tactic(auto, unfolding(crate::specs::Code::Reading::enum_body, cad_parse_type::specs::Code::Views::seen))]
fn enum_body(
    alloc: Global,
    spot: Spot<'_>,
) -> Result<Option<((Dotted, Vec<EnumCase>), Spot<'_>)>, AllocError>
    ensures { IfOk result (λ o. option_map (seen_with enum_body_in) o ≡ spec.enum_body (seen spot.entry)) }
{
    let Some((raw, spot)) = dotted(alloc, spot)? else {
        return Ok(None);
    };
    let Some(spot) = spot.opening(Sign::OpenBrace) else {
        return Ok(None);
    };
    let Some((cases, end)) = enum_cases(alloc, spot)? else {
        return Ok(None);
    };
    Ok(Some(((raw, cases), end)))
}

/// The enum that begins behind its `enum`, with its access at `from`, and the spot behind its `}`; None where none begins.
#[tactic(auto, unfolding(crate::specs::Code::Reading::enumeration, crate::specs::Code::Reading::enum_body, cad_parse_type::specs::Code::Views::seen))]
pub fn enumeration<'a>(
    alloc: Global,
    from: Spot<'a>,
    access: Access,
    spot: Spot<'a>,
) -> Result<Option<(Enum, Spot<'a>)>, AllocError>
    ensures { IfOk result (λ o. option_map (seen_with enum_of) o ≡ spec.enumeration (seen from.entry) access (seen spot.entry)) }
{
    let Some((name, spot)) = labelled(spot) else {
        drop(access);
        return Ok(None);
    };
    match enum_body(alloc, spot) {
        Ok(Some((body, end))) => match name.clone() {
            Ok(name) => {
                let enumeration = Enum {
                    access,
                    name,
                    raw: body.0,
                    cases: body.1,
                };
                Ok(Some((enumeration, from.back(end))))
            }
            Err(error) => {
                drop(access);
                Err(error)
            }
        },
        Ok(None) => {
            drop(access);
            Ok(None)
        }
        Err(error) => {
            drop(access);
            Err(error)
        }
    }
}

#[tactic(auto, unfolding(crate::specs::Code::Reading::identity))]
fn identity(spot: Spot<'_>) -> Option<Spot<'_>>
    ensures { option_map seen result ≡ spec.identity (seen spot.entry) }
{
    spot.word("include")?.word("Identity")
}

#[tactic(auto, unfolding(crate::specs::Code::Reading::pair))]
fn pair(alloc: Global, spot: Spot<'_>) -> Result<Option<(MappingItem, Spot<'_>)>, AllocError>
    ensures { IfOk result (λ o. option_map (seen_with same) o ≡ spec.pair (seen spot.entry)) }
{
    let Some((from, spot)) = dotted(alloc, spot)? else {
        return Ok(None);
    };
    let Some(spot) = spot.after(Sign::Arrow) else {
        return Ok(None);
    };
    let Some((to, spot)) = dotted(alloc, spot)? else {
        return Ok(None);
    };
    Ok(Some((MappingItem::Pair(from, to), spot)))
}

#[tactic(auto, unfolding(crate::specs::Code::Reading::mapping_entry))]
fn mapping_entry(
    alloc: Global,
    spot: Spot<'_>,
) -> Result<Option<(MappingItem, Spot<'_>)>, AllocError>
    ensures { IfOk result (λ o. option_map (seen_with same) o ≡ spec.mapping_entry (seen spot.entry)) }
{
    match identity(spot) {
        Some(behind) => Ok(Some((MappingItem::Identity, behind))),
        None => pair(alloc, spot),
    }
}

#[tactic(auto, unfolding(crate::specs::Code::Parts::repeated))]
fn mapping_entries(
    alloc: Global,
    spot: Spot<'_>,
) -> Result<Option<(Vec<MappingItem>, Spot<'_>)>, AllocError>
    ensures { IfOk result (λ o. option_map (seen_with items_in) o ≡ parts.repeated spec.mapping_entry s.CloseBrace (length spot.entry.tokens.now) [] (seen spot.entry)) }
{
    let mut found = Vec::new(alloc);
    let mut here = spot;
    for _turn in 0..spot.tokens.len() {
        if let Some(end) = here.after(Sign::CloseBrace) {
            return Ok(Some((found, end)));
        }
        let Some((item, next)) = mapping_entry(alloc, here)? else {
            return Ok(None);
        };
        found.push(item)?;
        here = next;
    }
    Ok(None)
}

/// The name of a mapping whose head comes next behind `entitlement`, and the spot behind its `{`.
#[tactic(auto, unfolding(cad_grammar::specs::ProgramGrammar::mapping_head))]
pub fn mapping_head(spot: Spot<'_>) -> Option<(&Name, Spot<'_>)>
    ensures { option_map (seen_with seen_name) result ≡ grammar.mapping_head (seen spot.entry) }
{
    let (name, spot) = spot.word("mapping")?.name()?;
    let spot = spot.opening(Sign::OpenBrace)?;
    Some((name, spot))
}

/// The entitlement mapping that begins behind its head, with its access at `from`, and the spot behind its `}`; None where
/// none begins.
#[tactic(auto, unfolding(crate::specs::Code::Reading::mapping, cad_parse_type::specs::Code::Views::seen))]
pub fn mapping<'a>(
    alloc: Global,
    from: Spot<'a>,
    access: Access,
    name: &Name,
    spot: Spot<'a>,
) -> Result<Option<(Mapping, Spot<'a>)>, AllocError>
    ensures { IfOk result (λ o. option_map (seen_with mapping_of) o ≡ spec.mapping (seen from.entry) access name.now (seen spot.entry)) }
{
    match mapping_entries(alloc, spot) {
        Ok(Some((items, end))) => match name.clone() {
            Ok(name) => {
                let mapping = Mapping {
                    access,
                    name,
                    items,
                };
                Ok(Some((mapping, from.back(end))))
            }
            Err(error) => {
                drop(access);
                Err(error)
            }
        },
        Ok(None) => {
            drop(access);
            Ok(None)
        }
        Err(error) => {
            drop(access);
            Err(error)
        }
    }
}

/// The entitlement whose name comes next, and the spot behind it; None where no name does.
#[tactic(auto, unfolding(crate::specs::Code::Reading::entitlement))]
pub fn entitlement<'a>(
    access: Access,
    spot: Spot<'a>,
) -> Result<Option<(Entitlement, Spot<'a>)>, AllocError>
    ensures { IfOk result (λ o. option_map (seen_with same) o ≡ spec.entitlement access (seen spot.entry)) }
{
    let Some((name, spot)) = spot.name() else {
        drop(access);
        return Ok(None);
    };
    match name.clone() {
        Ok(name) => Ok(Some((Entitlement { access, name }, spot))),
        Err(error) => {
            drop(access);
            Err(error)
        }
    }
}
