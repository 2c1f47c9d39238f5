// Access.
ghost use Rattle.std.specs.Prelude.{◌≡◌, IfOk, option_map};
ghost use Rattle.cad_grammar.specs.ProgramGrammar as grammar;
ghost use Rattle.cad_grammar.specs.Spots.{read};
ghost use Rattle.cad_parse.specs.Code.Parts as parts;
ghost use Rattle.cad_parse.specs.Code.Views.{same};
ghost use Rattle.cad_parse_type.specs.Code.Views.{seen, seen_with};

use cad_grammar::{Access, Entitlements, Sign, TokenKind};
use cad_parse_type::{Spot, dotted, entitled};
use cad_syntax::{Keyword, Name};
use std::alloc::{AllocError, Global};

fn plain_access_named(name: &Name) -> Option<Access>
    ensures { result ≡ grammar.plain_access_named name.now }
{
    if name.0.as_str() == "all" {
        return Some(Access::All);
    }
    if name.0.as_str() == "account" {
        return Some(Access::Account);
    }
    None
}

fn plain_access_of(kind: &TokenKind) -> Option<Access>
    ensures { result ≡ grammar.plain_access_of kind.now }
{
    match kind {
        TokenKind::Name(name) => plain_access_named(name),
        TokenKind::Keyword(Keyword::Self_) => Some(Access::Self_),
        TokenKind::Keyword(Keyword::Contract) => Some(Access::Contract),
        _ => None,
    }
}

#[tactic(auto, unfolding(cad_grammar::specs::Spots::read, cad_parse_type::specs::Code::Views::seen))]
fn plain_word(spot: Spot<'_>) -> Option<(Access, Spot<'_>)>
    ensures { option_map (seen_with same) result ≡ read grammar.plain_access_of (seen spot.entry) }
{
    match spot.tokens {
        [first, rest @ ..] => Some((plain_access_of(&first.kind)?, spot.behind(rest))),
        [] => None,
    }
}

#[tactic(auto, unfolding(crate::specs::Code::Parts::plain_access))]
fn plain_access(spot: Spot<'_>) -> Option<(Access, Spot<'_>)>
    ensures { option_map (seen_with same) result ≡ parts.plain_access (seen spot.entry) }
{
    let (access, spot) = plain_word(spot)?;
    let Some(spot) = spot.after(Sign::CloseParenthesis) else {
        drop(access);
        return None;
    };
    Some((access, spot))
}

#[tactic(auto, unfolding(crate::specs::Code::Parts::mapping_access))]
fn mapping_access(alloc: Global, spot: Spot<'_>) -> Result<Option<(Access, Spot<'_>)>, AllocError>
    ensures { IfOk result (λ o. option_map (seen_with same) o ≡ parts.mapping_access (seen spot.entry)) }
{
    let Some(spot) = spot.word("mapping") else {
        return Ok(None);
    };
    let Some((name, spot)) = dotted(alloc, spot)? else {
        return Ok(None);
    };
    let Some(spot) = spot.after(Sign::CloseParenthesis) else {
        return Ok(None);
    };
    Ok(Some((Access::Mapping(name), spot)))
}

fn is_plain_word(names: &[Name]) -> bool
    ensures { result ≡ grammar.is_plain_word names.now }
{
    match names {
        [name] => plain_access_named(name).is_some(),
        _ => false,
    }
}

fn is_plain_access(entitlements: &Entitlements) -> bool
    ensures { result ≡ grammar.is_plain_access entitlements.now }
{
    match entitlements {
        Entitlements::All(all) => match all.as_slice() {
            [names] => is_plain_word(names.as_slice()),
            _ => false,
        },
        Entitlements::Any(_) => false,
    }
}

#[tactic(auto, unfolding(crate::specs::Code::Parts::entitled_access))]
fn entitled_access(alloc: Global, spot: Spot<'_>) -> Result<Option<(Access, Spot<'_>)>, AllocError>
    ensures { IfOk result (λ o. option_map (seen_with same) o ≡ parts.entitled_access (seen spot.entry)) }
{
    let Some((entitlements, spot)) = entitled(alloc, spot)? else {
        return Ok(None);
    };
    if is_plain_access(&entitlements) {
        drop(entitlements);
        return Ok(None);
    }
    Ok(Some((Access::Entitled(entitlements), spot)))
}

// What stands between the parentheses, and `)`.
#[tactic(auto, unfolding(crate::specs::Code::Parts::allows))]
fn allows(alloc: Global, spot: Spot<'_>) -> Result<Option<(Access, Spot<'_>)>, AllocError>
    ensures { IfOk result (λ o. option_map (seen_with same) o ≡ parts.allows (seen spot.entry)) }
{
    if let Some(found) = plain_access(spot) {
        return Ok(Some(found));
    }
    if let Some(found) = mapping_access(alloc, spot)? {
        return Ok(Some(found));
    }
    entitled_access(alloc, spot)
}

/// The access that begins at a spot, and the spot behind its `)`; None where none begins.
#[tactic(auto, unfolding(crate::specs::Code::Parts::accessed))]
pub fn accessed(alloc: Global, spot: Spot<'_>) -> Result<Option<(Access, Spot<'_>)>, AllocError>
    ensures { IfOk result (λ o. option_map (seen_with same) o ≡ parts.accessed (seen spot.entry)) }
{
    let Some(inner) = spot.keyword(Keyword::Access) else {
        return Ok(None);
    };
    let Some(inner) = inner.opening(Sign::OpenParenthesis) else {
        return Ok(None);
    };
    let Some((access, end)) = allows(alloc, inner)? else {
        return Ok(None);
    };
    Ok(Some((access, spot.back(end))))
}
