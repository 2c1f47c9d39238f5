// Imports and declarations.
ghost use Rattle.std.specs.Prelude.{◌≡◌, [], length, IfOk, Some, option_map};
ghost use Rattle.cad_grammar.specs.Spots.{read};
ghost use Rattle.cad_grammar.specs.ProgramGrammar as grammar;
ghost use Rattle.cad_grammar.specs.Views.{decl_of, program_of};
ghost use Rattle.cad_parse.specs.Code.Parts as parts;
ghost use Rattle.cad_parse.specs.Code.Reading as spec;
ghost use Rattle.cad_parse.specs.Code.Views.{same, items_in, declarations_in};
ghost use Rattle.cad_parse_type.specs.Code.Views.{seen, seen_with};

use crate::access::accessed;
use crate::contract::contract;
use crate::function::function;
use crate::transaction::transaction;
use cad_grammar::{Access, Decl, Import, Program, Sign, TokenKind};
use cad_parse_type::Spot;
use cad_syntax::{Items, Keyword, Names};
use std::alloc::{AllocError, Global};

fn hexadecimal_of(kind: &TokenKind) -> Option<u128>
    ensures { result ≡ grammar.hexadecimal_of kind.now }
{
    match kind {
        TokenKind::Whole {
            value,
            hexadecimal: true,
        } => Some(*value),
        _ => None,
    }
}

#[tactic(auto, unfolding(cad_grammar::specs::Spots::read, cad_parse_type::specs::Code::Views::seen))]
fn hexadecimal(spot: Spot<'_>) -> Option<(u128, Spot<'_>)>
    ensures { option_map (seen_with same) result ≡ read grammar.hexadecimal_of (seen spot.entry) }
{
    match spot.tokens {
        [first, rest @ ..] => Some((hexadecimal_of(&first.kind)?, spot.behind(rest))),
        [] => None,
    }
}

// `from` and an address.
#[tactic(auto, unfolding(cad_grammar::specs::ProgramGrammar::origin))]
fn origin(spot: Spot<'_>) -> Option<(u128, Spot<'_>)>
    ensures { option_map (seen_with same) result ≡ grammar.origin (seen spot.entry) }
{
    hexadecimal(spot.word("from")?)
}

// The names behind the first up to the address. Behind a comma `from` is the word exactly where an address follows it.
#[tactic(auto, unfolding(crate::specs::Code::Reading::imported))]
fn imported(mut names: Names, spot: Spot<'_>) -> Result<Option<(Import, Spot<'_>)>, AllocError>
    ensures { IfOk result (λ o. option_map (seen_with same) o ≡ spec.imported (length spot.entry.tokens.now) names (seen spot.entry)) }
{
    let mut here = spot;
    for _turn in 0..spot.tokens.len() {
        if let Some((address, end)) = origin(here) {
            return Ok(Some((Import { names, address }, end)));
        }
        let Some(behind) = here.after(Sign::Comma) else {
            return Ok(None);
        };
        if let Some((address, end)) = origin(behind) {
            return Ok(Some((Import { names, address }, end)));
        }
        let Some((name, next)) = behind.name() else {
            return Ok(None);
        };
        names.push(name.clone()?)?;
        here = next;
    }
    Ok(None)
}

#[tactic(auto, unfolding(crate::specs::Code::Reading::import, cad_parse_type::specs::Code::Views::seen))]
fn import(alloc: Global, spot: Spot<'_>) -> Result<Option<(Import, Spot<'_>)>, AllocError>
    ensures { IfOk result (λ o. option_map (seen_with same) o ≡ spec.import (seen spot.entry)) }
{
    let Some(spot) = spot.keyword(Keyword::Import) else {
        return Ok(None);
    };
    let Some((name, spot)) = spot.name() else {
        return Ok(None);
    };
    let mut names = Items::new(alloc);
    names.push(name.clone()?)?;
    imported(names, spot)
}

#[tactic(auto, unfolding(crate::specs::Code::Reading::accessed_declaration))]
fn accessed_declaration<'a>(
    alloc: Global,
    from: Spot<'a>,
    access: Access,
    spot: Spot<'a>,
) -> Result<Option<(Decl, Spot<'a>)>, AllocError>
    ensures { IfOk result (λ o. option_map (seen_with decl_of) o ≡ spec.accessed_declaration (seen from.entry) access (seen spot.entry)) }
{
    if let Some(behind) = spot.keyword(Keyword::Contract) {
        let Some((found, end)) = contract(alloc, from, access, behind)? else {
            return Ok(None);
        };
        return Ok(Some((Decl::Contract(found), end)));
    }
    let Some((found, end)) = function(alloc, false, access, spot)? else {
        return Ok(None);
    };
    Ok(Some((Decl::Function(found), end)))
}

#[tactic(auto, unfolding(crate::specs::Code::Reading::declaration))]
fn declaration(alloc: Global, spot: Spot<'_>) -> Result<Option<(Decl, Spot<'_>)>, AllocError>
    ensures { IfOk result (λ o. option_map (seen_with decl_of) o ≡ spec.declaration (seen spot.entry)) }
{
    if let Some(behind) = spot.keyword(Keyword::Transaction) {
        let Some((found, end)) = transaction(alloc, spot, behind)? else {
            return Ok(None);
        };
        return Ok(Some((Decl::Transaction(found), end)));
    }
    let Some((access, behind)) = accessed(alloc, spot)? else {
        return Ok(None);
    };
    accessed_declaration(alloc, spot, access, behind)
}

#[tactic(auto, unfolding(crate::specs::Code::Parts::chain))]
fn imports(alloc: Global, spot: Spot<'_>) -> Result<(Vec<Import>, Spot<'_>), AllocError>
    ensures { IfOk result (λ x. parts.chain spec.import (length spot.entry.tokens.now) [] (seen spot.entry) ≡ Some (seen_with items_in x)) }
{
    let mut found = Vec::new(alloc);
    let mut here = spot;
    for _turn in 0..spot.tokens.len() {
        let Some((item, next)) = import(alloc, here)? else {
            return Ok((found, here));
        };
        found.push(item)?;
        here = next;
    }
    Ok((found, here))
}

#[tactic(auto, unfolding(crate::specs::Code::Parts::chain))]
fn declarations(alloc: Global, spot: Spot<'_>) -> Result<(Vec<Decl>, Spot<'_>), AllocError>
    ensures { IfOk result (λ x. parts.chain spec.declaration (length spot.entry.tokens.now) [] (seen spot.entry) ≡ Some (seen_with declarations_in x)) }
{
    let mut found = Vec::new(alloc);
    let mut here = spot;
    for _turn in 0..spot.tokens.len() {
        let Some((item, next)) = declaration(alloc, here)? else {
            return Ok((found, here));
        };
        found.push(item)?;
        here = next;
    }
    Ok((found, here))
}

/// The longest program from a spot on, and the spot behind it.
#[tactic(auto, unfolding(crate::specs::Code::Reading::program, cad_parse_type::specs::Code::Views::seen))]
pub fn program(alloc: Global, spot: Spot<'_>) -> Result<(Program, Spot<'_>), AllocError>
    ensures { IfOk result (λ x. spec.program (seen spot.entry) ≡ Some (seen_with program_of x)) }
{
    let (imports, spot) = imports(alloc, spot)?;
    let (declarations, spot) = declarations(alloc, spot)?;
    let program = Program {
        imports,
        declarations,
    };
    Ok((program, spot))
}
