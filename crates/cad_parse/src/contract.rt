// Contracts and their members.
ghost use Rattle.std.specs.Prelude.{◌≡◌, [], length, IfOk, option_map};
ghost use Rattle.cad_grammar.specs.declared.token.Sign.TheVariants as s;
ghost use Rattle.cad_grammar.specs.Views.{contract_of, contract_member_of};
ghost use Rattle.cad_parse.specs.Code.Parts as parts;
ghost use Rattle.cad_parse.specs.Code.Reading as spec;
ghost use Rattle.cad_parse.specs.Code.Views.{contract_members_in};
ghost use Rattle.cad_parse_type.specs.Code.Views.{seen, seen_with};

use crate::access::accessed;
use crate::composite::{
    composite, composite_word, entitlement, enumeration, interface, mapping, mapping_head,
};
use crate::function::{function, initializer, viewed};
use crate::member::{destruction, event, field};
use cad_grammar::{Access, CompositeKind, Contract, ContractMember, Sign};
use cad_parse_statement::variable_word;
use cad_parse_type::Spot;
use cad_syntax::Keyword;
use std::alloc::{AllocError, Global};

#[tactic(auto, unfolding(crate::specs::Code::Reading::entitling))]
fn entitling<'a>(
    alloc: Global,
    from: Spot<'a>,
    access: Access,
    spot: Spot<'a>,
) -> Result<Option<(ContractMember, Spot<'a>)>, AllocError>
    ensures { IfOk result (λ o. option_map (seen_with contract_member_of) o ≡ spec.entitling (seen from.entry) access (seen spot.entry)) }
{
    if let Some((name, behind)) = mapping_head(spot) {
        let Some((found, end)) = mapping(alloc, from, access, name, behind)? else {
            return Ok(None);
        };
        return Ok(Some((ContractMember::Mapping(found), end)));
    }
    let Some((found, end)) = entitlement(access, spot)? else {
        return Ok(None);
    };
    Ok(Some((ContractMember::Entitlement(found), end)))
}

#[tactic(auto, unfolding(crate::specs::Code::Reading::composing))]
fn composing<'a>(
    alloc: Global,
    from: Spot<'a>,
    access: Access,
    kind: CompositeKind,
    spot: Spot<'a>,
) -> Result<Option<(ContractMember, Spot<'a>)>, AllocError>
    ensures { IfOk result (λ o. option_map (seen_with contract_member_of) o ≡ spec.composing (seen from.entry) access kind (seen spot.entry)) }
{
    if let Some(behind) = spot.keyword(Keyword::Interface) {
        let Some((found, end)) = interface(alloc, from, access, kind, behind)? else {
            return Ok(None);
        };
        return Ok(Some((ContractMember::Interface(found), end)));
    }
    let Some((found, end)) = composite(alloc, from, access, kind, spot)? else {
        return Ok(None);
    };
    Ok(Some((ContractMember::Composite(found), end)))
}

#[tactic(auto, unfolding(crate::specs::Code::Reading::contract_member_with))]
fn contract_member_with<'a>(
    alloc: Global,
    from: Spot<'a>,
    access: Access,
    spot: Spot<'a>,
) -> Result<Option<(ContractMember, Spot<'a>)>, AllocError>
    ensures { IfOk result (λ o. option_map (seen_with contract_member_of) o ≡ spec.contract_member_with (seen from.entry) access (seen spot.entry)) }
{
    if let Some((kind, behind)) = variable_word(spot) {
        let Some((found, end)) = field(alloc, access, kind, behind)? else {
            return Ok(None);
        };
        return Ok(Some((ContractMember::Field(found), end)));
    }
    if let Some((kind, behind)) = composite_word(spot) {
        return composing(alloc, from, access, kind, behind);
    }
    if let Some(behind) = spot.keyword(Keyword::Event) {
        let Some((found, end)) = event(alloc, spot, access, behind)? else {
            return Ok(None);
        };
        return Ok(Some((ContractMember::Event(found), end)));
    }
    if let Some(behind) = spot.keyword(Keyword::Enum) {
        let Some((found, end)) = enumeration(alloc, from, access, behind)? else {
            return Ok(None);
        };
        return Ok(Some((ContractMember::Enum(found), end)));
    }
    if let Some(behind) = spot.word("entitlement") {
        return entitling(alloc, from, access, behind);
    }
    let Some((found, end)) = function(alloc, false, access, spot)? else {
        return Ok(None);
    };
    Ok(Some((ContractMember::Function(found), end)))
}

#[tactic(auto, unfolding(crate::specs::Code::Reading::contract_member))]
fn contract_member(
    alloc: Global,
    spot: Spot<'_>,
) -> Result<Option<(ContractMember, Spot<'_>)>, AllocError>
    ensures { IfOk result (λ o. option_map (seen_with contract_member_of) o ≡ spec.contract_member (seen spot.entry)) }
{
    if let Some((access, behind)) = accessed(alloc, spot)? {
        return contract_member_with(alloc, spot, access, behind);
    }
    if let Some(behind) = spot.keyword(Keyword::Event) {
        let Some((found, end)) = destruction(alloc, spot, behind)? else {
            return Ok(None);
        };
        return Ok(Some((ContractMember::Event(found), end)));
    }
    let Some((is_view, behind)) = viewed(Keyword::Init, spot) else {
        return Ok(None);
    };
    let Some((found, end)) = initializer(alloc, is_view, behind)? else {
        return Ok(None);
    };
    Ok(Some((ContractMember::Init(found), end)))
}

#[tactic(auto, unfolding(crate::specs::Code::Parts::repeated))]
fn contract_members(
    alloc: Global,
    spot: Spot<'_>,
) -> Result<Option<(Vec<ContractMember>, Spot<'_>)>, AllocError>
    ensures { IfOk result (λ o. option_map (seen_with contract_members_in) o ≡ parts.repeated spec.contract_member s.CloseBrace (length spot.entry.tokens.now) [] (seen spot.entry)) }
{
    let mut found = Vec::new(alloc);
    let mut here = spot;
    for _turn in 0..spot.tokens.len() {
        if let Some(end) = here.after(Sign::CloseBrace) {
            return Ok(Some((found, end)));
        }
        let Some((item, next)) = contract_member(alloc, here)? else {
            return Ok(None);
        };
        found.push(item)?;
        here = next;
    }
    Ok(None)
}

/// The contract that begins behind its `contract`, with its access at `from`, and the spot behind its `}`; None where none
/// begins.
#[tactic(auto, unfolding(crate::specs::Code::Reading::contract, cad_parse_type::specs::Code::Views::seen))]
pub fn contract<'a>(
    alloc: Global,
    from: Spot<'a>,
    access: Access,
    spot: Spot<'a>,
) -> Result<Option<(Contract, Spot<'a>)>, AllocError>
    ensures { IfOk result (λ o. option_map (seen_with contract_of) o ≡ spec.contract (seen from.entry) access (seen spot.entry)) }
{
    let Some((name, spot)) = spot.name() else {
        drop(access);
        return Ok(None);
    };
    let Some(spot) = spot.opening(Sign::OpenBrace) else {
        drop(access);
        return Ok(None);
    };
    match contract_members(alloc, spot) {
        Ok(Some((members, end))) => match name.clone() {
            Ok(name) => {
                let contract = Contract {
                    access,
                    name,
                    members,
                };
                Ok(Some((contract, from.back(end))))
            }
            Err(error) => {
                drop(access);
                Err(error)
            }
        },
        Ok(None) => {
            drop(access);
            Ok(None)
        }
        Err(error) => {
            drop(access);
            Err(error)
        }
    }
}
