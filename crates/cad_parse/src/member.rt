// Fields, events, and the members of composites and interfaces.
ghost use Rattle.std.specs.Prelude.{◌≡◌, [], length, IfOk, option_map};
ghost use Rattle.cad_grammar.specs.declared.token.Sign.TheVariants as s;
ghost use Rattle.cad_grammar.specs.ProgramGrammar as grammar;
ghost use Rattle.cad_grammar.specs.Views.{field_of, event_of, event_parameter_of, composite_member_of, interface_member_of};
ghost use Rattle.cad_parse.specs.Code.Parts as parts;
ghost use Rattle.cad_parse.specs.Code.Reading as spec;
ghost use Rattle.cad_parse.specs.Code.Views.{event_parameters_in, composite_members_in, interface_members_in};
ghost use Rattle.cad_parse_type.specs.Code.Reading as types;
ghost use Rattle.cad_parse_type.specs.Code.Views.{seen, seen_with};

use crate::access::accessed;
use crate::function::{function, initializer, labelled, parameter, viewed};
use cad_grammar::{
    Access, CompositeMember, Event, EventParameter, Field, InterfaceMember, Sign, VariableKind,
};
use cad_parse_expr::expression;
use cad_parse_statement::variable_word;
use cad_parse_type::{Spot, annotation};
use cad_syntax::{Keyword, Name};
use std::alloc::{AllocError, Global};

/// The field that begins behind its access and its `let` or `var`, and the spot behind its type; None where none begins.
#[tactic(auto, unfolding(crate::specs::Code::Reading::field))]
pub fn field<'a>(
    alloc: Global,
    access: Access,
    kind: VariableKind,
    spot: Spot<'a>,
) -> Result<Option<(Field, Spot<'a>)>, AllocError>
    ensures { IfOk result (λ o. option_map (seen_with field_of) o ≡ spec.field access kind (seen spot.entry)) }
{
    let Some((name, spot)) = labelled(spot) else {
        drop(access);
        return Ok(None);
    };
    match annotation(alloc, spot) {
        Ok(Some((annotation, spot))) => match name.clone() {
            Ok(name) => {
                let field = Field {
                    access,
                    kind: Some(kind),
                    name,
                    annotation,
                };
                Ok(Some((field, spot)))
            }
            Err(error) => {
                drop(access);
                drop(annotation);
                Err(error)
            }
        },
        Ok(None) => {
            drop(access);
            Ok(None)
        }
        Err(error) => {
            drop(access);
            Err(error)
        }
    }
}

#[tactic(auto, unfolding(crate::specs::Code::Reading::event_parameter))]
fn event_parameter(
    alloc: Global,
    has_default: bool,
    spot: Spot<'_>,
) -> Result<Option<(EventParameter, Spot<'_>)>, AllocError>
    ensures { IfOk result (λ o. option_map (seen_with event_parameter_of) o ≡ spec.event_parameter has_default (seen spot.entry)) }
{
    let Some((parameter, spot)) = parameter(alloc, spot)? else {
        return Ok(None);
    };
    if !has_default {
        let parameter = EventParameter {
            parameter,
            default: None,
        };
        return Ok(Some((parameter, spot)));
    }
    let Some(spot) = spot.after(Sign::Assign) else {
        drop(parameter);
        return Ok(None);
    };
    match expression(alloc, spot) {
        Ok(Some((default, spot))) => {
            let parameter = EventParameter {
                parameter,
                default: Some(default),
            };
            Ok(Some((parameter, spot)))
        }
        Ok(None) => {
            drop(parameter);
            Ok(None)
        }
        Err(error) => {
            drop(parameter);
            Err(error)
        }
    }
}

#[tactic(auto, unfolding(cad_parse_type::specs::Code::Reading::listed))]
fn event_parameter_list(
    alloc: Global,
    has_default: bool,
    spot: Spot<'_>,
) -> Result<Option<(Vec<EventParameter>, Spot<'_>)>, AllocError>
    ensures { IfOk result (λ o. option_map (seen_with event_parameters_in) o ≡ types.listed (spec.event_parameter has_default) s.CloseParenthesis (length spot.entry.tokens.now) [] (seen spot.entry)) }
{
    let mut found = Vec::new(alloc);
    let mut here = spot;
    for _turn in 0..spot.tokens.len() {
        if let Some(end) = here.after(Sign::CloseParenthesis) {
            return Ok(Some((found, end)));
        }
        let Some((item, behind)) = event_parameter(alloc, has_default, here)? else {
            return Ok(None);
        };
        found.push(item)?;
        let Some(next) = here.resumed(Sign::Comma, behind) else {
            let Some(end) = here.resumed(Sign::CloseParenthesis, behind) else {
                return Ok(None);
            };
            return Ok(Some((found, end)));
        };
        here = next;
    }
    Ok(None)
}

#[tactic(auto, unfolding(crate::specs::Code::Reading::event_parameters, cad_parse_type::specs::Code::Views::seen))]
fn event_parameters(
    alloc: Global,
    has_default: bool,
    spot: Spot<'_>,
) -> Result<Option<(Vec<EventParameter>, Spot<'_>)>, AllocError>
    ensures { IfOk result (λ o. option_map (seen_with event_parameters_in) o ≡ spec.event_parameters has_default (seen spot.entry)) }
{
    let Some(inner) = spot.opening(Sign::OpenParenthesis) else {
        return Ok(None);
    };
    let Some((all, end)) = event_parameter_list(alloc, has_default, inner)? else {
        return Ok(None);
    };
    Ok(Some((all, spot.back(end))))
}

fn is_destruction(name: &Name) -> bool
    ensures { result ≡ grammar.is_destruction name.now }
{
    name.0.as_str() == "ResourceDestroyed"
}

/// The event that begins behind its access and its `event`, which stands at `from`, and the spot behind its `)`; None where
/// none begins.
#[tactic(auto, unfolding(crate::specs::Code::Reading::event))]
pub fn event<'a>(
    alloc: Global,
    from: Spot<'a>,
    access: Access,
    spot: Spot<'a>,
) -> Result<Option<(Event, Spot<'a>)>, AllocError>
    ensures { IfOk result (λ o. option_map (seen_with event_of) o ≡ spec.event (seen from.entry) access (seen spot.entry)) }
{
    let Some((name, spot)) = spot.name() else {
        drop(access);
        return Ok(None);
    };
    match event_parameters(alloc, is_destruction(name), spot) {
        Ok(Some((parameters, end))) => match name.clone() {
            Ok(name) => {
                let event = Event {
                    access: Some(access),
                    name,
                    parameters,
                };
                Ok(Some((event, from.back(end))))
            }
            Err(error) => {
                drop(access);
                Err(error)
            }
        },
        Ok(None) => {
            drop(access);
            Ok(None)
        }
        Err(error) => {
            drop(access);
            Err(error)
        }
    }
}

/// The event `ResourceDestroyed` without access, behind its `event`, which stands at `from`, and the spot behind its `)`;
/// None where another event or none begins.
#[tactic(auto, unfolding(crate::specs::Code::Reading::destruction))]
pub fn destruction<'a>(
    alloc: Global,
    from: Spot<'a>,
    spot: Spot<'a>,
) -> Result<Option<(Event, Spot<'a>)>, AllocError>
    ensures { IfOk result (λ o. option_map (seen_with event_of) o ≡ spec.destruction (seen from.entry) (seen spot.entry)) }
{
    let Some((name, spot)) = spot.name() else {
        return Ok(None);
    };
    if !is_destruction(name) {
        return Ok(None);
    }
    let Some((parameters, end)) = event_parameters(alloc, true, spot)? else {
        return Ok(None);
    };
    let event = Event {
        access: None,
        name: name.clone()?,
        parameters,
    };
    Ok(Some((event, from.back(end))))
}

#[tactic(auto, unfolding(crate::specs::Code::Reading::composite_member_with))]
fn composite_member_with<'a>(
    alloc: Global,
    access: Access,
    spot: Spot<'a>,
) -> Result<Option<(CompositeMember, Spot<'a>)>, AllocError>
    ensures { IfOk result (λ o. option_map (seen_with composite_member_of) o ≡ spec.composite_member_with access (seen spot.entry)) }
{
    if let Some((kind, behind)) = variable_word(spot) {
        let Some((found, end)) = field(alloc, access, kind, behind)? else {
            return Ok(None);
        };
        return Ok(Some((CompositeMember::Field(found), end)));
    }
    if let Some(behind) = spot.keyword(Keyword::Event) {
        let Some((found, end)) = event(alloc, spot, access, behind)? else {
            return Ok(None);
        };
        return Ok(Some((CompositeMember::Event(found), end)));
    }
    let Some((found, end)) = function(alloc, false, access, spot)? else {
        return Ok(None);
    };
    Ok(Some((CompositeMember::Function(found), end)))
}

#[tactic(auto, unfolding(crate::specs::Code::Reading::composite_member))]
fn composite_member(
    alloc: Global,
    spot: Spot<'_>,
) -> Result<Option<(CompositeMember, Spot<'_>)>, AllocError>
    ensures { IfOk result (λ o. option_map (seen_with composite_member_of) o ≡ spec.composite_member (seen spot.entry)) }
{
    if let Some((access, behind)) = accessed(alloc, spot)? {
        return composite_member_with(alloc, access, behind);
    }
    if let Some(behind) = spot.keyword(Keyword::Event) {
        let Some((found, end)) = destruction(alloc, spot, behind)? else {
            return Ok(None);
        };
        return Ok(Some((CompositeMember::Event(found), end)));
    }
    let Some((is_view, behind)) = viewed(Keyword::Init, spot) else {
        return Ok(None);
    };
    let Some((found, end)) = initializer(alloc, is_view, behind)? else {
        return Ok(None);
    };
    Ok(Some((CompositeMember::Init(found), end)))
}

/// The members of a composite up to a `}`, and the spot behind that; None where other tokens stand before it.
#[tactic(auto, unfolding(crate::specs::Code::Parts::repeated))]
pub fn composite_members(
    alloc: Global,
    spot: Spot<'_>,
) -> Result<Option<(Vec<CompositeMember>, Spot<'_>)>, AllocError>
    ensures { IfOk result (λ o. option_map (seen_with composite_members_in) o ≡ parts.repeated spec.composite_member s.CloseBrace (length spot.entry.tokens.now) [] (seen spot.entry)) }
{
    let mut found = Vec::new(alloc);
    let mut here = spot;
    for _turn in 0..spot.tokens.len() {
        if let Some(end) = here.after(Sign::CloseBrace) {
            return Ok(Some((found, end)));
        }
        let Some((item, next)) = composite_member(alloc, here)? else {
            return Ok(None);
        };
        found.push(item)?;
        here = next;
    }
    Ok(None)
}

#[tactic(auto, unfolding(crate::specs::Code::Reading::unsorted))]
fn unsorted<'a>(
    alloc: Global,
    access: Access,
    name: &Name,
    spot: Spot<'a>,
) -> Result<Option<(InterfaceMember, Spot<'a>)>, AllocError>
    ensures { IfOk result (λ o. option_map (seen_with interface_member_of) o ≡ spec.unsorted access name.now (seen spot.entry)) }
{
    match annotation(alloc, spot) {
        Ok(Some((annotation, end))) => match name.clone() {
            Ok(name) => {
                let field = Field {
                    access,
                    kind: None,
                    name,
                    annotation,
                };
                Ok(Some((InterfaceMember::Field(field), end)))
            }
            Err(error) => {
                drop(access);
                drop(annotation);
                Err(error)
            }
        },
        Ok(None) => {
            drop(access);
            Ok(None)
        }
        Err(error) => {
            drop(access);
            Err(error)
        }
    }
}

#[tactic(auto, unfolding(crate::specs::Code::Reading::interface_member_with))]
fn interface_member_with<'a>(
    alloc: Global,
    access: Access,
    spot: Spot<'a>,
) -> Result<Option<(InterfaceMember, Spot<'a>)>, AllocError>
    ensures { IfOk result (λ o. option_map (seen_with interface_member_of) o ≡ spec.interface_member_with access (seen spot.entry)) }
{
    if let Some((kind, behind)) = variable_word(spot) {
        let Some((found, end)) = field(alloc, access, kind, behind)? else {
            return Ok(None);
        };
        return Ok(Some((InterfaceMember::Field(found), end)));
    }
    if let Some((name, behind)) = labelled(spot) {
        return unsorted(alloc, access, name, behind);
    }
    let Some((found, end)) = function(alloc, true, access, spot)? else {
        return Ok(None);
    };
    Ok(Some((InterfaceMember::Function(found), end)))
}

#[tactic(auto, unfolding(crate::specs::Code::Reading::interface_member))]
fn interface_member(
    alloc: Global,
    spot: Spot<'_>,
) -> Result<Option<(InterfaceMember, Spot<'_>)>, AllocError>
    ensures { IfOk result (λ o. option_map (seen_with interface_member_of) o ≡ spec.interface_member (seen spot.entry)) }
{
    let Some((access, behind)) = accessed(alloc, spot)? else {
        return Ok(None);
    };
    interface_member_with(alloc, access, behind)
}

/// The members of an interface up to a `}`, and the spot behind that; None where other tokens stand before it.
#[tactic(auto, unfolding(crate::specs::Code::Parts::repeated))]
pub fn interface_members(
    alloc: Global,
    spot: Spot<'_>,
) -> Result<Option<(Vec<InterfaceMember>, Spot<'_>)>, AllocError>
    ensures { IfOk result (λ o. option_map (seen_with interface_members_in) o ≡ parts.repeated spec.interface_member s.CloseBrace (length spot.entry.tokens.now) [] (seen spot.entry)) }
{
    let mut found = Vec::new(alloc);
    let mut here = spot;
    for _turn in 0..spot.tokens.len() {
        if let Some(end) = here.after(Sign::CloseBrace) {
            return Ok(Some((found, end)));
        }
        let Some((item, next)) = interface_member(alloc, here)? else {
            return Ok(None);
        };
        found.push(item)?;
        here = next;
    }
    Ok(None)
}
