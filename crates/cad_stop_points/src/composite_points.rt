// Where composites and interfaces are refused.
ghost use Rattle.std.specs.Prelude.{◌≡◌, ◌&&◌, not, map, reverse, IfOk};
ghost use Rattle.cad_grammar.specs.Views.{composite_of, composite_member_of, event_of, interface_of, interface_member_of};
ghost use Rattle.cad_declarations.specs.Build as build;
ghost use Rattle.cad_declarations.specs.Points as spec;
ghost use Rattle.cad_declarations.specs.Reached as reached;
ghost use Rattle.cad_scopes.specs.Views.{scope_of};

use crate::before::NamesBefore;
use crate::names::{
    below, composite_member_name, interface_member_name, is_new, names_of_composite,
};
use crate::points::{event_stop, function_stop, init_stop, unless_right};
use crate::right::{access_is_there, field_is_right, interfaces_are_there};
use cad_declarations::{Links, Stop, linearised};
use cad_grammar::{Composite, CompositeKind, CompositeMember, Event, Interface, InterfaceMember};
use cad_scopes::{Scope, is_spelled};
use cad_syntax::{Name, TypeId, contains};
use std::alloc::{AllocError, Global};

/// Whether an event is `ResourceDestroyed`.
pub fn is_destroyed_event(x: &Event) -> bool
    ensures { result ≡ spec.is_destroyed_event (event_of x.now) }
{
    is_spelled(&x.name, "ResourceDestroyed")
}

/// Whether `ResourceDestroyed` may stand in a composite.
fn has_destroyed_event(kind: CompositeKind) -> bool
    ensures { result ≡ spec.has_destroyed_event kind }
{
    matches!(kind, CompositeKind::Resource)
}

/// Whether a member of a composite is no field, or a right one.
fn composite_field_is_right(
    alloc: Global,
    scope: Scope<'_>,
    before: &NamesBefore,
    member: &CompositeMember,
) -> Result<bool, AllocError>
    ensures { IfOk result (λ b. b ≡ spec.composite_field_is_right (scope_of scope.entry) (reverse before.now) (composite_member_of member.now)) }
{
    match member {
        CompositeMember::Field(x) => field_is_right(alloc, scope, before, x),
        _ => Ok(true),
    }
}

/// Whether the fields of a composite are right.
#[tactic(auto, using(crate::proofs::Lists::reversed_one))]
fn composite_fields_are_right(
    alloc: Global,
    scope: Scope<'_>,
    kind: CompositeKind,
    members: &[CompositeMember],
) -> Result<bool, AllocError>
    ensures { IfOk result (λ b. b ≡ spec.composite_fields_are_right (scope_of scope.entry) (spec.names_of_composite kind) (map composite_member_of members.now)) }
{
    let mut before = names_of_composite(alloc, kind)?;
    for member in members {
        if !composite_field_is_right(alloc, scope, &before, member)? {
            return Ok(false);
        }
        before.push(composite_member_name(alloc, member)?)?;
    }
    Ok(true)
}

/// The stop of a member of a composite.
fn composite_member_stop(
    alloc: Global,
    scope: Scope<'_>,
    kind: CompositeKind,
    names: &[Name],
    before: &NamesBefore,
    member: &CompositeMember,
) -> Result<Option<Stop>, AllocError>
    ensures { IfOk result (λ s. s ≡ build.first_stop (scope_of scope.entry) (spec.composite_member_points (scope_of scope.entry) kind names.now (reverse before.now) (composite_member_of member.now))) }
{
    match member {
        CompositeMember::Field(_) => Ok(None),
        CompositeMember::Function(x) => function_stop(alloc, scope, names, before, x),
        CompositeMember::Init(x) => init_stop(alloc, scope, names, before, x),
        CompositeMember::Event(x) => {
            let is_placed = is_destroyed_event(x) && has_destroyed_event(kind);
            event_stop(alloc, scope, names, before, is_placed, x)
        }
    }
}

/// The first stop of the members of a composite.
#[tactic(auto, using(crate::proofs::Lists::reversed_one, crate::proofs::Stops::first_of_both))]
fn composite_members_stop(
    alloc: Global,
    scope: Scope<'_>,
    kind: CompositeKind,
    names: &[Name],
    members: &[CompositeMember],
) -> Result<Option<Stop>, AllocError>
    ensures { IfOk result (λ s. s ≡ build.first_stop (scope_of scope.entry) (spec.composite_members_points (scope_of scope.entry) kind names.now (spec.names_of_composite kind) (map composite_member_of members.now))) }
{
    let mut before = names_of_composite(alloc, kind)?;
    for member in members {
        if let Some(stop) = composite_member_stop(alloc, scope, kind, names, &before, member)? {
            return Ok(Some(stop));
        }
        before.push(composite_member_name(alloc, member)?)?;
    }
    Ok(None)
}

/// Whether a composite itself is right.
fn composite_is_right(
    alloc: Global,
    scope: Scope<'_>,
    before: &NamesBefore,
    x: &Composite,
) -> Result<bool, AllocError>
    ensures { IfOk result (λ b. b ≡ (spec.is_new (reverse before.now) x.now.name && (spec.access_is_there (scope_of scope.entry) x.now.access && (spec.interfaces_are_there (scope_of scope.entry) x.now.kind x.now.conformances && spec.composite_fields_are_right (scope_of scope.entry) (spec.names_of_composite x.now.kind) (map composite_member_of x.now.members.items))))) }
{
    let access = access_is_there(alloc, scope, &x.access)?;
    let interfaces = interfaces_are_there(alloc, scope, x.kind, x.conformances.as_slice())?;
    let fields = composite_fields_are_right(alloc, scope, x.kind, x.members.as_slice())?;
    Ok(is_new(before, &x.name) && access && interfaces && fields)
}

/// The first stop of a composite.
pub fn composite_stop(
    alloc: Global,
    scope: Scope<'_>,
    names: &[Name],
    before: &NamesBefore,
    x: &Composite,
) -> Result<Option<Stop>, AllocError>
    ensures { IfOk result (λ s. s ≡ build.first_stop (scope_of scope.entry) (spec.composite_points (scope_of scope.entry) names.now (reverse before.now) (composite_of x.now))) }
{
    let right = composite_is_right(alloc, scope, before, x)?;
    if let Some(stop) = unless_right(alloc, right, names, &x.name)? {
        return Ok(Some(stop));
    }
    let inside = below(alloc, names, &x.name)?;
    composite_members_stop(
        alloc,
        scope,
        x.kind,
        inside.as_slice(),
        x.members.as_slice(),
    )
}

/// Whether a member of an interface is no field, or a right one.
fn interface_field_is_right(
    alloc: Global,
    scope: Scope<'_>,
    before: &NamesBefore,
    member: &InterfaceMember,
) -> Result<bool, AllocError>
    ensures { IfOk result (λ b. b ≡ spec.interface_field_is_right (scope_of scope.entry) (reverse before.now) (interface_member_of member.now)) }
{
    match member {
        InterfaceMember::Field(x) => field_is_right(alloc, scope, before, x),
        InterfaceMember::Function(_) => Ok(true),
    }
}

/// Whether the fields of an interface are right.
#[tactic(auto, using(crate::proofs::Lists::reversed_one))]
fn interface_fields_are_right(
    alloc: Global,
    scope: Scope<'_>,
    kind: CompositeKind,
    members: &[InterfaceMember],
) -> Result<bool, AllocError>
    ensures { IfOk result (λ b. b ≡ spec.interface_fields_are_right (scope_of scope.entry) (spec.names_of_composite kind) (map interface_member_of members.now)) }
{
    let mut before = names_of_composite(alloc, kind)?;
    for member in members {
        if !interface_field_is_right(alloc, scope, &before, member)? {
            return Ok(false);
        }
        before.push(interface_member_name(member)?)?;
    }
    Ok(true)
}

/// The stop of a member of an interface.
fn interface_member_stop(
    alloc: Global,
    scope: Scope<'_>,
    names: &[Name],
    before: &NamesBefore,
    member: &InterfaceMember,
) -> Result<Option<Stop>, AllocError>
    ensures { IfOk result (λ s. s ≡ build.first_stop (scope_of scope.entry) (spec.interface_member_points (scope_of scope.entry) names.now (reverse before.now) (interface_member_of member.now))) }
{
    match member {
        InterfaceMember::Field(_) => Ok(None),
        InterfaceMember::Function(x) => function_stop(alloc, scope, names, before, x),
    }
}

/// The first stop of the members of an interface.
#[tactic(auto, using(crate::proofs::Lists::reversed_one, crate::proofs::Stops::first_of_both))]
fn interface_members_stop(
    alloc: Global,
    scope: Scope<'_>,
    kind: CompositeKind,
    names: &[Name],
    members: &[InterfaceMember],
) -> Result<Option<Stop>, AllocError>
    ensures { IfOk result (λ s. s ≡ build.first_stop (scope_of scope.entry) (spec.interface_members_points (scope_of scope.entry) names.now (spec.names_of_composite kind) (map interface_member_of members.now))) }
{
    let mut before = names_of_composite(alloc, kind)?;
    for member in members {
        if let Some(stop) = interface_member_stop(alloc, scope, names, &before, member)? {
            return Ok(Some(stop));
        }
        before.push(interface_member_name(member)?)?;
    }
    Ok(None)
}

/// Whether a chain of links returns to the identifier.
fn is_on_circle(alloc: Global, links: &Links, id: &TypeId) -> Result<bool, AllocError>
    ensures { IfOk result (λ b. b ≡ reached.is_on_circle links.now id.now) }
{
    let reached = linearised(alloc, links, id)?;
    Ok(contains(reached.as_slice(), id))
}

/// Whether an interface itself is right.
fn interface_is_right(
    alloc: Global,
    scope: Scope<'_>,
    links: &Links,
    id: &TypeId,
    before: &NamesBefore,
    x: &Interface,
) -> Result<bool, AllocError>
    ensures { IfOk result (λ b. b ≡ (spec.is_new (reverse before.now) x.now.name && (spec.access_is_there (scope_of scope.entry) x.now.access && (spec.interfaces_are_there (scope_of scope.entry) x.now.kind x.now.conformances && (not (reached.is_on_circle links.now id.now) && spec.interface_fields_are_right (scope_of scope.entry) (spec.names_of_composite x.now.kind) (map interface_member_of x.now.members.items)))))) }
{
    let access = access_is_there(alloc, scope, &x.access)?;
    let interfaces = interfaces_are_there(alloc, scope, x.kind, x.conformances.as_slice())?;
    let circle = is_on_circle(alloc, links, id)?;
    let fields = interface_fields_are_right(alloc, scope, x.kind, x.members.as_slice())?;
    Ok(is_new(before, &x.name) && access && interfaces && !circle && fields)
}

/// The first stop of an interface.
pub fn interface_stop(
    alloc: Global,
    scope: Scope<'_>,
    links: &Links,
    id: &TypeId,
    names: &[Name],
    before: &NamesBefore,
    x: &Interface,
) -> Result<Option<Stop>, AllocError>
    ensures { IfOk result (λ s. s ≡ build.first_stop (scope_of scope.entry) (spec.interface_points (scope_of scope.entry) links.now id.now names.now (reverse before.now) (interface_of x.now))) }
{
    let right = interface_is_right(alloc, scope, links, id, before, x)?;
    if let Some(stop) = unless_right(alloc, right, names, &x.name)? {
        return Ok(Some(stop));
    }
    let inside = below(alloc, names, &x.name)?;
    interface_members_stop(
        alloc,
        scope,
        x.kind,
        inside.as_slice(),
        x.members.as_slice(),
    )
}
