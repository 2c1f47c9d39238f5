// Heads of declarations: fields, enums and events.
ghost use Rattle.std.specs.Prelude.{◌≡◌, ◌&&◌, IfOk, Some, length, map, not};
ghost use Rattle.std.specs.List.{list_all};
ghost use Rattle.cad_syntax.specs.Types as types;
ghost use Rattle.cad_syntax.specs.declared.types.Basic.TheVariants as basic;
ghost use Rattle.cad_syntax.specs.Types.{pure_type};
ghost use Rattle.cad_grammar.specs.Trees as tree;
ghost use Rattle.cad_grammar.specs.Views.{composite_member_of, composite_of, contract_member_of, enum_of, event_of, event_parameter_of, field_of, interface_member_of, interface_of, parameter_of};
ghost use Rattle.cad_types.specs.Declarations.{resource};
ghost use Rattle.cad_declarations.specs.Entries as entries;
ghost use Rattle.cad_declarations.specs.Kinds.{kinds_of};
ghost use Rattle.cad_declarations.specs.Views.{tables_of};
ghost use Rattle.cad_scopes.specs.Views.{scope_of};
ghost use Rattle.cad_typing.specs.Heads as spec;
ghost use Rattle.cad_typing.specs.Types as classes;

use crate::head::{annotated_type, is_annotated, scope_in, type_entry};
use crate::names::are_new;
use cad_builtins::is_integer;
use cad_declarations::discard_type;
use cad_environment::Known;
use cad_grammar::{
    Composite, CompositeKind, CompositeMember, ContractMember, Enum, EnumCase, Event,
    EventParameter, Field, Interface, InterfaceMember, Parameter, TypeExpr,
};
use cad_scopes::Scope;
use cad_syntax::{Basic, CadType, Kind, Name, Names};
use cad_type_classes::{is_exportable, is_storable};
use cad_types::is_resource;
use std::alloc::{AllocError, Global};

/// Whether a contract may have a field: what it has can be stored.
fn contract_field(alloc: Global, known: Known<'_>, field: &Field) -> Result<bool, AllocError>
    ensures { IfOk result (λ b. b ≡ spec.contract_field (tables_of known.entry.tables.now) (field_of field.now)) }
{
    let scope = scope_in(known);
    if !is_annotated(alloc, scope, &field.annotation)? {
        return Ok(false);
    }
    let declared = annotated_type(alloc, scope, &field.annotation)?;
    let storable = is_storable(alloc, known.declared(), &declared);
    discard_type(declared);
    storable
}

/// Whether a struct or resource, or an interface of them, may have a field of this type: a struct has no resources.
fn may_have(kind: CompositeKind, known: Known<'_>, t: &CadType) -> bool
    ensures { result ≡ spec.may_have kind (tables_of known.entry.tables.now) (pure_type t.now) }
{
    match kind {
        CompositeKind::Struct => !is_resource(known.declared(), t),
        CompositeKind::Resource => true,
    }
}

fn composite_field(
    alloc: Global,
    kind: CompositeKind,
    known: Known<'_>,
    field: &Field,
) -> Result<bool, AllocError>
    ensures { IfOk result (λ b. b ≡ spec.composite_field kind (tables_of known.entry.tables.now) (field_of field.now)) }
{
    let scope = scope_in(known);
    if !is_annotated(alloc, scope, &field.annotation)? {
        return Ok(false);
    }
    let declared = annotated_type(alloc, scope, &field.annotation)?;
    let right = may_have(kind, known, &declared);
    discard_type(declared);
    Ok(right)
}

fn contract_member_is_right(
    alloc: Global,
    known: Known<'_>,
    member: &ContractMember,
) -> Result<bool, AllocError>
    ensures { IfOk result (λ b. b ≡ spec.contract_member_is_right (tables_of known.entry.tables.now) (contract_member_of member.now)) }
{
    match member {
        ContractMember::Field(field) => contract_field(alloc, known, field),
        ContractMember::Function(_) => Ok(true),
        ContractMember::Init(_) => Ok(true),
        ContractMember::Composite(_) => Ok(true),
        ContractMember::Interface(_) => Ok(true),
        ContractMember::Event(_) => Ok(true),
        ContractMember::Enum(_) => Ok(true),
        ContractMember::Entitlement(_) => Ok(true),
        ContractMember::Mapping(_) => Ok(true),
    }
}

fn composite_member_is_right(
    alloc: Global,
    kind: CompositeKind,
    known: Known<'_>,
    member: &CompositeMember,
) -> Result<bool, AllocError>
    ensures { IfOk result (λ b. b ≡ spec.composite_member_is_right kind (tables_of known.entry.tables.now) (composite_member_of member.now)) }
{
    match member {
        CompositeMember::Field(field) => composite_field(alloc, kind, known, field),
        CompositeMember::Function(_) => Ok(true),
        CompositeMember::Init(_) => Ok(true),
        CompositeMember::Event(_) => Ok(true),
    }
}

fn interface_member_is_right(
    alloc: Global,
    kind: CompositeKind,
    known: Known<'_>,
    member: &InterfaceMember,
) -> Result<bool, AllocError>
    ensures { IfOk result (λ b. b ≡ spec.interface_member_is_right kind (tables_of known.entry.tables.now) (interface_member_of member.now)) }
{
    match member {
        InterfaceMember::Field(field) => composite_field(alloc, kind, known, field),
        InterfaceMember::Function(_) => Ok(true),
    }
}

/// Whether the fields of a contract are right. It fails where memory runs out alone.
pub fn contract_is_right(
    alloc: Global,
    known: Known<'_>,
    members: &[ContractMember],
) -> Result<bool, AllocError>
    ensures { IfOk result (λ b. b ≡ spec.contract_is_right (tables_of known.entry.tables.now) (map contract_member_of members.now)) }
{
    for member in members {
        if !contract_member_is_right(alloc, known, member)? {
            return Ok(false);
        }
    }
    Ok(true)
}

fn composite_members_are_right(
    alloc: Global,
    kind: CompositeKind,
    known: Known<'_>,
    members: &[CompositeMember],
) -> Result<bool, AllocError>
    ensures { IfOk result (λ b. b ≡ list_all (spec.composite_member_is_right kind (tables_of known.entry.tables.now)) (map composite_member_of members.now)) }
{
    for member in members {
        if !composite_member_is_right(alloc, kind, known, member)? {
            return Ok(false);
        }
    }
    Ok(true)
}

/// Whether the fields of a composite are right. It fails where memory runs out alone.
pub fn composite_is_right(
    alloc: Global,
    known: Known<'_>,
    declared: &Composite,
) -> Result<bool, AllocError>
    ensures { IfOk result (λ b. b ≡ spec.composite_is_right (tables_of known.entry.tables.now) (composite_of declared.now)) }
{
    composite_members_are_right(alloc, declared.kind, known, declared.members.as_slice())
}

fn interface_members_are_right(
    alloc: Global,
    kind: CompositeKind,
    known: Known<'_>,
    members: &[InterfaceMember],
) -> Result<bool, AllocError>
    ensures { IfOk result (λ b. b ≡ list_all (spec.interface_member_is_right kind (tables_of known.entry.tables.now)) (map interface_member_of members.now)) }
{
    for member in members {
        if !interface_member_is_right(alloc, kind, known, member)? {
            return Ok(false);
        }
    }
    Ok(true)
}

/// Whether the fields of an interface are right. It fails where memory runs out alone.
pub fn interface_is_right(
    alloc: Global,
    known: Known<'_>,
    declared: &Interface,
) -> Result<bool, AllocError>
    ensures { IfOk result (λ b. b ≡ spec.interface_is_right (tables_of known.entry.tables.now) (interface_of declared.now)) }
{
    interface_members_are_right(alloc, declared.kind, known, declared.members.as_slice())
}

/// Whether the places of cases, from 0, are numbers of a kind.
fn holds(cases: &[EnumCase], kind: Kind) -> bool
    ensures { result ≡ spec.holds_cases (length cases.now) (Some kind) }
{
    match cases {
        [] => true,
        [_first, more @ ..] => more.len() as u128 <= kind.greatest(),
    }
}

fn holds_cases(cases: &[EnumCase], kind: Option<Kind>) -> bool
    ensures { result ≡ spec.holds_cases (length cases.now) kind }
{
    match kind {
        Some(kind) => holds(cases, kind),
        None => false,
    }
}

/// The kind of integers that a type is.
fn raw_kind(t: &CadType) -> Option<Kind>
    ensures { result ≡ entries.raw_kind (pure_type t.now) }
{
    match t {
        CadType::Basic(Basic::Number(kind)) => integer_kind(*kind),
        _ => None,
    }
}

fn integer_kind(kind: Kind) -> Option<Kind>
    ensures { result ≡ entries.raw_kind (types.basic (basic.Number kind)) }
{
    if is_integer(kind) { Some(kind) } else { None }
}

/// The type of a name, as it is written without arguments.
fn named_type(alloc: Global, scope: Scope<'_>, name: &Names) -> Result<CadType, AllocError>
    ensures { IfOk result (λ t. pure_type t ≡ entries.type_entry (scope_of scope.entry) (tree.named name.now tree.no_annotations)) }
{
    let written = TypeExpr::Named {
        name: name.clone()?,
        arguments: Vec::new(alloc),
    };
    type_entry(alloc, scope, &written)
}

/// Whether an enum has no more cases than there are numbers of its raw type. It fails where memory runs out alone.
pub fn enum_is_right(alloc: Global, known: Known<'_>, declared: &Enum) -> Result<bool, AllocError>
    ensures { IfOk result (λ b. b ≡ spec.enum_is_right (tables_of known.entry.tables.now) (enum_of declared.now)) }
{
    let raw = named_type(alloc, scope_in(known), &declared.raw)?;
    let kind = raw_kind(&raw);
    discard_type(raw);
    Ok(holds_cases(declared.cases.as_slice(), kind))
}

/// Whether an event may have a field of this type: it can be exported, and is no resource.
fn may_be_told(alloc: Global, known: Known<'_>, t: &CadType) -> Result<bool, AllocError>
    ensures { IfOk result (λ b. b ≡ (classes.is_exportable (kinds_of (tables_of known.entry.tables.now)) (pure_type t.now) && not (resource (kinds_of (tables_of known.entry.tables.now)) (pure_type t.now)))) }
{
    if !is_exportable(alloc, known.declared(), t)? {
        return Ok(false);
    }
    Ok(!is_resource(known.declared(), t))
}

/// Whether an event may have a field: it can be exported, and is no resource.
fn event_field(alloc: Global, known: Known<'_>, parameter: &Parameter) -> Result<bool, AllocError>
    ensures { IfOk result (λ b. b ≡ spec.event_field (tables_of known.entry.tables.now) (parameter_of parameter.now)) }
{
    let scope = scope_in(known);
    if !is_annotated(alloc, scope, &parameter.annotation)? {
        return Ok(false);
    }
    let declared = annotated_type(alloc, scope, &parameter.annotation)?;
    let right = may_be_told(alloc, known, &declared);
    discard_type(declared);
    right
}

fn event_fields(
    alloc: Global,
    known: Known<'_>,
    parameters: &[EventParameter],
) -> Result<bool, AllocError>
    ensures { IfOk result (λ b. b ≡ list_all (λ p. spec.event_field (tables_of known.entry.tables.now) p.parameter) (map event_parameter_of parameters.now)) }
{
    for parameter in parameters {
        if !event_field(alloc, known, &parameter.parameter)? {
            return Ok(false);
        }
    }
    Ok(true)
}

fn event_names(alloc: Global, parameters: &[EventParameter]) -> Result<Vec<&Name>, AllocError>
    ensures { IfOk result (λ all. map (λ n. n.now) all.items ≡ map (λ p. p.parameter.name) (map event_parameter_of parameters.now)) }
{
    let mut all = Vec::new(alloc);
    for parameter in parameters {
        all.push(&parameter.parameter.name)?;
    }
    Ok(all)
}

/// Whether the fields of an event are right, and no two have one name. It fails where memory runs out alone.
pub fn event_is_right(alloc: Global, known: Known<'_>, event: &Event) -> Result<bool, AllocError>
    ensures { IfOk result (λ b. b ≡ spec.event_is_right (tables_of known.entry.tables.now) (event_of event.now)) }
{
    if !event_fields(alloc, known, event.parameters.as_slice())? {
        return Ok(false);
    }
    let names = event_names(alloc, event.parameters.as_slice())?;
    are_new(alloc, names.as_slice())
}
