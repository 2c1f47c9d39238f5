// Fields that are to be set, and what sets them.
ghost use Rattle.std.specs.Prelude.{◌≡◌, ◌++◌, ◌||◌, IfOk, List, map, not, option_map};
ghost use Rattle.cad_syntax.specs.Types.{pure_type};
ghost use Rattle.cad_types.specs.Declarations.{resource};
ghost use Rattle.cad_declarations.specs.Views.{form_of, member_of, signature_of, tables_of, type_entry_of};
ghost use Rattle.cad_paths.specs.Fields as spec;
ghost use Rattle.cad_paths.specs.declared.letter.FieldRule.{FieldRule};
ghost use Rattle.cad_pure.specs.Views as views;

use crate::tables::{found_entry, is_resource};
use cad_declarations::{Member, MemberKind, Signature, Tables, TypeDeclaration};
use cad_grammar::VariableKind;
use cad_paths::FieldRule;
use cad_syntax::{CadType, Name, TypeId};
use cad_types::Sort;
use std::alloc::{AllocError, Global};

/// The fields that an initializer of a declared type sets, in their order, and whether each may be set but once: a `let` field,
/// and one of resource type. None of an identifier that isn't declared. `Err`: there was no memory.
pub fn rules_in(alloc: Global, tables: &Tables, id: &TypeId) -> Result<Vec<FieldRule>, AllocError>
    ensures { IfOk result (λ all. all.items ≡ spec.rules_in (tables_of tables.now) id.now) }
{
    match found_entry(tables, id) {
        None => Ok(Vec::new(alloc)),
        Some(declared) => field_rules(alloc, tables, declared.members.as_slice()),
    }
}

/// The rules of the fields among members.
fn field_rules(
    alloc: Global,
    tables: &Tables,
    members: &[Member],
) -> Result<Vec<FieldRule>, AllocError>
    ensures { IfOk result (λ all. all.items ≡ spec.field_rules (spec.declarations_in (tables_of tables.now)) (map member_of members.now)) }
{
    let mut all = Vec::new(alloc);
    for member in members {
        push_rule(&mut all, tables, member)?;
    }
    Ok(all)
}

/// Adds the rule of a member that is a field.
fn push_rule(all: &mut Vec<FieldRule>, tables: &Tables, member: &Member) -> Result<(), AllocError>
    ensures { IfOk result (λ _. (rest : List FieldRule) → all.new.items ++ rest ≡ all.old.items ++ spec.field_rule (spec.declarations_in (tables_of tables.now)) (member_of member.now).name (member_of member.now).form rest) }
{
    match &member.kind {
        MemberKind::Field { kind, declared } => {
            all.push(rule(tables, &member.name, *kind, declared)?)?;
            Ok(())
        }
        MemberKind::Function { .. } => Ok(()),
    }
}

/// The rule of a field.
fn rule(
    tables: &Tables,
    name: &Name,
    kind: Option<VariableKind>,
    t: &CadType,
) -> Result<FieldRule, AllocError>
    ensures { IfOk result (λ r. r ≡ record { name = name.now; is_once = spec.is_let kind || resource (spec.declarations_in (tables_of tables.now)) (pure_type t.now) }) }
{
    let is_once = is_let(kind) || is_resource(tables, t);
    Ok(FieldRule {
        name: name.clone()?,
        is_once,
    })
}

/// Whether a field is written with `let`.
fn is_let(kind: Option<VariableKind>) -> bool
    ensures { result ≡ spec.is_let kind }
{
    match kind {
        Some(VariableKind::Let) => true,
        _ => false,
    }
}

/// Whether values of this sort are made by an initializer.
fn needs_initializer(sort: Sort) -> bool
    ensures { result ≡ spec.needs_initializer sort }
{
    matches!(sort, Sort::Contract | Sort::Struct | Sort::Resource)
}

fn is_absent(initializer: &Option<Signature>) -> bool
    ensures { result ≡ spec.is_absent (option_map signature_of initializer.now) }
{
    match initializer {
        None => true,
        Some(_) => false,
    }
}

/// Whether some member is a field.
fn has_field(members: &[Member]) -> bool
    ensures { result ≡ not (spec.is_empty (spec.field_types (map member_of members.now))) }
{
    for member in members {
        if is_field(&member.kind) {
            return true;
        }
    }
    false
}

fn is_field(kind: &MemberKind) -> bool
    ensures { result ≡ views.is_field (form_of kind.now) }
{
    match kind {
        MemberKind::Field { .. } => true,
        MemberKind::Function { .. } => false,
    }
}

/// Whether a struct, resource or contract has fields, and no initializer that is written.
pub fn lacks_initializer(declared: &TypeDeclaration) -> bool
    ensures { result ≡ spec.lacks_initializer (type_entry_of declared.now) }
{
    needs_initializer(declared.sort)
        && is_absent(&declared.initializer)
        && has_field(declared.members.as_slice())
}
