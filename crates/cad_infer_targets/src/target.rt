// Places to which is written, and variables that are spent.
ghost use Rattle.std.specs.Prelude.{◌≡◌, IfOk, Some, false, option_map};
ghost use Rattle.cad_syntax.specs.Types.{pure_type};
ghost use Rattle.cad_declarations.specs.Typed as tree;
ghost use Rattle.cad_declarations.specs.Views.{member_of, place_of};
ghost use Rattle.cad_grammar.specs.Views.{expr_of};
ghost use Rattle.cad_grammar.specs.Trees as s;
ghost use Rattle.cad_declarations.specs.Tables as entries;
ghost use Rattle.cad_typing.specs.Access as access;
ghost use Rattle.cad_typing.specs.Environments.{when, ◌>=>◌};
ghost use Rattle.cad_typing.specs.Names as names;
ghost use Rattle.cad_typing.specs.Places as spec;
ghost use Rattle.cad_typing.specs.Receivers as receivers;
ghost use Rattle.cad_environment.specs.Views.{environment_of, part_of, typing_of, base_of, receiver_of, head_of, local_of};
ghost use Rattle.cad_infer_targets.specs.Views.{target_of};

use cad_builtins::may_replace_elements;
use cad_declarations::{Member, MemberKind, Place, discard_place, discard_type};
use cad_environment::{
    Base, Environment, Head, Local, Part, Position, Receiver, Typing, discard_base, discard_hidden,
    discard_receiver, discard_typing, head_named, is_being_made, is_place, may_write, of_contract,
    rights, self_base, transaction_field, variable_place,
};
use cad_grammar::{Expr, VariableKind};
use cad_infer::{based, infer};
use cad_infer_members::{Found, expected_index, found_member, indexed_type};
use cad_infer_parts::received;
use cad_syntax::{CadType, Name, TypeId};
use cad_typed_trees::{element_place, field_place};
use std::alloc::{AllocError, Global};

/// A place to which is written: a variable, or a member or element of a place or behind a reference.
#[derive(Drop)]
pub struct Target {
    pub place: Place,
    pub declared: CadType,
    /// A field of `self` in an initializer, or of a transaction in `prepare`: it may be set for the first time.
    pub is_own_field: bool,
}

/// Lets a target go.
pub fn discard_target(target: Target) {
    let Target {
        place,
        declared,
        ..
    } = target;
    discard_place(place);
    discard_type(declared);
}

/// The target of an assignment, a swap or a second value. None where nothing can be written there.
pub fn infer_target(
    e: &Expr,
    alloc: Global,
    env: Environment<'_>,
) -> Result<Option<Target>, AllocError>
    ensures { IfOk result (λ o. option_map target_of o ≡ spec.infer_target (environment_of env.entry) (expr_of e.now)) }
{
    match e {
        Expr::Name(name) => named_target(alloc, env, name),
        Expr::Member(a, name) => member_target(a, alloc, env, name),
        Expr::Index(a, i) => index_target(a, i, alloc, env),
        _ => Ok(None),
    }
}

/// A variable, as a target.
fn named_target(
    alloc: Global,
    env: Environment<'_>,
    name: &Name,
) -> Result<Option<Target>, AllocError>
    ensures { IfOk result (λ o. option_map target_of o ≡ spec.infer_target (environment_of env.entry) (s.name name.now)) }
{
    let Some(found) = head_named(env, name)? else {
        return Ok(None);
    };
    let target = variable_target(&found);
    drop(found);
    target
}

/// Only variables that are declared by `var` are assigned.
fn variable_target(found: &Head<'_>) -> Result<Option<Target>, AllocError>
    ensures { IfOk result (λ o. option_map target_of o ≡ spec.variable_target (head_of found.now)) }
{
    match found {
        Head::Local(v) => local_target(v, v.is_var, false),
        _ => Ok(None),
    }
}

/// A variable, where it may be written.
fn local_target(
    v: &Local,
    may_be_written: bool,
    is_own_field: bool,
) -> Result<Option<Target>, AllocError>
    ensures { IfOk result (λ o. option_map target_of o ≡ when may_be_written (Some (spec.target is_own_field (tree.variable (local_of v.now).number) (local_of v.now).type))) }
{
    if !may_be_written {
        return Ok(None);
    }
    let declared = v.declared.clone()?;
    Ok(Some(Target {
        place: variable_place(v.number),
        declared,
        is_own_field,
    }))
}

/// A member, as a target.
#[tactic(auto, unfolding(cad_infer_parts::specs::Code::Steps::based))]
fn member_target(
    a: &Expr,
    alloc: Global,
    env: Environment<'_>,
    name: &Name,
) -> Result<Option<Target>, AllocError>
    ensures { IfOk result (λ o. option_map target_of o ≡ spec.infer_target (environment_of env.entry) (s.member (expr_of a.now) name.now)) }
{
    let Some(base) = based(a, alloc, env)? else {
        return Ok(None);
    };
    target_in(alloc, env, a, name, base)
}

/// A member of what stands before the `.`, as a target.
fn target_in(
    alloc: Global,
    env: Environment<'_>,
    a: &Expr,
    name: &Name,
    base: Base,
) -> Result<Option<Target>, AllocError>
    ensures { IfOk result (λ o. option_map target_of o ≡ spec.member_target (environment_of env.entry) (expr_of a.now) name.now (base_of base)) }
{
    match base {
        Base::Value(r) => field_target(alloc, env, a, name, r),
        Base::Contract(id) => contract_target(alloc, env, a, name, id),
        Base::Transaction => transaction_target(env, name),
        Base::TypeName(t) => {
            discard_type(t);
            Ok(None)
        }
        Base::Chained(r, _wraps) => {
            discard_receiver(r);
            Ok(None)
        }
    }
}

/// A field of a contract, as a target.
fn contract_target(
    alloc: Global,
    env: Environment<'_>,
    a: &Expr,
    name: &Name,
    id: TypeId,
) -> Result<Option<Target>, AllocError>
    ensures { IfOk result (λ o. option_map target_of o ≡ spec.field_target (environment_of env.entry) (expr_of a.now) name.now (receivers.of_contract id)) }
{
    let r = of_contract(id)?;
    field_target(alloc, env, a, name, r)
}

/// A field of a transaction, as a target: a `let` field is set in `prepare`.
fn transaction_target(env: Environment<'_>, name: &Name) -> Result<Option<Target>, AllocError>
    ensures { IfOk result (λ o. option_map target_of o ≡ (names.transaction_field (environment_of env.entry) name.now >=> spec.transaction_target (environment_of env.entry))) }
{
    let Some(v) = transaction_field(env, name) else {
        return Ok(None);
    };
    let is_first = is_prepare(env.part);
    local_target(v, v.is_var || is_first, is_first)
}

/// Whether the code stands in `prepare`.
fn is_prepare(part: Part<'_>) -> bool
    ensures { result ≡ spec.is_prepare (part_of part.entry) }
{
    match part {
        Part::PrepareBody => true,
        _ => false,
    }
}

/// Whether what is written is in a place of the program, or behind a reference.
fn is_lasting(a: &Expr, r: &Receiver) -> bool
    ensures { result ≡ spec.is_lasting (expr_of a.now) (receiver_of r.now) }
{
    r.hidden.is_none() && (r.grant.is_some() || is_place(a))
}

/// A field, as a target.
fn field_target(
    alloc: Global,
    env: Environment<'_>,
    a: &Expr,
    name: &Name,
    r: Receiver,
) -> Result<Option<Target>, AllocError>
    ensures { IfOk result (λ o. option_map target_of o ≡ spec.field_target (environment_of env.entry) (expr_of a.now) name.now (receiver_of r)) }
{
    if !is_lasting(a, &r) {
        discard_receiver(r);
        return Ok(None);
    }
    let Some(found) = found_member(env, &r.declared, name) else {
        discard_receiver(r);
        return Ok(None);
    };
    match found {
        Found::Declared(member) => form_target(alloc, env, r, member),
        Found::BuiltIn(_) => {
            discard_receiver(r);
            Ok(None)
        }
    }
}

/// A declared field, as a target, where it is served and may be written.
fn form_target(
    alloc: Global,
    env: Environment<'_>,
    r: Receiver,
    member: &Member,
) -> Result<Option<Target>, AllocError>
    ensures { IfOk result (λ o. option_map target_of o ≡ spec.form_target (environment_of env.entry) (receiver_of r) (member_of member.now) (member_of member.now).form) }
{
    match &member.kind {
        MemberKind::Field { kind, declared } => {
            written_field(alloc, env, r, member, *kind, declared)
        }
        MemberKind::Function { .. } => {
            discard_receiver(r);
            Ok(None)
        }
    }
}

/// A field of a word and a type, as a target.
fn written_field(
    alloc: Global,
    env: Environment<'_>,
    r: Receiver,
    member: &Member,
    word: Option<VariableKind>,
    declared: &CadType,
) -> Result<Option<Target>, AllocError>
    ensures { IfOk result (λ o. option_map target_of o ≡ spec.form_target (environment_of env.entry) (receiver_of r) (member_of member.now) (entries.field word (pure_type declared.now))) }
{
    match rights(alloc, env, &r, member) {
        Ok(Some(right)) => {
            drop(right);
            field_if(alloc, env, r, member, word, declared)
        }
        Ok(None) => {
            discard_receiver(r);
            Ok(None)
        }
        Err(error) => {
            discard_receiver(r);
            Err(error)
        }
    }
}

/// A field that is served, as a target, where it may be written.
fn field_if(
    alloc: Global,
    env: Environment<'_>,
    r: Receiver,
    member: &Member,
    word: Option<VariableKind>,
    declared: &CadType,
) -> Result<Option<Target>, AllocError>
    ensures { IfOk result (λ o. option_map target_of o ≡ when (access.may_write (environment_of env.entry) (receiver_of r) (member_of member.now) word) (Some (spec.target (access.is_being_made (environment_of env.entry) (receiver_of r)) (tree.field (receiver_of r).place (receiver_of r).type (member_of member.now).name) (pure_type declared.now)))) }
{
    if !may_write(env, &r, member, word) {
        discard_receiver(r);
        return Ok(None);
    }
    Ok(Some(target_of_field(alloc, env, r, member, declared)?))
}

/// A field of a receiver, as a target.
fn target_of_field(
    alloc: Global,
    env: Environment<'_>,
    r: Receiver,
    member: &Member,
    declared: &CadType,
) -> Result<Target, AllocError>
    ensures { IfOk result (λ o. target_of o ≡ spec.target (access.is_being_made (environment_of env.entry) (receiver_of r)) (tree.field (receiver_of r).place (receiver_of r).type (member_of member.now).name) (pure_type declared.now)) }
{
    let is_own_field = is_being_made(env, &r);
    let place = place_of_field(alloc, r, &member.name)?;
    target_at(place, declared, is_own_field)
}

/// The place of a field of a receiver.
fn place_of_field(alloc: Global, r: Receiver, name: &Name) -> Result<Place, AllocError>
    ensures { IfOk result (λ p. place_of p ≡ tree.field (receiver_of r).place (receiver_of r).type name.now) }
{
    match name.clone() {
        Ok(name) => {
            discard_hidden(r.hidden);
            drop(r.grant);
            field_place(alloc, r.place, r.declared, name)
        }
        Err(error) => {
            discard_receiver(r);
            Err(error)
        }
    }
}

/// A target of this place and type.
fn target_at(place: Place, declared: &CadType, is_own_field: bool) -> Result<Target, AllocError>
    ensures { IfOk result (λ o. target_of o ≡ spec.target is_own_field (place_of place) (pure_type declared.now)) }
{
    match declared.clone() {
        Ok(declared) => Ok(Target {
            place,
            declared,
            is_own_field,
        }),
        Err(error) => {
            discard_place(place);
            Err(error)
        }
    }
}

/// An element, as a target.
#[tactic(auto, unfolding(cad_infer_parts::specs::Code::Steps::received, cad_infer_parts::specs::Code::Steps::based))]
fn index_target(
    a: &Expr,
    i: &Expr,
    alloc: Global,
    env: Environment<'_>,
) -> Result<Option<Target>, AllocError>
    ensures { IfOk result (λ o. option_map target_of o ≡ spec.infer_target (environment_of env.entry) (s.index (expr_of a.now) (expr_of i.now))) }
{
    let Some(r) = received(based(a, alloc, env)?)? else {
        return Ok(None);
    };
    index_of_receiver(i, alloc, env, a, r)
}

/// An element of a receiver, as a target.
fn index_of_receiver(
    i: &Expr,
    alloc: Global,
    env: Environment<'_>,
    a: &Expr,
    r: Receiver,
) -> Result<Option<Target>, AllocError>
    ensures { IfOk result (λ o. option_map target_of o ≡ spec.index_target (environment_of env.entry) (expr_of a.now) (expr_of i.now) (receiver_of r)) }
{
    if !(is_lasting(a, &r) && may_replace(&r)) {
        discard_receiver(r);
        return Ok(None);
    }
    match infer(
        i,
        alloc,
        env,
        Position::Ordinary,
        expected_index(&r.declared),
    ) {
        Ok(index) => element_if(alloc, env, r, index),
        Err(error) => {
            discard_receiver(r);
            Err(error)
        }
    }
}

/// An element of a receiver at an index, as a target, where the index has a type.
fn element_if(
    alloc: Global,
    env: Environment<'_>,
    r: Receiver,
    index: Option<Typing>,
) -> Result<Option<Target>, AllocError>
    ensures { IfOk result (λ o. option_map target_of o ≡ (option_map typing_of index >=> spec.element_target (environment_of env.entry) (receiver_of r))) }
{
    let Some(index) = index else {
        discard_receiver(r);
        return Ok(None);
    };
    element_target(alloc, env, r, index)
}

/// Whether elements may be replaced: by the owner, or with the rights for it.
fn may_replace(r: &Receiver) -> bool
    ensures { result ≡ spec.may_replace (receiver_of r.now) }
{
    match &r.grant {
        None => true,
        Some(grant) => may_replace_elements(grant),
    }
}

/// An element of a receiver at an index, as a target.
fn element_target(
    alloc: Global,
    env: Environment<'_>,
    r: Receiver,
    index: Typing,
) -> Result<Option<Target>, AllocError>
    ensures { IfOk result (λ o. option_map target_of o ≡ spec.element_target (environment_of env.entry) (receiver_of r) (typing_of index)) }
{
    match indexed_type(alloc, env, &r.declared, &index.declared) {
        Ok(Some(declared)) => element_of_type(alloc, r, index, declared),
        Ok(None) => {
            discard_receiver(r);
            discard_typing(index);
            Ok(None)
        }
        Err(error) => {
            discard_receiver(r);
            discard_typing(index);
            Err(error)
        }
    }
}

/// An element of this type, as a target.
fn element_of_type(
    alloc: Global,
    r: Receiver,
    index: Typing,
    declared: CadType,
) -> Result<Option<Target>, AllocError>
    ensures { IfOk result (λ o. option_map target_of o ≡ Some (spec.target false (tree.element (receiver_of r).place (receiver_of r).type (typing_of index).term) (pure_type declared))) }
{
    discard_hidden(r.hidden);
    drop(r.grant);
    discard_type(index.declared);
    match element_place(alloc, r.place, r.declared, index.term) {
        Ok(place) => Ok(Some(Target {
            place,
            declared,
            is_own_field: false,
        })),
        Err(error) => {
            discard_type(declared);
            Err(error)
        }
    }
}

/// A variable, or a field of a transaction. None of any other form.
pub fn infer_variable<'a>(
    e: &Expr,
    alloc: Global,
    env: Environment<'a>,
) -> Result<Option<&'a Local>, AllocError>
    ensures { IfOk result (λ o. option_map (λ v. local_of v.now) o ≡ spec.infer_variable (environment_of env.entry) (expr_of e.now)) }
{
    match e {
        Expr::Name(name) => named_variable(alloc, env, name),
        Expr::Member(a, name) => member_variable(a, alloc, env, name),
        _ => Ok(None),
    }
}

/// A variable of a name.
fn named_variable<'a>(
    alloc: Global,
    env: Environment<'a>,
    name: &Name,
) -> Result<Option<&'a Local>, AllocError>
    ensures { IfOk result (λ o. option_map (λ v. local_of v.now) o ≡ spec.infer_variable (environment_of env.entry) (s.name name.now)) }
{
    let Some(found) = head_named(env, name)? else {
        return Ok(None);
    };
    Ok(variable_in(found))
}

/// The variable that a name stands for.
fn variable_in<'a>(found: Head<'a>) -> Option<&'a Local>
    ensures { option_map (λ v. local_of v.now) result ≡ spec.local_of (head_of found.entry) }
{
    match found {
        Head::Local(v) => Some(v),
        other => {
            drop(other);
            None
        }
    }
}

/// A field of a transaction: a member of `self`.
fn member_variable<'a>(
    a: &Expr,
    alloc: Global,
    env: Environment<'a>,
    name: &Name,
) -> Result<Option<&'a Local>, AllocError>
    ensures { IfOk result (λ o. option_map (λ v. local_of v.now) o ≡ spec.infer_variable (environment_of env.entry) (s.member (expr_of a.now) name.now)) }
{
    match a {
        Expr::Self_ => own_variable(alloc, env, name),
        _ => Ok(None),
    }
}

/// A field of a transaction, where `self` stands for one.
fn own_variable<'a>(
    alloc: Global,
    env: Environment<'a>,
    name: &Name,
) -> Result<Option<&'a Local>, AllocError>
    ensures { IfOk result (λ o. option_map (λ v. local_of v.now) o ≡ spec.infer_variable (environment_of env.entry) (s.member s.self name.now)) }
{
    let Some(base) = self_base(alloc, env)? else {
        return Ok(None);
    };
    let found = field_of(env, name, &base);
    discard_base(base);
    Ok(found)
}

/// A field of what a transaction stands for.
fn field_of<'a>(env: Environment<'a>, name: &Name, base: &Base) -> Option<&'a Local>
    ensures { option_map (λ v. local_of v.now) result ≡ spec.field_of (environment_of env.entry) name.now (base_of base.now) }
{
    match base {
        Base::Transaction => transaction_field(env, name),
        _ => None,
    }
}
