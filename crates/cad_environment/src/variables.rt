// Variables and `self`, as values and as what stands before `.`.
ghost use Rattle.std.specs.Prelude.{◌≡◌, IfOk, option_map};
ghost use Rattle.cad_syntax.specs.Types.{pure_type};
ghost use Rattle.cad_declarations.specs.Typed as tree;
ghost use Rattle.cad_declarations.specs.Views.{term_of};
ghost use Rattle.cad_typing.specs.Environments as typing;
ghost use Rattle.cad_typing.specs.Names as spec;
ghost use Rattle.cad_environment.specs.Views.{local_of, part_of, environment_of, position_of, typing_of, base_of, head_of};

use crate::base::{Base, owned, receiver_at};
use crate::environment::{Environment, Part, is_interface, type_of_self};
use crate::local::{Local, find_local};
use crate::names::{Head, is_contract_sort};
use crate::trees::{copy_term, self_place, take_term, variable_place};
use crate::typing::{Position, Typing, typed};
use cad_declarations::{Term, discard_term, discard_type};
use cad_syntax::{CadType, Name};
use std::alloc::{AllocError, Global};

/// Whether it is a condition, or stands under `before`.
pub fn is_condition(part: Part<'_>) -> bool
    ensures { result ≡ spec.is_condition (part_of part.entry) }
{
    matches!(
        part,
        Part::Precondition | Part::Postcondition(_) | Part::BeforeValue
    )
}

/// Whether it is a postcondition.
pub fn is_postcondition(part: Part<'_>) -> bool
    ensures { result ≡ spec.is_postcondition (part_of part.entry) }
{
    matches!(part, Part::Postcondition(_))
}

/// Whether the code stands in an interface.
pub fn stands_in_interface(env: Environment<'_>) -> bool
    ensures { result ≡ spec.stands_in_interface (environment_of env.entry) }
{
    match env.within {
        None => false,
        Some(id) => is_interface(env.kinds(), id),
    }
}

/// Whether a variable of this type may be named before `.`: a postcondition of an interface names a parameter of resource
/// type under `before` alone.
pub fn may_be_named(env: Environment<'_>, t: &CadType) -> bool
    ensures { result ≡ spec.may_be_named (environment_of env.entry) (pure_type t.now) }
{
    !(env.is_resource(t) && (is_postcondition(env.part) && stands_in_interface(env)))
}

/// Whether a resource leaves its variable: in a moved position, but not in a condition.
pub fn may_leave(env: Environment<'_>, position: Position) -> bool
    ensures { result ≡ spec.may_leave (environment_of env.entry) (position_of position) }
{
    match position {
        Position::Moved => !is_condition(env.part),
        Position::Ordinary => false,
    }
}

/// A form with the type of a variable.
fn typed_as(term: Term, declared: &CadType) -> Result<Option<Typing>, AllocError>
    ensures { IfOk result (λ x. option_map typing_of x ≡ typing.typed (term_of term) (pure_type declared.now)) }
{
    match declared.clone() {
        Ok(declared) => Ok(typed(term, declared)),
        Err(error) => {
            discard_term(term);
            Err(error)
        }
    }
}

/// The value of a variable, which leaves it.
fn taken_value(alloc: Global, v: &Local) -> Result<Option<Typing>, AllocError>
    ensures { IfOk result (λ x. option_map typing_of x ≡ typing.typed (tree.take (tree.variable v.now.number)) (pure_type v.now.declared)) }
{
    let term = take_term(alloc, variable_place(v.number))?;
    typed_as(term, &v.declared)
}

/// The value of a variable, which stays.
fn copied_value(alloc: Global, v: &Local) -> Result<Option<Typing>, AllocError>
    ensures { IfOk result (λ x. option_map typing_of x ≡ typing.typed (tree.copy (tree.variable v.now.number)) (pure_type v.now.declared)) }
{
    let term = copy_term(alloc, variable_place(v.number))?;
    typed_as(term, &v.declared)
}

/// The value of a variable: a resource only where it is moved.
pub fn variable_value(
    alloc: Global,
    env: Environment<'_>,
    position: Position,
    v: &Local,
) -> Result<Option<Typing>, AllocError>
    ensures { IfOk result (λ x. option_map typing_of x ≡ spec.variable_value (environment_of env.entry) (position_of position) (local_of v.now)) }
{
    if !env.is_resource(&v.declared) {
        return copied_value(alloc, v);
    }
    if may_leave(env, position) {
        taken_value(alloc, v)
    } else {
        Ok(None)
    }
}

/// A variable before `.`.
pub fn variable_base(
    alloc: Global,
    env: Environment<'_>,
    v: &Local,
) -> Result<Option<Base>, AllocError>
    ensures { IfOk result (λ b. option_map base_of b ≡ spec.variable_base (environment_of env.entry) (local_of v.now)) }
{
    if !may_be_named(env, &v.declared) {
        return Ok(None);
    }
    let declared = v.declared.clone()?;
    match copy_term(alloc, variable_place(v.number)) {
        Ok(term) => {
            let receiver = receiver_at(alloc, None, variable_place(v.number), term, declared)?;
            Ok(Some(Base::Value(receiver)))
        }
        Err(error) => {
            discard_type(declared);
            Err(error)
        }
    }
}

/// What a name stands for, as a value: a variable alone.
pub fn value_of_head(
    alloc: Global,
    env: Environment<'_>,
    position: Position,
    head: &Head<'_>,
) -> Result<Option<Typing>, AllocError>
    ensures { IfOk result (λ x. option_map typing_of x ≡ spec.value_of_head (environment_of env.entry) (position_of position) (head_of head.now)) }
{
    match head {
        Head::Local(v) => variable_value(alloc, env, position, v),
        _ => Ok(None),
    }
}

/// What a name stands for before `.`; None for a function.
pub fn base_of_head(
    alloc: Global,
    env: Environment<'_>,
    head: Head<'_>,
) -> Result<Option<Base>, AllocError>
    ensures { IfOk result (λ b. option_map base_of b ≡ spec.base_of_head (environment_of env.entry) (head_of head.entry)) }
{
    match head {
        Head::Local(v) => variable_base(alloc, env, v),
        Head::Contract(id) => Ok(Some(Base::Contract(id))),
        Head::Type(t) => Ok(Some(Base::TypeName(t))),
        _ => Ok(None),
    }
}

/// The type of `self`, if the code stands in a type.
pub fn self_type(alloc: Global, env: Environment<'_>) -> Result<Option<CadType>, AllocError>
    ensures { IfOk result (λ t. option_map pure_type t ≡ spec.self_type (environment_of env.entry)) }
{
    match env.within {
        Some(id) => Ok(Some(type_of_self(alloc, env.kinds(), id)?)),
        None => Ok(None),
    }
}

/// Whether a type is a contract.
pub fn is_contract_type(env: Environment<'_>, t: &CadType) -> bool
    ensures { result ≡ spec.is_contract_type (environment_of env.entry) (pure_type t.now) }
{
    let CadType::Declared(id) = t else {
        return false;
    };
    match env.kinds().find(id) {
        Some(declared) => is_contract_sort(declared.sort),
        None => false,
    }
}

/// `self` as a value: of a struct it is copied; that of a resource isn't moved, and that of a contract is no value.
pub fn self_value(alloc: Global, env: Environment<'_>) -> Result<Option<Typing>, AllocError>
    ensures { IfOk result (λ x. option_map typing_of x ≡ spec.self_value (environment_of env.entry)) }
{
    let Some(declared) = self_type(alloc, env)? else {
        return Ok(None);
    };
    if env.is_resource(&declared) || is_contract_type(env, &declared) {
        discard_type(declared);
        return Ok(None);
    }
    match copy_term(alloc, self_place()) {
        Ok(term) => Ok(typed(term, declared)),
        Err(error) => {
            discard_type(declared);
            Err(error)
        }
    }
}

/// `self` of a type before `.`.
pub fn self_owned(alloc: Global, env: Environment<'_>) -> Result<Option<Base>, AllocError>
    ensures { IfOk result (λ b. option_map base_of b ≡ spec.self_owned (environment_of env.entry)) }
{
    match self_type(alloc, env)? {
        Some(declared) => Ok(Some(Base::Value(owned(None, self_place(), declared)))),
        None => Ok(None),
    }
}

/// `self` before `.`; in a transaction it has its fields alone.
pub fn self_base(alloc: Global, env: Environment<'_>) -> Result<Option<Base>, AllocError>
    ensures { IfOk result (λ b. option_map base_of b ≡ spec.self_base (environment_of env.entry)) }
{
    match env.transaction_fields {
        None => self_owned(alloc, env),
        Some(_) => Ok(Some(Base::Transaction)),
    }
}

/// The field of a transaction with this name.
pub fn transaction_field<'a>(env: Environment<'a>, name: &Name) -> Option<&'a Local>
    ensures { option_map (λ v. local_of v.now) result ≡ spec.transaction_field (environment_of env.entry) name.now }
{
    match env.transaction_fields {
        Some(fields) => find_local(fields, name),
        None => None,
    }
}
