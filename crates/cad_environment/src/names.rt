// What a name in an expression stands for.
ghost use Rattle.std.specs.Prelude.{◌≡◌, IfOk, option_map};
ghost use Rattle.cad_syntax.specs.Types.{pure_type};
ghost use Rattle.cad_declarations.specs.Views.{member_of};
ghost use Rattle.cad_scopes.specs.Views.{meaning_view};
ghost use Rattle.cad_typing.specs.Names as spec;
ghost use Rattle.cad_environment.specs.Views.{local_of, environment_of, head_of};

use crate::environment::{Environment, local_named};
use crate::local::Local;
use cad_builtins::builtin_function;
use cad_declarations::{Member, find_member, is_interface_sort};
use cad_scopes::{Meaning, basic_type, contract_named, inside, meaning_of, own_meaning};
use cad_syntax::{CadType, Name, TypeId};
use cad_types::{Builtin, Sort};
use std::alloc::{AllocError, Global};
use std::slice;

/// What a name in an expression stands for.
#[derive(Drop)]
pub enum Head<'a> {
    Local(&'a Local),
    /// A function that stands outside a contract.
    Function(&'a Member),
    Contract(TypeId),
    /// A declared or basic type, which has members of its own or is called.
    Type(CadType),
    Builtin(Builtin),
}

/// Whether a declared type is a contract.
pub fn is_contract_sort(sort: Sort) -> bool
    ensures { result ≡ spec.is_contract_sort sort }
{
    matches!(sort, Sort::Contract)
}

/// A contract or a declared type; an interface is neither.
fn declared_head<'a>(id: TypeId, sort: Sort) -> Option<Head<'a>>
    ensures { option_map head_of result ≡ spec.declared_head id sort }
{
    if is_contract_sort(sort) {
        Some(Head::Contract(id))
    } else if is_interface_sort(sort) {
        None
    } else {
        Some(Head::Type(CadType::Declared(id)))
    }
}

/// A contract or declared type that is meant.
fn head_of_meaning<'a>(found: Option<Meaning>) -> Option<Head<'a>>
    ensures { option_map head_of result ≡ spec.head_of (option_map meaning_view found) }
{
    match found {
        Some(Meaning::Type(id, sort)) => declared_head(id, sort),
        _ => None,
    }
}

/// A contract or declared type by one name; an inner declaration hides an outer one, and what is built in.
#[tactic(auto, using(crate::proofs::Meant::built_in_has_no_head))]
fn declared_name<'a>(env: Environment<'_>, name: &Name) -> Result<Option<Head<'a>>, AllocError>
    ensures { IfOk result (λ h. option_map head_of h ≡ spec.declared_name (environment_of env.entry) name.now) }
{
    let scope = env.scope();
    match own_meaning(scope, name)? {
        Some(own) => Ok(head_of_meaning(Some(own))),
        None => match contract_named(scope, name) {
            Some(contract) => Ok(head_of_meaning(meaning_of(scope, contract.clone()?))),
            None => Ok(None),
        },
    }
}

/// A function that stands outside a contract.
pub fn function_named<'a>(env: Environment<'a>, name: &Name) -> Option<&'a Member>
    ensures { option_map (λ m. member_of m.now) result ≡ spec.function_named (environment_of env.entry) name.now }
{
    find_member(env.known.tables.functions.as_slice(), name)
}

/// A built-in function, or a basic type.
fn built_in_head<'a>(name: &Name) -> Option<Head<'a>>
    ensures { option_map head_of result ≡ spec.built_in_head name.now }
{
    if let Some(builtin) = builtin_function(name) {
        return Some(Head::Builtin(builtin));
    }
    match basic_type(slice::from_ref(name)) {
        Some(basic) => Some(Head::Type(CadType::Basic(basic))),
        None => None,
    }
}

/// What a name in an expression stands for: a variable, else a function, else a declaration, else what is built in.
pub fn head_named<'a>(env: Environment<'a>, name: &Name) -> Result<Option<Head<'a>>, AllocError>
    ensures { IfOk result (λ h. option_map head_of h ≡ spec.head (environment_of env.entry) name.now) }
{
    if let Some(local) = local_named(env, name) {
        return Ok(Some(Head::Local(local)));
    }
    if let Some(function) = function_named(env, name) {
        return Ok(Some(Head::Function(function)));
    }
    match declared_name(env, name)? {
        Some(declared) => Ok(Some(declared)),
        None => Ok(built_in_head(name)),
    }
}

/// A type that a contract declares.
pub fn type_inside(
    env: Environment<'_>,
    id: &TypeId,
    name: &Name,
) -> Result<Option<CadType>, AllocError>
    ensures { IfOk result (λ t. option_map pure_type t ≡ spec.type_inside (environment_of env.entry) id.now name.now) }
{
    let scope = env.scope();
    match meaning_of(scope, inside(id, name)?) {
        Some(Meaning::Type(id, sort)) => {
            if is_interface_sort(sort) {
                Ok(None)
            } else {
                Ok(Some(CadType::Declared(id)))
            }
        }
        _ => Ok(None),
    }
}
