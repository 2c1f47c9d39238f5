// The variables of `for`.
ghost use Rattle.std.specs.Prelude.{◌≡◌, ◌&&◌, IfOk, Some, not, option_map};
ghost use Rattle.cad_syntax.specs.Types.{pure_type};
ghost use Rattle.cad_types.specs.Declarations.{resource};
ghost use Rattle.cad_environment.specs.Views.{environment_of, local_of};
ghost use Rattle.cad_typing.specs.Environments.{kinds, when, ◌>=>◌};
ghost use Rattle.cad_typing.specs.StatementForms as spec;
ghost use Rattle.cad_typing.specs.Types as types;

use crate::locals::next_local;
use cad_declarations::is_same_name;
use cad_environment::{Environment, Local, more};
use cad_grammar::VariableKind;
use cad_syntax::{Basic, CadType, Kind, Name};
use cad_type_classes::element_type;
use std::alloc::AllocError;

/// The variable of an index.
fn index_local(env: Environment<'_>, name: &Name) -> Result<Local, AllocError>
    ensures { IfOk result (λ v. local_of v ≡ spec.index_local (environment_of env.entry) name.now) }
{
    next_local(
        env,
        VariableKind::Let,
        name,
        &CadType::Basic(Basic::Number(Kind::Int)),
    )
}

/// The variable of an index, where one is named.
fn maybe_index(env: Environment<'_>, index: &Option<Name>) -> Result<Option<Local>, AllocError>
    ensures { IfOk result (λ v. option_map local_of v ≡ option_map (spec.index_local (environment_of env.entry)) index.now) }
{
    match index {
        None => Ok(None),
        Some(name) => Ok(Some(index_local(env, name)?)),
    }
}

/// The number of an element's variable.
fn next_number(env: Environment<'_>, index: &Option<Name>) -> Result<u32, AllocError>
    ensures { IfOk result (λ n. n ≡ spec.next_number (environment_of env.entry) index.now) }
{
    match index {
        None => Ok(env.in_use),
        Some(_) => more(env.in_use, 1),
    }
}

/// The variable of an element.
fn element_local(
    env: Environment<'_>,
    index: &Option<Name>,
    name: &Name,
    t: &CadType,
) -> Result<Local, AllocError>
    ensures { IfOk result (λ v. local_of v ≡ spec.element_local (environment_of env.entry) index.now name.now (pure_type t.now)) }
{
    Ok(Local {
        number: next_number(env, index)?,
        name: name.clone()?,
        declared: t.clone()?,
        is_var: false,
    })
}

/// Whether a name isn't that of the index.
fn differs(name: &Name, index: &Option<Name>) -> bool
    ensures { result ≡ spec.differs name.now index.now }
{
    match index {
        None => true,
        Some(other) => !is_same_name(name, other),
    }
}

/// Whether a `for` may go over elements of a type under these names.
fn may_go_over(env: Environment<'_>, index: &Option<Name>, name: &Name, t: &CadType) -> bool
    ensures { result ≡ (spec.differs name.now index.now && not (resource (kinds (environment_of env.entry)) (pure_type t.now))) }
{
    differs(name, index) && !env.is_resource(t)
}

/// The variables of a `for`.
#[derive(Drop)]
pub struct ForVariables {
    pub index: Option<Local>,
    pub element: Local,
}

/// The variables of a `for` over elements of a type.
pub fn for_variables(
    env: Environment<'_>,
    index: &Option<Name>,
    name: &Name,
    t: &CadType,
) -> Result<ForVariables, AllocError>
    ensures index { IfOk result (λ v. option_map local_of v.index ≡ option_map (spec.index_local (environment_of env.entry)) index.now) }
    ensures element { IfOk result (λ v. local_of v.element ≡ spec.element_local (environment_of env.entry) index.now name.now (pure_type t.now)) }
{
    let first = maybe_index(env, index)?;
    let element = element_local(env, index, name, t)?;
    Ok(ForVariables {
        index: first,
        element,
    })
}

/// The type of the elements of a type, where a `for` may go over them under these names.
pub fn gone_over<'a>(
    env: Environment<'_>,
    index: &Option<Name>,
    name: &Name,
    t: &'a CadType,
) -> Option<&'a CadType>
    ensures { option_map (λ u. pure_type u.now) result ≡ (types.element_type (pure_type t.now) >=> (λ u. when (spec.differs name.now index.now && not (resource (kinds (environment_of env.entry)) u)) (Some u))) }
{
    let Some(element) = element_type(t) else {
        return None;
    };
    if may_go_over(env, index, name, element) {
        Some(element)
    } else {
        None
    }
}
