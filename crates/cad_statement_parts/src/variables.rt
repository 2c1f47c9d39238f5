// Declarations of variables.
ghost use Rattle.std.specs.Prelude.{◌≡◌, ◌&&◌, IfOk, option_map};
ghost use Rattle.cad_syntax.specs.Types.{pure_type};
ghost use Rattle.cad_grammar.specs.Views.{annotation_of};
ghost use Rattle.cad_declarations.specs.Views.{variable_of};
ghost use Rattle.cad_environment.specs.Views.{environment_of, local_of};
ghost use Rattle.cad_typing.specs.Locals as local_spec;
ghost use Rattle.cad_typing.specs.StatementForms as spec;

use crate::locals::{entry_of, is_free, next_local};
use cad_declarations::Variable;
use cad_environment::{Environment, Local};
use cad_grammar::{Transfer, TypeAnnotation, VariableKind};
use cad_scopes::resolved_annotation;
use cad_syntax::{CadType, Name};
use cad_type_classes::fits;
use std::alloc::{AllocError, Global};

/// Whether the sign is `<-`.
pub fn is_move_sign(by: Transfer) -> bool
    ensures { result ≡ spec.is_move_sign by }
{
    match by {
        Transfer::Move => true,
        Transfer::Copy | Transfer::ForceMove => false,
    }
}

/// Whether a variable may be declared by the sign.
pub fn may_declare(by: Transfer) -> bool
    ensures { result ≡ spec.may_declare by }
{
    match by {
        Transfer::ForceMove => false,
        Transfer::Copy | Transfer::Move => true,
    }
}

/// The variable that is declared next, in the elaborated tree and in its scope.
pub fn new_variable(
    env: Environment<'_>,
    kind: VariableKind,
    name: &Name,
    t: &CadType,
) -> Result<(Variable, Local), AllocError>
    ensures entry { IfOk result (λ x. variable_of x.0 ≡ local_spec.entry_of (environment_of env.entry) (local_spec.next_local (environment_of env.entry) kind name.now (pure_type t.now))) }
    ensures local { IfOk result (λ x. local_of x.1 ≡ local_spec.next_local (environment_of env.entry) kind name.now (pure_type t.now)) }
{
    let v = next_local(env, kind, name, t)?;
    let entry = entry_of(env, &v)?;
    Ok((entry, v))
}

/// The written type, which what is of a type fits; without one that type.
pub fn type_for(
    alloc: Global,
    env: Environment<'_>,
    written: &Option<TypeAnnotation>,
    t: &CadType,
) -> Result<Option<CadType>, AllocError>
    ensures { IfOk result (λ u. option_map pure_type u ≡ spec.type_for (environment_of env.entry) (option_map annotation_of written.now) (pure_type t.now)) }
{
    let Some(annotation) = written else {
        return Ok(Some(t.clone()?));
    };
    let Some(u) = resolved_annotation(alloc, env.scope(), annotation)? else {
        return Ok(None);
    };
    if fits(env.kinds(), t, &u) {
        Ok(Some(u))
    } else {
        Ok(None)
    }
}

/// Whether a variable of this name may be declared beside a second value, by these signs.
pub fn may_exchange(env: Environment<'_>, name: &Name, by: Transfer, second: Transfer) -> bool
    ensures { result ≡ (spec.is_move_sign by && (spec.is_move_sign second && local_spec.is_free (environment_of env.entry) name.now)) }
{
    is_move_sign(by) && is_move_sign(second) && is_free(env, name)
}
