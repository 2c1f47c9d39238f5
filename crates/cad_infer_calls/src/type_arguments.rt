// Type arguments.
ghost use Rattle.std.specs.Prelude.{◌≡◌, ◌&&◌, not, Some, List, [], ◌∷◌, IfOk, map, option_map};
ghost use Rattle.cad_syntax.specs.Types.{PureType, pure_type};
ghost use Rattle.cad_grammar.specs.Views.{annotation_of};
ghost use Rattle.cad_grammar.specs.Trees.{annotations_of};
ghost use Rattle.cad_types.specs.Declarations.{Declaration, resource};
ghost use Rattle.cad_types.specs.Views.{declarations};
ghost use Rattle.cad_declarations.specs.Builtins as built_in;
ghost use Rattle.cad_declarations.specs.Formed as formed;
ghost use Rattle.cad_builtins.specs.Views.{rule_of};
ghost use Rattle.cad_typing.specs.Calls as spec;
ghost use Rattle.cad_typing.specs.Environments as environments;
ghost use Rattle.cad_typing.specs.Types as classes;
ghost use Rattle.cad_environment.specs.Views.{environment_of};

use cad_builtins::{TypeRule, type_rule};
use cad_environment::Environment;
use cad_grammar::TypeAnnotation;
use cad_scopes::resolved_annotation;
use cad_syntax::CadType;
use cad_type_classes::is_storable;
use cad_types::{Builtin, DeclaredTypes, is_resource};
use std::alloc::{AllocError, Global};

/// Whether no type arguments are written.
pub fn has_no_types(types: &[TypeAnnotation]) -> bool
    ensures { result ≡ spec.has_no_types (annotations_of (map annotation_of types.now)) }
{
    match types {
        [] => true,
        [_first, _more @ ..] => false,
    }
}

/// The type arguments that are written, if each is there and rightly formed.
#[tactic(auto, using(crate::proofs::Each::goes_on))]
fn written_types(
    alloc: Global,
    env: Environment<'_>,
    types: &[TypeAnnotation],
) -> Result<Option<Vec<CadType>>, AllocError>
    ensures { IfOk result (λ all. option_map (λ v. map pure_type v.items) all ≡ spec.written_types (environment_of env.entry) (annotations_of (map annotation_of types.now))) }
{
    let mut all = Vec::new(alloc);
    for written in types {
        match resolved_annotation(alloc, env.scope(), written)? {
            Some(found) => all.push(found)?,
            None => return Ok(None),
        }
    }
    Ok(Some(all))
}

/// Whether a type is a reference.
fn is_reference(t: &CadType) -> bool
    ensures { result ≡ formed.is_reference (pure_type t.now) }
{
    matches!(t, CadType::Reference(_, _))
}

/// Whether a type is storable, and no resource type.
fn is_copied_type(alloc: Global, types: &DeclaredTypes, t: &CadType) -> Result<bool, AllocError>
    ensures { IfOk result (λ b. b ≡ (classes.is_storable (declarations types.now) (pure_type t.now) && not (resource (declarations types.now) (pure_type t.now)))) }
{
    if is_storable(alloc, types, t)? {
        Ok(!is_resource(types, t))
    } else {
        Ok(false)
    }
}

/// Whether one type argument is as the rule asks for.
fn one_obeys(
    alloc: Global,
    types: &DeclaredTypes,
    rule: TypeRule,
    t: &CadType,
) -> Result<bool, AllocError>
    ensures { IfOk result (λ b. b ≡ spec.obeys (declarations types.now) (rule_of rule) (pure_type t.now ∷ [])) }
{
    match rule {
        TypeRule::NoType => Ok(false),
        TypeRule::AnyType => Ok(true),
        TypeRule::SavedType | TypeRule::StorableType => is_storable(alloc, types, t),
        TypeRule::CopiedType => is_copied_type(alloc, types, t),
        TypeRule::ReferenceType => Ok(is_reference(t)),
    }
}

/// Whether there may be no type argument.
fn none_obeys(rule: TypeRule) -> bool
    ensures { (d : List Declaration) → result ≡ spec.obeys d (rule_of rule) [] }
{
    matches!(rule, TypeRule::NoType | TypeRule::SavedType)
}

/// Whether there may be two type arguments or more: there may not.
fn more_obey(rule: TypeRule) -> bool
    ensures { (d : List Declaration) → (t u : PureType) → (more : List PureType) → result ≡ spec.obeys d (rule_of rule) (t ∷ u ∷ more) }
{
    match rule {
        TypeRule::NoType => false,
        TypeRule::AnyType => false,
        TypeRule::SavedType => false,
        TypeRule::StorableType => false,
        TypeRule::CopiedType => false,
        TypeRule::ReferenceType => false,
    }
}

/// Whether type arguments are as the rule asks for.
fn obeys(
    alloc: Global,
    types: &DeclaredTypes,
    rule: TypeRule,
    given: &[CadType],
) -> Result<bool, AllocError>
    ensures { IfOk result (λ b. b ≡ spec.obeys (declarations types.now) (rule_of rule) (map pure_type given.now)) }
{
    match given {
        [] => Ok(none_obeys(rule)),
        [t] => one_obeys(alloc, types, rule, t),
        [_first, _second, _more @ ..] => Ok(more_obey(rule)),
    }
}

/// The type arguments of a built-in member, as it asks for them.
pub(crate) fn type_arguments(
    alloc: Global,
    env: Environment<'_>,
    member: Builtin,
    types: &[TypeAnnotation],
) -> Result<Option<Vec<CadType>>, AllocError>
    ensures { IfOk result (λ all. option_map (λ v. map pure_type v.items) all ≡ spec.type_arguments (environment_of env.entry) member (annotations_of (map annotation_of types.now))) }
{
    match written_types(alloc, env, types)? {
        Some(given) => if_obeying(alloc, env, member, given),
        None => Ok(None),
    }
}

/// Type arguments, if they are as a built-in member asks for them.
fn if_obeying(
    alloc: Global,
    env: Environment<'_>,
    member: Builtin,
    given: Vec<CadType>,
) -> Result<Option<Vec<CadType>>, AllocError>
    ensures { IfOk result (λ all. option_map (λ v. map pure_type v.items) all ≡ environments.when (spec.obeys (environments.kinds (environment_of env.entry)) (built_in.type_rule member) (map pure_type given.items)) (Some (map pure_type given.items))) }
{
    if obeys(alloc, env.kinds(), type_rule(member), given.as_slice())? {
        Ok(Some(given))
    } else {
        Ok(None)
    }
}
