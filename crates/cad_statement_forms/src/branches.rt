// What stands behind `if`.
ghost use Rattle.std.specs.Prelude.{◌≡◌, IfOk, None, Some, option_map, if◌then◌else◌};
ghost use Rattle.cad_syntax.specs.Types.{pure_type, optional};
ghost use Rattle.cad_grammar.specs.Trees as s;
ghost use Rattle.cad_grammar.specs.Views.{expr_of, annotation_of, test_of};
ghost use Rattle.cad_types.specs.Declarations.{resource};
ghost use Rattle.cad_environment.specs.Views.{environment_of, local_of, typing_of};
ghost use Rattle.cad_typing.specs.Environments.{kinds, when, ◌>=>◌};
ghost use Rattle.cad_typing.specs.Locals as local_spec;
ghost use Rattle.cad_typing.specs.Places as places;
ghost use Rattle.cad_typing.specs.StatementForms as spec;
ghost use Rattle.cad_typing.specs.Types as type_spec;
ghost use Rattle.cad_typing.specs.Types.{is_optional_type};
ghost use Rattle.cad_statement_trees.specs.Views.{test_typing_of};

use cad_declarations::discard_type;
use cad_environment::{Environment, Local, Position, Typing, discard_typing};
use cad_grammar::{CastKind, Expr, Test, Transfer, TypeAnnotation, VariableKind};
use cad_infer_targets::{infer, infer_declared, infer_moved, infer_variable};
use cad_scopes::resolved_annotation;
use cad_statement_parts::{
    is_move_sign, is_test, may_be_cast, may_declare, next_local, optional_of,
};
use cad_statement_trees::{TestTyping, bound_cast, bound_content, targeted, whole};
use cad_syntax::{CadType, Name};
use cad_type_classes::{content, is_optional_type};
use std::alloc::{AllocError, Global};

/// A test that is a Bool.
pub fn infer_test(
    alloc: Global,
    env: Environment<'_>,
    value: &Expr,
) -> Result<Option<Typing>, AllocError>
    ensures { IfOk result (λ x. option_map typing_of x ≡ spec.infer_test (environment_of env.entry) (expr_of value.now)) }
{
    let Some(x) = infer(value, alloc, env, Position::Ordinary, None)? else {
        return Ok(None);
    };
    if is_test(&x.declared) {
        Ok(Some(x))
    } else {
        discard_typing(x);
        Ok(None)
    }
}

/// The content of an optional, in a variable of its type.
fn own_content(
    alloc: Global,
    env: Environment<'_>,
    kind: VariableKind,
    name: &Name,
    by: Transfer,
    value: &Expr,
) -> Result<Option<TestTyping>, AllocError>
    ensures { IfOk result (λ x. option_map test_typing_of x ≡ spec.content_of_value (environment_of env.entry) kind name.now None by (expr_of value.now)) }
{
    let Some(x) = infer_declared(value, alloc, env, by)? else {
        return Ok(None);
    };
    match content_local(env, kind, name, &x.declared) {
        Ok(Some(v)) => Ok(Some(TestTyping::Content(v, whole(x)))),
        Ok(None) => {
            discard_typing(x);
            Ok(None)
        }
        Err(error) => {
            discard_typing(x);
            Err(error)
        }
    }
}

/// The variable of the content of an optional.
fn content_local(
    env: Environment<'_>,
    kind: VariableKind,
    name: &Name,
    t: &CadType,
) -> Result<Option<Local>, AllocError>
    ensures { IfOk result (λ v. option_map local_of v ≡ option_map (local_spec.next_local (environment_of env.entry) kind name.now) (type_spec.content (pure_type t.now))) }
{
    match content(t) {
        None => Ok(None),
        Some(inner) => Ok(Some(next_local(env, kind, name, inner)?)),
    }
}

/// The content of an optional, in a variable of a type.
fn content_as(
    alloc: Global,
    env: Environment<'_>,
    kind: VariableKind,
    name: &Name,
    t: &CadType,
    by: Transfer,
    value: &Expr,
) -> Result<Option<TestTyping>, AllocError>
    ensures { IfOk result (λ x. option_map test_typing_of x ≡ (places.infer_moved (environment_of env.entry) by (optional (pure_type t.now)) (expr_of value.now) >=> (λ y. when (is_optional_type y.type) (Some (spec.content_test (local_spec.next_local (environment_of env.entry) kind name.now (pure_type t.now)) y.term (optional (pure_type t.now))))))) }
{
    let target = optional_of(alloc, t)?;
    match infer_moved(value, alloc, env, by, &target) {
        Ok(Some(x)) => moved_content(env, kind, name, t, x, target),
        Ok(None) => {
            discard_type(target);
            Ok(None)
        }
        Err(error) => {
            discard_type(target);
            Err(error)
        }
    }
}

/// The content of an optional that was transferred to one of a type.
fn moved_content(
    env: Environment<'_>,
    kind: VariableKind,
    name: &Name,
    t: &CadType,
    x: Typing,
    target: CadType,
) -> Result<Option<TestTyping>, AllocError>
    ensures { IfOk result (λ o. option_map test_typing_of o ≡ when (is_optional_type (typing_of x).type) (Some (spec.content_test (local_spec.next_local (environment_of env.entry) kind name.now (pure_type t.now)) (typing_of x).term (pure_type target)))) }
{
    if !is_optional_type(&x.declared) {
        discard_typing(x);
        discard_type(target);
        return Ok(None);
    }
    Ok(Some(bound_content(env, kind, name, t, targeted(x, target))?))
}

/// The content of an optional, in a variable of a written type.
fn annotated_content(
    alloc: Global,
    env: Environment<'_>,
    kind: VariableKind,
    name: &Name,
    written: &TypeAnnotation,
    by: Transfer,
    value: &Expr,
) -> Result<Option<TestTyping>, AllocError>
    ensures { IfOk result (λ x. option_map test_typing_of x ≡ spec.content_of_value (environment_of env.entry) kind name.now (Some (annotation_of written.now)) by (expr_of value.now)) }
{
    let Some(t) = resolved_annotation(alloc, env.scope(), written)? else {
        return Ok(None);
    };
    let x = content_as(alloc, env, kind, name, &t, by, value);
    discard_type(t);
    x
}

/// `if let` of an optional: its content, or what a written type makes of it.
fn content_of_value(
    alloc: Global,
    env: Environment<'_>,
    kind: VariableKind,
    name: &Name,
    written: &Option<TypeAnnotation>,
    by: Transfer,
    value: &Expr,
) -> Result<Option<TestTyping>, AllocError>
    ensures { IfOk result (λ x. option_map test_typing_of x ≡ spec.content_of_value (environment_of env.entry) kind name.now (option_map annotation_of written.now) by (expr_of value.now)) }
{
    match written {
        None => own_content(alloc, env, kind, name, by, value),
        Some(annotation) => annotated_content(alloc, env, kind, name, annotation, by, value),
    }
}

/// A failable cast of a resource: of a variable, or of a field of a transaction.
fn cast_of_variable(
    alloc: Global,
    env: Environment<'_>,
    kind: VariableKind,
    name: &Name,
    written: &Option<TypeAnnotation>,
    value: &Expr,
    t: CadType,
) -> Result<Option<TestTyping>, AllocError>
    ensures { IfOk result (λ x. option_map test_typing_of x ≡ spec.cast_of_variable (environment_of env.entry) kind name.now (option_map annotation_of written.now) (expr_of value.now) (pure_type t)) }
{
    match infer_variable(value, alloc, env) {
        Ok(Some(v)) => {
            if may_be_cast(env.kinds(), &v.declared, &t) {
                bound_cast(alloc, env, kind, name, written, v.number, t)
            } else {
                discard_type(t);
                Ok(None)
            }
        }
        Ok(None) => {
            discard_type(t);
            Ok(None)
        }
        Err(error) => {
            discard_type(t);
            Err(error)
        }
    }
}

/// A failable cast to a type: of a resource it is declared by `<-`; of anything else it is an optional, which is the whole value.
fn cast_or_content(
    alloc: Global,
    env: Environment<'_>,
    kind: VariableKind,
    name: &Name,
    written: &Option<TypeAnnotation>,
    by: Transfer,
    operand: &Expr,
    value: &Expr,
    t: CadType,
) -> Result<Option<TestTyping>, AllocError>
    ensures { IfOk result (λ x. option_map test_typing_of x ≡ (if resource (kinds (environment_of env.entry)) (pure_type t) then when (spec.is_move_sign by) (spec.cast_of_variable (environment_of env.entry) kind name.now (option_map annotation_of written.now) (expr_of operand.now) (pure_type t)) else spec.content_of_value (environment_of env.entry) kind name.now (option_map annotation_of written.now) by (expr_of value.now))) }
{
    if !env.is_resource(&t) {
        discard_type(t);
        return content_of_value(alloc, env, kind, name, written, by, value);
    }
    if is_move_sign(by) {
        cast_of_variable(alloc, env, kind, name, written, operand, t)
    } else {
        discard_type(t);
        Ok(None)
    }
}

/// A value that is bound behind `if`: a failable cast of a resource, which is declared by `<-`, or the content of an optional.
fn bound_value(
    alloc: Global,
    env: Environment<'_>,
    kind: VariableKind,
    name: &Name,
    written: &Option<TypeAnnotation>,
    by: Transfer,
    value: &Expr,
) -> Result<Option<TestTyping>, AllocError>
    ensures { IfOk result (λ x. option_map test_typing_of x ≡ spec.bound_value (environment_of env.entry) kind name.now (option_map annotation_of written.now) by (expr_of value.now)) }
{
    match value {
        Expr::Cast(CastKind::Failable, operand, to) => {
            let Some(t) = resolved_annotation(alloc, env.scope(), to)? else {
                return Ok(None);
            };
            cast_or_content(alloc, env, kind, name, written, by, operand, value, t)
        }
        _ => content_of_value(alloc, env, kind, name, written, by, value),
    }
}

/// A test that is a Bool.
fn plain_test(
    alloc: Global,
    env: Environment<'_>,
    value: &Expr,
) -> Result<Option<TestTyping>, AllocError>
    ensures { IfOk result (λ x. option_map test_typing_of x ≡ spec.test_typing (environment_of env.entry) (s.expression_test (expr_of value.now))) }
{
    let Some(x) = infer_test(alloc, env, value)? else {
        return Ok(None);
    };
    discard_type(x.declared);
    Ok(Some(TestTyping::Plain(x.term)))
}

/// What stands behind `if`.
pub fn test_typing(
    alloc: Global,
    env: Environment<'_>,
    test: &Test,
) -> Result<Option<TestTyping>, AllocError>
    ensures { IfOk result (λ x. option_map test_typing_of x ≡ spec.test_typing (environment_of env.entry) (test_of test.now)) }
{
    match test {
        Test::Expr(value) => plain_test(alloc, env, value),
        Test::Binding {
            kind,
            name,
            annotation,
            transfer,
            value,
        } => {
            if may_declare(*transfer) {
                bound_value(alloc, env, *kind, name, annotation, *transfer, value)
            } else {
                Ok(None)
            }
        }
    }
}
