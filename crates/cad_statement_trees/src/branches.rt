// The trees of `if`, and what its test declares.
ghost use Rattle.std.specs.Prelude.{◌≡◌, IfOk, Ok, Some, ok_or, option_map, map};
ghost use Rattle.cad_syntax.specs.Types.{pure_type};
ghost use Rattle.cad_grammar.specs.Trees as s;
ghost use Rattle.cad_grammar.specs.Views.{annotation_of};
ghost use Rattle.cad_declarations.specs.Typed as typed;
ghost use Rattle.cad_declarations.specs.Views.{argument_of, block_of, place_of, statement_of, term_of, variable_of};
ghost use Rattle.cad_environment.specs.Views.{environment_of, local_of, typing_of};
ghost use Rattle.cad_typing.specs.Environments.{◌>=>◌};
ghost use Rattle.cad_typing.specs.Locals as local_spec;
ghost use Rattle.cad_typing.specs.StatementForms as spec;
ghost use Rattle.cad_statement_parts.specs.Blocks as blocks_spec;
ghost use Rattle.cad_statement_parts.specs.Blocks.{continued};
ghost use Rattle.cad_statement_parts.specs.Views.{judged_at};
ghost use Rattle.cad_statement_trees.specs.Views.{statement_typing_of, test_typing_of};

use crate::typing::{StatementTyping, TestTyping, discard_judged_block, discard_test_typing};
use crate::variables::alone;
use cad_declarations::{
    Argument, Place, TypedBlock, TypedStatement, Variable, discard_block, discard_place,
    discard_type,
};
use cad_environment::{Environment, Local, Typing, variable_place};
use cad_grammar::{TypeAnnotation, VariableKind};
use cad_statement_parts::{discard_local, entry_of, next_local, type_for};
use cad_syntax::{CadType, Name};
use cad_typed_rows::discard_argument;
use std::alloc::{AllocError, Global};
use std::slice::from_ref;

/// The variables that a test declares.
fn test_locals(x: &TestTyping) -> &[Local]
    ensures { map local_of result.now ≡ spec.test_locals (test_typing_of x.now) }
{
    match x {
        TestTyping::Plain(_) => &[],
        TestTyping::Content(v, _) => from_ref(v),
        TestTyping::Cast(v, _, _) => from_ref(v),
    }
}

/// The variables that a test declares, where it is typed.
pub fn test_scope(x: &Option<TestTyping>) -> &[Local]
    ensures { map local_of result.now ≡ blocks_spec.test_scope (option_map test_typing_of x.now) }
{
    match x {
        None => &[],
        Some(test) => test_locals(test),
    }
}

/// The variable in the elaborated tree of one that isn't needed behind it.
fn entry_for(env: Environment<'_>, v: Local) -> Result<Variable, AllocError>
    ensures { IfOk result (λ x. variable_of x ≡ local_spec.entry_of (environment_of env.entry) (local_of v)) }
{
    let entry = entry_of(env, &v);
    discard_local(v);
    entry
}

/// An `if let` with both of its blocks.
fn content_tree(
    env: Environment<'_>,
    at: u64,
    v: Local,
    value: Argument,
    then: TypedBlock,
    otherwise: TypedBlock,
) -> Result<TypedStatement, AllocError>
    ensures { IfOk result (λ s. statement_of s ≡ spec.test_tree (environment_of env.entry) at (spec.content_test (local_of v) (argument_of value).value (argument_of value).target) (block_of then) (block_of otherwise)) }
{
    match entry_for(env, v) {
        Ok(variable) => Ok(TypedStatement::IfLet {
            at,
            variable,
            value,
            then,
            otherwise,
        }),
        Err(error) => {
            discard_argument(value);
            discard_block(then);
            discard_block(otherwise);
            Err(error)
        }
    }
}

/// A failable cast of a resource with both of its blocks.
fn cast_tree(
    env: Environment<'_>,
    at: u64,
    v: Local,
    place: Place,
    target: CadType,
    then: TypedBlock,
    otherwise: TypedBlock,
) -> Result<TypedStatement, AllocError>
    ensures { IfOk result (λ s. statement_of s ≡ spec.test_tree (environment_of env.entry) at (spec.cast_test (local_of v) (place_of place) (pure_type target)) (block_of then) (block_of otherwise)) }
{
    match entry_for(env, v) {
        Ok(variable) => Ok(TypedStatement::IfCast {
            at,
            variable,
            place,
            target,
            then,
            otherwise,
        }),
        Err(error) => {
            discard_place(place);
            discard_type(target);
            discard_block(then);
            discard_block(otherwise);
            Err(error)
        }
    }
}

/// An `if` with both of its blocks.
fn test_tree(
    env: Environment<'_>,
    at: u64,
    x: TestTyping,
    then: TypedBlock,
    otherwise: TypedBlock,
) -> Result<TypedStatement, AllocError>
    ensures { IfOk result (λ s. statement_of s ≡ spec.test_tree (environment_of env.entry) at (test_typing_of x) (block_of then) (block_of otherwise)) }
{
    match x {
        TestTyping::Plain(test) => Ok(TypedStatement::If {
            at,
            test,
            then,
            otherwise,
        }),
        TestTyping::Content(v, value) => content_tree(env, at, v, value, then, otherwise),
        TestTyping::Cast(v, place, target) => {
            cast_tree(env, at, v, place, target, then, otherwise)
        }
    }
}

/// An `if` behind its test and its first block.
fn if_joined(
    env: Environment<'_>,
    at: u64,
    x: TestTyping,
    then: TypedBlock,
    otherwise: Result<(TypedBlock, u64), u64>,
) -> Result<Result<(StatementTyping, u64), u64>, AllocError>
    ensures { IfOk result (λ o. judged_at statement_typing_of o ≡ (continued (judged_at block_of otherwise) (λ b. Ok (spec.alone (spec.test_tree (environment_of env.entry) at (test_typing_of x) (block_of then) b.0), b.1)))) }
{
    match otherwise {
        Err(stop) => {
            discard_test_typing(x);
            discard_block(then);
            Ok(Err(stop))
        }
        Ok((b, next)) => {
            let tree = test_tree(env, at, x, then, b)?;
            Ok(Ok((alone(tree), next)))
        }
    }
}

/// An `if` behind its test.
fn if_behind(
    env: Environment<'_>,
    at: u64,
    x: TestTyping,
    then: Result<(TypedBlock, u64), u64>,
    otherwise: Result<(TypedBlock, u64), u64>,
) -> Result<Result<(StatementTyping, u64), u64>, AllocError>
    ensures { IfOk result (λ o. judged_at statement_typing_of o ≡ (continued (judged_at block_of then) (λ a. continued (judged_at block_of otherwise) (λ b. Ok (spec.alone (spec.test_tree (environment_of env.entry) at (test_typing_of x) a.0 b.0), b.1))))) }
{
    match then {
        Err(stop) => {
            discard_test_typing(x);
            discard_judged_block(otherwise);
            Ok(Err(stop))
        }
        Ok((a, _)) => if_joined(env, at, x, a, otherwise),
    }
}

/// An `if` by its test and both of its blocks: a statement and the number behind it, or where it is ill-typed.
pub fn if_typed(
    env: Environment<'_>,
    at: u64,
    x: Option<TestTyping>,
    then: Result<(TypedBlock, u64), u64>,
    otherwise: Result<(TypedBlock, u64), u64>,
) -> Result<Result<(StatementTyping, u64), u64>, AllocError>
    ensures { IfOk result (λ o. judged_at statement_typing_of o ≡ (continued (ok_or (option_map test_typing_of x) at) (λ t. continued (judged_at block_of then) (λ a. continued (judged_at block_of otherwise) (λ b. Ok (spec.alone (spec.test_tree (environment_of env.entry) at t a.0 b.0), b.1)))))) }
{
    match x {
        None => {
            discard_judged_block(then);
            discard_judged_block(otherwise);
            Ok(Err(at))
        }
        Some(test) => if_behind(env, at, test, then, otherwise),
    }
}

/// A value that is transferred to its own type.
pub fn whole(x: Typing) -> Argument
    ensures value { term_of result.value ≡ (typing_of x).term }
    ensures of { pure_type result.target ≡ (typing_of x).type }
{
    Argument {
        value: x.term,
        target: x.declared,
    }
}

/// The content of an optional that was transferred to one of a type, in a variable of that type.
pub fn bound_content(
    env: Environment<'_>,
    kind: VariableKind,
    name: &Name,
    t: &CadType,
    value: Argument,
) -> Result<TestTyping, AllocError>
    ensures { IfOk result (λ x. test_typing_of x ≡ spec.content_test (local_spec.next_local (environment_of env.entry) kind name.now (pure_type t.now)) (argument_of value).value (argument_of value).target) }
{
    match next_local(env, kind, name, t) {
        Ok(v) => Ok(TestTyping::Content(v, value)),
        Err(error) => {
            discard_argument(value);
            Err(error)
        }
    }
}

/// A failable cast of a variable, which is bound to the written type, or else to that of the cast.
pub fn bound_cast(
    alloc: Global,
    env: Environment<'_>,
    kind: VariableKind,
    name: &Name,
    written: &Option<TypeAnnotation>,
    number: u32,
    t: CadType,
) -> Result<Option<TestTyping>, AllocError>
    ensures { IfOk result (λ x. option_map test_typing_of x ≡ (spec.type_for (environment_of env.entry) (option_map annotation_of written.now) (pure_type t) >=> (λ u. Some (spec.cast_test (local_spec.next_local (environment_of env.entry) kind name.now u) (typed.variable number) (pure_type t))))) }
{
    match type_for(alloc, env, written, &t) {
        Ok(Some(u)) => Ok(Some(cast_as(env, kind, name, number, u, t)?)),
        Ok(None) => {
            discard_type(t);
            Ok(None)
        }
        Err(error) => {
            discard_type(t);
            Err(error)
        }
    }
}

/// A failable cast of a variable, which is bound to a type.
fn cast_as(
    env: Environment<'_>,
    kind: VariableKind,
    name: &Name,
    number: u32,
    u: CadType,
    t: CadType,
) -> Result<TestTyping, AllocError>
    ensures { IfOk result (λ x. test_typing_of x ≡ spec.cast_test (local_spec.next_local (environment_of env.entry) kind name.now (pure_type u)) (typed.variable number) (pure_type t)) }
{
    match next_local_of(env, kind, name, u) {
        Ok(v) => Ok(TestTyping::Cast(v, variable_place(number), t)),
        Err(error) => {
            discard_type(t);
            Err(error)
        }
    }
}

/// The variable that is declared next, of a type that isn't needed behind it.
fn next_local_of(
    env: Environment<'_>,
    kind: VariableKind,
    name: &Name,
    u: CadType,
) -> Result<Local, AllocError>
    ensures { IfOk result (λ v. local_of v ≡ local_spec.next_local (environment_of env.entry) kind name.now (pure_type u)) }
{
    let v = next_local(env, kind, name, &u);
    discard_type(u);
    v
}
