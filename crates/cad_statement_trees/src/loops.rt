// Loops: their variables and trees.
ghost use Rattle.std.specs.Prelude.{◌≡◌, ◌∷◌, [], IfOk, OnOk, Ok, ok_or, option_map, map};
ghost use Rattle.cad_syntax.specs.Types.{pure_type};
ghost use Rattle.cad_declarations.specs.Typed as typed;
ghost use Rattle.cad_declarations.specs.Views.{block_of, statement_of, variable_of};
ghost use Rattle.cad_environment.specs.Views.{environment_of, local_of, typing_of};
ghost use Rattle.cad_typing.specs.Locals as local_spec;
ghost use Rattle.cad_typing.specs.StatementForms as spec;
ghost use Rattle.cad_statement_parts.specs.Blocks as blocks_spec;
ghost use Rattle.cad_statement_parts.specs.Blocks.{continued};
ghost use Rattle.cad_statement_parts.specs.Views.{judged_at};
ghost use Rattle.cad_statement_trees.specs.Loops.{for_variables_of, for_with, variables_over};
ghost use Rattle.cad_statement_trees.specs.Views.{for_typing_of, statement_typing_of};

use crate::typing::{ForTyping, StatementTyping, discard_for_typing, discard_judged_block};
use crate::variables::alone;
use cad_declarations::{
    Argument, TypedBlock, TypedStatement, Variable, discard_block, discard_type,
};
use cad_environment::{Environment, Local, Typing, discard_typing};
use cad_statement_parts::{
    ForVariables, discard_local, discard_locals, discard_maybe_local, entry_of, for_variables,
    gone_over, push_copy,
};
use cad_syntax::{CadType, Name};
use cad_typed_rows::discard_maybe_variable;
use std::alloc::{AllocError, Global};

/// The variables of a `for`, in a scope outside its block.
fn for_locals(alloc: Global, x: &ForTyping) -> Result<Vec<Local>, AllocError>
    ensures { IfOk result (λ all. map local_of all.items ≡ spec.for_locals (for_typing_of x.now)) }
{
    let mut all = Vec::new(alloc);
    match push_variables(&mut all, &x.element, &x.index) {
        Ok(()) => Ok(all),
        Err(error) => {
            discard_locals(all);
            Err(error)
        }
    }
}

/// Adds the variables of a `for` to none.
fn push_variables(
    all: &mut Vec<Local>,
    element: &Local,
    index: &Option<Local>,
) -> Result<(), AllocError>
    requires { all.old.items ≡ [] }
    ensures { OnOk result (map local_of all.new.items ≡ local_of element.now ∷ spec.index_locals (option_map local_of index.now)) }
{
    push_copy(all, element)?;
    match index {
        None => Ok(()),
        Some(index) => push_copy(all, index),
    }
}

/// The variables of a `for`, where it is typed.
pub fn for_scope(alloc: Global, x: &Option<ForTyping>) -> Result<Vec<Local>, AllocError>
    ensures { IfOk result (λ all. map local_of all.items ≡ blocks_spec.for_scope (option_map for_typing_of x.now)) }
{
    match x {
        None => Ok(Vec::new(alloc)),
        Some(variables) => for_locals(alloc, variables),
    }
}

/// The index's variable in the elaborated tree.
fn index_entry(env: Environment<'_>, index: &Option<Local>) -> Result<Option<Variable>, AllocError>
    ensures { IfOk result (λ v. option_map variable_of v ≡ option_map (local_spec.entry_of (environment_of env.entry)) (option_map local_of index.now)) }
{
    match index {
        None => Ok(None),
        Some(v) => Ok(Some(entry_of(env, v)?)),
    }
}

/// The variables of a `for` in the elaborated tree.
fn for_entries(
    env: Environment<'_>,
    x: &ForTyping,
) -> Result<(Option<Variable>, Variable), AllocError>
    ensures index { IfOk result (λ v. option_map variable_of v.0 ≡ option_map (local_spec.entry_of (environment_of env.entry)) (for_typing_of x.now).index) }
    ensures element { IfOk result (λ v. variable_of v.1 ≡ local_spec.entry_of (environment_of env.entry) (for_typing_of x.now).element) }
{
    let index = index_entry(env, &x.index)?;
    match entry_of(env, &x.element) {
        Ok(element) => Ok((index, element)),
        Err(error) => {
            discard_maybe_variable(index);
            Err(error)
        }
    }
}

/// A `for` with its block.
fn for_tree(
    env: Environment<'_>,
    at: u64,
    x: ForTyping,
    body: TypedBlock,
) -> Result<TypedStatement, AllocError>
    ensures { IfOk result (λ s. statement_of s ≡ spec.for_tree (environment_of env.entry) at (for_typing_of x) (block_of body)) }
{
    match for_entries(env, &x) {
        Ok((index, variable)) => {
            discard_maybe_local(x.index);
            discard_local(x.element);
            Ok(TypedStatement::For {
                at,
                index,
                variable,
                array: x.array,
                body,
            })
        }
        Err(error) => {
            discard_for_typing(x);
            discard_block(body);
            Err(error)
        }
    }
}

/// A `for` by its variables and its block: a statement and the number behind it, or where it is ill-typed.
pub fn for_typed(
    env: Environment<'_>,
    at: u64,
    x: Option<ForTyping>,
    body: Result<(TypedBlock, u64), u64>,
) -> Result<Result<(StatementTyping, u64), u64>, AllocError>
    ensures { IfOk result (λ o. judged_at statement_typing_of o ≡ (continued (ok_or (option_map for_typing_of x) at) (λ t. continued (judged_at block_of body) (λ a. Ok (spec.alone (spec.for_tree (environment_of env.entry) at t a.0), a.1))))) }
{
    match x {
        None => {
            discard_judged_block(body);
            Ok(Err(at))
        }
        Some(variables) => for_joined(env, at, variables, body),
    }
}

/// A `for` behind its variables.
fn for_joined(
    env: Environment<'_>,
    at: u64,
    x: ForTyping,
    body: Result<(TypedBlock, u64), u64>,
) -> Result<Result<(StatementTyping, u64), u64>, AllocError>
    ensures { IfOk result (λ o. judged_at statement_typing_of o ≡ (continued (judged_at block_of body) (λ a. Ok (spec.alone (spec.for_tree (environment_of env.entry) at (for_typing_of x) a.0), a.1)))) }
{
    match body {
        Err(stop) => {
            discard_for_typing(x);
            Ok(Err(stop))
        }
        Ok((a, next)) => {
            let tree = for_tree(env, at, x, a)?;
            Ok(Ok((alone(tree), next)))
        }
    }
}

/// A `while` by its test and its block: a statement and the number behind it, or where it is ill-typed.
pub fn while_typed(
    at: u64,
    x: Option<Typing>,
    body: Result<(TypedBlock, u64), u64>,
) -> Result<(StatementTyping, u64), u64>
    ensures { judged_at statement_typing_of result ≡ (continued (ok_or (option_map typing_of x) at) (λ t. continued (judged_at block_of body) (λ a. Ok (spec.alone (typed.while_loop at t.term a.0), a.1)))) }
{
    match x {
        None => {
            discard_judged_block(body);
            Err(at)
        }
        Some(test) => while_joined(at, test, body),
    }
}

/// A `while` behind its test.
fn while_joined(
    at: u64,
    x: Typing,
    body: Result<(TypedBlock, u64), u64>,
) -> Result<(StatementTyping, u64), u64>
    ensures { judged_at statement_typing_of result ≡ (continued (judged_at block_of body) (λ a. Ok (spec.alone (typed.while_loop at (typing_of x).term a.0), a.1))) }
{
    match body {
        Err(stop) => {
            discard_typing(x);
            Err(stop)
        }
        Ok((a, next)) => {
            discard_type(x.declared);
            let tree = TypedStatement::While {
                at,
                test: x.term,
                body: a,
            };
            Ok((alone(tree), next))
        }
    }
}

/// A `for` over a value, by its variables.
fn for_elements(x: Typing, variables: ForVariables) -> ForTyping
    ensures { for_typing_of result ≡ for_with (typing_of x) (for_variables_of variables) }
{
    ForTyping {
        index: variables.index,
        element: variables.element,
        array: Argument {
            value: x.term,
            target: x.declared,
        },
    }
}

/// The variables of a `for` over elements of a type, where it may go over them under these names.
fn variables_over(
    env: Environment<'_>,
    index: &Option<Name>,
    name: &Name,
    t: &CadType,
) -> Result<Option<ForVariables>, AllocError>
    ensures { IfOk result (λ o. option_map for_variables_of o ≡ variables_over (environment_of env.entry) index.now name.now (pure_type t.now)) }
{
    match gone_over(env, index, name, t) {
        None => Ok(None),
        Some(element) => {
            let variables = for_variables(env, index, name, element)?;
            Ok(Some(variables))
        }
    }
}

/// A `for` over a value, where it has variables.
fn for_made(x: Typing, variables: Option<ForVariables>) -> Option<ForTyping>
    ensures { option_map for_typing_of result ≡ option_map (for_with (typing_of x)) (option_map for_variables_of variables) }
{
    match variables {
        Some(found) => Some(for_elements(x, found)),
        None => {
            discard_typing(x);
            None
        }
    }
}

/// A `for` over a value, which is an array that isn't one of resources.
pub fn for_over(
    env: Environment<'_>,
    index: &Option<Name>,
    name: &Name,
    x: Typing,
) -> Result<Option<ForTyping>, AllocError>
    ensures { IfOk result (λ o. option_map for_typing_of o ≡ blocks_spec.for_over (environment_of env.entry) index.now name.now (typing_of x)) }
{
    match variables_over(env, index, name, &x.declared) {
        Ok(variables) => Ok(for_made(x, variables)),
        Err(error) => {
            discard_typing(x);
            Err(error)
        }
    }
}
