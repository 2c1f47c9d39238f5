// The trees of `switch`.
ghost use Rattle.std.specs.Prelude.{◌≡◌, [], IfOk, OnOk, Ok, map, ok_or, option_map};
ghost use Rattle.cad_declarations.specs.Typed as typed;
ghost use Rattle.cad_declarations.specs.Views.{block_of, statement_of, term_of};
ghost use Rattle.cad_declarations.specs.Views as typed_views;
ghost use Rattle.cad_typing.specs.StatementForms as spec;
ghost use Rattle.cad_statement_parts.specs.Blocks.{continued};
ghost use Rattle.cad_statement_parts.specs.Views.{judged_at};
ghost use Rattle.cad_statement_trees.specs.Views.{blocks_in, statement_typing_of, switch_typing_of};

use crate::typing::{
    StatementTyping, SwitchTyping, discard_judged_block, discard_judged_blocks,
    discard_switch_typing,
};
use crate::variables::alone;
use cad_declarations::{Term, TypedBlock, TypedCase, TypedStatement, discard_block, discard_term};
use cad_typed_rows::{discard_blocks, discard_cases, discard_terms, push_case};
use std::alloc::{AllocError, Global};
use std::collections::VecDeque;

/// A value with its block.
fn case_with(value: Term, body: TypedBlock) -> TypedCase
    ensures value { (typed_views.case_of result).value ≡ term_of value }
    ensures body { (typed_views.case_of result).body ≡ block_of body }
{
    TypedCase { value, body }
}

/// Adds each value with its block to none.
fn push_cases(
    all: &mut Vec<TypedCase>,
    left: &mut VecDeque<Term>,
    rest: &mut VecDeque<TypedBlock>,
) -> Result<(), AllocError>
    requires { all.old.items ≡ [] }
    ensures { OnOk result (typed.cases_of (map typed_views.case_of all.new.items) ≡ spec.cases_with (map term_of left.old.items) (map block_of rest.old.items)) }
{
    while let Some(value) = left.pop_front() {
        match rest.pop_front() {
            Some(body) => push_case(all, case_with(value, body))?,
            None => {
                discard_term(value);
                return Ok(());
            }
        }
    }
    Ok(())
}

/// Each value with its block.
fn cases_with(
    alloc: Global,
    values: Vec<Term>,
    bodies: Vec<TypedBlock>,
) -> Result<Vec<TypedCase>, AllocError>
    ensures { IfOk result (λ all. typed.cases_of (map typed_views.case_of all.items) ≡ spec.cases_with (map term_of values.items) (map block_of bodies.items)) }
{
    let mut left = VecDeque::from_vec(values);
    let mut rest = VecDeque::from_vec(bodies);
    let mut all = Vec::new(alloc);
    let done = push_cases(&mut all, &mut left, &mut rest);
    discard_terms(left.into_vec());
    discard_blocks(rest.into_vec());
    match done {
        Ok(()) => Ok(all),
        Err(error) => {
            discard_cases(all);
            Err(error)
        }
    }
}

/// A `switch` with its blocks.
fn switch_tree(
    alloc: Global,
    at: u64,
    x: SwitchTyping,
    bodies: Vec<TypedBlock>,
    otherwise: TypedBlock,
) -> Result<TypedStatement, AllocError>
    ensures { IfOk result (λ s. statement_of s ≡ typed.switch at (switch_typing_of x).value (spec.cases_with (switch_typing_of x).cases (blocks_in bodies)) (block_of otherwise)) }
{
    match cases_with(alloc, x.cases, bodies) {
        Ok(cases) => Ok(TypedStatement::Switch {
            at,
            value: x.value,
            cases,
            default: otherwise,
        }),
        Err(error) => {
            discard_term(x.value);
            discard_block(otherwise);
            Err(error)
        }
    }
}

/// A `switch` behind the blocks of its cases.
fn switch_joined(
    alloc: Global,
    at: u64,
    x: SwitchTyping,
    bodies: Vec<TypedBlock>,
    otherwise: Result<(TypedBlock, u64), u64>,
) -> Result<Result<(StatementTyping, u64), u64>, AllocError>
    ensures { IfOk result (λ o. judged_at statement_typing_of o ≡ (continued (judged_at block_of otherwise) (λ b. Ok (spec.alone (typed.switch at (switch_typing_of x).value (spec.cases_with (switch_typing_of x).cases (blocks_in bodies)) b.0), b.1)))) }
{
    match otherwise {
        Err(stop) => {
            discard_switch_typing(x);
            discard_blocks(bodies);
            Ok(Err(stop))
        }
        Ok((b, next)) => {
            let tree = switch_tree(alloc, at, x, bodies, b)?;
            Ok(Ok((alone(tree), next)))
        }
    }
}

/// A `switch` by its values and its blocks: a statement and the number behind it, or where it is ill-typed.
pub fn switch_typed(
    alloc: Global,
    at: u64,
    x: Option<SwitchTyping>,
    bodies: Result<(Vec<TypedBlock>, u64), u64>,
    otherwise: Result<(TypedBlock, u64), u64>,
) -> Result<Result<(StatementTyping, u64), u64>, AllocError>
    ensures { IfOk result (λ o. judged_at statement_typing_of o ≡ (continued (ok_or (option_map switch_typing_of x) at) (λ t. continued (judged_at blocks_in bodies) (λ bs. continued (judged_at block_of otherwise) (λ b. Ok (spec.alone (typed.switch at t.value (spec.cases_with t.cases bs.0) b.0), b.1)))))) }
{
    match x {
        None => {
            discard_judged_blocks(bodies);
            discard_judged_block(otherwise);
            Ok(Err(at))
        }
        Some(values) => switch_behind(alloc, at, values, bodies, otherwise),
    }
}

/// A `switch` behind its values.
fn switch_behind(
    alloc: Global,
    at: u64,
    x: SwitchTyping,
    bodies: Result<(Vec<TypedBlock>, u64), u64>,
    otherwise: Result<(TypedBlock, u64), u64>,
) -> Result<Result<(StatementTyping, u64), u64>, AllocError>
    ensures { IfOk result (λ o. judged_at statement_typing_of o ≡ (continued (judged_at blocks_in bodies) (λ bs. continued (judged_at block_of otherwise) (λ b. Ok (spec.alone (typed.switch at (switch_typing_of x).value (spec.cases_with (switch_typing_of x).cases bs.0) b.0), b.1))))) }
{
    match bodies {
        Err(stop) => {
            discard_switch_typing(x);
            discard_judged_block(otherwise);
            Ok(Err(stop))
        }
        Ok((all, _)) => switch_joined(alloc, at, x, all, otherwise),
    }
}
