// Statements with statements in them, by what was found of these: where memory ran out, what was found is let go.
ghost use Rattle.std.specs.Prelude.{◌≡◌, IfOk, IsOkAnd, Ok, ok_or, option_map};
ghost use Rattle.cad_declarations.specs.Typed as typed;
ghost use Rattle.cad_declarations.specs.Views.{block_of};
ghost use Rattle.cad_environment.specs.Views.{environment_of, typing_of};
ghost use Rattle.cad_typing.specs.StatementForms as spec;
ghost use Rattle.cad_statement_parts.specs.Blocks.{continued};
ghost use Rattle.cad_statement_parts.specs.Views.{judged_at};
ghost use Rattle.cad_statement_trees.specs.Views.{blocks_in, for_typing_of, statement_typing_of, switch_typing_of, test_typing_of};
ghost use Rattle.cad_statement_forms.specs.Found.{number_of};

use cad_declarations::TypedBlock;
use cad_environment::{Environment, Typing, discard_typing};
use cad_statement_parts::number_behind;
use cad_statement_trees::{
    ForTyping, StatementTyping, SwitchTyping, TestTyping, discard_for_typing, discard_judged_block,
    discard_judged_blocks, discard_switch_typing, discard_test_typing, for_typed, if_typed,
    switch_typed, while_typed,
};
use std::alloc::{AllocError, Global};

/// The number behind what was found; where memory ran out, a stop at 0.
pub fn next_number<T>(found: &Result<Result<(T, u64), u64>, AllocError>) -> Result<u64, u64>
    ensures { result ≡ number_of found.now }
{
    match found {
        Ok(typed) => number_behind(typed),
        Err(_) => Err(0),
    }
}

/// Lets go what was found of a block.
fn discard_found(found: Result<Result<(TypedBlock, u64), u64>, AllocError>) {
    match found {
        Ok(block) => discard_judged_block(block),
        Err(_) => {}
    }
}

/// Lets a test go, where there is one.
fn discard_maybe_test(x: Option<TestTyping>) {
    match x {
        Some(test) => discard_test_typing(test),
        None => {}
    }
}

/// An `if` by its test and what was found of its first block and behind `else`.
pub fn if_found(
    env: Environment<'_>,
    at: u64,
    x: Option<TestTyping>,
    then: Result<Result<(TypedBlock, u64), u64>, AllocError>,
    otherwise: Result<Result<(TypedBlock, u64), u64>, AllocError>,
) -> Result<Result<(StatementTyping, u64), u64>, AllocError>
    ensures { IfOk result (λ o. IsOkAnd then (λ a. IsOkAnd otherwise (λ b. judged_at statement_typing_of o ≡ (continued (ok_or (option_map test_typing_of x) at) (λ t. continued (judged_at block_of a) (λ y. continued (judged_at block_of b) (λ z. Ok (spec.alone (spec.test_tree (environment_of env.entry) at t y.0 z.0), z.1)))))))) }
{
    match then {
        Ok(block) => if_found_then(env, at, x, block, otherwise),
        Err(error) => {
            discard_maybe_test(x);
            discard_found(otherwise);
            Err(error)
        }
    }
}

/// The same behind its first block.
fn if_found_then(
    env: Environment<'_>,
    at: u64,
    x: Option<TestTyping>,
    then: Result<(TypedBlock, u64), u64>,
    otherwise: Result<Result<(TypedBlock, u64), u64>, AllocError>,
) -> Result<Result<(StatementTyping, u64), u64>, AllocError>
    ensures { IfOk result (λ o. IsOkAnd otherwise (λ b. judged_at statement_typing_of o ≡ (continued (ok_or (option_map test_typing_of x) at) (λ t. continued (judged_at block_of then) (λ y. continued (judged_at block_of b) (λ z. Ok (spec.alone (spec.test_tree (environment_of env.entry) at t y.0 z.0), z.1))))))) }
{
    match otherwise {
        Ok(block) => if_typed(env, at, x, then, block),
        Err(error) => {
            discard_maybe_test(x);
            discard_judged_block(then);
            Err(error)
        }
    }
}

/// A `while` by its test and what was found of its block.
pub fn while_found(
    at: u64,
    x: Option<Typing>,
    body: Result<Result<(TypedBlock, u64), u64>, AllocError>,
) -> Result<Result<(StatementTyping, u64), u64>, AllocError>
    ensures { IfOk result (λ o. IsOkAnd body (λ a. judged_at statement_typing_of o ≡ (continued (ok_or (option_map typing_of x) at) (λ t. continued (judged_at block_of a) (λ y. Ok (spec.alone (typed.while_loop at t.term y.0), y.1)))))) }
{
    match body {
        Ok(block) => Ok(while_typed(at, x, block)),
        Err(error) => {
            match x {
                Some(test) => discard_typing(test),
                None => {}
            }
            Err(error)
        }
    }
}

/// A `for` by its variables and what was found of its block.
pub fn for_found(
    env: Environment<'_>,
    at: u64,
    x: Option<ForTyping>,
    body: Result<Result<(TypedBlock, u64), u64>, AllocError>,
) -> Result<Result<(StatementTyping, u64), u64>, AllocError>
    ensures { IfOk result (λ o. IsOkAnd body (λ a. judged_at statement_typing_of o ≡ (continued (ok_or (option_map for_typing_of x) at) (λ t. continued (judged_at block_of a) (λ y. Ok (spec.alone (spec.for_tree (environment_of env.entry) at t y.0), y.1)))))) }
{
    match body {
        Ok(block) => for_typed(env, at, x, block),
        Err(error) => {
            match x {
                Some(variables) => discard_for_typing(variables),
                None => {}
            }
            Err(error)
        }
    }
}

/// Lets the values of a `switch` go, where there are some.
fn discard_maybe_switch(x: Option<SwitchTyping>) {
    match x {
        Some(values) => discard_switch_typing(values),
        None => {}
    }
}

/// A `switch` by its values and what was found of the blocks of its cases and of `default`.
pub fn switch_found(
    alloc: Global,
    at: u64,
    x: Option<SwitchTyping>,
    bodies: Result<Result<(Vec<TypedBlock>, u64), u64>, AllocError>,
    otherwise: Result<Result<(TypedBlock, u64), u64>, AllocError>,
) -> Result<Result<(StatementTyping, u64), u64>, AllocError>
    ensures { IfOk result (λ o. IsOkAnd bodies (λ a. IsOkAnd otherwise (λ b. judged_at statement_typing_of o ≡ (continued (ok_or (option_map switch_typing_of x) at) (λ t. continued (judged_at blocks_in a) (λ y. continued (judged_at block_of b) (λ z. Ok (spec.alone (typed.switch at t.value (spec.cases_with t.cases y.0) z.0), z.1)))))))) }
{
    match bodies {
        Ok(blocks) => switch_found_then(alloc, at, x, blocks, otherwise),
        Err(error) => {
            discard_maybe_switch(x);
            discard_found(otherwise);
            Err(error)
        }
    }
}

/// The same behind the blocks of its cases.
fn switch_found_then(
    alloc: Global,
    at: u64,
    x: Option<SwitchTyping>,
    bodies: Result<(Vec<TypedBlock>, u64), u64>,
    otherwise: Result<Result<(TypedBlock, u64), u64>, AllocError>,
) -> Result<Result<(StatementTyping, u64), u64>, AllocError>
    ensures { IfOk result (λ o. IsOkAnd otherwise (λ b. judged_at statement_typing_of o ≡ (continued (ok_or (option_map switch_typing_of x) at) (λ t. continued (judged_at blocks_in bodies) (λ y. continued (judged_at block_of b) (λ z. Ok (spec.alone (typed.switch at t.value (spec.cases_with t.cases y.0) z.0), z.1))))))) }
{
    match otherwise {
        Ok(block) => switch_typed(alloc, at, x, bodies, block),
        Err(error) => {
            discard_maybe_switch(x);
            discard_judged_blocks(bodies);
            Err(error)
        }
    }
}
