// Statements: their elaborated trees, or the first that is ill-typed.
ghost use Rattle.std.specs.Prelude.{◌≡◌, ◌+◌, [], IfOk, Ok, map, option_map};
ghost use Rattle.cad_grammar.specs.Trees as s;
ghost use Rattle.cad_grammar.specs.Views.{stmt_of, otherwise_of, case_of};
ghost use Rattle.cad_declarations.specs.Typed as typed;
ghost use Rattle.cad_declarations.specs.Views.{block_of, statement_of};
ghost use Rattle.cad_environment.specs.Views.{local_of};
ghost use Rattle.cad_typing.specs.Statements as spec;
ghost use Rattle.cad_statement_parts.specs.Blocks as blocks;
ghost use Rattle.cad_statement_parts.specs.Blocks.{continued, numbered};
ghost use Rattle.cad_statement_parts.specs.Views.{judged, judged_at, surroundings_of};
ghost use Rattle.cad_statement_trees.specs.Views.{blocks_in, for_typing_of, statement_typing_of, test_typing_of};
ghost use Rattle.cad_statements.specs.Rows.{before, row_before, with_number};

use cad_declarations::TypedBlock;
use cad_environment::{Local, Typing};
use cad_grammar::{Case, Otherwise, Stmt};
use cad_statement_forms::{
    for_found, for_typing, if_found, infer_test, next_number, switch_found, switch_typing,
    test_typing, type_assignment, type_break, type_continue, type_emit, type_expression,
    type_return, type_swap, type_variable, while_found,
};
use cad_statement_parts::{
    Surroundings, discard_locals, first_inside, in_loop, in_switch, opened, within,
};
use cad_statement_trees::{
    Begun, ForTyping, StatementTyping, SwitchTyping, TestTyping, begin, discard_begun, empty_block,
    ended, for_scope, lone_block, take_in, test_scope,
};
use cad_typed_rows::{discard_blocks, push_block};
use std::alloc::{AllocError, Global};

/// A statement with this number, and the number behind it and the statements in it; else the number of the first that is
/// ill-typed.
pub fn type_statement(
    statement: &Stmt,
    alloc: Global,
    w: Surroundings<'_>,
    at: u64,
) -> Result<Result<(StatementTyping, u64), u64>, AllocError>
    ensures typing { IfOk result (λ o. judged (λ x. statement_typing_of x.0) o ≡ spec.type_statement (surroundings_of w.entry) at (stmt_of statement.now)) }
    ensures next { IfOk result (λ o. IfOk o (λ x. x.1 ≡ at + spec.count (stmt_of statement.now))) }
{
    judge_statement(statement, alloc, w, at)
}

/// Statements in a block of their own, the first of which has this number, and the number behind them; else the number of the
/// first that is ill-typed. The variables are in a scope outside the block.
pub fn type_block(
    all: &[Stmt],
    alloc: Global,
    w: Surroundings<'_>,
    locals: &[Local],
    at: u64,
) -> Result<Result<(TypedBlock, u64), u64>, AllocError>
    ensures typing { IfOk result (λ o. judged (λ x. block_of x.0) o ≡ spec.block_in (map local_of locals.now) (surroundings_of w.entry) (λ v. spec.type_statements v at (s.stmts_of (map stmt_of all.now)))) }
    ensures next { IfOk result (λ o. IfOk o (λ x. x.1 ≡ at + spec.count_all (s.stmts_of (map stmt_of all.now)))) }
{
    block_from(all, alloc, w, locals, at)
}

/// A statement with this number: its own parts first, then the statements in it, each where what stands before is typed.
#[cycle(typing)]
fn judge_statement(
    statement: &Stmt,
    alloc: Global,
    w: Surroundings<'_>,
    at: u64,
) -> Result<Result<(StatementTyping, u64), u64>, AllocError>
    ensures { IfOk result (λ o. judged_at statement_typing_of o ≡ numbered (at + spec.count (stmt_of statement.now)) (spec.type_statement (surroundings_of w.entry) at (stmt_of statement.now))) }
{
    match statement {
        Stmt::If {
            test,
            then,
            otherwise,
        } => {
            let x = test_typing(alloc, w.env, test)?;
            let a = judge_then(then, alloc, w, at, &x);
            let b = judge_otherwise(otherwise, alloc, w, next_number(&a));
            if_found(w.env, at, x, a, b)
        }
        Stmt::While(test, body) => {
            let x = infer_test(alloc, w.env, test)?;
            let a = judge_while(body, alloc, in_loop(w), at, &x);
            while_found(at, x, a)
        }
        Stmt::For {
            index,
            name,
            array,
            body,
        } => {
            let x = for_typing(alloc, w.env, index, name, array)?;
            let a = judge_for(body, alloc, in_loop(w), at, &x);
            for_found(w.env, at, x, a)
        }
        Stmt::Switch {
            value,
            cases,
            default,
        } => {
            let x = switch_typing(alloc, w.env, value, cases)?;
            let inside = in_switch(w);
            let a = judge_cases(cases, alloc, inside, at, &x);
            match default {
                None => {
                    let b = empty_block(alloc, inside, next_number(&a));
                    switch_found(alloc, at, x, a, Ok(b))
                }
                Some(last) => {
                    let b = judge_block(last, alloc, inside, &[], next_number(&a));
                    switch_found(alloc, at, x, a, b)
                }
            }
        }
        Stmt::Variable {
            kind,
            name,
            annotation,
            transfer,
            value,
            second,
        } => type_variable(
            alloc, w, at, *kind, name, annotation, *transfer, value, second,
        ),
        Stmt::Break => type_break(w, at),
        Stmt::Continue => type_continue(w, at),
        Stmt::Return(value) => type_return(alloc, w, at, value),
        Stmt::Emit(event) => type_emit(alloc, w, at, event),
        Stmt::Assignment(place, by, value) => type_assignment(alloc, w, at, place, *by, value),
        Stmt::Swap(left, right) => type_swap(alloc, w, at, left, right),
        Stmt::Expr(value) => type_expression(alloc, w, at, value),
    }
}

/// The block behind a test that was looked at, and in its variable's scope; where the test is ill-typed it stops there.
#[cycle(typing)]
fn judge_then(
    all: &[Stmt],
    alloc: Global,
    w: Surroundings<'_>,
    at: u64,
    x: &Option<TestTyping>,
) -> Result<Result<(TypedBlock, u64), u64>, AllocError>
    ensures { IfOk result (λ o. judged_at block_of o ≡ (continued (blocks.first_inside at x.now) (λ n. numbered (n + spec.count_all (s.stmts_of (map stmt_of all.now))) (spec.block_in (blocks.test_scope (option_map test_typing_of x.now)) (surroundings_of w.entry) (λ v. spec.type_statements v n (s.stmts_of (map stmt_of all.now))))))) }
{
    let first = first_inside(at, x)?;
    judge_block(all, alloc, w, test_scope(x), first)
}

/// The block of a `while` whose test was looked at.
#[cycle(typing)]
fn judge_while(
    all: &[Stmt],
    alloc: Global,
    w: Surroundings<'_>,
    at: u64,
    x: &Option<Typing>,
) -> Result<Result<(TypedBlock, u64), u64>, AllocError>
    ensures { IfOk result (λ o. judged_at block_of o ≡ (continued (blocks.first_inside at x.now) (λ n. numbered (n + spec.count_all (s.stmts_of (map stmt_of all.now))) (spec.block_in [] (surroundings_of w.entry) (λ v. spec.type_statements v n (s.stmts_of (map stmt_of all.now))))))) }
{
    let first = first_inside(at, x)?;
    judge_block(all, alloc, w, &[], first)
}

/// The block of a `for` whose array was looked at, in the scope of its variables.
#[cycle(typing)]
fn judge_for(
    all: &[Stmt],
    alloc: Global,
    w: Surroundings<'_>,
    at: u64,
    x: &Option<ForTyping>,
) -> Result<Result<(TypedBlock, u64), u64>, AllocError>
    ensures { IfOk result (λ o. judged_at block_of o ≡ (continued (blocks.first_inside at x.now) (λ n. numbered (n + spec.count_all (s.stmts_of (map stmt_of all.now))) (spec.block_in (blocks.for_scope (option_map for_typing_of x.now)) (surroundings_of w.entry) (λ v. spec.type_statements v n (s.stmts_of (map stmt_of all.now))))))) }
{
    let first = first_inside(at, x)?;
    let locals = for_scope(alloc, x)?;
    let block = judge_block(all, alloc, w, &locals, first);
    discard_locals(locals);
    block
}

/// Statements in a block of their own, where what stands before is typed.
#[cycle(typing)]
fn judge_block(
    all: &[Stmt],
    alloc: Global,
    w: Surroundings<'_>,
    locals: &[Local],
    at: Result<u64, u64>,
) -> Result<Result<(TypedBlock, u64), u64>, AllocError>
    ensures { IfOk result (λ o. judged_at block_of o ≡ (continued at (λ n. numbered (n + spec.count_all (s.stmts_of (map stmt_of all.now))) (spec.block_in (map local_of locals.now) (surroundings_of w.entry) (λ v. spec.type_statements v n (s.stmts_of (map stmt_of all.now))))))) }
{
    match at {
        Ok(first) => block_from(all, alloc, w, locals, first),
        Err(stop) => Ok(Err(stop)),
    }
}

/// Statements in a block of their own, the first of which has this number.
#[cycle(typing)]
fn block_from(
    all: &[Stmt],
    alloc: Global,
    w: Surroundings<'_>,
    locals: &[Local],
    at: u64,
) -> Result<Result<(TypedBlock, u64), u64>, AllocError>
    ensures { IfOk result (λ o. judged_at block_of o ≡ numbered (at + spec.count_all (s.stmts_of (map stmt_of all.now))) (spec.block_in (map local_of locals.now) (surroundings_of w.entry) (λ v. spec.type_statements v at (s.stmts_of (map stmt_of all.now))))) }
{
    let outer = opened(&w, locals)?;
    let mut begun = begin(alloc, outer.env.in_use);
    match take_statements(all, alloc, outer, &mut begun, at) {
        Ok(taken) => Ok(block_taken(begun, outer.env.in_use, taken)),
        Err(error) => {
            discard_begun(begun);
            Err(error)
        }
    }
}

/// Takes statements into a block that is begun, the first of which has this number: the number behind them, or that of the first
/// that is ill-typed.
#[cycle(typing)]
fn take_statements(
    all: &[Stmt],
    alloc: Global,
    outer: Surroundings<'_>,
    begun: &mut Begun,
    at: u64,
) -> Result<Result<u64, u64>, AllocError>
    ensures { IfOk result (λ o. with_number (typed.statements_of (map statement_of begun.new.trees.items)) o ≡ numbered (at + spec.count_all (s.stmts_of (map stmt_of all.now))) (before (map statement_of begun.old.trees.items) (spec.type_statements (blocks.inner (surroundings_of outer.entry) (map local_of begun.old.locals.items) begun.old.in_use) at (s.stmts_of (map stmt_of all.now))))) }
{
    let mut next = at;
    for statement in all {
        let here = within(&outer, &begun.locals, begun.in_use);
        match judge_statement(statement, alloc, here, next)? {
            Ok((x, behind)) => {
                take_in(begun, x)?;
                next = behind;
            }
            Err(stop) => return Ok(Err(stop)),
        }
    }
    Ok(Ok(next))
}

/// The block that was begun, where all of its statements are typed.
fn block_taken(
    begun: Begun,
    in_scope: u32,
    taken: Result<u64, u64>,
) -> Result<(TypedBlock, u64), u64>
    ensures { judged_at block_of result ≡ (continued (with_number (typed.statements_of (map statement_of begun.trees.items)) taken) (λ y. Ok (typed.block in_scope y.0, y.1))) }
{
    match taken {
        Ok(next) => Ok((ended(begun, in_scope), next)),
        Err(stop) => {
            discard_begun(begun);
            Err(stop)
        }
    }
}

/// The one statement of a block.
#[cycle(typing)]
fn judge_lone(
    statement: &Stmt,
    alloc: Global,
    w: Surroundings<'_>,
    at: u64,
) -> Result<Result<(TypedBlock, u64), u64>, AllocError>
    ensures { IfOk result (λ o. judged_at block_of o ≡ numbered (at + spec.count (stmt_of statement.now)) (spec.type_otherwise (surroundings_of w.entry) at (s.else_if (stmt_of statement.now)))) }
{
    let outer = opened(&w, &[])?;
    let here = within(&outer, &[], outer.env.in_use);
    let x = judge_statement(statement, alloc, here, at)?;
    lone_block(alloc, x, outer.env.in_use)
}

/// What stands behind `else`, where what stands before is typed.
#[cycle(typing)]
fn judge_otherwise(
    otherwise: &Otherwise,
    alloc: Global,
    w: Surroundings<'_>,
    at: Result<u64, u64>,
) -> Result<Result<(TypedBlock, u64), u64>, AllocError>
    ensures { IfOk result (λ o. judged_at block_of o ≡ (continued at (λ n. numbered (n + spec.count_otherwise (otherwise_of otherwise.now)) (spec.type_otherwise (surroundings_of w.entry) n (otherwise_of otherwise.now))))) }
{
    match otherwise {
        Otherwise::Nothing => Ok(empty_block(alloc, w, at)),
        Otherwise::Block(body) => judge_block(body, alloc, w, &[], at),
        Otherwise::If(statement) => match at {
            Ok(first) => judge_lone(statement, alloc, w, first),
            Err(stop) => Ok(Err(stop)),
        },
    }
}

/// The block of a case, whose first statement has this number.
#[cycle(typing)]
fn judge_case(
    case: &Case,
    alloc: Global,
    w: Surroundings<'_>,
    at: u64,
) -> Result<Result<(TypedBlock, u64), u64>, AllocError>
    ensures { IfOk result (λ o. judged_at block_of o ≡ numbered (at + spec.count_all (s.stmts_of (case_of case.now).body)) (spec.block_in [] (surroundings_of w.entry) (λ v. spec.type_statements v at (s.stmts_of (case_of case.now).body)))) }
{
    block_from(&case.body, alloc, w, &[], at)
}

/// The blocks of the cases of a `switch` whose values were looked at; each is a scope.
#[cycle(typing)]
fn judge_cases(
    cases: &[Case],
    alloc: Global,
    w: Surroundings<'_>,
    at: u64,
    x: &Option<SwitchTyping>,
) -> Result<Result<(Vec<TypedBlock>, u64), u64>, AllocError>
    ensures { IfOk result (λ o. judged_at blocks_in o ≡ (continued (blocks.first_inside at x.now) (λ n. numbered (n + spec.count_cases (s.cases_of (map case_of cases.now))) (spec.type_cases (surroundings_of w.entry) n (s.cases_of (map case_of cases.now)))))) }
{
    match first_inside(at, x)? {
        Ok(first) => cases_from(cases, alloc, w, first),
        Err(stop) => Ok(Err(stop)),
    }
}

/// The blocks of the cases, the first statement of which has this number.
#[cycle(typing)]
fn cases_from(
    cases: &[Case],
    alloc: Global,
    w: Surroundings<'_>,
    at: u64,
) -> Result<Result<(Vec<TypedBlock>, u64), u64>, AllocError>
    ensures { IfOk result (λ o. judged_at blocks_in o ≡ numbered (at + spec.count_cases (s.cases_of (map case_of cases.now))) (spec.type_cases (surroundings_of w.entry) at (s.cases_of (map case_of cases.now)))) }
{
    let mut bodies = Vec::new(alloc);
    match push_bodies(cases, alloc, w, &mut bodies, at) {
        Ok(taken) => Ok(bodies_taken(bodies, taken)),
        Err(error) => {
            discard_blocks(bodies);
            Err(error)
        }
    }
}

/// Adds the blocks of cases, the first statement of which has this number: the number behind them, or that of the first statement
/// that is ill-typed.
#[cycle(typing)]
fn push_bodies(
    cases: &[Case],
    alloc: Global,
    w: Surroundings<'_>,
    bodies: &mut Vec<TypedBlock>,
    at: u64,
) -> Result<Result<u64, u64>, AllocError>
    ensures { IfOk result (λ o. with_number (map block_of bodies.new.items) o ≡ numbered (at + spec.count_cases (s.cases_of (map case_of cases.now))) (row_before (map block_of bodies.old.items) (spec.type_cases (surroundings_of w.entry) at (s.cases_of (map case_of cases.now))))) }
{
    let mut next = at;
    for case in cases {
        match judge_case(case, alloc, w, next)? {
            Ok((body, behind)) => {
                push_block(bodies, body)?;
                next = behind;
            }
            Err(stop) => return Ok(Err(stop)),
        }
    }
    Ok(Ok(next))
}

/// The blocks, where all of their statements are typed.
fn bodies_taken(
    bodies: Vec<TypedBlock>,
    taken: Result<u64, u64>,
) -> Result<(Vec<TypedBlock>, u64), u64>
    ensures { judged_at blocks_in result ≡ with_number (blocks_in bodies) taken }
{
    match taken {
        Ok(next) => Ok((bodies, next)),
        Err(stop) => {
            discard_blocks(bodies);
            Err(stop)
        }
    }
}
