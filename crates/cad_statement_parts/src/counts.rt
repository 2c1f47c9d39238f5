// How many statements there are, those in statements among them.
ghost use Rattle.std.specs.Prelude.{◌≡◌, ◌+◌, ◌++◌, [], suc, IfOk, length, map};
ghost use Rattle.cad_grammar.specs.Trees as s;
ghost use Rattle.cad_grammar.specs.Views.{stmt_of, otherwise_of, case_of};
ghost use Rattle.cad_declarations.specs.Written as written;
ghost use Rattle.cad_typing.specs.Statements as spec;

use cad_grammar::{Case, Otherwise, Stmt};
use std::alloc::AllocError;

/// Two numbers of statements, added.
fn sum(a: u64, b: u64) -> Result<u64, AllocError>
    ensures { IfOk result (λ n. n ≡ a + b) }
{
    a.checked_add(b).ok_or(AllocError)
}

/// How many statements an `if` is, by those in its branches.
fn with_branches(
    then: &[Stmt],
    otherwise: &Otherwise,
    first: u64,
    second: u64,
) -> Result<u64, AllocError>
    requires then { first ≡ spec.count_all (s.stmts_of (map stmt_of then.now)) }
    requires otherwise { second ≡ spec.count_otherwise (otherwise_of otherwise.now) }
    ensures { IfOk result (λ n. n ≡ suc (length (written.rows_of_stmts (s.stmts_of (map stmt_of then.now)) ++ written.rows_of_otherwise (otherwise_of otherwise.now)))) }
{
    let inner = sum(first, second)?;
    sum(inner, 1)
}

/// How many statements a `switch` is, by those in its cases and in `default`.
fn with_default(
    cases: &[Case],
    default: &[Stmt],
    first: u64,
    second: u64,
) -> Result<u64, AllocError>
    requires cases { first ≡ spec.count_cases (s.cases_of (map case_of cases.now)) }
    requires default { second ≡ spec.count_all (s.stmts_of (map stmt_of default.now)) }
    ensures { IfOk result (λ n. n ≡ suc (length (written.rows_of_cases (s.cases_of (map case_of cases.now)) ++ written.rows_of_stmts (s.stmts_of (map stmt_of default.now))))) }
{
    let inner = sum(first, second)?;
    sum(inner, 1)
}

/// How many statements a `switch` without `default` is.
fn without_default(cases: &[Case], first: u64) -> Result<u64, AllocError>
    requires { first ≡ spec.count_cases (s.cases_of (map case_of cases.now)) }
    ensures { IfOk result (λ n. n ≡ suc (length (written.rows_of_cases (s.cases_of (map case_of cases.now)) ++ []))) }
{
    sum(first, 1)
}

/// How many statements a statement is.
#[cycle(counts)]
fn count(statement: &Stmt) -> Result<u64, AllocError>
    ensures { IfOk result (λ n. n ≡ spec.count (stmt_of statement.now)) }
{
    match statement {
        Stmt::If {
            then,
            otherwise,
            ..
        } => {
            let first = count_all(then.as_slice())?;
            let second = count_otherwise(otherwise)?;
            with_branches(then.as_slice(), otherwise, first, second)
        }
        Stmt::While(_, body) => {
            let inner = count_all(body.as_slice())?;
            sum(inner, 1)
        }
        Stmt::For { body, .. } => {
            let inner = count_all(body.as_slice())?;
            sum(inner, 1)
        }
        Stmt::Switch { cases, default, .. } => {
            let first = count_cases(cases.as_slice())?;
            match default {
                Some(all) => {
                    let second = count_all(all.as_slice())?;
                    with_default(cases.as_slice(), all.as_slice(), first, second)
                }
                None => without_default(cases.as_slice(), first),
            }
        }
        Stmt::Variable { .. } => Ok(1),
        Stmt::Break => Ok(1),
        Stmt::Continue => Ok(1),
        Stmt::Return(_) => Ok(1),
        Stmt::Emit(_) => Ok(1),
        Stmt::Assignment(_, _, _) => Ok(1),
        Stmt::Swap(_, _) => Ok(1),
        Stmt::Expr(_) => Ok(1),
    }
}

/// How many statements there are, those in statements among them. It fails where the number passes 64 bits alone.
#[cycle(counts)]
pub fn count_all(all: &[Stmt]) -> Result<u64, AllocError>
    ensures { IfOk result (λ n. n ≡ spec.count_all (s.stmts_of (map stmt_of all.now))) }
{
    let mut total = 0;
    for statement in all {
        let inner = count(statement)?;
        total = sum(total, inner)?;
    }
    Ok(total)
}

/// How many statements stand behind `else`.
#[cycle(counts)]
fn count_otherwise(otherwise: &Otherwise) -> Result<u64, AllocError>
    ensures { IfOk result (λ n. n ≡ spec.count_otherwise (otherwise_of otherwise.now)) }
{
    match otherwise {
        Otherwise::Nothing => Ok(0),
        Otherwise::Block(body) => count_all(body.as_slice()),
        Otherwise::If(statement) => count(statement),
    }
}

/// How many statements a case has.
#[cycle(counts)]
fn count_case(case: &Case) -> Result<u64, AllocError>
    ensures { IfOk result (λ n. n ≡ spec.count_all (s.stmts_of (case_of case.now).body)) }
{
    count_all(case.body.as_slice())
}

/// How many statements the cases have.
#[cycle(counts)]
fn count_cases(cases: &[Case]) -> Result<u64, AllocError>
    ensures { IfOk result (λ n. n ≡ spec.count_cases (s.cases_of (map case_of cases.now))) }
{
    let mut total = 0;
    for case in cases {
        let inner = count_case(case)?;
        total = sum(total, inner)?;
    }
    Ok(total)
}
