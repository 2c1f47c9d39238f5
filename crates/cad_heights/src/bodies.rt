// The highest expressions of statements.
ghost use Rattle.std.specs.Prelude.{◌≡◌, ◌^◌, ◌-◌, map, min, option_map};
ghost use Rattle.cad_grammar.specs.Trees.{cases_of, stmts_of};
ghost use Rattle.cad_grammar.specs.Views.{case_of, expr_of, otherwise_of, second_of, stmt_of, test_of};
ghost use Rattle.cad_heights.specs.Heights as spec;

use crate::expressions::height;
use cad_grammar::{Case, Expr, Otherwise, Stmt, Test, Transfer};

/// The height of an expression that may not be there, 0 where it isn't.
pub(crate) fn optional_height(expr: &Option<Expr>) -> u64
    ensures { result ≡ min (spec.optional_height (option_map expr_of expr.now)) (2 ^ 64 - 1) }
{
    match expr {
        Some(expr) => height(expr),
        None => 0,
    }
}

/// The height of a second value, 0 where there is none.
fn second_height(second: &Option<(Transfer, Expr)>) -> u64
    ensures { result ≡ min (spec.second_height (option_map second_of second.now)) (2 ^ 64 - 1) }
{
    match second {
        Some((_, value)) => height(value),
        None => 0,
    }
}

/// The height of what a test asks.
fn test_height(test: &Test) -> u64
    ensures { result ≡ min (spec.test_height (test_of test.now)) (2 ^ 64 - 1) }
{
    match test {
        Test::Expr(expr) => height(expr),
        Test::Binding { value, .. } => height(value),
    }
}

/// The height of the highest expression of a statement; 2^64-1 where it is more.
#[cycle(statements)]
pub fn highest(statement: &Stmt) -> u64
    ensures { result ≡ min (spec.highest (stmt_of statement.now)) (2 ^ 64 - 1) }
{
    match statement {
        Stmt::Variable { value, second, .. } => height(value).max(second_height(second)),
        Stmt::If {
            test,
            then,
            otherwise,
        } => test_height(test).max(highest_of(then).max(otherwise_highest(otherwise))),
        Stmt::While(test, body) => height(test).max(highest_of(body)),
        Stmt::For { array, body, .. } => height(array).max(highest_of(body)),
        Stmt::Switch {
            value,
            cases,
            default,
        } => {
            let rest = match default {
                Some(all) => highest_of(all),
                None => 0,
            };
            height(value).max(cases_highest(cases).max(rest))
        }
        Stmt::Break => 0,
        Stmt::Continue => 0,
        Stmt::Return(value) => optional_height(value),
        Stmt::Emit(value) => height(value),
        Stmt::Assignment(place, _, value) => height(place).max(height(value)),
        Stmt::Swap(a, b) => height(a).max(height(b)),
        Stmt::Expr(value) => height(value),
    }
}

/// The height of the highest expression of statements, 0 of none.
#[cycle(statements)]
pub fn highest_of(all: &[Stmt]) -> u64
    ensures { result ≡ min (spec.highest_of (stmts_of (map stmt_of all.now))) (2 ^ 64 - 1) }
{
    let mut found = 0u64;
    for statement in all {
        found = found.max(highest(statement));
    }
    found
}

/// The height of the highest expression of what stands behind `else`.
#[cycle(statements)]
fn otherwise_highest(otherwise: &Otherwise) -> u64
    ensures { result ≡ min (spec.otherwise_highest (otherwise_of otherwise.now)) (2 ^ 64 - 1) }
{
    match otherwise {
        Otherwise::Nothing => 0,
        Otherwise::Block(all) => highest_of(all),
        Otherwise::If(statement) => highest(statement),
    }
}

/// The height of the highest expression of cases, 0 of none.
#[cycle(statements)]
fn cases_highest(all: &[Case]) -> u64
    ensures { result ≡ min (spec.cases_highest (cases_of (map case_of all.now))) (2 ^ 64 - 1) }
{
    let mut found = 0u64;
    for case in all {
        found = found.max(height(&case.value).max(highest_of(&case.body)));
    }
    found
}
