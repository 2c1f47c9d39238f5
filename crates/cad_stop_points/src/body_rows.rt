// The types of statements, in their order.
ghost use Rattle.std.specs.Prelude.{◌≡◌, ◌++◌, map, option_map, option_copied, IfOk};
ghost use Rattle.cad_grammar.specs.Trees.{stmts_of, cases_of};
ghost use Rattle.cad_grammar.specs.Views.{annotation_of, block_of, case_of, condition_of, conditions_of, expr_of, otherwise_of, stmt_of, test_of, second_of};
ghost use Rattle.cad_declarations.specs.Build.{missing_row, told};
ghost use Rattle.cad_declarations.specs.Points.{types_are_there};
ghost use Rattle.cad_declarations.specs.Written as spec;
ghost use Rattle.cad_scopes.specs.Views.{scope_of};
ghost use Rattle.cad_stop_points.specs.Code.Walks as code;

use crate::expression_types::{types_in_expression, types_in_option};
use crate::right::annotated_is_there;
use crate::walk::{Walk, missing, stepped};
use cad_grammar::{
    Case, Condition, Conditions, Expr, FunctionBlock, Otherwise, Stmt, Test, Transfer,
    TypeAnnotation,
};
use cad_scopes::Scope;
use std::alloc::{AllocError, Global};

/// Whether the types of a test are there.
#[tactic(auto, using(crate::proofs::Lists::all_append))]
fn types_in_test(test: &Test, alloc: Global, scope: Scope<'_>) -> Result<bool, AllocError>
    ensures { IfOk result (λ b. b ≡ types_are_there (scope_of scope.entry) (spec.types_of_test (test_of test.now))) }
{
    match test {
        Test::Expr(e) => types_in_expression(e, alloc, scope),
        Test::Binding {
            annotation,
            value,
            ..
        } => {
            let declared = annotated_is_there(alloc, scope, annotation.as_ref())?;
            let value = types_in_expression(value, alloc, scope)?;
            Ok(declared && value)
        }
    }
}

/// Whether the types of a second value are there.
fn types_in_second(
    alloc: Global,
    scope: Scope<'_>,
    second: Option<&(Transfer, Expr)>,
) -> Result<bool, AllocError>
    ensures { IfOk result (λ b. b ≡ types_are_there (scope_of scope.entry) (spec.types_of_second (option_map second_of (option_copied second.entry)))) }
{
    match second {
        Some(second) => types_in_expression(&second.1, alloc, scope),
        None => Ok(true),
    }
}

/// Whether the types of a declared variable are there.
#[tactic(auto, using(crate::proofs::Lists::all_append))]
fn types_in_variable(
    alloc: Global,
    scope: Scope<'_>,
    annotation: Option<&TypeAnnotation>,
    value: &Expr,
    second: Option<&(Transfer, Expr)>,
) -> Result<bool, AllocError>
    ensures { IfOk result (λ b. b ≡ types_are_there (scope_of scope.entry) (spec.annotated (option_map annotation_of (option_copied annotation.entry)) ++ spec.types_of (expr_of value.now) ++ spec.types_of_second (option_map second_of (option_copied second.entry)))) }
{
    let declared = annotated_is_there(alloc, scope, annotation)?;
    let first = types_in_expression(value, alloc, scope)?;
    let other = types_in_second(alloc, scope, second)?;
    Ok(declared && first && other)
}

/// Whether the types of two expressions are there.
#[tactic(auto, using(crate::proofs::Lists::all_append))]
fn types_in_both(alloc: Global, scope: Scope<'_>, a: &Expr, b: &Expr) -> Result<bool, AllocError>
    ensures { IfOk result (λ c. c ≡ types_are_there (scope_of scope.entry) (spec.types_of (expr_of a.now) ++ spec.types_of (expr_of b.now))) }
{
    let first = types_in_expression(a, alloc, scope)?;
    let second = types_in_expression(b, alloc, scope)?;
    Ok(first && second)
}

/// Whether the types of a value and of the values of cases are there.
#[tactic(auto, using(crate::proofs::Lists::all_append))]
fn types_in_switch(
    alloc: Global,
    scope: Scope<'_>,
    value: &Expr,
    cases: &[Case],
) -> Result<bool, AllocError>
    ensures { IfOk result (λ c. c ≡ types_are_there (scope_of scope.entry) (spec.types_of (expr_of value.now) ++ spec.types_of_cases (cases_of (map case_of cases.now)))) }
{
    let first = types_in_expression(value, alloc, scope)?;
    let second = types_in_cases(alloc, scope, cases)?;
    Ok(first && second)
}

#[tactic(auto, using(crate::proofs::Lists::all_append))]
fn types_in_cases(alloc: Global, scope: Scope<'_>, cases: &[Case]) -> Result<bool, AllocError>
    ensures { IfOk result (λ c. c ≡ types_are_there (scope_of scope.entry) (spec.types_of_cases (cases_of (map case_of cases.now)))) }
{
    for case in cases {
        if !types_in_expression(&case.value, alloc, scope)? {
            return Ok(false);
        }
    }
    Ok(true)
}

/// The last of two walks, over both branches of an `if`.
#[tactic(auto, using(crate::proofs::Walks::walked_on))]
fn behind_branches(
    scope: Scope<'_>,
    then: &[Stmt],
    otherwise: &Otherwise,
    walk: Walk,
    behind: Walk,
    last: Walk,
) -> Walk
    requires then { behind ≡ code.walked (scope_of scope) (spec.rows_of_stmts (stmts_of (map stmt_of then.now))) walk }
    requires otherwise { last ≡ code.walked (scope_of scope) (spec.rows_of_otherwise (otherwise_of otherwise.now)) behind }
    ensures { result ≡ code.walked (scope_of scope.entry) (spec.rows_of_stmts (stmts_of (map stmt_of then.now)) ++ spec.rows_of_otherwise (otherwise_of otherwise.now)) walk }
{
    last
}

/// The last of two walks, over the bodies of cases and over the default.
#[tactic(auto, using(crate::proofs::Walks::walked_on))]
fn behind_cases(
    scope: Scope<'_>,
    cases: &[Case],
    default: &[Stmt],
    walk: Walk,
    behind: Walk,
    last: Walk,
) -> Walk
    requires cases { behind ≡ code.walked (scope_of scope) (spec.rows_of_cases (cases_of (map case_of cases.now))) walk }
    requires default { last ≡ code.walked (scope_of scope) (spec.rows_of_stmts (stmts_of (map stmt_of default.now))) behind }
    ensures { result ≡ code.walked (scope_of scope.entry) (spec.rows_of_cases (cases_of (map case_of cases.now)) ++ spec.rows_of_stmts (stmts_of (map stmt_of default.now))) walk }
{
    last
}

/// The walk behind a statement.
#[cycle(statements)]
#[tactic(auto, using(crate::proofs::Walks::walked_on))]
fn walk_statement(s: &Stmt, alloc: Global, scope: Scope<'_>, walk: Walk) -> Result<Walk, AllocError>
    ensures { IfOk result (λ w. w ≡ code.walked (scope_of scope.entry) (spec.rows_of (stmt_of s.now)) walk) }
{
    match s {
        Stmt::Variable {
            annotation,
            value,
            second,
            ..
        } => {
            let there = types_in_variable(
                alloc,
                scope,
                annotation.as_ref(),
                value,
                second.as_ref(),
            )?;
            Ok(stepped(there, walk))
        }
        Stmt::If {
            test,
            then,
            otherwise,
        } => {
            let there = types_in_test(test, alloc, scope)?;
            let next = stepped(there, walk);
            let behind = walk_statements(then.as_slice(), alloc, scope, next)?;
            let last = walk_otherwise(otherwise, alloc, scope, behind)?;
            Ok(behind_branches(scope, then.as_slice(), otherwise, next, behind, last))
        }
        Stmt::While(e, body) => {
            let there = types_in_expression(e, alloc, scope)?;
            walk_statements(body.as_slice(), alloc, scope, stepped(there, walk))
        }
        Stmt::For { array, body, .. } => {
            let there = types_in_expression(array, alloc, scope)?;
            walk_statements(body.as_slice(), alloc, scope, stepped(there, walk))
        }
        Stmt::Switch {
            value,
            cases,
            default,
        } => {
            let there = types_in_switch(alloc, scope, value, cases.as_slice())?;
            let next = stepped(there, walk);
            let behind = walk_cases(cases.as_slice(), alloc, scope, next)?;
            match default {
                Some(all) => {
                    let last = walk_statements(all.as_slice(), alloc, scope, behind)?;
                    Ok(behind_cases(scope, cases.as_slice(), all.as_slice(), next, behind, last))
                }
                None => Ok(behind),
            }
        }
        Stmt::Break => Ok(stepped(true, walk)),
        Stmt::Continue => Ok(stepped(true, walk)),
        Stmt::Return(e) => {
            let there = types_in_option(alloc, scope, e.as_ref())?;
            Ok(stepped(there, walk))
        }
        Stmt::Emit(e) => {
            let there = types_in_expression(e, alloc, scope)?;
            Ok(stepped(there, walk))
        }
        Stmt::Assignment(a, _, b) => {
            let there = types_in_both(alloc, scope, a, b)?;
            Ok(stepped(there, walk))
        }
        Stmt::Swap(a, b) => {
            let there = types_in_both(alloc, scope, a, b)?;
            Ok(stepped(there, walk))
        }
        Stmt::Expr(e) => {
            let there = types_in_expression(e, alloc, scope)?;
            Ok(stepped(there, walk))
        }
    }
}

/// The walk behind statements.
#[cycle(statements)]
#[tactic(auto, using(crate::proofs::Walks::walked_on))]
fn walk_statements(
    all: &[Stmt],
    alloc: Global,
    scope: Scope<'_>,
    walk: Walk,
) -> Result<Walk, AllocError>
    ensures { IfOk result (λ w. w ≡ code.walked (scope_of scope.entry) (spec.rows_of_stmts (stmts_of (map stmt_of all.now))) walk) }
{
    let mut behind = walk;
    for s in all {
        behind = walk_statement(s, alloc, scope, behind)?;
    }
    Ok(behind)
}

/// The walk behind what stands behind `else`.
#[cycle(statements)]
fn walk_otherwise(
    otherwise: &Otherwise,
    alloc: Global,
    scope: Scope<'_>,
    walk: Walk,
) -> Result<Walk, AllocError>
    ensures { IfOk result (λ w. w ≡ code.walked (scope_of scope.entry) (spec.rows_of_otherwise (otherwise_of otherwise.now)) walk) }
{
    match otherwise {
        Otherwise::Nothing => Ok(walk),
        Otherwise::Block(all) => walk_statements(all.as_slice(), alloc, scope, walk),
        Otherwise::If(s) => walk_statement(s, alloc, scope, walk),
    }
}

/// The walk behind the body of a case.
#[cycle(statements)]
fn walk_case(case: &Case, alloc: Global, scope: Scope<'_>, walk: Walk) -> Result<Walk, AllocError>
    ensures { IfOk result (λ w. w ≡ code.walked (scope_of scope.entry) (spec.rows_of_stmts (stmts_of (case_of case.now).body)) walk) }
{
    walk_statements(case.body.as_slice(), alloc, scope, walk)
}

/// The walk behind the bodies of cases.
#[cycle(statements)]
#[tactic(auto, using(crate::proofs::Walks::walked_on))]
fn walk_cases(
    cases: &[Case],
    alloc: Global,
    scope: Scope<'_>,
    walk: Walk,
) -> Result<Walk, AllocError>
    ensures { IfOk result (λ w. w ≡ code.walked (scope_of scope.entry) (spec.rows_of_cases (cases_of (map case_of cases.now))) walk) }
{
    let mut behind = walk;
    for case in cases {
        behind = walk_case(case, alloc, scope, behind)?;
    }
    Ok(behind)
}

/// Whether the types of a condition are there.
#[tactic(auto, using(crate::proofs::Lists::all_append))]
fn types_in_condition(
    alloc: Global,
    scope: Scope<'_>,
    condition: &Condition,
) -> Result<bool, AllocError>
    ensures { IfOk result (λ b. b ≡ types_are_there (scope_of scope.entry) (spec.types_of_condition (condition_of condition.now))) }
{
    match condition {
        Condition::Test { test, message } => {
            let first = types_in_expression(test, alloc, scope)?;
            let second = types_in_option(alloc, scope, message.as_ref())?;
            Ok(first && second)
        }
        Condition::Emit(e) => types_in_expression(e, alloc, scope),
    }
}

/// The walk behind conditions.
fn walk_each(
    alloc: Global,
    scope: Scope<'_>,
    all: &[Condition],
    walk: Walk,
) -> Result<Walk, AllocError>
    ensures { IfOk result (λ w. w ≡ code.walked (scope_of scope.entry) (map spec.types_of_condition (map condition_of all.now)) walk) }
{
    let mut behind = walk;
    for condition in all {
        behind = stepped(types_in_condition(alloc, scope, condition)?, behind);
    }
    Ok(behind)
}

/// The walk behind conditions, if there are any.
fn walk_conditions(
    alloc: Global,
    scope: Scope<'_>,
    all: &Option<Conditions>,
    walk: Walk,
) -> Result<Walk, AllocError>
    ensures { IfOk result (λ w. w ≡ code.walked (scope_of scope.entry) (spec.rows_of_conditions (conditions_of all.now)) walk) }
{
    match all {
        Some(all) => walk_each(alloc, scope, all.as_slice(), walk),
        None => Ok(walk),
    }
}

/// The walk behind the statements of a body.
#[tactic(auto, using(crate::proofs::Walks::walked_on))]
fn walk_body(alloc: Global, scope: Scope<'_>, all: &[Stmt], walk: Walk) -> Result<Walk, AllocError>
    ensures { IfOk result (λ w. w ≡ code.walked (scope_of scope.entry) (spec.rows_of_body (map stmt_of all.now)) walk) }
{
    let mut behind = walk;
    for s in all {
        behind = walk_statement(s, alloc, scope, behind)?;
    }
    Ok(behind)
}

/// The first statement of a block, behind its conditions, that names a type that isn't there.
#[tactic(auto, using(crate::proofs::Walks::walked_on, crate::proofs::Walks::walked_all))]
pub(crate) fn missing_in_block(
    alloc: Global,
    scope: Scope<'_>,
    block: &FunctionBlock,
) -> Result<Option<u64>, AllocError>
    ensures { IfOk result (λ at. at ≡ option_map told (missing_row (scope_of scope.entry) (spec.rows_of_block (block_of block.now)))) }
{
    let pre = walk_conditions(alloc, scope, &block.pre, Walk::Passed(0))?;
    let post = walk_conditions(alloc, scope, &block.post, pre)?;
    let body = walk_body(alloc, scope, block.body.as_slice(), post)?;
    Ok(missing(body))
}

/// The same of a function that may have no block.
pub(crate) fn missing_in_option(
    alloc: Global,
    scope: Scope<'_>,
    block: Option<&FunctionBlock>,
) -> Result<Option<u64>, AllocError>
    ensures { IfOk result (λ at. at ≡ option_map told (missing_row (scope_of scope.entry) (spec.rows_of_option (option_map block_of (option_copied block.entry))))) }
{
    match block {
        Some(block) => missing_in_block(alloc, scope, block),
        None => Ok(None),
    }
}

/// The first condition that names a type that isn't there.
#[tactic(auto, using(crate::proofs::Walks::walked_all))]
pub fn missing_in_conditions(
    alloc: Global,
    scope: Scope<'_>,
    all: &Option<Conditions>,
) -> Result<Option<u64>, AllocError>
    ensures { IfOk result (λ at. at ≡ option_map told (missing_row (scope_of scope.entry) (spec.rows_of_conditions (conditions_of all.now)))) }
{
    let behind = walk_conditions(alloc, scope, all, Walk::Passed(0))?;
    Ok(missing(behind))
}

/// The first statement of a body that names a type that isn't there.
#[tactic(auto, using(crate::proofs::Walks::walked_all))]
pub fn missing_in_body(
    alloc: Global,
    scope: Scope<'_>,
    all: &[Stmt],
) -> Result<Option<u64>, AllocError>
    ensures { IfOk result (λ at. at ≡ option_map told (missing_row (scope_of scope.entry) (spec.rows_of_body (map stmt_of all.now)))) }
{
    let behind = walk_body(alloc, scope, all, Walk::Passed(0))?;
    Ok(missing(behind))
}
