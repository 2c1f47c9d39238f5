// The first statement that a view function may not have.
ghost use Rattle.std.specs.Prelude.{◌≡◌, ◌&&◌, map};
ghost use Rattle.cad_declarations.specs.Typed as tree;
ghost use Rattle.cad_declarations.specs.Views.{block_of, case_of, place_of, return_of, statement_of, tables_of, term_of};
ghost use Rattle.cad_syntax.specs.Types.{pure_type};
ghost use Rattle.cad_paths.specs.Purity as spec;
ghost use Rattle.cad_pure.specs.Views.{view_of};

use crate::places::{ViewBody, is_own_variable, may_assign};
use crate::terms::{is_pure, is_pure_place};
use cad_declarations::{Argument, Place, Tables, Term, TypedBlock, TypedCase, TypedStatement};

/// The earlier of two statements.
pub(crate) fn earlier(a: Option<u64>, b: Option<u64>) -> Option<u64>
    ensures { result ≡ spec.earlier a b }
{
    match a {
        None => b,
        Some(m) => match b {
            None => Some(m),
            Some(n) => { if m <= n { Some(m) } else { Some(n) } }
        },
    }
}

/// A statement, unless it may be there.
pub(crate) fn unless(may_be: bool, at: u64) -> Option<u64>
    ensures { result ≡ spec.unless may_be at }
{
    if may_be { None } else { Some(at) }
}

/// A statement, unless what it evaluates is pure.
pub(crate) fn value_impurity(tables: &Tables, at: u64, value: &Term) -> Option<u64>
    ensures { result ≡ spec.unless (spec.is_pure (tables_of tables.now) (term_of value.now)) at }
{
    unless(is_pure(tables, value), at)
}

/// A statement that replaces the value of a place.
fn replaced(view: ViewBody<'_>, at: u64, place: &Place, value: &Term) -> Option<u64>
    ensures { result ≡ spec.unless (spec.is_own_variable (view_of view.entry) (place_of place.now) && spec.is_pure (view_of view.entry).tables (term_of value.now)) at }
{
    let may_be = is_own_variable(view, place) && is_pure(view.tables, value);
    unless(may_be, at)
}

/// Whether a place may be assigned to, and what is evaluated of it is pure.
fn is_target(view: ViewBody<'_>, place: &Place, value: &Argument) -> bool
    ensures { result ≡ (spec.may_assign (view_of view.entry) (place_of place.now) (pure_type value.now.target) && (spec.is_pure_place (view_of view.entry).tables (place_of place.now) && spec.is_pure (view_of view.entry).tables (term_of value.now.value))) }
{
    if may_assign(view, place, &value.target) {
        is_pure_place(view.tables, place) && is_pure(view.tables, &value.value)
    } else {
        false
    }
}

/// A statement that returns, maybe a value.
fn returned(view: ViewBody<'_>, at: u64, value: &Option<Argument>) -> Option<u64>
    ensures { result ≡ spec.statement_impurity (view_of view.entry) (return_of at value.now) }
{
    match value {
        None => None,
        Some(argument) => value_impurity(view.tables, at, &argument.value),
    }
}

/// A statement of a view function, or the first in it, that it may not have.
#[cycle(statements)]
fn statement_impurity(view: ViewBody<'_>, statement: &TypedStatement) -> Option<u64>
    ensures { result ≡ spec.statement_impurity (view_of view.entry) (statement_of statement.now) }
{
    match statement {
        TypedStatement::Declare { at, value, .. } | TypedStatement::Expression { at, value } => {
            value_impurity(view.tables, *at, value)
        }
        TypedStatement::Exchange {
            at,
            place,
            value,
            ..
        } => replaced(view, *at, place, value),
        TypedStatement::ForceAssign { at, place, value } => {
            replaced(view, *at, place, &value.value)
        }
        TypedStatement::Assign { at, place, value } => unless(is_target(view, place, value), *at),
        TypedStatement::Swap { at, .. } | TypedStatement::Emit { at, .. } => Some(*at),
        TypedStatement::If {
            at,
            test,
            then,
            otherwise,
        } => {
            let first = value_impurity(view.tables, *at, test);
            let a = block_impurity(view, then);
            earlier(first, earlier(a, block_impurity(view, otherwise)))
        }
        TypedStatement::IfLet {
            at,
            value,
            then,
            otherwise,
            ..
        } => {
            let first = value_impurity(view.tables, *at, &value.value);
            let a = block_impurity(view, then);
            earlier(first, earlier(a, block_impurity(view, otherwise)))
        }
        TypedStatement::IfCast {
            at,
            place,
            then,
            otherwise,
            ..
        } => {
            let first = unless(is_pure_place(view.tables, place), *at);
            let a = block_impurity(view, then);
            earlier(first, earlier(a, block_impurity(view, otherwise)))
        }
        TypedStatement::While { at, test, body } => {
            let first = value_impurity(view.tables, *at, test);
            earlier(first, block_impurity(view, body))
        }
        TypedStatement::For {
            at,
            array,
            body,
            ..
        } => {
            let first = value_impurity(view.tables, *at, &array.value);
            earlier(first, block_impurity(view, body))
        }
        TypedStatement::Switch {
            at,
            value,
            cases,
            default,
        } => {
            let first = tests_impurity(view.tables, *at, value, cases);
            let inner = earlier(cases_impurity(view, cases), block_impurity(view, default));
            earlier(first, inner)
        }
        TypedStatement::Break { .. } | TypedStatement::Continue { .. } => None,
        TypedStatement::Return { at, value } => returned(view, *at, value),
    }
}

/// The first statement of a block that a view function may not have.
#[cycle(statements)]
pub(crate) fn block_impurity(view: ViewBody<'_>, inner: &TypedBlock) -> Option<u64>
    ensures { result ≡ spec.block_impurity (view_of view.entry) (block_of inner.now) }
{
    statements_impurity(view, &inner.statements)
}

/// The first of these statements that a view function may not have.
#[cycle(statements)]
#[tactic(auto, using(crate::proofs::Rows::statements_at))]
fn statements_impurity(view: ViewBody<'_>, all: &[TypedStatement]) -> Option<u64>
    ensures { result ≡ spec.statements_impurity (view_of view.entry) (tree.statements_of (map statement_of all.now)) }
{
    let mut found = None;
    for i in (0..all.len()).rev() {
        found = earlier(statement_impurity(view, &all[i]), found);
    }
    found
}

/// The first statement in the cases of a `switch` that a view function may not have.
#[cycle(statements)]
#[tactic(auto, using(crate::proofs::Rows::cases_at))]
fn cases_impurity(view: ViewBody<'_>, all: &[TypedCase]) -> Option<u64>
    ensures { result ≡ spec.cases_impurity (view_of view.entry) (tree.cases_of (map case_of all.now)) }
{
    let mut found = None;
    for i in (0..all.len()).rev() {
        found = earlier(case_impurity(view, &all[i]), found);
    }
    found
}

#[cycle(statements)]
fn case_impurity(view: ViewBody<'_>, case: &TypedCase) -> Option<u64>
    ensures { result ≡ spec.block_impurity (view_of view.entry) (case_of case.now).body }
{
    block_impurity(view, &case.body)
}

/// A `switch`, unless its value and those of its cases are pure.
fn tests_impurity(tables: &Tables, at: u64, value: &Term, cases: &[TypedCase]) -> Option<u64>
    ensures { result ≡ spec.unless (spec.is_pure (tables_of tables.now) (term_of value.now) && spec.are_pure_cases (tables_of tables.now) (tree.cases_of (map case_of cases.now))) at }
{
    let may_be = is_pure(tables, value) && are_pure_cases(tables, cases);
    unless(may_be, at)
}

/// Whether the values of all cases are pure.
fn are_pure_cases(tables: &Tables, all: &[TypedCase]) -> bool
    ensures { result ≡ spec.are_pure_cases (tables_of tables.now) (tree.cases_of (map case_of all.now)) }
{
    for case in all {
        if !is_pure_case(tables, case) {
            return false;
        }
    }
    true
}

fn is_pure_case(tables: &Tables, case: &TypedCase) -> bool
    ensures { result ≡ spec.is_pure (tables_of tables.now) (case_of case.now).value }
{
    is_pure(tables, &case.value)
}
