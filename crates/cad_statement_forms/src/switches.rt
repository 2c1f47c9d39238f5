// `switch`.
ghost use Rattle.std.specs.Prelude.{◌≡◌, ◌&&◌, ◌++◌, ◌∷◌, [], IfOk, OnOk, None, Some, not, option_map, map};
ghost use Rattle.cad_syntax.specs.Types.{pure_type};
ghost use Rattle.cad_types.specs.Declarations.{resource};
ghost use Rattle.cad_grammar.specs.Trees as s;
ghost use Rattle.cad_grammar.specs.Views.{expr_of, case_of};
ghost use Rattle.cad_declarations.specs.Views.{term_of};
ghost use Rattle.cad_environment.specs.Views.{environment_of, typing_of};
ghost use Rattle.cad_typing.specs.Environments.{kinds, ordinary, when, ◌>=>◌};
ghost use Rattle.cad_typing.specs.Expressions as expression_spec;
ghost use Rattle.cad_typing.specs.Operators as operator_spec;
ghost use Rattle.cad_typing.specs.Types as type_spec;
ghost use Rattle.cad_typing.specs.StatementForms as spec;
ghost use Rattle.cad_statement_trees.specs.Views.{switch_typing_of};
ghost use Rattle.cad_statement_forms.specs.Views.{terms_before, terms_in};

use cad_declarations::{Term, discard_type};
use cad_environment::{Environment, Position, Typing, discard_typing, is_nil};
use cad_grammar::{Case, Expr};
use cad_infer_targets::infer;
use cad_statement_parts::{may_be_equal, may_be_switched};
use cad_statement_trees::SwitchTyping;
use cad_syntax::CadType;
use cad_type_classes::is_optional_type;
use cad_typed_rows::{discard_terms, push_term};
use std::alloc::{AllocError, Global};

/// The value of a `switch`.
fn infer_switched(
    alloc: Global,
    env: Environment<'_>,
    value: &Expr,
) -> Result<Option<Typing>, AllocError>
    ensures { IfOk result (λ x. option_map typing_of x ≡ spec.infer_switched (environment_of env.entry) (expr_of value.now)) }
{
    let Some(x) = infer(value, alloc, env, Position::Ordinary, None)? else {
        return Ok(None);
    };
    if may_be_switched(env, &x.declared) {
        Ok(Some(x))
    } else {
        discard_typing(x);
        Ok(None)
    }
}

/// A case beside the literal nil.
fn case_of_nil(
    alloc: Global,
    env: Environment<'_>,
    case: &Expr,
) -> Result<Option<Typing>, AllocError>
    ensures { IfOk result (λ x. option_map typing_of x ≡ (expression_spec.infer (environment_of env.entry) ordinary None (expr_of case.now) >=> (λ y. when (type_spec.is_optional_type y.type && not (resource (kinds (environment_of env.entry)) y.type)) (Some y)))) }
{
    let Some(y) = infer(case, alloc, env, Position::Ordinary, None)? else {
        return Ok(None);
    };
    if is_optional_type(&y.declared) && !env.is_resource(&y.declared) {
        Ok(Some(y))
    } else {
        discard_typing(y);
        Ok(None)
    }
}

/// A case that `==` compares with a value of a type.
fn case_of_type(
    alloc: Global,
    env: Environment<'_>,
    t: &CadType,
    case: &Expr,
) -> Result<Option<Typing>, AllocError>
    ensures { IfOk result (λ x. option_map typing_of x ≡ (expression_spec.infer (environment_of env.entry) ordinary (Some (pure_type t.now)) (expr_of case.now) >=> (λ y. when (operator_spec.may_be_equal (kinds (environment_of env.entry)) (pure_type t.now) y.type) (Some y)))) }
{
    let Some(y) = infer(case, alloc, env, Position::Ordinary, Some(t))? else {
        return Ok(None);
    };
    if may_be_equal(env.kinds(), t, &y.declared) {
        Ok(Some(y))
    } else {
        discard_typing(y);
        Ok(None)
    }
}

/// A case, which is compared with the value by `==`, beside the literal nil as there.
fn infer_case(
    alloc: Global,
    env: Environment<'_>,
    value: &Expr,
    t: &CadType,
    case: &Expr,
) -> Result<Option<Typing>, AllocError>
    ensures { IfOk result (λ x. option_map typing_of x ≡ spec.infer_case (environment_of env.entry) (expr_of value.now) (pure_type t.now) (expr_of case.now)) }
{
    if is_nil(case) {
        if is_optional_type(t) {
            return infer(case, alloc, env, Position::Ordinary, None);
        }
        return Ok(None);
    }
    if is_nil(value) {
        case_of_nil(alloc, env, case)
    } else {
        case_of_type(alloc, env, t, case)
    }
}

/// Adds an expression's tree.
fn push_typing(all: &mut Vec<Term>, x: Typing) -> Result<(), AllocError>
    ensures { OnOk result (map term_of all.new.items ≡ map term_of all.old.items ++ (typing_of x).term ∷ []) }
{
    discard_type(x.declared);
    push_term(all, x.term)
}

/// The value of a case.
fn infer_value(
    alloc: Global,
    env: Environment<'_>,
    value: &Expr,
    t: &CadType,
    case: &Case,
) -> Result<Option<Typing>, AllocError>
    ensures { IfOk result (λ x. option_map typing_of x ≡ spec.infer_case (environment_of env.entry) (expr_of value.now) (pure_type t.now) (case_of case.now).value) }
{
    infer_case(alloc, env, value, t, &case.value)
}

/// Adds the values of all cases; false where one is ill-typed.
fn push_values(
    terms: &mut Vec<Term>,
    alloc: Global,
    env: Environment<'_>,
    value: &Expr,
    t: &CadType,
    cases: &[Case],
) -> Result<bool, AllocError>
    ensures { IfOk result (λ found. when found (Some (map term_of terms.new.items)) ≡ terms_before (map term_of terms.old.items) (spec.infer_cases (environment_of env.entry) (expr_of value.now) (pure_type t.now) (s.cases_of (map case_of cases.now)))) }
{
    for case in cases {
        let Some(y) = infer_value(alloc, env, value, t, case)? else {
            return Ok(false);
        };
        push_typing(terms, y)?;
    }
    Ok(true)
}

/// The values of all cases.
fn infer_cases(
    alloc: Global,
    env: Environment<'_>,
    value: &Expr,
    t: &CadType,
    cases: &[Case],
) -> Result<Option<Vec<Term>>, AllocError>
    ensures { IfOk result (λ xs. option_map terms_in xs ≡ spec.infer_cases (environment_of env.entry) (expr_of value.now) (pure_type t.now) (s.cases_of (map case_of cases.now))) }
{
    let mut terms = Vec::new(alloc);
    match push_values(&mut terms, alloc, env, value, t, cases) {
        Ok(true) => Ok(Some(terms)),
        Ok(false) => {
            discard_terms(terms);
            Ok(None)
        }
        Err(error) => {
            discard_terms(terms);
            Err(error)
        }
    }
}

/// The value of a `switch` and those of its cases.
pub fn switch_typing(
    alloc: Global,
    env: Environment<'_>,
    value: &Expr,
    cases: &[Case],
) -> Result<Option<SwitchTyping>, AllocError>
    ensures { IfOk result (λ x. option_map switch_typing_of x ≡ spec.switch_typing (environment_of env.entry) (expr_of value.now) (s.cases_of (map case_of cases.now))) }
{
    let Some(x) = infer_switched(alloc, env, value)? else {
        return Ok(None);
    };
    match infer_cases(alloc, env, value, &x.declared, cases) {
        Ok(Some(all)) => Ok(Some(switch_of(x, all))),
        Ok(None) => {
            discard_typing(x);
            Ok(None)
        }
        Err(error) => {
            discard_typing(x);
            Err(error)
        }
    }
}

/// A value with those of the cases.
fn switch_of(x: Typing, cases: Vec<Term>) -> SwitchTyping
    ensures { switch_typing_of result ≡ record { value = (typing_of x).term; cases = terms_in cases } }
{
    discard_type(x.declared);
    SwitchTyping {
        value: x.term,
        cases,
    }
}
