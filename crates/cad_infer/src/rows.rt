// Arguments, elements and entries, in the recursion over expressions.
ghost use Rattle.std.specs.Prelude.{◌≡◌, IfOk, Some, option_copied, option_map, map};
ghost use Rattle.cad_grammar.specs.Trees as s;
ghost use Rattle.cad_grammar.specs.Views.{expr_of, entry_of};
ghost use Rattle.cad_grammar.specs.Views as grammar;
ghost use Rattle.cad_declarations.specs.Typed as tree;
ghost use Rattle.cad_declarations.specs.Views.{argument_of};
ghost use Rattle.cad_typing.specs.Befores as befores;
ghost use Rattle.cad_typing.specs.Containers as containers;
ghost use Rattle.cad_typing.specs.Environments.{ordinary, when, ◌>=>◌};
ghost use Rattle.cad_environment.specs.Views.{environment_of, typing_of};
ghost use Rattle.cad_infer_containers.specs.Views.{typings_of, taken_by};
ghost use Rattle.cad_parameters.specs.Views.{count_view, parameter_view};
ghost use Rattle.cad_infer_parts.specs.Code.Rows.{before_rest, before_arguments};
ghost use Rattle.cad_infer_parts.specs.Code.Steps as steps;
ghost use Rattle.cad_infer_parts.specs.Views.{expected_of};

use crate::expression::typing;
use crate::operators::infer_behind;
use cad_declarations::{Argument as Transferred, discard_arguments};
use cad_environment::{Environment, Position, Typing, behind, discard_typing};
use cad_grammar::{Argument, Entry, Expr};
use cad_infer_containers::{
    argument, discard_pairs, discard_typings, element, expected_argument, may_end, paired,
    push_argument, push_pair, push_typing,
};
use cad_infer_parts::{behind_argument, behind_entry, parameter_for};
use cad_parameters::{Count, Parameter, Takes};
use cad_syntax::CadType;
use std::alloc::{AllocError, Global};

/// Arguments, each with the type to which it is transferred.
#[cycle(infer)]
#[tactic(auto, using(crate::proofs::Turns::first_argument_before))]
pub fn infer_arguments(
    all: &[Argument],
    alloc: Global,
    env: Environment<'_>,
    count: Count,
    parameters: &[Parameter],
) -> Result<Option<Vec<Transferred>>, AllocError>
    ensures { IfOk result (λ o. option_map (λ v. tree.arguments_of (map argument_of v.items)) o ≡ steps.arguments (environment_of env.entry) (count_view count) (map parameter_view parameters.now) (s.arguments_of (map grammar.argument_of all.now))) }
{
    let mut found = Vec::new(alloc);
    match push_arguments(all, alloc, env, count, parameters, &mut found) {
        Ok(true) => Ok(Some(found)),
        Ok(false) => {
            discard_arguments(found);
            Ok(None)
        }
        Err(error) => {
            discard_arguments(found);
            Err(error)
        }
    }
}

/// Appends arguments, each with the type to which it is transferred: false where one has none, or is too few or too many.
#[cycle(infer)]
fn push_arguments(
    all: &[Argument],
    alloc: Global,
    env: Environment<'_>,
    count: Count,
    parameters: &[Parameter],
    found: &mut Vec<Transferred>,
) -> Result<bool, AllocError>
    ensures { IfOk result (λ whole. when whole (Some (tree.arguments_of (map argument_of found.new.items))) ≡ before_arguments (map argument_of found.old.items) (steps.arguments (environment_of env.entry) (count_view count) (map parameter_view parameters.now) (s.arguments_of (map grammar.argument_of all.now)))) }
{
    let mut inner = env;
    let mut left = parameters;
    for a in all {
        let Some(next) = parameter_for(count, left, a) else {
            return Ok(false);
        };
        let Some(x) = infer_argument(a, alloc, inner, next.takes)? else {
            return Ok(false);
        };
        push_argument(found, x)?;
        inner = behind_argument(alloc, a, inner)?;
        left = next.others;
    }
    Ok(may_end(count, left))
}

/// An argument for what a parameter takes.
#[cycle(infer)]
#[tactic(auto, unfolding(cad_infer_parts::specs::Code::Steps::argument_typed, cad_infer_parts::specs::Code::Steps::typing))]
fn infer_argument(
    a: &Argument,
    alloc: Global,
    env: Environment<'_>,
    takes: Option<&Takes>,
) -> Result<Option<Transferred>, AllocError>
    ensures { IfOk result (λ o. option_map argument_of o ≡ steps.argument_typed (environment_of env.entry) (taken_by (option_copied takes.entry)) (grammar.argument_of a.now).value) }
{
    let Some(x) = typing(
        &a.value,
        alloc,
        env,
        Position::Ordinary,
        expected_argument(takes),
    )?
    else {
        return Ok(None);
    };
    argument(alloc, env, takes, &a.value, x)
}

/// Elements, each of which expects the type, if one is given, and fits it.
#[cycle(infer)]
#[tactic(auto, using(crate::proofs::Turns::first_before))]
pub(crate) fn infer_elements(
    all: &[Expr],
    alloc: Global,
    env: Environment<'_>,
    expected: Option<&CadType>,
) -> Result<Option<Vec<Typing>>, AllocError>
    ensures { IfOk result (λ o. option_map (λ v. map typing_of v.items) o ≡ steps.elements (environment_of env.entry) (expected_of expected.entry) (s.exprs_of (map expr_of all.now))) }
{
    let mut found = Vec::new(alloc);
    match push_elements(all, alloc, env, expected, &mut found) {
        Ok(true) => Ok(Some(found)),
        Ok(false) => {
            discard_typings(found);
            Ok(None)
        }
        Err(error) => {
            discard_typings(found);
            Err(error)
        }
    }
}

/// Appends elements, each of which expects the type, if one is given: false where one doesn't fit it.
#[cycle(infer)]
fn push_elements(
    all: &[Expr],
    alloc: Global,
    env: Environment<'_>,
    expected: Option<&CadType>,
    found: &mut Vec<Typing>,
) -> Result<bool, AllocError>
    ensures { IfOk result (λ whole. when whole (Some (map typing_of found.new.items)) ≡ before_rest (map typing_of found.old.items) (steps.elements (environment_of env.entry) (expected_of expected.entry) (s.exprs_of (map expr_of all.now)))) }
{
    let mut inner = env;
    for a in all {
        let Some(x) = infer_element(a, alloc, inner, expected)? else {
            return Ok(false);
        };
        push_typing(found, x)?;
        inner = behind(alloc, a, inner)?;
    }
    Ok(true)
}

/// An element that expects the type, if one is given, and fits it.
#[cycle(infer)]
#[tactic(auto, unfolding(cad_infer_parts::specs::Code::Steps::element_typed, cad_infer_parts::specs::Code::Steps::typing))]
fn infer_element(
    a: &Expr,
    alloc: Global,
    env: Environment<'_>,
    expected: Option<&CadType>,
) -> Result<Option<Typing>, AllocError>
    ensures { IfOk result (λ o. option_map typing_of o ≡ steps.element_typed (environment_of env.entry) (expected_of expected.entry) (expr_of a.now)) }
{
    let Some(x) = typing(a, alloc, env, Position::Ordinary, expected)? else {
        return Ok(None);
    };
    Ok(element(env, expected, a, x))
}

/// Keys and values.
#[cycle(infer)]
#[tactic(auto, using(crate::proofs::Turns::first_before))]
pub(crate) fn infer_entries(
    all: &[Entry],
    alloc: Global,
    env: Environment<'_>,
    key: Option<&CadType>,
    value: Option<&CadType>,
) -> Result<Option<Vec<(Typing, Typing)>>, AllocError>
    ensures { IfOk result (λ o. option_map (λ v. map typings_of v.items) o ≡ steps.entries (environment_of env.entry) (expected_of key.entry) (expected_of value.entry) (s.entries_of (map entry_of all.now))) }
{
    let mut found = Vec::new(alloc);
    match push_entries(all, alloc, env, key, value, &mut found) {
        Ok(true) => Ok(Some(found)),
        Ok(false) => {
            discard_pairs(found);
            Ok(None)
        }
        Err(error) => {
            discard_pairs(found);
            Err(error)
        }
    }
}

/// Appends keys and values: false where one doesn't fit what is expected.
#[cycle(infer)]
fn push_entries(
    all: &[Entry],
    alloc: Global,
    env: Environment<'_>,
    key: Option<&CadType>,
    value: Option<&CadType>,
    found: &mut Vec<(Typing, Typing)>,
) -> Result<bool, AllocError>
    ensures { IfOk result (λ whole. when whole (Some (map typings_of found.new.items)) ≡ before_rest (map typings_of found.old.items) (steps.entries (environment_of env.entry) (expected_of key.entry) (expected_of value.entry) (s.entries_of (map entry_of all.now)))) }
{
    let mut inner = env;
    for entry in all {
        let Some(x) = infer_entry(entry, alloc, inner, key, value)? else {
            return Ok(false);
        };
        push_pair(found, x)?;
        inner = behind_entry(alloc, entry, inner)?;
    }
    Ok(true)
}

/// A key and its value.
#[cycle(infer)]
#[tactic(auto, unfolding(cad_infer_parts::specs::Code::Steps::entry_typed, cad_infer_parts::specs::Code::Steps::element_typed, cad_infer_parts::specs::Code::Steps::typing))]
fn infer_entry(
    entry: &Entry,
    alloc: Global,
    env: Environment<'_>,
    key: Option<&CadType>,
    value: Option<&CadType>,
) -> Result<Option<(Typing, Typing)>, AllocError>
    ensures { IfOk result (λ o. option_map typings_of o ≡ steps.entry_typed (environment_of env.entry) (expected_of key.entry) (expected_of value.entry) (entry_of entry.now)) }
{
    let Some(x) = infer_element(&entry.key, alloc, env, key)? else {
        return Ok(None);
    };
    match infer_value(&entry.value, alloc, env, &entry.key, value) {
        Ok(y) => Ok(paired(x, y)),
        Err(error) => {
            discard_typing(x);
            Err(error)
        }
    }
}

/// The value behind a key, which fits the type, if one is given.
#[cycle(infer)]
fn infer_value(
    b: &Expr,
    alloc: Global,
    env: Environment<'_>,
    a: &Expr,
    expected: Option<&CadType>,
) -> Result<Option<Typing>, AllocError>
    ensures { IfOk result (λ o. option_map typing_of o ≡ (steps.typing (befores.behind (expr_of a.now) (environment_of env.entry)) ordinary (expected_of expected.entry) (expr_of b.now) >=> containers.element (environment_of env.entry) (expected_of expected.entry) (expr_of b.now))) }
{
    let Some(y) = infer_behind(b, alloc, env, a, expected)? else {
        return Ok(None);
    };
    Ok(element(env, expected, b, y))
}
