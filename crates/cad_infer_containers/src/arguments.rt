// What is asked of arguments.
ghost use Rattle.std.specs.Prelude.{◌≡◌, ◌==◌, ◌&&◌, IfOk, None, Some, not, [], map, option_map, option_copied};
ghost use Rattle.std.specs.Cmp.Lexicographic.{pointwise};
ghost use Rattle.cad_syntax.specs.Types.{pure_type};
ghost use Rattle.cad_grammar.specs.Views.{expr_of};
ghost use Rattle.cad_declarations.specs.Views.{argument_of};
ghost use Rattle.cad_environment.specs.Views.{environment_of, typing_of};
ghost use Rattle.cad_parameters.specs.Views.{count_view, parameter_view, takes_view};
ghost use Rattle.cad_types.specs.Declarations.{resource};
ghost use Rattle.cad_typing.specs.Calls as calls;
ghost use Rattle.cad_typing.specs.Containers as spec;
ghost use Rattle.cad_typing.specs.Environments as envs;
ghost use Rattle.cad_typing.specs.Types as types;
ghost use Rattle.cad_infer_containers.specs.Views.{next_of, taken_by};

use crate::containers::stands_rightly;
use cad_declarations::Argument;
use cad_environment::{Environment, Typing, discard_typing};
use cad_grammar::Expr;
use cad_infer_terms::into_term;
use cad_parameters::{Count, Parameter, Takes};
use cad_syntax::{CadType, Name, Text};
use cad_type_classes::{fits, is_number_type, is_storable};
use std::alloc::{AllocError, Global};

/// The type that an argument is expected to have, where one is.
pub fn expected_argument(takes: Option<&Takes>) -> Option<&CadType>
    ensures { option_map (λ t. pure_type t.now) result ≡ spec.expected_argument (taken_by (option_copied takes.entry)) }
{
    match takes {
        Some(takes) => fitting_type(takes),
        None => None,
    }
}

/// The type that a parameter takes, where it takes what fits a type.
fn fitting_type(takes: &Takes) -> Option<&CadType>
    ensures { option_map (λ t. pure_type t.now) result ≡ spec.expected_argument (takes_view takes.now) }
{
    match takes {
        Takes::Fitting(t) => Some(t),
        _ => None,
    }
}

/// An argument, transferred to the parameter's type, or else to its own: None where the parameter doesn't take it, or a
/// resource doesn't stand under `<-`.
pub fn argument(
    alloc: Global,
    env: Environment<'_>,
    takes: Option<&Takes>,
    a: &Expr,
    x: Typing,
) -> Result<Option<Argument>, AllocError>
    ensures { IfOk result (λ o. option_map argument_of o ≡ spec.argument (environment_of env.entry) (taken_by (option_copied takes.entry)) (expr_of a.now) (typing_of x)) }
{
    match takes {
        Some(takes) => argument_for(alloc, env, takes, a, x),
        None => Ok(plain_argument(env, x)),
    }
}

/// An argument for what a parameter takes.
fn argument_for(
    alloc: Global,
    env: Environment<'_>,
    takes: &Takes,
    a: &Expr,
    x: Typing,
) -> Result<Option<Argument>, AllocError>
    ensures { IfOk result (λ o. option_map argument_of o ≡ spec.argument (environment_of env.entry) (takes_view takes.now) (expr_of a.now) (typing_of x)) }
{
    match takes {
        Takes::Fitting(t) => fitting_argument(env, t, a, x),
        Takes::AnyNumber => Ok(as_it_is(is_number_type(&x.declared), x)),
        Takes::AnyStorable => storable_argument(alloc, env, a, x),
        Takes::AnyPlain => Ok(plain_argument(env, x)),
    }
}

/// An argument that fits a type.
fn fitting_argument(
    env: Environment<'_>,
    t: &CadType,
    a: &Expr,
    x: Typing,
) -> Result<Option<Argument>, AllocError>
    ensures { IfOk result (λ o. option_map argument_of o ≡ spec.argument (environment_of env.entry) (calls.fitting (pure_type t.now)) (expr_of a.now) (typing_of x)) }
{
    if fits(env.kinds(), &x.declared, t) && stands_rightly(env, a, &x.declared) {
        argument_to(t, x)
    } else {
        discard_typing(x);
        Ok(None)
    }
}

/// An argument that is transferred to a copy of this type.
fn argument_to(t: &CadType, x: Typing) -> Result<Option<Argument>, AllocError>
    ensures { IfOk result (λ o. option_map argument_of o ≡ Some (spec.targeted (typing_of x) (pure_type t.now))) }
{
    match t.clone() {
        Ok(target) => Ok(Some(targeted(x, target))),
        Err(error) => {
            discard_typing(x);
            Err(error)
        }
    }
}

/// An argument that can be stored.
fn storable_argument(
    alloc: Global,
    env: Environment<'_>,
    a: &Expr,
    x: Typing,
) -> Result<Option<Argument>, AllocError>
    ensures { IfOk result (λ o. option_map argument_of o ≡ spec.argument (environment_of env.entry) calls.any_storable (expr_of a.now) (typing_of x)) }
{
    match is_taken_storable(alloc, env, a, &x.declared) {
        Ok(is_taken) => Ok(as_it_is(is_taken, x)),
        Err(error) => {
            discard_typing(x);
            Err(error)
        }
    }
}

/// Whether an argument of this type can be stored, and stands rightly.
fn is_taken_storable(
    alloc: Global,
    env: Environment<'_>,
    a: &Expr,
    t: &CadType,
) -> Result<bool, AllocError>
    ensures { IfOk result (λ is. is ≡ (types.is_storable (envs.kinds (environment_of env.entry)) (pure_type t.now) && spec.stands_rightly (environment_of env.entry) (expr_of a.now) (pure_type t.now))) }
{
    let is_stored = is_storable(alloc, env.kinds(), t)?;
    Ok(is_stored && stands_rightly(env, a, t))
}

/// An argument that is no resource.
fn plain_argument(env: Environment<'_>, x: Typing) -> Option<Argument>
    ensures { option_map argument_of result ≡ envs.when (not (resource (envs.kinds (environment_of env.entry)) (typing_of x).type)) (Some (spec.targeted (typing_of x) (typing_of x).type)) }
{
    let is_plain = !env.is_resource(&x.declared);
    as_it_is(is_plain, x)
}

/// An argument that is transferred to a type.
fn targeted(x: Typing, target: CadType) -> Argument
    ensures { argument_of result ≡ spec.targeted (typing_of x) (pure_type target) }
{
    Argument {
        value: into_term(x),
        target,
    }
}

/// An argument that is transferred to its own type, if it is taken.
fn as_it_is(is_taken: bool, x: Typing) -> Option<Argument>
    ensures { option_map argument_of result ≡ envs.when is_taken (Some (spec.targeted (typing_of x) (typing_of x).type)) }
{
    if is_taken {
        let Typing { term, declared } = x;
        Some(Argument {
            value: term,
            target: declared,
        })
    } else {
        discard_typing(x);
        None
    }
}

/// The parameter for an argument, and those behind it.
#[derive(Clone, Copy)]
pub struct Next<'a> {
    /// What it takes: None behind all parameters, where anything is taken that is no resource.
    pub takes: Option<&'a Takes>,
    pub others: &'a [Parameter],
}

/// The parameter for an argument with a label, and those behind it: None where no parameter is left, or the label is another.
#[tactic(auto, using(crate::proofs::Parameters::next_is, crate::proofs::Parameters::no_label))]
pub fn next_parameter<'a>(
    count: Count,
    parameters: &'a [Parameter],
    label: Option<&Name>,
) -> Option<Next<'a>>
    ensures { option_map next_of result ≡ spec.next_parameter (count_view count) (map parameter_view parameters.now) (option_copied label.entry) }
{
    let [parameter, others @ ..] = parameters else {
        return further(count);
    };
    if has_label(&parameter.label, label) {
        Some(Next {
            takes: Some(&parameter.takes),
            others,
        })
    } else {
        None
    }
}

/// What an argument behind all parameters may be.
fn further<'a>(count: Count) -> Option<Next<'a>>
    ensures { option_map next_of result ≡ spec.next_parameter (count_view count) [] None }
{
    match count {
        Count::MoreFollow => Some(Next {
            takes: None,
            others: &[],
        }),
        _ => None,
    }
}

/// Whether an argument's label is the one that a parameter asks for.
fn has_label(text: &Option<Text>, label: Option<&Name>) -> bool
    ensures { result ≡ spec.has_label text.now (option_copied label.entry) }
{
    match text {
        Some(text) => match label {
            Some(name) => is_spelled(name, text.as_str()),
            None => false,
        },
        None => label.is_none(),
    }
}

/// Whether a name has this text.
fn is_spelled(name: &Name, text: &str) -> bool
    ensures { result ≡ pointwise ◌==◌ text.now name.now.0 }
{
    text == name.0.as_str()
}

/// Whether no further argument is needed.
pub fn may_end(count: Count, parameters: &[Parameter]) -> bool
    ensures { result ≡ spec.may_end (count_view count) (map parameter_view parameters.now) }
{
    let [_parameter, others @ ..] = parameters else {
        return true;
    };
    match count {
        Count::LastOptional => matches!(others, []),
        _ => false,
    }
}
