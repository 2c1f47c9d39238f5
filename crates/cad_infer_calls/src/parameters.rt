// Parameters.
ghost use Rattle.std.specs.Prelude.{◌≡◌, [], ◌∷◌, IfOk, map, option_map};
ghost use Rattle.cad_syntax.specs.Types.{pure_type};
ghost use Rattle.cad_declarations.specs.Views.{parameter_of};
ghost use Rattle.cad_builtins.specs.Views.{builtin_parameter_of, builtin_parameters_of, parameter_form_of, rule_of};
ghost use Rattle.cad_declarations.specs.Builtins as built_in;
ghost use Rattle.cad_typing.specs.Calls as spec;
ghost use Rattle.cad_environment.specs.Views.{environment_of};
ghost use Rattle.cad_parameters.specs.Views.{takes_view, parameter_view, count_view};

use cad_builtins::{
    BuiltinParameter, BuiltinParameters, ParameterForm, TypeRule, last_may_be_absent,
    parameters_of, takes_more, type_rule,
};
use cad_declarations::Parameter as DeclaredParameter;
use cad_environment::Environment;
use cad_parameters::{Count, Parameter, Takes};
use cad_syntax::{Basic, CadType, Name, Text};
use cad_types::Builtin;
use std::alloc::{AllocError, Global};

/// A declared parameter: its argument fits its type.
fn declared_parameter(p: &DeclaredParameter) -> Result<Parameter, AllocError>
    ensures { IfOk result (λ x. parameter_view x ≡ spec.declared_parameter (parameter_of p.now)) }
{
    let label = label_of(&p.label)?;
    Ok(Parameter {
        label,
        takes: Takes::Fitting(p.declared.clone()?),
    })
}

/// The text of a label.
fn label_of(label: &Option<Name>) -> Result<Option<Text>, AllocError>
    ensures { IfOk result (λ x. x ≡ option_map (λ n. n.0) label.now) }
{
    match label {
        Some(name) => Ok(Some(name.0.clone()?)),
        None => Ok(None),
    }
}

/// The parameters of a declared function or initializer.
pub(crate) fn declared_parameters(
    alloc: Global,
    parameters: &[DeclaredParameter],
) -> Result<Vec<Parameter>, AllocError>
    ensures { IfOk result (λ all. map parameter_view all.items ≡ map spec.declared_parameter (map parameter_of parameters.now)) }
{
    let mut all = Vec::new(alloc);
    for parameter in parameters {
        all.push(declared_parameter(parameter)?)?;
    }
    Ok(all)
}

/// What a built-in member takes there.
fn takes_of(form: ParameterForm) -> Takes
    ensures { takes_view result ≡ spec.takes_of (parameter_form_of form) }
{
    match form {
        ParameterForm::Fits(t) => Takes::Fitting(t),
        ParameterForm::AnyNumber => Takes::AnyNumber,
    }
}

/// A parameter of a built-in member.
fn built_in_parameter(p: BuiltinParameter) -> Parameter
    ensures { parameter_view result ≡ spec.built_in_parameter (builtin_parameter_of p) }
{
    let takes = takes_of(p.form);
    Parameter {
        label: p.label,
        takes,
    }
}

/// The parameters of a built-in member.
fn built_in_parameters(
    alloc: Global,
    parameters: BuiltinParameters,
) -> Result<Vec<Parameter>, AllocError>
    ensures { IfOk result (λ all. map parameter_view all.items ≡ map spec.built_in_parameter (builtin_parameters_of parameters)) }
{
    match parameters {
        BuiltinParameters::Nothing => Ok(Vec::new(alloc)),
        BuiltinParameters::One(only) => one_parameter(alloc, built_in_parameter(only)),
        BuiltinParameters::Two(first, second) => {
            two_parameters(alloc, built_in_parameter(first), second)
        }
    }
}

/// A parameter, as the only one.
fn one_parameter(alloc: Global, only: Parameter) -> Result<Vec<Parameter>, AllocError>
    ensures { IfOk result (λ all. all.items ≡ only ∷ []) }
{
    let mut all = Vec::new(alloc);
    all.push(only)?;
    Ok(all)
}

/// A parameter, and one of a built-in member behind it.
fn two_parameters(
    alloc: Global,
    first: Parameter,
    second: BuiltinParameter,
) -> Result<Vec<Parameter>, AllocError>
    ensures { IfOk result (λ all. map parameter_view all.items ≡ parameter_view first ∷ spec.built_in_parameter (builtin_parameter_of second) ∷ []) }
{
    match one_parameter(alloc, first) {
        Ok(one) => {
            let mut all = one;
            all.push(built_in_parameter(second))?;
            Ok(all)
        }
        Err(error) => {
            drop(second);
            Err(error)
        }
    }
}

/// A parameter without a label.
pub(crate) fn plain_parameter(takes: Takes) -> Parameter
    ensures { parameter_view result ≡ spec.plain_parameter (takes_view takes) }
{
    Parameter { label: None, takes }
}

/// How many arguments a built-in member takes.
pub(crate) fn count_of(member: Builtin) -> Count
    ensures { count_view result ≡ spec.count_of member }
{
    if last_may_be_absent(member) {
        Count::LastOptional
    } else if takes_more(member) {
        Count::MoreFollow
    } else {
        Count::Exactly
    }
}

/// The first type argument, or Void.
pub(crate) fn one_type(types: &[CadType]) -> Result<CadType, AllocError>
    ensures { IfOk result (λ t. pure_type t ≡ spec.one_type (map pure_type types.now)) }
{
    match types {
        [first, _more @ ..] => first.clone(),
        [] => Ok(CadType::Basic(Basic::Void)),
    }
}

/// Where no type is written to save, anything that can be stored is taken.
fn saved_parameters(
    alloc: Global,
    rule: TypeRule,
    types: &[CadType],
    wanted: BuiltinParameters,
) -> Result<Vec<Parameter>, AllocError>
    ensures { IfOk result (λ all. map parameter_view all.items ≡ spec.saved_parameters (rule_of rule) (map pure_type types.now) (map spec.built_in_parameter (builtin_parameters_of wanted))) }
{
    match rule {
        TypeRule::SavedType => match types {
            [] => any_saved(alloc, wanted),
            [_first, _more @ ..] => built_in_parameters(alloc, wanted),
        },
        _ => built_in_parameters(alloc, wanted),
    }
}

/// Anything that can be stored in place of the first parameter.
fn any_saved(alloc: Global, wanted: BuiltinParameters) -> Result<Vec<Parameter>, AllocError>
    ensures { IfOk result (λ all. map parameter_view all.items ≡ spec.saved_parameters built_in.saved_type [] (map spec.built_in_parameter (builtin_parameters_of wanted))) }
{
    let any = plain_parameter(Takes::AnyStorable);
    match wanted {
        BuiltinParameters::Nothing => one_parameter(alloc, any),
        BuiltinParameters::One(only) => {
            drop(only);
            one_parameter(alloc, any)
        }
        BuiltinParameters::Two(first, second) => {
            drop(first);
            two_parameters(alloc, any, second)
        }
    }
}

/// The parameters of a built-in member of a type, by its type arguments.
pub(crate) fn parameters_with(
    alloc: Global,
    env: Environment<'_>,
    member: Builtin,
    on: &CadType,
    types: &[CadType],
) -> Result<Vec<Parameter>, AllocError>
    ensures { IfOk result (λ all. map parameter_view all.items ≡ spec.parameters_with (environment_of env.entry) member (pure_type on.now) (map pure_type types.now)) }
{
    let argument = one_type(types)?;
    let found = parameters_of(alloc, env.kinds(), on, &argument, member);
    drop(argument);
    let wanted = found?;
    saved_parameters(alloc, type_rule(member), types, wanted)
}
