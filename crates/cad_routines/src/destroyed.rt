// The events of resources, with their default arguments.
ghost use Rattle.std.specs.Prelude.{◌≡◌, ◌∷◌, ◌++◌, [], IfOk, OnOk, Some, map, option_map};
ghost use Rattle.cad_syntax.specs.Types.{pure_type};
ghost use Rattle.cad_grammar.specs.Views.{event_of, event_parameter_of, expr_of};
ghost use Rattle.cad_types.specs.Optionals.{fits as fits_type};
ghost use Rattle.cad_declarations.specs.Scopes.{each_of};
ghost use Rattle.cad_declarations.specs.Views.{argument_of, destroyed_of, tables_of};
ghost use Rattle.cad_environment.specs.Views.{environment_of, typing_of};
ghost use Rattle.cad_typing.specs.Containers.{targeted as targeted_term};
ghost use Rattle.cad_typing.specs.Environments.{kinds, when};
ghost use Rattle.cad_typing.specs.Heads as spec;
ghost use Rattle.cad_routines.specs.Code.Parts as parts;

use cad_declarations::{Argument, DestroyedEvent, discard_arguments, discard_type};
use cad_environment::{Environment, Known, Part, Position, Scopes, Typing, discard_typing};
use cad_grammar::{Event, EventParameter, Expr};
use cad_heads::{annotated_type, event_is_right, scope_in};
use cad_scopes::inside;
use cad_statements::infer;
use cad_syntax::{CadType, TypeId};
use cad_type_classes::fits;
use cad_typed_rows::discard_argument;
use std::alloc::{AllocError, Global};

/// Where the default arguments of `ResourceDestroyed` stand: `self` is the resource.
fn default_environment<'a>(known: Known<'a>, id: &'a TypeId) -> Environment<'a>
    ensures { environment_of result ≡ spec.default_environment (tables_of known.entry.tables.now) id.now }
{
    Environment {
        known,
        within: Some(id),
        transaction_fields: None,
        part: Part::DefaultArgument,
        scopes: Scopes::Empty,
        in_use: 0,
        befores: 0,
    }
}

/// A value that is transferred to a type.
fn targeted(x: Typing, target: CadType) -> Argument
    ensures { argument_of result ≡ targeted_term (typing_of x) (pure_type target) }
{
    Argument {
        value: x.term,
        target,
    }
}

/// A value of a field, where it fits the field's type.
fn fitting(env: Environment<'_>, declared: CadType, x: Typing) -> Option<Argument>
    ensures { option_map argument_of result ≡ when (fits_type (kinds (environment_of env.entry)) (typing_of x).type (pure_type declared)) (Some (targeted_term (typing_of x) (pure_type declared))) }
{
    if fits(env.kinds(), &x.declared, &declared) {
        Some(targeted(x, declared))
    } else {
        discard_typing(x);
        discard_type(declared);
        None
    }
}

/// A default argument, which fits its field.
fn default_value(
    alloc: Global,
    env: Environment<'_>,
    declared: CadType,
    value: &Option<Expr>,
) -> Result<Option<Argument>, AllocError>
    ensures { IfOk result (λ a. option_map argument_of a ≡ spec.default_value (environment_of env.entry) (pure_type declared) (option_map expr_of value.now)) }
{
    let Some(value) = value else {
        discard_type(declared);
        return Ok(None);
    };
    match infer(value, alloc, env, Position::Ordinary, Some(&declared)) {
        Ok(Some(x)) => Ok(fitting(env, declared, x)),
        Ok(None) => {
            discard_type(declared);
            Ok(None)
        }
        Err(error) => {
            discard_type(declared);
            Err(error)
        }
    }
}

/// The default argument of a field of an event.
fn default_argument(
    alloc: Global,
    known: Known<'_>,
    id: &TypeId,
    parameter: &EventParameter,
) -> Result<Option<Argument>, AllocError>
    ensures { IfOk result (λ a. option_map argument_of a ≡ parts.default_of (tables_of known.entry.tables.now) id.now (event_parameter_of parameter.now)) }
{
    let declared = annotated_type(alloc, scope_in(known), &parameter.parameter.annotation)?;
    default_value(
        alloc,
        default_environment(known, id),
        declared,
        &parameter.default,
    )
}

/// Adds an argument; where memory fails, it is let go.
fn push_argument(all: &mut Vec<Argument>, argument: Argument) -> Result<(), AllocError>
    ensures { OnOk result (map argument_of all.new.items ≡ map argument_of all.old.items ++ argument_of argument ∷ []) }
{
    match all.push(argument) {
        Ok(()) => Ok(()),
        Err(refused) => {
            discard_argument(refused.value);
            Err(AllocError)
        }
    }
}

/// Adds the default arguments of a resource's event; false where one of them doesn't fit its field.
fn push_defaults(
    all: &mut Vec<Argument>,
    alloc: Global,
    known: Known<'_>,
    id: &TypeId,
    parameters: &[EventParameter],
) -> Result<bool, AllocError>
    ensures { IfOk result (λ fit. when fit (Some (map argument_of all.new.items)) ≡ parts.behind (map argument_of all.old.items) (each_of (parts.default_of (tables_of known.entry.tables.now) id.now) (map event_parameter_of parameters.now))) }
{
    for parameter in parameters {
        match default_argument(alloc, known, id, parameter)? {
            Some(argument) => push_argument(all, argument)?,
            None => return Ok(false),
        }
    }
    Ok(true)
}

/// The default arguments of a resource's event, each of which fits its field.
fn default_arguments(
    alloc: Global,
    known: Known<'_>,
    id: &TypeId,
    parameters: &[EventParameter],
) -> Result<Option<Vec<Argument>>, AllocError>
    ensures { IfOk result (λ all. option_map (λ v. map argument_of v.items) all ≡ each_of (parts.default_of (tables_of known.entry.tables.now) id.now) (map event_parameter_of parameters.now)) }
{
    let mut all = Vec::new(alloc);
    match push_defaults(&mut all, alloc, known, id, parameters) {
        Ok(fit) => Ok(where_fit(fit, all)),
        Err(error) => {
            discard_arguments(all);
            Err(error)
        }
    }
}

/// Arguments, where all of them fit.
fn where_fit(fit: bool, all: Vec<Argument>) -> Option<Vec<Argument>>
    ensures { option_map (λ v. map argument_of v.items) result ≡ when fit (Some (map argument_of all.items)) }
{
    if fit {
        Some(all)
    } else {
        discard_arguments(all);
        None
    }
}

/// The event of a resource; None where its fields or its default arguments aren't right.
pub fn destroyed_event(
    alloc: Global,
    known: Known<'_>,
    id: &TypeId,
    event: &Event,
) -> Result<Option<DestroyedEvent>, AllocError>
    ensures { IfOk result (λ d. option_map destroyed_of d ≡ spec.destroyed_event (tables_of known.entry.tables.now) id.now (event_of event.now)) }
{
    if !event_is_right(alloc, known, event)? {
        return Ok(None);
    }
    let name = inside(id, &event.name)?;
    match default_arguments(alloc, known, id, event.parameters.as_slice())? {
        Some(arguments) => Ok(Some(DestroyedEvent {
            event: name,
            arguments,
        })),
        None => Ok(None),
    }
}
