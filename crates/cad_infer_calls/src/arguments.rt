// Calls with their arguments.
ghost use Rattle.std.specs.Prelude.{◌≡◌, [], ◌∷◌, IfOk, map, option_map};
ghost use Rattle.cad_syntax.specs.Types.{pure_type};
ghost use Rattle.cad_declarations.specs.Typed as tree;
ghost use Rattle.cad_declarations.specs.Views.{argument_of, place_of, use_of, term_of, targeted};
ghost use Rattle.cad_builtins.specs.Views.{rule_of};
ghost use Rattle.cad_typing.specs.Calls as spec;
ghost use Rattle.cad_typing.specs.Environments as environments;
ghost use Rattle.cad_typing.specs.Receivers as receivers;
ghost use Rattle.cad_environment.specs.Views.{hidden_of, typing_of};
ghost use Rattle.cad_infer_calls.specs.Views.{method_view, callee_view, call_view};

use crate::call::{Call, Callee, Method, discard_callee};
use cad_builtins::{TypeRule, type_rule};
use cad_declarations::{
    Argument, Place, Term, Use, discard_arguments, discard_place, discard_type,
};
use cad_environment::{Hidden, Typing, discard_hidden};
use cad_infer_members::closed_typed;
use cad_parameters::discard_parameters;
use cad_syntax::CadType;
use cad_typed_trees::{
    before_term, builtin_call_use, builtin_term, chain_term, construct_term, create_term,
    function_term, meta_term, method_use, on_term,
};
use cad_types::Builtin;
use std::alloc::{AllocError, Global};

/// The type to which an argument is transferred.
fn target_of(argument: &Argument) -> &CadType
    ensures { pure_type result.now ≡ (argument_of argument.now).target }
{
    &argument.target
}

/// The type to which an argument is transferred, as the only one.
fn one_target(alloc: Global, argument: &Argument) -> Result<Vec<CadType>, AllocError>
    ensures { IfOk result (λ types. map pure_type types.items ≡ (argument_of argument.now).target ∷ []) }
{
    let mut types = Vec::new(alloc);
    types.push(target_of(argument).clone()?)?;
    Ok(types)
}

/// The type to which the first argument is transferred.
fn first_target(alloc: Global, all: &[Argument]) -> Result<Vec<CadType>, AllocError>
    ensures { IfOk result (λ types. map pure_type types.items ≡ spec.first_target (targeted all.now)) }
{
    match all {
        [first, _more @ ..] => one_target(alloc, first),
        [] => Ok(Vec::new(alloc)),
    }
}

/// Without a written type argument it is the type of the first argument.
fn types_by(
    alloc: Global,
    types: Vec<CadType>,
    all: &[Argument],
    rule: TypeRule,
) -> Result<Vec<CadType>, AllocError>
    ensures { IfOk result (λ made. map pure_type made.items ≡ spec.types_by (map pure_type types.items) (targeted all.now) (rule_of rule)) }
{
    match types.as_slice() {
        [] => types_of_first(alloc, all, rule),
        [_first, _more @ ..] => Ok(types),
    }
}

/// Where no type argument is written: of what is saved the type of the first argument.
fn types_of_first(
    alloc: Global,
    all: &[Argument],
    rule: TypeRule,
) -> Result<Vec<CadType>, AllocError>
    ensures { IfOk result (λ made. map pure_type made.items ≡ spec.types_by [] (targeted all.now) (rule_of rule)) }
{
    match rule {
        TypeRule::SavedType => first_target(alloc, all),
        _ => Ok(Vec::new(alloc)),
    }
}

/// A call of a built-in member of a value.
fn built_in_usage(
    alloc: Global,
    member: Builtin,
    types: Vec<CadType>,
    all: Vec<Argument>,
) -> Result<Use, AllocError>
    ensures { IfOk result (λ u. use_of u ≡ spec.usage_of (spec.built_in_method member (map pure_type types.items)) (targeted all.items)) }
{
    match types_by(alloc, types, all.as_slice(), type_rule(member)) {
        Ok(types) => Ok(builtin_call_use(member, types, all)),
        Err(error) => {
            discard_arguments(all);
            Err(error)
        }
    }
}

/// A call of a function of a value, without the value.
fn usage_of(alloc: Global, method: Method, all: Vec<Argument>) -> Result<Use, AllocError>
    ensures { IfOk result (λ u. use_of u ≡ spec.usage_of (method_view method) (targeted all.items)) }
{
    match method {
        Method::Declared {
            name,
            is_view,
            is_never,
        } => Ok(method_use(name, is_view, is_never, all)),
        Method::BuiltIn(member, types) => built_in_usage(alloc, member, types, all),
    }
}

/// `a.f(..)`
fn method_term(
    alloc: Global,
    place: Place,
    method: Method,
    all: Vec<Argument>,
) -> Result<Term, AllocError>
    ensures { IfOk result (λ x. term_of x ≡ tree.on (place_of place) (spec.usage_of (method_view method) (targeted all.items))) }
{
    match usage_of(alloc, method, all) {
        Ok(usage) => on_term(alloc, place, usage),
        Err(error) => {
            discard_place(place);
            Err(error)
        }
    }
}

/// `a?.f(..)`: whether the result is wrapped.
fn chained_term(
    alloc: Global,
    place: Place,
    method: Method,
    wraps: bool,
    all: Vec<Argument>,
) -> Result<Term, AllocError>
    ensures { IfOk result (λ x. term_of x ≡ tree.chain (place_of place) (spec.usage_of (method_view method) (targeted all.items)) wraps) }
{
    match usage_of(alloc, method, all) {
        Ok(usage) => chain_term(alloc, place, usage, wraps),
        Err(error) => {
            discard_place(place);
            Err(error)
        }
    }
}

/// The form of a call, of what is called.
fn call_term(alloc: Global, callee: Callee, all: Vec<Argument>) -> Result<Term, AllocError>
    ensures { IfOk result (λ x. term_of x ≡ spec.call_term (callee_view callee) (targeted all.items)) }
{
    match callee {
        Callee::Function {
            name,
            is_view,
            is_never,
        } => Ok(function_term(name, is_view, is_never, all)),
        Callee::Struct(id) => Ok(construct_term(id, all)),
        Callee::Resource(id) => Ok(create_term(id, all)),
        Callee::Builtin(member, types) => Ok(builtin_term(member, types, all)),
        Callee::Type(t) => {
            discard_arguments(all);
            Ok(meta_term(t))
        }
        Callee::Method(place, method) => method_term(alloc, place, method, all),
        Callee::Chain(place, method, wraps) => chained_term(alloc, place, method, wraps, all),
        Callee::Before(number) => {
            discard_arguments(all);
            Ok(before_term(number))
        }
    }
}

/// What stood under `before` has its own type.
fn result_by(callee: &Callee, outcome: CadType, all: &[Argument]) -> Result<CadType, AllocError>
    ensures { IfOk result (λ t. pure_type t ≡ spec.result_by (callee_view callee.now) (pure_type outcome) (targeted all.now)) }
{
    match callee {
        Callee::Before(_) => first_or(outcome, all),
        _ => Ok(outcome),
    }
}

/// The type to which the first argument is transferred, or another one.
fn first_or(outcome: CadType, all: &[Argument]) -> Result<CadType, AllocError>
    ensures { IfOk result (λ t. pure_type t ≡ spec.result_by (spec.of_before 0) (pure_type outcome) (targeted all.now)) }
{
    match all {
        [first, _more @ ..] => {
            discard_type(outcome);
            target_of(first).clone()
        }
        [] => Ok(outcome),
    }
}

/// What is called, with its arguments and the type of its result.
fn called(
    alloc: Global,
    hidden: Option<Hidden>,
    callee: Callee,
    all: Vec<Argument>,
    outcome: CadType,
) -> Result<Option<Typing>, AllocError>
    ensures { IfOk result (λ x. option_map typing_of x ≡ environments.typed (receivers.closed (option_map hidden_of hidden) (spec.call_term (callee_view callee) (targeted all.items))) (pure_type outcome)) }
{
    match call_term(alloc, callee, all) {
        Ok(term) => closed_typed(alloc, hidden, term, outcome),
        Err(error) => {
            discard_hidden(hidden);
            discard_type(outcome);
            Err(error)
        }
    }
}

/// A call with its arguments and the type of its result; None where that nests too deep.
pub fn call_typed(
    alloc: Global,
    call: Call,
    all: Vec<Argument>,
) -> Result<Option<Typing>, AllocError>
    ensures { IfOk result (λ x. option_map typing_of x ≡ spec.call_typed (call_view call) (targeted all.items)) }
{
    discard_parameters(call.parameters);
    let declared = call.outcome;
    match result_by(&call.callee, declared, all.as_slice()) {
        Ok(outcome) => called(alloc, call.hidden, call.callee, all, outcome),
        Err(error) => {
            discard_hidden(call.hidden);
            discard_callee(call.callee);
            discard_arguments(all);
            Err(error)
        }
    }
}
