// Arrays and dictionaries.
ghost use Rattle.std.specs.Prelude.{◌≡◌, IfOk, map, option_map};
ghost use Rattle.cad_syntax.specs.Types.{pure_type, array, dictionary};
ghost use Rattle.cad_types.specs.Views.{declarations};
ghost use Rattle.cad_grammar.specs.Views.{expr_of};
ghost use Rattle.cad_declarations.specs.Typed as tree;
ghost use Rattle.cad_environment.specs.Views.{environment_of, typing_of};
ghost use Rattle.cad_typing.specs.Containers as spec;
ghost use Rattle.cad_typing.specs.Environments as envs;
ghost use Rattle.cad_typing.specs.Environments.{◌>=>◌};
ghost use Rattle.cad_infer_containers.specs.Views.{typings_of};

use crate::terms::{discard_pairs, discard_typings, entries_of, terms_of};
use cad_declarations::{boxed_type, discard_type};
use cad_environment::{Environment, Typing, discard_typing, typed};
use cad_grammar::{Expr, UnaryOperator};
use cad_infer_terms::{array_term, dictionary_term};
use cad_scopes::is_key_type;
use cad_syntax::CadType;
use cad_type_classes::{core_of, element_type, fits, is_below};
use cad_types::DeclaredTypes;
use std::alloc::{AllocError, Global};

/// Whether a form stands under `<-`.
fn is_move(a: &Expr) -> bool
    ensures { result ≡ spec.is_move (expr_of a.now) }
{
    match a {
        Expr::Unary(operator, _) => matches!(operator, UnaryOperator::Move),
        _ => false,
    }
}

/// Whether a form of a type stands under `<-` if that is a resource type.
pub(crate) fn stands_rightly(env: Environment<'_>, a: &Expr, t: &CadType) -> bool
    ensures { result ≡ spec.stands_rightly (environment_of env.entry) (expr_of a.now) (pure_type t.now) }
{
    !env.is_resource(t) || is_move(a)
}

/// Whether a type fits the one that is expected, if one is.
fn fits_expected(env: Environment<'_>, expected: Option<&CadType>, t: &CadType) -> bool
    ensures { result ≡ spec.fits_expected (environment_of env.entry) (option_map (λ u. pure_type u.now) expected.entry) (pure_type t.now) }
{
    match expected {
        Some(u) => fits(env.kinds(), t, u),
        None => true,
    }
}

/// An element, key or value: None where it doesn't fit the type that is expected, or a resource doesn't stand under `<-`.
pub fn element(
    env: Environment<'_>,
    expected: Option<&CadType>,
    a: &Expr,
    x: Typing,
) -> Option<Typing>
    ensures { option_map typing_of result ≡ spec.element (environment_of env.entry) (option_map (λ t. pure_type t.now) expected.entry) (expr_of a.now) (typing_of x) }
{
    if fits_expected(env, expected, &x.declared) && stands_rightly(env, a, &x.declared) {
        Some(x)
    } else {
        discard_typing(x);
        None
    }
}

/// Whether all of these types are below one.
fn all_below(types: &DeclaredTypes, all: &[&CadType], t: &CadType) -> bool
    ensures { result ≡ spec.all_below (declarations types.now) (map (λ u. pure_type u.now) all.now) (pure_type t.now) }
{
    for u in all {
        if !is_below(types, u, t) {
            return false;
        }
    }
    true
}

/// The first of these types that is above all of them.
fn first_above<'a>(types: &DeclaredTypes, all: &[&'a CadType]) -> Option<&'a CadType>
    ensures { option_map (λ t. pure_type t.now) result ≡ spec.first_above (declarations types.now) (map (λ u. pure_type u.now) all.now) (map (λ u. pure_type u.now) all.now) }
{
    for t in all {
        if all_below(types, all, t) {
            return Some(*t);
        }
    }
    None
}

/// The type that is expected, else the first that is above all others.
fn common_type(
    env: Environment<'_>,
    expected: Option<&CadType>,
    all: &[&CadType],
) -> Result<Option<CadType>, AllocError>
    ensures { IfOk result (λ o. option_map pure_type o ≡ spec.common_type (environment_of env.entry) (option_map (λ t. pure_type t.now) expected.entry) (map (λ u. pure_type u.now) all.now)) }
{
    if let Some(t) = expected {
        return Ok(Some(t.clone()?));
    }
    match first_above(env.kinds(), all) {
        Some(t) => Ok(Some(t.clone()?)),
        None => Ok(None),
    }
}

/// What is expected of the elements, where an array is expected, in whatever optionals.
pub fn expected_element(expected: Option<&CadType>) -> Option<&CadType>
    ensures { option_map (λ t. pure_type t.now) result ≡ spec.expected_element (option_map (λ t. pure_type t.now) expected.entry) }
{
    match expected {
        Some(t) => element_type(core_of(t)),
        None => None,
    }
}

/// What is expected of the keys, where a dictionary is expected, in whatever optionals.
pub fn expected_key(expected: Option<&CadType>) -> Option<&CadType>
    ensures { option_map (λ t. pure_type t.now) result ≡ spec.expected_key (option_map (λ t. pure_type t.now) expected.entry) }
{
    match expected {
        Some(t) => key_in(core_of(t)),
        None => None,
    }
}

/// What is expected of the values, where a dictionary is expected, in whatever optionals.
pub fn expected_value(expected: Option<&CadType>) -> Option<&CadType>
    ensures { option_map (λ t. pure_type t.now) result ≡ spec.expected_value (option_map (λ t. pure_type t.now) expected.entry) }
{
    match expected {
        Some(t) => value_in(core_of(t)),
        None => None,
    }
}

/// The type of the keys, where a type is a dictionary's.
fn key_in(t: &CadType) -> Option<&CadType>
    ensures { option_map (λ part. pure_type part.now) result ≡ spec.key_in (pure_type t.now) }
{
    match t {
        CadType::Dictionary(key, _) => Some(key),
        _ => None,
    }
}

/// The type of the values, where a type is a dictionary's.
fn value_in(t: &CadType) -> Option<&CadType>
    ensures { option_map (λ part. pure_type part.now) result ≡ spec.value_in (pure_type t.now) }
{
    match t {
        CadType::Dictionary(_, value) => Some(value),
        _ => None,
    }
}

/// The types of elements.
fn types_of(alloc: Global, xs: &[Typing]) -> Result<Vec<&CadType>, AllocError>
    ensures { IfOk result (λ ts. map (λ t. pure_type t.now) ts.items ≡ spec.types_of (map typing_of xs.now)) }
{
    let mut types = Vec::new(alloc);
    for x in xs {
        types.push(&x.declared)?;
    }
    Ok(types)
}

/// The types of keys.
fn types_of_keys(alloc: Global, pairs: &[(Typing, Typing)]) -> Result<Vec<&CadType>, AllocError>
    ensures { IfOk result (λ ts. map (λ t. pure_type t.now) ts.items ≡ spec.types_of (map (λ p. p.0) (map typings_of pairs.now))) }
{
    let mut types = Vec::new(alloc);
    for pair in pairs {
        types.push(&pair.0.declared)?;
    }
    Ok(types)
}

/// The types of values.
fn types_of_values(alloc: Global, pairs: &[(Typing, Typing)]) -> Result<Vec<&CadType>, AllocError>
    ensures { IfOk result (λ ts. map (λ t. pure_type t.now) ts.items ≡ spec.types_of (map (λ p. p.1) (map typings_of pairs.now))) }
{
    let mut types = Vec::new(alloc);
    for pair in pairs {
        types.push(&pair.1.declared)?;
    }
    Ok(types)
}

/// The type of an array's elements: the one that is expected, else the first that is above all others.
fn common_element(
    alloc: Global,
    env: Environment<'_>,
    expected: Option<&CadType>,
    xs: &[Typing],
) -> Result<Option<CadType>, AllocError>
    ensures { IfOk result (λ o. option_map pure_type o ≡ spec.common_type (environment_of env.entry) (option_map (λ t. pure_type t.now) expected.entry) (spec.types_of (map typing_of xs.now))) }
{
    let all = types_of(alloc, xs)?;
    common_type(env, expected, all.as_slice())
}

/// The type of a dictionary's keys: the one that is expected, else the first that is above all others.
fn common_key(
    alloc: Global,
    env: Environment<'_>,
    expected: Option<&CadType>,
    pairs: &[(Typing, Typing)],
) -> Result<Option<CadType>, AllocError>
    ensures { IfOk result (λ o. option_map pure_type o ≡ spec.common_type (environment_of env.entry) (spec.expected_key (option_map (λ t. pure_type t.now) expected.entry)) (spec.types_of (map (λ p. p.0) (map typings_of pairs.now)))) }
{
    let all = types_of_keys(alloc, pairs)?;
    common_type(env, expected_key(expected), all.as_slice())
}

/// The type of a dictionary's values: the one that is expected, else the first that is above all others.
fn common_value(
    alloc: Global,
    env: Environment<'_>,
    expected: Option<&CadType>,
    pairs: &[(Typing, Typing)],
) -> Result<Option<CadType>, AllocError>
    ensures { IfOk result (λ o. option_map pure_type o ≡ spec.common_type (environment_of env.entry) (spec.expected_value (option_map (λ t. pure_type t.now) expected.entry)) (spec.types_of (map (λ p. p.1) (map typings_of pairs.now)))) }
{
    let all = types_of_values(alloc, pairs)?;
    common_type(env, expected_value(expected), all.as_slice())
}

/// An array of elements of a type.
fn array_of(alloc: Global, xs: Vec<Typing>, t: CadType) -> Result<Option<Typing>, AllocError>
    ensures { IfOk result (λ o. option_map typing_of o ≡ spec.array_of (map typing_of xs.items) (pure_type t)) }
{
    match array_type(alloc, &t) {
        Ok(declared) => array_with(alloc, xs, t, declared),
        Err(error) => {
            discard_typings(xs);
            discard_type(t);
            Err(error)
        }
    }
}

/// The same, with its type.
fn array_with(
    alloc: Global,
    xs: Vec<Typing>,
    t: CadType,
    declared: CadType,
) -> Result<Option<Typing>, AllocError>
    ensures { IfOk result (λ o. option_map typing_of o ≡ envs.typed (tree.array (pure_type t) (tree.terms_of (map (λ x. x.term) (map typing_of xs.items)))) (pure_type declared)) }
{
    match terms_of(alloc, xs) {
        Ok(items) => Ok(typed(array_term(t, items), declared)),
        Err(error) => {
            discard_type(t);
            discard_type(declared);
            Err(error)
        }
    }
}

/// The type of arrays of a type.
fn array_type(alloc: Global, t: &CadType) -> Result<CadType, AllocError>
    ensures { IfOk result (λ made. pure_type made ≡ array (pure_type t.now)) }
{
    Ok(CadType::Array(copied_type(alloc, t)?))
}

/// An array: None where no type is expected of its elements and none is above all others.
pub fn array_typed(
    alloc: Global,
    env: Environment<'_>,
    expected: Option<&CadType>,
    xs: Vec<Typing>,
) -> Result<Option<Typing>, AllocError>
    ensures { IfOk result (λ o. option_map typing_of o ≡ spec.array_typed (environment_of env.entry) (option_map (λ t. pure_type t.now) expected.entry) (map typing_of xs.items)) }
{
    match common_element(alloc, env, expected, xs.as_slice()) {
        Ok(found) => array_if(alloc, xs, found),
        Err(error) => {
            discard_typings(xs);
            Err(error)
        }
    }
}

/// An array of elements of a type, if there is one.
fn array_if(
    alloc: Global,
    xs: Vec<Typing>,
    found: Option<CadType>,
) -> Result<Option<Typing>, AllocError>
    ensures { IfOk result (λ o. option_map typing_of o ≡ (option_map pure_type found >=> spec.array_of (map typing_of xs.items))) }
{
    match found {
        Some(t) => array_of(alloc, xs, t),
        None => {
            discard_typings(xs);
            Ok(None)
        }
    }
}

/// A dictionary of keys and values of these types: None where the first is no type of keys.
fn dictionary_of(
    alloc: Global,
    env: Environment<'_>,
    pairs: Vec<(Typing, Typing)>,
    key: CadType,
    value: CadType,
) -> Result<Option<Typing>, AllocError>
    ensures { IfOk result (λ o. option_map typing_of o ≡ spec.dictionary_of (environment_of env.entry) (map typings_of pairs.items) (pure_type key) (pure_type value)) }
{
    if is_key_type(env.kinds(), &key) {
        dictionary_with(alloc, pairs, key, value)
    } else {
        discard_pairs(pairs);
        discard_type(key);
        discard_type(value);
        Ok(None)
    }
}

/// The same, where keys can be of that type.
fn dictionary_with(
    alloc: Global,
    pairs: Vec<(Typing, Typing)>,
    key: CadType,
    value: CadType,
) -> Result<Option<Typing>, AllocError>
    ensures { IfOk result (λ o. option_map typing_of o ≡ envs.typed (tree.dictionary (pure_type key) (pure_type value) (tree.entries_of (map spec.pair_term (map typings_of pairs.items)))) (dictionary (pure_type key) (pure_type value))) }
{
    match dictionary_type(alloc, &key, &value) {
        Ok(declared) => dictionary_as(alloc, pairs, key, value, declared),
        Err(error) => {
            discard_pairs(pairs);
            discard_type(key);
            discard_type(value);
            Err(error)
        }
    }
}

/// The same, with its type.
fn dictionary_as(
    alloc: Global,
    pairs: Vec<(Typing, Typing)>,
    key: CadType,
    value: CadType,
    declared: CadType,
) -> Result<Option<Typing>, AllocError>
    ensures { IfOk result (λ o. option_map typing_of o ≡ envs.typed (tree.dictionary (pure_type key) (pure_type value) (tree.entries_of (map spec.pair_term (map typings_of pairs.items)))) (pure_type declared)) }
{
    match entries_of(alloc, pairs) {
        Ok(entries) => Ok(typed(dictionary_term(key, value, entries), declared)),
        Err(error) => {
            discard_type(key);
            discard_type(value);
            discard_type(declared);
            Err(error)
        }
    }
}

/// A copy of a type, as a part of another.
fn copied_type(alloc: Global, t: &CadType) -> Result<Box<CadType>, AllocError>
    ensures { IfOk result (λ b. pure_type b.value ≡ pure_type t.now) }
{
    boxed_type(alloc, t.clone()?)
}

/// The type of dictionaries of these types.
fn dictionary_type(alloc: Global, key: &CadType, value: &CadType) -> Result<CadType, AllocError>
    ensures { IfOk result (λ t. pure_type t ≡ dictionary (pure_type key.now) (pure_type value.now)) }
{
    let key = copied_type(alloc, key)?;
    match copied_type(alloc, value) {
        Ok(value) => Ok(CadType::Dictionary(key, value)),
        Err(error) => {
            discard_type(Box::into_inner(key));
            Err(error)
        }
    }
}

/// A dictionary: None where no type is expected of its keys or values and none is above all others, or keys can't be of that
/// type.
pub fn dictionary_typed(
    alloc: Global,
    env: Environment<'_>,
    expected: Option<&CadType>,
    pairs: Vec<(Typing, Typing)>,
) -> Result<Option<Typing>, AllocError>
    ensures { IfOk result (λ o. option_map typing_of o ≡ spec.dictionary_typed (environment_of env.entry) (option_map (λ t. pure_type t.now) expected.entry) (map typings_of pairs.items)) }
{
    match common_key(alloc, env, expected, pairs.as_slice()) {
        Ok(found) => dictionary_if_key(alloc, env, expected, pairs, found),
        Err(error) => {
            discard_pairs(pairs);
            Err(error)
        }
    }
}

/// A dictionary whose keys are of a type, if there is one.
fn dictionary_if_key(
    alloc: Global,
    env: Environment<'_>,
    expected: Option<&CadType>,
    pairs: Vec<(Typing, Typing)>,
    found: Option<CadType>,
) -> Result<Option<Typing>, AllocError>
    ensures { IfOk result (λ o. option_map typing_of o ≡ (option_map pure_type found >=> (λ key. spec.common_type (environment_of env.entry) (spec.expected_value (option_map (λ t. pure_type t.now) expected.entry)) (spec.types_of (map (λ p. p.1) (map typings_of pairs.items))) >=> spec.dictionary_of (environment_of env.entry) (map typings_of pairs.items) key))) }
{
    match found {
        Some(key) => dictionary_by_key(alloc, env, expected, pairs, key),
        None => {
            discard_pairs(pairs);
            Ok(None)
        }
    }
}

/// A dictionary whose keys are of this type.
fn dictionary_by_key(
    alloc: Global,
    env: Environment<'_>,
    expected: Option<&CadType>,
    pairs: Vec<(Typing, Typing)>,
    key: CadType,
) -> Result<Option<Typing>, AllocError>
    ensures { IfOk result (λ o. option_map typing_of o ≡ (spec.common_type (environment_of env.entry) (spec.expected_value (option_map (λ t. pure_type t.now) expected.entry)) (spec.types_of (map (λ p. p.1) (map typings_of pairs.items))) >=> spec.dictionary_of (environment_of env.entry) (map typings_of pairs.items) (pure_type key))) }
{
    match common_value(alloc, env, expected, pairs.as_slice()) {
        Ok(found) => dictionary_if_value(alloc, env, pairs, key, found),
        Err(error) => {
            discard_pairs(pairs);
            discard_type(key);
            Err(error)
        }
    }
}

/// A dictionary whose values are of a type, if there is one.
fn dictionary_if_value(
    alloc: Global,
    env: Environment<'_>,
    pairs: Vec<(Typing, Typing)>,
    key: CadType,
    found: Option<CadType>,
) -> Result<Option<Typing>, AllocError>
    ensures { IfOk result (λ o. option_map typing_of o ≡ (option_map pure_type found >=> spec.dictionary_of (environment_of env.entry) (map typings_of pairs.items) (pure_type key))) }
{
    match found {
        Some(value) => dictionary_of(alloc, env, pairs, key, value),
        None => {
            discard_pairs(pairs);
            discard_type(key);
            Ok(None)
        }
    }
}
