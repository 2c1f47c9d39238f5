// What the nodes of two values tell of their sameness, without a walk through their parts.
ghost use Rattle.std.specs.Prelude.{◌≡◌, Bool, true, map, IfOk};
ghost use Rattle.cad_operators.specs.Heads as spec;
ghost use Rattle.cad_operators.specs.Heads.{IsHead};
ghost use Rattle.cad_keys.specs.Sameness.{case_number};
ghost use Rattle.cad_rows.specs.Views.{pure_place, pure_row, pure_shape, pure_tree};
ghost use Rattle.cad_evaluation.specs.Operators.{same};
ghost use Rattle.cad_values.specs.Values.{pure_value};
ghost use Rattle.cad_world.specs.Rows as rows;
ghost use Rattle.cad_world.specs.Same.{equal};
ghost use Rattle.cad_world.specs.Trees.{named_values, values_in};

use crate::leaves::{number_in, optionals, parts, shape};
use cad_keys::{is_same_case, same_key};
use cad_rows::{Place, Shape, Tree};
use cad_syntax::{Name, Names, Num, TypeId};
use cad_values::Value;
use std::alloc::{AllocError, Global};

/// What the nodes of two values tell, without their parts.
#[derive(Clone, Copy, Debug, PartialEq, Eq)]
pub enum Head {
    /// Whether the values are the same.
    Told(bool),
    /// That they are where their elements are.
    Elements,
    /// That they are where their entries are.
    Entries,
}

/// Whether a value has neither parts nor a content. No action gives a node without parts another.
fn is_lean_value(value: &Value) -> bool
    ensures { result ≡ spec.is_lean_value (pure_value value.now) }
{
    !matches!(
        value,
        Value::Some(_) | Value::Array { .. } | Value::Dictionary { .. } | Value::Composite { .. }
    )
}

/// Whether a node without parts has a value without any.
fn is_lean(shape: &Shape) -> bool
    ensures { result ≡ spec.is_lean (pure_shape shape.now) }
{
    match shape {
        Shape::Plain(value) => is_lean_value(value),
        _ => true,
    }
}

/// Whether a shape is that of an array.
fn is_array(shape: &Shape) -> bool
    ensures { result ≡ spec.is_array (pure_shape shape.now) }
{
    matches!(shape, Shape::Array(_))
}

/// Whether a shape is that of a dictionary.
fn is_dictionary(shape: &Shape) -> bool
    ensures { result ≡ spec.is_dictionary (pure_shape shape.now) }
{
    matches!(shape, Shape::Dictionary { .. })
}

/// Whether all places of a row are taken.
pub(crate) fn are_full(row: &[Place]) -> bool
    ensures { result ≡ rows.is_full (pure_row row.now) }
{
    for place in row {
        if is_empty(place) {
            return false;
        }
    }
    true
}

/// Whether nothing stands in a place.
fn is_empty(place: &Place) -> bool
    ensures { result ≡ spec.is_vacant (pure_place place.now) }
{
    matches!(place, Place::Empty)
}

/// Whether a value is nil.
fn is_nil(value: &Value) -> bool
    ensures { result ≡ spec.is_nil (pure_value value.now) }
{
    matches!(value, Value::Nil)
}

/// Whether a value that has neither parts nor a content is that one.
#[tactic(auto, using(crate::proofs::HeadLaws::lean_equal, crate::proofs::HeadLaws::nil_equal))]
fn equal_values(alloc: Global, a: &Value, b: &Value) -> Result<bool, AllocError>
    requires { spec.is_lean_value (pure_value a.now) ≡ true }
    ensures { IfOk result (λ is. is ≡ equal (pure_value a.now) (pure_value b.now)) }
{
    if is_nil(a) {
        return Ok(is_nil(b));
    }
    same_key(alloc, a, b)
}

/// Whether a value without parts is what a node is, if that has none either.
fn plain_same(alloc: Global, a: &Value, b: &Shape) -> Result<bool, AllocError>
    requires { spec.is_lean_value (pure_value a.now) ≡ true }
    ensures { IfOk result (λ is. is ≡ spec.same_as_plain (pure_value a.now) (pure_shape b.now)) }
{
    match b {
        Shape::Plain(value) => equal_values(alloc, a, value),
        _ => Ok(false),
    }
}

/// The number that stands in a place.
#[tactic(auto, using(crate::proofs::HeadLaws::number_there))]
fn number_there(place: &Place) -> Result<Option<Num>, AllocError>
    ensures { IfOk result (λ o. spec.IsNumberThere o (pure_place place.now)) }
{
    match place {
        Place::Empty => Err(AllocError),
        Place::Full(_, tree) => Ok(number_in(tree)),
    }
}

/// The number of a case of an enum: its one field.
#[tactic(auto, using(crate::proofs::HeadLaws::case_of_two))]
fn number_of_case(names: &[Name], parts: &[Place]) -> Result<Option<Num>, AllocError>
    ensures { IfOk result (λ o. o ≡ case_number (named_values names.now (values_in (pure_row parts.now)))) }
{
    match names {
        [] => Ok(None),
        [_] => match parts {
            [place] => number_there(place),
            _ => Err(AllocError),
        },
        _ => {
            if parts.len() < 2 || !are_full(parts) {
                return Err(AllocError);
            }
            Ok(None)
        }
    }
}

/// Whether a case of an enum is what a node is.
fn is_case(x: &TypeId, n: Option<Num>, b: &Shape, b_parts: &[Place]) -> Result<bool, AllocError>
    ensures { IfOk result (λ is. is ≡ spec.same_as_composite x.now n (pure_shape b.now) (pure_row b_parts.now)) }
{
    match b {
        Shape::Composite { id, fields, .. } => match number_of_case(fields.as_slice(), b_parts) {
            Ok(m) => Ok(is_same_case(x, n, id, m)),
            Err(error) => Err(error),
        },
        _ => Ok(false),
    }
}

/// Whether a composite is what a node is.
fn composite_same(
    x: &TypeId,
    names: &Names,
    a_parts: &[Place],
    b: &Shape,
    b_parts: &[Place],
) -> Result<bool, AllocError>
    ensures { IfOk result (λ is. is ≡ spec.same_as_composite x.now (case_number (named_values names.now (values_in (pure_row a_parts.now)))) (pure_shape b.now) (pure_row b_parts.now)) }
{
    match number_of_case(names.as_slice(), a_parts) {
        Ok(n) => is_case(x, n, b, b_parts),
        Err(error) => Err(error),
    }
}

/// What two nodes tell, as a head.
fn told(is: Result<bool, AllocError>) -> Result<Head, AllocError>
    ensures { (x : Bool) → IfOk is (λ y. y ≡ x) → IfOk result (λ h. h ≡ Head.Told x) }
{
    match is {
        Ok(x) => Ok(Head::Told(x)),
        Err(error) => Err(error),
    }
}

/// What the nodes of two values in equally many optionals tell.
fn head_of_shapes(
    alloc: Global,
    a: &Shape,
    a_parts: &[Place],
    b: &Shape,
    b_parts: &[Place],
) -> Result<Head, AllocError>
    requires first { spec.is_lean (pure_shape a.now) ≡ true }
    requires second { spec.is_lean (pure_shape b.now) ≡ true }
    ensures { IfOk result (λ h. h ≡ spec.head (pure_shape a.now) (pure_row a_parts.now) (pure_shape b.now) (pure_row b_parts.now)) }
{
    match a {
        Shape::Plain(value) => told(plain_same(alloc, value, b)),
        Shape::Link { .. } => Ok(Head::Told(false)),
        Shape::Array(_) => Ok(elements_of(is_array(b))),
        Shape::Dictionary { .. } => Ok(entries_of(is_dictionary(b))),
        Shape::Composite { id, fields, .. } => told(composite_same(
            id, fields, a_parts, b, b_parts,
        )),
    }
}

/// The head of an array beside an array, or beside another node.
fn elements_of(are_there: bool) -> Head
    ensures { result ≡ spec.elements_if are_there }
{
    if are_there {
        Head::Elements
    } else {
        Head::Told(false)
    }
}

/// The head of a dictionary beside a dictionary, or beside another node.
fn entries_of(are_there: bool) -> Head
    ensures { result ≡ spec.entries_if are_there }
{
    if are_there {
        Head::Entries
    } else {
        Head::Told(false)
    }
}

/// What the nodes of two values tell. Want of memory is told of a node without parts whose value has some, and of a composite
/// whose fields aren't all set: no action brings one in hand.
pub(crate) fn nodes_tell(alloc: Global, a: &Tree, b: &Tree) -> Result<Head, AllocError>
    ensures { IfOk result (λ h. IsHead h (pure_tree a.now) (pure_tree b.now)) }
{
    if !is_lean(shape(a)) || !is_lean(shape(b)) {
        return Err(AllocError);
    }
    if optionals(a) != optionals(b) {
        return Ok(Head::Told(false));
    }
    head_of_shapes(alloc, shape(a), parts(a), shape(b), parts(b))
}
