// What single parts of a value meet.
ghost use Rattle.std.specs.Prelude.{◌≡◌, IfOk, map};
ghost use Rattle.cad_shapes.specs.Held.{shapes_of};
ghost use Rattle.cad_shapes.specs.Views.{pure_shape};
ghost use Rattle.cad_syntax.specs.Types.{pure_type};
ghost use Rattle.cad_values.specs.Fits as fit;
ghost use Rattle.cad_values.specs.Shapes.{is_enum};
ghost use Rattle.cad_values.specs.Values.{pure_value, pure_field, fields_of};
ghost use Rattle.cad_fits.specs.Tests as spec;

use cad_shapes::{DeclaredShapes, Shape};
use cad_syntax::{CadType, Kind, Num, Text};
use cad_text::length;
use cad_types::{Sort, is_subtype};
use cad_values::{CompositeField, Value, type_of_value};
use std::alloc::{AllocError, Global};

/// The most bytes of a text.
const MOST_BYTES: usize = 1_048_576;

/// Whether a value's own type is below another.
pub fn is_below(
    alloc: Global,
    shapes: &DeclaredShapes,
    value: &Value,
    want: &CadType,
) -> Result<bool, AllocError>
    ensures { IfOk result (λ b. b ≡ spec.is_below (shapes_of shapes.now) (pure_value value.now) (pure_type want.now)) }
{
    let own = type_of_value(alloc, value)?;
    Ok(is_subtype(shapes.types(), &own, want))
}

/// Whether a number is of a kind that values have.
pub fn is_number(number: Num) -> bool
    ensures { result ≡ spec.is_number number.kind }
{
    !matches!(number.kind, Kind::Address)
}

/// Whether a text is as short as values have it.
pub fn is_text(text: &Text) -> bool
    ensures { result ≡ spec.is_text text.now }
{
    let content = text.as_str();
    content.len() <= MOST_BYTES
}

/// Whether a text is one cluster.
pub fn is_one_character(text: &Text) -> bool
    ensures { result ≡ spec.is_one_character text.now }
{
    let content = text.as_str();
    length(content) == 1
}

/// Whether values are of types of a sort.
fn is_value_sort(sort: Sort) -> bool
    ensures { result ≡ fit.is_value_sort sort }
{
    matches!(sort, Sort::Struct | Sort::Resource | Sort::Enum)
}

/// Whether composites of a sort have an identity.
fn has_identity(sort: Sort, identity: u64) -> bool
    ensures { result ≡ spec.has_identity sort identity }
{
    match sort {
        Sort::Resource => true,
        _ => identity == 0,
    }
}

fn is_enum(sort: Sort) -> bool
    ensures { result ≡ is_enum sort }
{
    matches!(sort, Sort::Enum)
}

/// Whether a number is that of a case of an enum.
fn is_case_number(cases: u64, number: Num) -> bool
    ensures { result ≡ spec.is_case_number cases number }
{
    !number.negative && number.magnitude < u128::from(cases)
}

/// Whether a value is the number of a case of an enum.
fn is_case(shape: &Shape, value: &Value) -> bool
    ensures { result ≡ fit.is_case (pure_shape shape.now) (pure_value value.now) }
{
    match value {
        Value::Number(number) => is_case_number(shape.cases, *number),
        _ => false,
    }
}

/// Whether the field of an enum's value is the number of one of its cases.
#[tactic(auto, using(crate::proofs::Lengths::many_case))]
fn has_case(shape: &Shape, fields: &[CompositeField]) -> bool
    ensures { result ≡ spec.has_case (pure_shape shape.now) (fields_of (map pure_field fields.now)) }
{
    match fields {
        [one] => !is_enum(shape.sort) || is_case(shape, &one.value),
        [] => !is_enum(shape.sort),
        [_, _, ..] => !is_enum(shape.sort),
    }
}

/// Whether a composite can be of a shape, if its fields are.
pub fn is_of(shape: &Shape, identity: u64, fields: &[CompositeField]) -> bool
    ensures { result ≡ spec.is_of identity (fields_of (map pure_field fields.now)) (pure_shape shape.now) }
{
    is_value_sort(shape.sort) && (has_identity(shape.sort, identity) && has_case(shape, fields))
}

/// Whether values of contracts are of types of a sort.
fn is_contract(sort: Sort) -> bool
    ensures { result ≡ fit.is_contract sort }
{
    matches!(sort, Sort::Contract)
}

/// Whether a composite can be the value of a contract of a shape, if its fields are.
pub fn is_contract_of(shape: &Shape, identity: u64) -> bool
    ensures { result ≡ spec.is_contract_of identity (pure_shape shape.now) }
{
    is_contract(shape.sort) && identity == 0
}
