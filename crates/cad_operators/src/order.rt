// The order of values.
ghost use Rattle.std.specs.Prelude.{◌≡◌, IfOk, int_lt};
ghost use Rattle.cad_evaluation.specs.Operators as spec;
ghost use Rattle.cad_num.specs.Numbers.{value_of};
ghost use Rattle.cad_rows.specs.Views.{pure_tree};
ghost use Rattle.cad_text.specs.Texts.{normal_form};
ghost use Rattle.cad_values.specs.Values.{pure_value};

use crate::kinds::is_same_kind;
use crate::leaves::plain_value;
use cad_rows::Tree;
use cad_syntax::Num;
use cad_values::Value;
use std::alloc::{AllocError, Global};

/// Whether a number is less than another of its kind.
#[tactic(auto, using(crate::proofs::Orders::is_less))]
fn is_less(x: Num, y: Num) -> bool
    requires { x.kind ≡ y.kind }
    ensures { result ≡ int_lt (value_of x) (value_of y) }
{
    cad_num::compare(x, y).is_lt()
}

/// Whether a number is less than another; nothing of numbers of two kinds.
pub(crate) fn number_less(x: Num, y: Num) -> Option<bool>
    ensures { result ≡ spec.number_less x y }
{
    if is_same_kind(x.kind, y.kind) {
        Some(is_less(x, y))
    } else {
        None
    }
}

/// Whether the NFC form of a text stands before that of another, byte by byte.
fn is_text_before(alloc: Global, x: &str, y: &str) -> Result<bool, AllocError>
    ensures { IfOk result (λ is. is ≡ spec.is_before (normal_form x.now) (normal_form y.now)) }
{
    match cad_text::compare(alloc, x, y) {
        Ok(order) => Ok(order.is_lt()),
        Err(error) => Err(error),
    }
}

/// The same of two texts, as a comparison finds it.
fn text_less(alloc: Global, x: &str, y: &str) -> Result<Option<bool>, AllocError>
    ensures { IfOk result (λ o. o ≡ Some (spec.is_before (normal_form x.now) (normal_form y.now))) }
{
    match is_text_before(alloc, x, y) {
        Ok(is) => Ok(Some(is)),
        Err(error) => Err(error),
    }
}

/// Whether a value without parts is less than another.
fn value_less(alloc: Global, a: &Value, b: &Value) -> Result<Option<bool>, AllocError>
    ensures { IfOk result (λ o. o ≡ spec.less_value (pure_value a.now) (pure_value b.now)) }
{
    match a {
        Value::Number(x) => match b {
            Value::Number(y) => Ok(number_less(*x, *y)),
            _ => Ok(None),
        },
        Value::Bool(x) => match b {
            Value::Bool(y) => Ok(Some(!*x && *y)),
            _ => Ok(None),
        },
        Value::String(x) => match b {
            Value::String(y) => text_less(alloc, x.as_str(), y.as_str()),
            _ => Ok(None),
        },
        Value::Character(x) => match b {
            Value::Character(y) => text_less(alloc, x.as_str(), y.as_str()),
            _ => Ok(None),
        },
        _ => Ok(None),
    }
}

/// Whether a value is less than another: numbers of one kind, false before true, texts and characters by their NFC forms.
/// None exactly of all else.
pub fn less(alloc: Global, a: &Tree, b: &Tree) -> Result<Option<bool>, AllocError>
    ensures { IfOk result (λ o. o ≡ spec.less (pure_tree a.now) (pure_tree b.now)) }
{
    match plain_value(a) {
        None => Ok(None),
        Some(x) => match plain_value(b) {
            None => Ok(None),
            Some(y) => value_less(alloc, x, y),
        },
    }
}
