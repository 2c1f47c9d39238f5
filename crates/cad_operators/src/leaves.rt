// Values without optionals and parts: as trees, and what stands in such a tree. None of it takes memory.
ghost use Rattle.std.specs.Prelude.{◌≡◌, ◌<◌, ◌-◌, ◌^◌, option_map};
ghost use Rattle.cad_evaluation.specs.Numbers as numbers;
ghost use Rattle.cad_operators.specs.Bytes as bytes;
ghost use Rattle.cad_operators.specs.Leaves.{plain_in, plain_in_shape};
ghost use Rattle.cad_rows.specs.Views.{pure_row, pure_shape, pure_tree};
ghost use Rattle.cad_values.specs.Values.{pure_value, bool, nil, number};
ghost use Rattle.cad_world.specs.Trees as trees;
ghost use Rattle.cad_world.specs.Trees.{of_plain};

use cad_rows::{Place, Shape, Tree};
use cad_syntax::Num;
use cad_values::Value;
use std::alloc::Global;

/// The tree of a value without optionals and parts.
pub fn plain_tree(alloc: Global, value: Value) -> Tree
    ensures { pure_tree result ≡ of_plain (pure_value value) }
{
    Tree {
        optionals: 0,
        shape: Shape::Plain(value),
        parts: Vec::new(alloc),
    }
}

/// A number as a value of the program.
fn number_value(x: Num) -> Value
    ensures { pure_value result ≡ number x }
{
    Value::Number(x)
}

/// A truth as a value of the program.
fn bool_value(x: bool) -> Value
    ensures { pure_value result ≡ bool x }
{
    Value::Bool(x)
}

/// Nil as a value of the program.
fn nil_value() -> Value
    ensures { pure_value result ≡ nil }
{
    Value::Nil
}

/// Nil.
pub fn nil_tree(alloc: Global) -> Tree
    ensures { pure_tree result ≡ trees.nil_tree }
{
    plain_tree(alloc, nil_value())
}

/// A value in one optional more. It has fewer than 2^64-1 before.
pub fn wrapped(tree: Tree) -> Tree
    requires { (pure_tree tree).optionals < 2 ^ 64 - 1 }
    ensures { pure_tree result ≡ trees.wrapped (pure_tree tree) }
{
    let Tree {
        optionals,
        shape,
        parts,
    } = tree;
    Tree {
        optionals: optionals + 1,
        shape,
        parts,
    }
}

/// The tree of a number.
pub fn number_tree(alloc: Global, x: Num) -> Tree
    ensures { pure_tree result ≡ numbers.number_tree x }
{
    plain_tree(alloc, number_value(x))
}

/// The tree of a truth.
pub fn bool_tree(alloc: Global, x: bool) -> Tree
    ensures { pure_tree result ≡ numbers.bool_tree x }
{
    plain_tree(alloc, bool_value(x))
}

/// How many optionals a tree is in.
pub(crate) fn optionals(tree: &Tree) -> u64
    ensures { result ≡ (pure_tree tree.now).optionals }
{
    tree.optionals
}

/// The shape of a tree.
pub(crate) fn shape(tree: &Tree) -> &Shape
    ensures { pure_shape result.now ≡ (pure_tree tree.now).shape }
{
    &tree.shape
}

/// The places in a tree.
pub fn parts(tree: &Tree) -> &[Place]
    ensures { pure_row result.now ≡ (pure_tree tree.now).parts }
{
    tree.parts.as_slice()
}

/// Whether a shape is that of an array.
fn is_array_shape(shape: &Shape) -> bool
    ensures { result ≡ bytes.is_array_shape (pure_shape shape.now) }
{
    matches!(shape, Shape::Array(_))
}

/// Whether a tree is an array, without optionals.
pub fn is_array(tree: &Tree) -> bool
    ensures { result ≡ bytes.is_array_in (pure_tree tree.now) }
{
    optionals(tree) == 0 && is_array_shape(shape(tree))
}

/// The value of a shape without parts.
fn plain_shape(shape: &Shape) -> Option<&Value>
    ensures { option_map (λ v. pure_value v.now) result ≡ plain_in_shape (pure_shape shape.now) }
{
    match shape {
        Shape::Plain(value) => Some(value),
        _ => None,
    }
}

/// The value that a tree without optionals has in place of parts.
pub fn plain_value(tree: &Tree) -> Option<&Value>
    ensures { option_map (λ v. pure_value v.now) result ≡ plain_in (pure_tree tree.now) }
{
    if optionals(tree) != 0 {
        return None;
    }
    plain_shape(shape(tree))
}

/// The number that a value is.
pub(crate) fn number_in_value(value: &Value) -> Option<Num>
    ensures { result ≡ numbers.number_in_value (pure_value value.now) }
{
    match value {
        Value::Number(x) => Some(*x),
        _ => None,
    }
}

/// The truth that a value is.
fn truth_in_value(value: &Value) -> Option<bool>
    ensures { result ≡ numbers.truth_in_value (pure_value value.now) }
{
    match value {
        Value::Bool(x) => Some(*x),
        _ => None,
    }
}

/// The number that a tree is.
pub fn number_in(tree: &Tree) -> Option<Num>
    ensures { result ≡ numbers.number_in (pure_tree tree.now) }
{
    match plain_value(tree) {
        Some(value) => number_in_value(value),
        None => None,
    }
}

/// The truth that a tree is.
pub fn truth_in(tree: &Tree) -> Option<bool>
    ensures { result ≡ numbers.truth_of (pure_tree tree.now) }
{
    match plain_value(tree) {
        Some(value) => truth_in_value(value),
        None => None,
    }
}
