// Which trees are those of values. The walk goes as deep as the tree is high.
ghost use Rattle.std.specs.Prelude.{◌≡◌, ◌↔◌, IsTrue, IfSome};
ghost use Rattle.cad_rows.specs.Views.{pure_place, pure_row, pure_shape, pure_tree};
ghost use Rattle.cad_values.specs.Values.{pure_value};
ghost use Rattle.cad_world.specs.Fits.{IsOfValue};
ghost use Rattle.cad_world.specs.Trees.{value_of};
ghost use Rattle.cad_world_checks.specs.OfValues as spec;

use cad_rows::{Place, Shape, Tree};
use cad_values::Value;

/// Whether a value has no parts, as optionals and containers do.
fn is_plain(value: &Value) -> bool
    ensures { result ≡ spec.is_plain (pure_value value.now) }
{
    match value {
        Value::Some(_) | Value::Array { .. } | Value::Dictionary { .. } | Value::Composite { .. } =>
            false,
        _ => true,
    }
}

/// Whether a value can have a shape over so many parts.
fn has_parts(shape: &Shape, count: usize) -> bool
    ensures { result ≡ spec.has_parts (pure_shape shape.now) count }
{
    match shape {
        Shape::Plain(value) => is_plain(value) && count == 0,
        Shape::Link { .. } => false,
        Shape::Array(_) => true,
        Shape::Dictionary { keys, .. } => keys.len() == count,
        Shape::Composite { fields, .. } => fields.len() == count,
    }
}

/// Whether a tree is that of a value.
#[cycle(of_values)]
fn tree_is_of_value(tree: &Tree) -> bool
    ensures { result ≡ spec.is_of_value (pure_tree tree.now) }
{
    let parts = tree.parts.as_slice();
    if !has_parts(&tree.shape, parts.len()) {
        return false;
    }
    row_is_of_values(parts)
}

/// Whether in each place there is the tree of a value, without labels.
#[cycle(of_values)]
fn row_is_of_values(row: &[Place]) -> bool
    ensures { result ≡ spec.are_of_values (pure_row row.now) }
{
    for place in row {
        if !place_is_of_value(place) {
            return false;
        }
    }
    true
}

/// Whether in a place there is the tree of a value, without labels.
#[cycle(of_values)]
fn place_is_of_value(place: &Place) -> bool
    ensures { result ≡ spec.place_is_of_value (pure_place place.now) }
{
    match place {
        Place::Empty => false,
        Place::Full(labels, tree) => {
            if !labels.is_empty() {
                return false;
            }
            tree_is_of_value(tree)
        }
    }
}

/// Whether a tree is that of its value: no part of it has a label, names a node, or is an empty place.
pub(crate) fn is_of_value(tree: &Tree) -> bool
    ensures { IsTrue result ↔ IsOfValue (pure_tree tree.now) }
{
    tree_is_of_value(tree)
}

/// The value of a tree that has no optionals and no parts.
pub(crate) fn plain_value(tree: &Tree) -> Option<&Value>
    ensures { IfSome result (λ x. pure_value x.now ≡ value_of (pure_tree tree.now)) }
{
    if tree.optionals > 0 {
        return None;
    }
    match &tree.shape {
        Shape::Plain(value) => Some(value),
        _ => None,
    }
}
