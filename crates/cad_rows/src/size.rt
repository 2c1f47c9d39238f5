// How much a tree weighs, and how high it is. Each walks as deep as the tree is high.
ghost use Rattle.std.specs.Prelude.{◌≡◌, ◌^◌, ◌-◌, map, min, [], ◌∷◌};
ghost use Rattle.cad_values.specs.Values.{pure_value};
ghost use Rattle.cad_world.specs.Trees as spec;
ghost use Rattle.cad_rows.specs.Views.{as_row, pure_row, pure_tree, pure_place, pure_shape};

use crate::tree::{Place, Shape, Tree};
use cad_values::{Value, height, weight};

fn keys_weight(keys: &[Value]) -> u64
    ensures { result ≡ min (spec.keys_weight (map pure_value keys.now)) (2 ^ 64 - 1) }
{
    let mut total = 0u64;
    for key in keys {
        total = total.saturating_add(weight(key));
    }
    total
}

fn keys_height(keys: &[Value]) -> u64
    ensures { result ≡ min (spec.keys_height (map pure_value keys.now)) (2 ^ 64 - 1) }
{
    let mut highest = 0u64;
    for key in keys {
        highest = highest.max(height(key));
    }
    highest
}

/// What a shape weighs without its parts.
fn shape_weight(shape: &Shape) -> u64
    ensures { result ≡ min (spec.shape_weight (pure_shape shape.now)) (2 ^ 64 - 1) }
{
    match shape {
        Shape::Plain(value) => weight(value),
        Shape::Dictionary { keys, .. } => keys_weight(keys.as_slice()).saturating_add(1),
        _ => 1,
    }
}

/// How high a shape is over parts of a height.
fn shape_height(shape: &Shape, parts: u64) -> u64
    ensures { result ≡ min (spec.shape_height (pure_shape shape.now) parts) (2 ^ 64 - 1) }
{
    match shape {
        Shape::Plain(value) => height(value),
        Shape::Link { .. } => 1,
        Shape::Array(_) => parts.saturating_add(1),
        Shape::Dictionary { keys, .. } => keys_height(keys.as_slice()).max(parts).saturating_add(1),
        Shape::Composite { .. } => parts.saturating_add(1),
    }
}

/// What a tree weighs; 2^64-1 where it is more.
#[cycle(weights)]
pub fn tree_weight(tree: &Tree) -> u64
    ensures { result ≡ min (spec.tree_weight (pure_tree tree.now)) (2 ^ 64 - 1) }
{
    shape_weight(&tree.shape).saturating_add(row_weight(tree.parts.as_slice()))
}

#[tactic(auto, using(crate::proofs::Parts::weight_alone))]
#[cycle(weights)]
fn place_weight(place: &Place) -> u64
    ensures { result ≡ min (spec.row_weight (as_row (pure_place place.now ∷ []))) (2 ^ 64 - 1) }
{
    match place {
        Place::Empty => 0,
        Place::Full(_, tree) => tree_weight(tree),
    }
}

/// What all nodes of a row weigh; 2^64-1 where it is more.
#[tactic(auto, using(crate::proofs::Parts::weight_before))]
#[cycle(weights)]
pub fn row_weight(row: &[Place]) -> u64
    ensures { result ≡ min (spec.row_weight (pure_row row.now)) (2 ^ 64 - 1) }
{
    let mut total = 0u64;
    for place in row {
        total = total.saturating_add(place_weight(place));
    }
    total
}

/// How high a tree is, each optional a level; 2^64-1 where it is more.
#[cycle(heights)]
pub fn tree_height(tree: &Tree) -> u64
    ensures { result ≡ min (spec.tree_height (pure_tree tree.now)) (2 ^ 64 - 1) }
{
    let parts = row_height(tree.parts.as_slice());
    shape_height(&tree.shape, parts).saturating_add(tree.optionals)
}

#[tactic(auto, using(crate::proofs::Parts::height_alone))]
#[cycle(heights)]
fn place_height(place: &Place) -> u64
    ensures { result ≡ min (spec.row_height (as_row (pure_place place.now ∷ []))) (2 ^ 64 - 1) }
{
    match place {
        Place::Empty => 0,
        Place::Full(_, tree) => tree_height(tree),
    }
}

/// How high the highest node of a row is; 2^64-1 where it is more.
#[tactic(auto, using(crate::proofs::Parts::height_before))]
#[cycle(heights)]
pub fn row_height(row: &[Place]) -> u64
    ensures { result ≡ min (spec.row_height (pure_row row.now)) (2 ^ 64 - 1) }
{
    let mut highest = 0u64;
    for place in row {
        highest = highest.max(place_height(place));
    }
    highest
}
