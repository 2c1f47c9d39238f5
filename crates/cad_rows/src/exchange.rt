// A node's shape and parts, exchanged for others.
ghost use Rattle.std.specs.Prelude.{◌≡◌, ◌∷◌, is_some};
ghost use Rattle.cad_rows.specs.Views.{pure_row, pure_tree, pure_place, pure_shape};
ghost use Rattle.cad_rows.specs.Ways as ways;
ghost use Rattle.cad_rows.specs.Exchanges as spec;

use crate::tree::{Place, Shape, Tree};
use std::mem::swap;

/// Exchanges the shape and the parts of a tree.
fn swap_tree(tree: &mut Tree, shape: &mut Shape, parts: &mut Vec<Place>)
    ensures tree { pure_tree tree.new ≡ spec.reshaped_tree (pure_shape shape.old) (pure_row parts.old.items) (pure_tree tree.old) }
    ensures shape { pure_shape shape.new ≡ (pure_tree tree.old).shape }
    ensures parts { pure_row parts.new.items ≡ (pure_tree tree.old).parts }
{
    swap(&mut tree.shape, shape);
    swap(&mut tree.parts, parts)
}

/// Exchanges the shape and the parts of the node in a place. false where the place is empty, and nothing changes.
fn swap_place(place: &mut Place, shape: &mut Shape, parts: &mut Vec<Place>) -> bool
    ensures there { result ≡ is_some (ways.node_of_place (pure_place place.old)) }
    ensures place { pure_place place.new ≡ spec.reshaped_place (pure_shape shape.old) (pure_row parts.old.items) (pure_place place.old) }
    ensures shape { pure_shape shape.new ≡ spec.shape_of (pure_shape shape.old) (ways.node_of_place (pure_place place.old)) }
    ensures parts { pure_row parts.new.items ≡ spec.parts_of (pure_row parts.old.items) (ways.node_of_place (pure_place place.old)) }
{
    match place {
        Place::Empty => false,
        Place::Full(_, tree) => {
            swap_tree(tree, shape, parts);
            true
        }
    }
}

/// Exchanges the shape and the parts of the node at an index of a row.
#[tactic(auto, using(crate::proofs::ExchangeLaws::reshaped_there, crate::proofs::ExchangeLaws::reshaped_nowhere, crate::proofs::WayLaws::node_there, crate::proofs::WayLaws::node_nowhere))]
fn swap_at(row: &mut Vec<Place>, i: usize, shape: &mut Shape, parts: &mut Vec<Place>) -> bool
    ensures there { result ≡ is_some (ways.node_in i (pure_row row.old.items)) }
    ensures row { pure_row row.new.items ≡ spec.reshaped i (pure_shape shape.old) (pure_row parts.old.items) (pure_row row.old.items) }
    ensures shape { pure_shape shape.new ≡ spec.shape_of (pure_shape shape.old) (ways.node_in i (pure_row row.old.items)) }
    ensures parts { pure_row parts.new.items ≡ spec.parts_of (pure_row parts.old.items) (ways.node_in i (pure_row row.old.items)) }
{
    if i < row.len() {
        return swap_place(&mut row[i], shape, parts);
    }
    false
}

/// Exchanges the shape and the parts of the node at a way inside a tree.
#[cycle(exchange)]
fn swap_in_tree(tree: &mut Tree, way: &[usize], shape: &mut Shape, parts: &mut Vec<Place>) -> bool
    ensures there { result ≡ is_some (ways.node_at way.now (pure_tree tree.old).parts) }
    ensures tree { pure_tree tree.new ≡ spec.within_tree (λ q. spec.exchanged way.now (pure_shape shape.old) (pure_row parts.old.items) q) (pure_tree tree.old) }
    ensures shape { pure_shape shape.new ≡ spec.shape_of (pure_shape shape.old) (ways.node_at way.now (pure_tree tree.old).parts) }
    ensures parts { pure_row parts.new.items ≡ spec.parts_of (pure_row parts.old.items) (ways.node_at way.now (pure_tree tree.old).parts) }
{
    swap_node(&mut tree.parts, way, shape, parts)
}

/// Exchanges the shape and the parts of the node at a way inside the node of a place.
#[cycle(exchange)]
fn swap_below(place: &mut Place, way: &[usize], shape: &mut Shape, parts: &mut Vec<Place>) -> bool
    ensures there { result ≡ is_some (spec.below_place (λ q. ways.node_at way.now q) (pure_place place.old)) }
    ensures place { pure_place place.new ≡ spec.within_place (λ q. spec.exchanged way.now (pure_shape shape.old) (pure_row parts.old.items) q) (pure_place place.old) }
    ensures shape { pure_shape shape.new ≡ spec.shape_of (pure_shape shape.old) (spec.below_place (λ q. ways.node_at way.now q) (pure_place place.old)) }
    ensures parts { pure_row parts.new.items ≡ spec.parts_of (pure_row parts.old.items) (spec.below_place (λ q. ways.node_at way.now q) (pure_place place.old)) }
{
    match place {
        Place::Empty => false,
        Place::Full(_, tree) => swap_in_tree(tree, way, shape, parts),
    }
}

/// Exchanges the shape and the parts of the node at an index, or further down.
#[tactic(auto, using(crate::proofs::FarLaws::near_node, crate::proofs::FarLaws::near_exchanged, crate::proofs::FarLaws::far_there, crate::proofs::FarLaws::far_nowhere, crate::proofs::FarLaws::far_exchanged, crate::proofs::FarLaws::far_same))]
#[cycle(exchange)]
fn swap_from(
    row: &mut Vec<Place>,
    i: usize,
    rest: &[usize],
    shape: &mut Shape,
    parts: &mut Vec<Place>,
) -> bool
    ensures there { result ≡ is_some (ways.node_at (i ∷ rest.now) (pure_row row.old.items)) }
    ensures row { pure_row row.new.items ≡ spec.exchanged (i ∷ rest.now) (pure_shape shape.old) (pure_row parts.old.items) (pure_row row.old.items) }
    ensures shape { pure_shape shape.new ≡ spec.shape_of (pure_shape shape.old) (ways.node_at (i ∷ rest.now) (pure_row row.old.items)) }
    ensures parts { pure_row parts.new.items ≡ spec.parts_of (pure_row parts.old.items) (ways.node_at (i ∷ rest.now) (pure_row row.old.items)) }
{
    if rest.len() == 0 {
        return swap_at(row, i, shape, parts);
    }
    if i < row.len() {
        return swap_below(&mut row[i], rest, shape, parts);
    }
    false
}

/// Exchanges the shape and the parts of the node at a way for those given. false where no node stands there, and nothing
/// changes.
#[cycle(exchange)]
pub fn swap_node(
    row: &mut Vec<Place>,
    way: &[usize],
    shape: &mut Shape,
    parts: &mut Vec<Place>,
) -> bool
    ensures there { result ≡ is_some (ways.node_at way.now (pure_row row.old.items)) }
    ensures row { pure_row row.new.items ≡ spec.exchanged way.now (pure_shape shape.old) (pure_row parts.old.items) (pure_row row.old.items) }
    ensures shape { pure_shape shape.new ≡ spec.shape_of (pure_shape shape.old) (ways.node_at way.now (pure_row row.old.items)) }
    ensures parts { pure_row parts.new.items ≡ spec.parts_of (pure_row parts.old.items) (ways.node_at way.now (pure_row row.old.items)) }
{
    match way {
        [] => false,
        [i, rest @ ..] => swap_from(row, *i, rest, shape, parts),
    }
}
