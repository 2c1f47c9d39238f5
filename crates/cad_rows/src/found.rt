// Nodes that are found by a label, and the ways to them.
ghost use Rattle.std.specs.Prelude.{◌≡◌, ◌∷◌, [], true, IsTrue, IfOk, OnOk, option_map, Some};
ghost use Rattle.cad_world.specs.Rows as spec;
ghost use Rattle.cad_rows.specs.Views.{pure_row, pure_place};
ghost use Rattle.cad_rows.specs.Ways as ways;

use crate::tree::{Place, Tree};
use cad_syntax::Numbers;
use std::alloc::{AllocError, Global};

/// A node with its labels.
#[derive(Clone, Copy)]
pub struct Node<'a> {
    pub labels: &'a Numbers,
    pub tree: &'a Tree,
}

/// Whether the last of these labels is the one.
#[tactic(auto, using(crate::proofs::WayLaws::is_at))]
fn is_last(labels: &[u64], label: u64) -> bool
    ensures { IsTrue result → spec.is_one_of label labels.now ≡ true }
{
    let count = labels.len();
    if count == 0 {
        return false;
    }
    label == labels[count - 1]
}

/// Whether the label is one of these.
fn is_one_of(labels: &[u64], label: u64) -> bool
    ensures { result ≡ spec.is_one_of label labels.now }
{
    for other in labels {
        if *other == label {
            return true;
        }
    }
    false
}

/// Whether a node with these labels has this one. The newest label is looked at first.
pub fn holds_label(labels: &Numbers, label: u64) -> bool
    ensures { result ≡ spec.is_one_of label labels.now }
{
    if is_last(labels.as_slice(), label) {
        return true;
    }
    is_one_of(labels.as_slice(), label)
}

/// The node that stands in a place.
fn node_of_place(place: &Place) -> Option<Node<'_>>
    ensures { option_map ways.pure_node result ≡ ways.node_of_place (pure_place place.now) }
{
    match place {
        Place::Empty => None,
        Place::Full(labels, tree) => Some(Node { labels, tree }),
    }
}

/// The node at an index.
#[tactic(auto, using(crate::proofs::WayLaws::node_there, crate::proofs::WayLaws::node_nowhere))]
pub fn node_in(row: &[Place], i: usize) -> Option<Node<'_>>
    ensures { option_map ways.pure_node result ≡ ways.node_in i (pure_row row.now) }
{
    match row.get(i) {
        None => None,
        Some(place) => node_of_place(place),
    }
}

/// The way with one index more at its end.
fn further(i: usize, inner: Option<Vec<usize>>) -> Result<Option<Vec<usize>>, AllocError>
    ensures { IfOk result (λ o. option_map (λ w. w.items) o ≡ ways.further i (option_map (λ w. w.items) inner)) }
{
    match inner {
        None => Ok(None),
        Some(way) => {
            let mut longer = way;
            longer.push(i)?;
            Ok(Some(longer))
        }
    }
}

/// A way of one index.
fn way_of_one(alloc: Global, i: usize) -> Result<Option<Vec<usize>>, AllocError>
    ensures { IfOk result (λ o. option_map (λ w. w.items) o ≡ Some (i ∷ [])) }
{
    let mut way = Vec::new(alloc);
    way.push(i)?;
    Ok(Some(way))
}

#[cycle(search)]
fn way_in(
    place: &Place,
    alloc: Global,
    i: usize,
    label: u64,
) -> Result<Option<Vec<usize>>, AllocError>
    ensures { IfOk result (λ o. option_map (λ w. w.items) o ≡ ways.way_in label i (pure_place place.now)) }
{
    match place {
        Place::Empty => Ok(None),
        Place::Full(labels, tree) => {
            if holds_label(labels, label) {
                return way_of_one(alloc, i);
            }
            let inner = way_up(tree.parts.as_slice(), alloc, label)?;
            further(i, inner)
        }
    }
}

/// The way to the first node with a label, from its end on.
#[tactic(auto, using(crate::proofs::WayLaws::way_turn, crate::proofs::WayLaws::way_stop, crate::proofs::WayLaws::way_end))]
#[cycle(search)]
fn way_up(row: &[Place], alloc: Global, label: u64) -> Result<Option<Vec<usize>>, AllocError>
    ensures { IfOk result (λ o. option_map (λ w. w.items) o ≡ ways.way_from label 0 (pure_row row.now)) }
{
    for i in 0..row.len() {
        match way_in(&row[i], alloc, i, label)? {
            Some(way) => return Ok(Some(way)),
            None => {}
        }
    }
    Ok(None)
}

/// The way to the first node with a label; None exactly where no node has it.
#[tactic(auto, using(crate::proofs::WayLaws::way_there, crate::proofs::WayLaws::way_nowhere))]
pub fn way_to(alloc: Global, row: &[Place], label: u64) -> Result<Option<Vec<usize>>, AllocError>
    ensures { IfOk result (λ o. option_map (λ w. ways.node_at w.items (pure_row row.now)) o ≡ option_map Some (spec.found label (pure_row row.now))) }
{
    match way_up(row, alloc, label)? {
        None => Ok(None),
        Some(way) => {
            let mut down = way;
            down.reverse();
            Ok(Some(down))
        }
    }
}

/// The node at a way: an index in the row, then an index in the row of the node there, and so on.
#[cycle(down)]
pub fn node_at<'a>(row: &'a [Place], way: &[usize]) -> Option<Node<'a>>
    ensures { option_map ways.pure_node result ≡ ways.node_at way.now (pure_row row.now) }
{
    match way {
        [] => None,
        [i, rest @ ..] => node_from(row, *i, rest),
    }
}

/// The node at an index, or further down.
#[tactic(auto, using(crate::proofs::FarLaws::near_node, crate::proofs::FarLaws::far_below, crate::proofs::FarLaws::far_none))]
#[cycle(down)]
fn node_from<'a>(row: &'a [Place], i: usize, rest: &[usize]) -> Option<Node<'a>>
    ensures { option_map ways.pure_node result ≡ ways.node_at (i ∷ rest.now) (pure_row row.now) }
{
    let here = node_in(row, i);
    if rest.len() == 0 {
        return here;
    }
    match here {
        Some(node) => node_at(node.tree.parts.as_slice(), rest),
        None => None,
    }
}
