// The places of a row: what stands in one, and what is put there, taken out and named.
ghost use Rattle.std.specs.Prelude.{◌≡◌, ◌<◌, ◌≤◌, [], ◌∷◌, length, OnOk, option_map, vec_len};
ghost use Rattle.cad_world.specs.Rows as spec;
ghost use Rattle.cad_rows.specs.Views.{pure_row, pure_tree, pure_place, taken, vacant, before};
ghost use Rattle.cad_rows.specs.Places.{pure_slot, slot_in, bare_in, bare_out, with_label, is_taken};

use crate::bare::strip;
use crate::discard::{discard_labels, discard_place, discard_tree};
use crate::tree::{Place, Tree};
use cad_syntax::Numbers;
use std::alloc::AllocError;
use std::mem::replace;

/// What stands at an index of a row: there is no such place, it is empty, or a node stands in it.
#[derive(Clone, Copy)]
pub enum Slot<'a> {
    Out,
    Free,
    Full(&'a Tree),
}

/// What stands at an index.
#[tactic(auto, using(crate::proofs::Places::slot_there, crate::proofs::Places::slot_nowhere))]
pub fn tree_at(row: &[Place], i: usize) -> Slot<'_>
    ensures { pure_slot result ≡ spec.slot i (pure_row row.now) }
{
    match row.get(i) {
        None => Slot::Out,
        Some(place) => slot_of(place),
    }
}

/// What stands in a place that is there.
fn slot_of(place: &Place) -> Slot<'_>
    ensures { pure_slot result ≡ slot_in (pure_place place.now) }
{
    match place {
        Place::Empty => Slot::Free,
        Place::Full(_, tree) => Slot::Full(tree),
    }
}

/// How many places there are.
#[tactic(auto, using(crate::proofs::Places::counted))]
pub fn count_places(row: &[Place]) -> usize
    ensures { result ≡ spec.count_places (pure_row row.now) }
{
    row.len()
}

fn is_taken_place(place: &Place) -> bool
    ensures { result ≡ is_taken (pure_place place.now) }
{
    match place {
        Place::Empty => false,
        Place::Full(..) => true,
    }
}

/// Whether no place is empty.
#[tactic(auto, using(crate::proofs::Places::full_turn, crate::proofs::Places::full_stop))]
pub fn is_full(row: &[Place]) -> bool
    ensures { result ≡ spec.is_full (pure_row row.now) }
{
    for place in row {
        if !is_taken_place(place) {
            return false;
        }
    }
    true
}

/// An empty place.
fn empty() -> Place
    ensures { pure_place result ≡ vacant }
{
    Place::Empty
}

/// A place with a node that has no label.
fn unnamed(row: &Vec<Place>, tree: Tree) -> Place
    ensures { pure_place result ≡ taken [] (pure_tree tree) }
{
    Place::Full(Numbers::new(*row.allocator()), tree)
}

/// A new place at the end. Where memory fails, the node is let go.
#[tactic(auto, using(crate::proofs::Places::added))]
pub fn add_last(row: &mut Vec<Place>, tree: Tree) -> Result<(), AllocError>
    ensures { OnOk result (pure_row row.new.items ≡ spec.add_last (pure_tree tree) (pure_row row.old.items)) }
{
    let place = unnamed(row, tree);
    match row.push(place) {
        Ok(()) => Ok(()),
        Err(refused) => {
            discard_place(refused.value);
            Err(AllocError)
        }
    }
}

/// One more place at the end. Where memory fails, what stands in it is let go.
#[tactic(auto, using(crate::proofs::CopyLaws::pushed))]
pub(crate) fn push_place(row: &mut Vec<Place>, place: Place) -> Result<(), AllocError>
    ensures { OnOk result (pure_row row.new.items ≡ spec.join (pure_row row.old.items) (before (pure_place place) spec.stop)) }
{
    match row.push(place) {
        Ok(()) => Ok(()),
        Err(refused) => {
            discard_place(refused.value);
            Err(AllocError)
        }
    }
}

/// Adds empty places until there are as many as wanted.
#[tactic(auto, using(crate::proofs::Places::put_filled))]
fn fill_to(row: &mut Vec<Place>, wanted: usize) -> Result<(), AllocError>
    requires { vec_len row.old ≤ wanted }
    ensures len { OnOk result (vec_len row.new ≡ wanted) }
    ensures same { (t : spec.Tree) → spec.put wanted t (pure_row row.new.items) ≡ spec.put wanted t (pure_row row.old.items) }
{
    while row.len() < wanted {
        match row.push(empty()) {
            Ok(()) => {}
            Err(refused) => {
                discard_place(refused.value);
                return Err(AllocError);
            }
        }
    }
    Ok(())
}

/// A node comes to a place that is there; what stood in it is let go.
#[tactic(auto, using(crate::proofs::Places::put_there))]
fn set(row: &mut Vec<Place>, i: usize, tree: Tree)
    requires { i < vec_len row.old }
    ensures { pure_row row.new.items ≡ spec.put i (pure_tree tree) (pure_row row.old.items) }
{
    let place = unnamed(row, tree);
    let old = replace(&mut row[i], place);
    discard_place(old)
}

/// A node comes to a place; places before it that aren't there are empty, and what stood in it is let go. Where memory fails,
/// the node is let go.
#[tactic(auto, using(crate::proofs::Places::put_end))]
pub fn put(row: &mut Vec<Place>, i: usize, tree: Tree) -> Result<(), AllocError>
    ensures { OnOk result (pure_row row.new.items ≡ spec.put i (pure_tree tree) (pure_row row.old.items)) }
{
    if i < row.len() {
        set(row, i, tree);
        return Ok(());
    }
    match fill_to(row, i) {
        Ok(()) => add_last(row, tree),
        Err(error) => {
            discard_tree(tree);
            Err(error)
        }
    }
}

/// The node of a place that is taken apart, without labels at any depth.
fn tree_of_place(place: Place) -> Option<Tree>
    ensures { option_map pure_tree result ≡ bare_out (pure_place place) }
{
    match place {
        Place::Empty => None,
        Place::Full(labels, tree) => {
            discard_labels(labels);
            let mut bare = tree;
            strip(&mut bare);
            Some(bare)
        }
    }
}

/// The place becomes empty. Its node comes out without labels at any depth.
#[tactic(auto, using(crate::proofs::Places::cleared, crate::proofs::Places::clear_nowhere, crate::proofs::Places::slot_there, crate::proofs::Places::slot_nowhere, crate::proofs::Places::out_of))]
pub fn clear(row: &mut Vec<Place>, i: usize) -> Option<Tree>
    ensures row { pure_row row.new.items ≡ spec.clear i (pure_row row.old.items) }
    ensures tree { option_map pure_tree result ≡ bare_in (spec.slot i (pure_row row.old.items)) }
{
    if i < row.len() {
        let old = replace(&mut row[i], empty());
        tree_of_place(old)
    } else {
        None
    }
}

/// The place goes, and later places move down. Its node comes out without labels at any depth.
#[tactic(auto, using(crate::proofs::Places::was_cut, crate::proofs::Places::cut_nowhere, crate::proofs::Places::slot_there, crate::proofs::Places::slot_nowhere, crate::proofs::Places::out_of))]
pub fn cut(row: &mut Vec<Place>, i: usize) -> Option<Tree>
    ensures row { pure_row row.new.items ≡ spec.cut i (pure_row row.old.items) }
    ensures tree { option_map pure_tree result ≡ bare_in (spec.slot i (pure_row row.old.items)) }
{
    if i < row.len() {
        let old = row.remove(i);
        tree_of_place(old)
    } else {
        None
    }
}

/// A new place at an index, or at the end where that comes before; later places move up. Where memory fails, the node is let go.
#[tactic(auto, using(crate::proofs::Places::wedged, crate::proofs::Places::wedge_end))]
pub fn wedge(row: &mut Vec<Place>, i: usize, tree: Tree) -> Result<(), AllocError>
    ensures { OnOk result (pure_row row.new.items ≡ spec.wedge i (pure_tree tree) (pure_row row.old.items)) }
{
    if row.len() <= i {
        return add_last(row, tree);
    }
    let place = unnamed(row, tree);
    match row.insert(i, place) {
        Ok(()) => Ok(()),
        Err(refused) => {
            discard_place(refused.value);
            Err(AllocError)
        }
    }
}

/// The node of a place has one label more.
fn name_place(place: &mut Place, label: u64) -> Result<(), AllocError>
    ensures { OnOk result (pure_place place.new ≡ with_label label (pure_place place.old)) }
{
    match place {
        Place::Empty => Ok(()),
        Place::Full(labels, _) => labels.push(label),
    }
}

/// The node in a place has one label more.
#[tactic(auto, using(crate::proofs::Places::named_there, crate::proofs::Places::named_nowhere))]
pub fn name_in(row: &mut Vec<Place>, i: usize, label: u64) -> Result<(), AllocError>
    ensures { OnOk result (pure_row row.new.items ≡ spec.named i label (pure_row row.old.items)) }
{
    if i < row.len() {
        return name_place(&mut row[i], label);
    }
    Ok(())
}
