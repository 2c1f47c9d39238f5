// What is done to a node: to its shape, to its parts, and what leaves it.
ghost use Rattle.std.specs.Prelude.{◌≡◌, IfOk, OnOk, option_map};
ghost use Rattle.cad_nodes.specs.Edits as spec;
ghost use Rattle.cad_nodes.specs.Keys as keys;
ghost use Rattle.cad_rows.specs.Places.{bare_in};
ghost use Rattle.cad_rows.specs.Views.{pure_row, pure_shape, pure_tree};
ghost use Rattle.cad_values.specs.Values.{pure_value};
ghost use Rattle.cad_world.specs.Rows as rows;

use cad_rows::{
    Place, Shape, Tree, add_last, clear, cut, discard_row, discard_tree, name_in, put, wedge,
};
use cad_state::discard_value;
use cad_values::Value;
use std::alloc::AllocError;

/// What is done to a node. It isn't let go but by `discard_edit`.
pub(crate) enum Edit {
    /// The node in a place gets a label.
    Name(usize, u64),
    /// A tree comes to a place; what stood there leaves.
    Put(usize, Tree),
    /// A place becomes empty.
    Clear(usize),
    /// A place goes, and later places move down.
    Cut(usize),
    /// There is a new place at an index; later places move up.
    Wedge(usize, Tree),
    /// There is a new place at the end.
    Add(Tree),
    /// The places of a row come behind.
    Join(Vec<Place>),
    /// There is one key more and a new place at the end.
    AddKey(Value, Tree),
    /// A key goes, and so does its place.
    DropKey(usize),
}

/// The shape and the parts of a node, taken out of it.
pub(crate) struct OpenNode {
    pub shape: Shape,
    pub parts: Vec<Place>,
}

/// Lets what was to be done to a node go.
pub(crate) fn discard_edit(edit: Edit) {
    match edit {
        Edit::Name(_, _) | Edit::Clear(_) | Edit::Cut(_) | Edit::DropKey(_) => {}
        Edit::Put(_, tree) | Edit::Wedge(_, tree) | Edit::Add(tree) => discard_tree(tree),
        Edit::Join(row) => discard_row(row),
        Edit::AddKey(key, tree) => {
            discard_value(key);
            discard_tree(tree)
        }
    }
}

/// A dictionary's shape gets one key more. Where memory fails, the key is let go.
#[tactic(auto, using(crate::proofs::KeyLaws::key_added))]
fn add_key(shape: &mut Shape, key: Value) -> Result<(), AllocError>
    ensures { OnOk result (pure_shape shape.new ≡ keys.with_key (pure_value key) (pure_shape shape.old)) }
{
    match shape {
        Shape::Dictionary { keys, .. } => match keys.push(key) {
            Ok(()) => Ok(()),
            Err(error) => Err(error),
        },
        _ => {
            discard_value(key);
            Ok(())
        }
    }
}

/// A dictionary's shape loses the key at an index.
#[tactic(auto, using(crate::proofs::KeyLaws::key_dropped, crate::proofs::KeyLaws::no_key))]
fn drop_key(shape: &mut Shape, i: usize)
    ensures { pure_shape shape.new ≡ keys.without_key i (pure_shape shape.old) }
{
    if let Shape::Dictionary { keys, .. } = shape {
        if i < keys.len() {
            discard_value(keys.remove(i));
        }
    }
}

/// A tree comes to a place; what stood there comes out without labels.
#[tactic(auto, using(crate::proofs::KeyLaws::put_cleared))]
fn exchange(row: &mut Vec<Place>, i: usize, tree: Tree) -> Result<Option<Tree>, AllocError>
    ensures row { OnOk result (pure_row row.new.items ≡ rows.put i (pure_tree tree) (pure_row row.old.items)) }
    ensures left { IfOk result (λ o. option_map pure_tree o ≡ bare_in (rows.slot i (pure_row row.old.items))) }
{
    let left = clear(row, i);
    match put(row, i, tree) {
        Ok(()) => Ok(left),
        Err(error) => {
            discard_left(left);
            Err(error)
        }
    }
}

/// Lets what left a node go.
pub(crate) fn discard_left(left: Option<Tree>) {
    match left {
        Some(tree) => discard_tree(tree),
        None => {}
    }
}

/// The places of a row come behind those of another. Where memory fails, they are let go.
#[tactic(auto, using(crate::proofs::KeyLaws::joined))]
fn join(row: &mut Vec<Place>, more: Vec<Place>) -> Result<(), AllocError>
    ensures { OnOk result (pure_row row.new.items ≡ rows.join (pure_row row.old.items) (pure_row more.items)) }
{
    let mut left = more;
    let done = row.append(&mut left);
    discard_row(left);
    done
}

/// One key more, and a new place at the end.
fn add_entry(node: &mut OpenNode, key: Value, tree: Tree) -> Result<(), AllocError>
    ensures shape { OnOk result (pure_shape node.new.shape ≡ keys.with_key (pure_value key) (pure_shape node.old.shape)) }
    ensures parts { OnOk result (pure_row node.new.parts.items ≡ rows.add_last (pure_tree tree) (pure_row node.old.parts.items)) }
{
    match add_key(&mut node.shape, key) {
        Ok(()) => add_last(&mut node.parts, tree),
        Err(error) => {
            discard_tree(tree);
            Err(error)
        }
    }
}

/// Does it to a node. Where memory fails, what comes to the node is let go.
pub(crate) fn edit_node(node: &mut OpenNode, edit: Edit) -> Result<Option<Tree>, AllocError>
    ensures shape { OnOk result (pure_shape node.new.shape ≡ spec.edited_shape edit (pure_shape node.old.shape)) }
    ensures parts { OnOk result (pure_row node.new.parts.items ≡ spec.edited_parts edit (pure_row node.old.parts.items)) }
    ensures left { IfOk result (λ o. option_map pure_tree o ≡ spec.left_by edit (pure_row node.old.parts.items)) }
{
    match edit {
        Edit::Name(i, label) => name_in(&mut node.parts, i, label)?,
        Edit::Put(i, tree) => return exchange(&mut node.parts, i, tree),
        Edit::Clear(i) => return Ok(clear(&mut node.parts, i)),
        Edit::Cut(i) => return Ok(cut(&mut node.parts, i)),
        Edit::Wedge(i, tree) => wedge(&mut node.parts, i, tree)?,
        Edit::Add(tree) => add_last(&mut node.parts, tree)?,
        Edit::Join(row) => join(&mut node.parts, row)?,
        Edit::AddKey(key, tree) => add_entry(node, key, tree)?,
        Edit::DropKey(i) => {
            drop_key(&mut node.shape, i);
            return Ok(cut(&mut node.parts, i));
        }
    }
    Ok(None)
}
