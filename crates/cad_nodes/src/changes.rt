// What is done to the node with a label. Each fails with 113 where there is none, but for `name_in` and `put_in`.
ghost use Rattle.std.specs.Prelude.{◌≡◌, option_map};
ghost use Rattle.cad_nodes.specs.Edits.{changing, without_value};
ghost use Rattle.cad_nodes.specs.Keys.{with_key, without_key};
ghost use Rattle.cad_outcomes.specs.Outcomes.{no_value};
ghost use Rattle.cad_rows.specs.Places.{bare_in};
ghost use Rattle.cad_rows.specs.Views.{pure_row, pure_tree};
ghost use Rattle.cad_state.specs.Views.{FindsAndCarriesOut};
ghost use Rattle.cad_values.specs.Values.{pure_value};
ghost use Rattle.cad_world.specs.Labels.{at, with_node};
ghost use Rattle.cad_world.specs.Locations as l;
ghost use Rattle.cad_world.specs.Rows as rows;
ghost use Rattle.cad_world.specs.State.{done, ok};

use crate::edit::{Edit, discard_edit, discard_left};
use crate::exchange::change_hinted;
use cad_outcomes::{RunError, Stop};
use cad_rows::{Place, Tree};
use cad_state::RunState;
use cad_values::Value;

/// Whether there is a node with a label; behind it the label's hint leads there. 113 where there is none.
pub fn find(state: &mut RunState, label: u64) -> Result<(), Stop>
    ensures { FindsAndCarriesOut no_value (l.with_found label (λ f. done)) state.old state.new result }
{
    match state.locate(label) {
        Ok(true) => Ok(()),
        Ok(false) => Err(Stop::Failed(RunError::ReferenceInvalid)),
        Err(_) => Err(Stop::Memory),
    }
}

/// Changes the node with a label; 113 where there is none.
fn change(state: &mut RunState, label: u64, edit: Edit) -> Result<Option<Tree>, Stop>
    ensures { FindsAndCarriesOut (λ o. option_map pure_tree o) (changing label edit) state.old state.new result }
{
    match find(state, label) {
        Ok(()) => match change_hinted(state, label, edit) {
            Ok(left) => Ok(left),
            Err(_) => Err(Stop::Memory),
        },
        Err(stop) => {
            discard_edit(edit);
            Err(stop)
        }
    }
}

/// Lets what left a node go.
fn drop_value(outcome: Result<Option<Tree>, Stop>) -> Result<(), Stop>
    ensures { result ≡ without_value outcome }
{
    match outcome {
        Ok(left) => {
            discard_left(left);
            Ok(())
        }
        Err(stop) => Err(stop),
    }
}

/// The node in a place of the node gets a new label. Memory fails where the node is gone, or where no label is left.
pub fn name_in(state: &mut RunState, label: u64, i: usize) -> Result<u64, Stop>
    ensures { FindsAndCarriesOut (λ n. n) (l.name (l.part label i)) state.old state.new result }
{
    let next = state.next_label;
    if next == u64::MAX {
        return Err(Stop::Memory);
    }
    match change(state, label, Edit::Name(i, next)) {
        Ok(left) => {
            discard_left(left);
            state.next_label = next + 1;
            Ok(next)
        }
        Err(_) => Err(Stop::Memory),
    }
}

/// A tree comes to a place of the node; what stood there is let go. Memory fails where the node is gone.
pub fn put_in(state: &mut RunState, label: u64, i: usize, tree: Tree) -> Result<(), Stop>
    ensures { FindsAndCarriesOut no_value (λ s. ok tt (l.in_node (λ j. rows.put j (pure_tree tree)) label i (at label s) s)) state.old state.new result }
{
    match change(state, label, Edit::Put(i, tree)) {
        Ok(left) => {
            discard_left(left);
            Ok(())
        }
        Err(_) => Err(Stop::Memory),
    }
}

/// A tree comes to a place of the node. What stood there comes out without labels.
pub fn exchange_in(
    state: &mut RunState,
    label: u64,
    i: usize,
    tree: Tree,
) -> Result<Option<Tree>, Stop>
    ensures { FindsAndCarriesOut (λ o. option_map pure_tree o) (l.with_found label (λ f s. ok (bare_in (rows.slot i f.tree.parts)) (with_node label f.tree.shape (rows.put i (pure_tree tree) f.tree.parts) s))) state.old state.new result }
{
    change(state, label, Edit::Put(i, tree))
}

/// A place of the node becomes empty. Its tree comes out without labels.
pub fn clear_in(state: &mut RunState, label: u64, i: usize) -> Result<Option<Tree>, Stop>
    ensures { FindsAndCarriesOut (λ o. option_map pure_tree o) (l.with_found label (λ f s. ok (bare_in (rows.slot i f.tree.parts)) (l.in_node rows.clear label i (at label s) s))) state.old state.new result }
{
    change(state, label, Edit::Clear(i))
}

/// A place of the node goes, and later places move down. Its tree comes out without labels.
pub fn cut_in(state: &mut RunState, label: u64, i: usize) -> Result<Option<Tree>, Stop>
    ensures { FindsAndCarriesOut (λ o. option_map pure_tree o) (l.with_found label (λ f s. ok (bare_in (rows.slot i f.tree.parts)) (with_node label f.tree.shape (rows.cut i f.tree.parts) s))) state.old state.new result }
{
    change(state, label, Edit::Cut(i))
}

/// The node gets a new place at an index, or at its end where that comes before; later places move up.
pub fn wedge_in(state: &mut RunState, label: u64, i: usize, tree: Tree) -> Result<(), Stop>
    ensures { FindsAndCarriesOut no_value (l.with_found label (λ f s. ok tt (with_node label f.tree.shape (rows.wedge i (pure_tree tree) f.tree.parts) s))) state.old state.new result }
{
    drop_value(change(state, label, Edit::Wedge(i, tree)))
}

/// The node gets a new place at its end.
pub fn add_in(state: &mut RunState, label: u64, tree: Tree) -> Result<(), Stop>
    ensures { FindsAndCarriesOut no_value (l.with_found label (λ f s. ok tt (with_node label f.tree.shape (rows.add_last (pure_tree tree) f.tree.parts) s))) state.old state.new result }
{
    drop_value(change(state, label, Edit::Add(tree)))
}

/// The places of a row come behind those of the node.
pub fn join_in(state: &mut RunState, label: u64, row: Vec<Place>) -> Result<(), Stop>
    ensures { FindsAndCarriesOut no_value (l.with_found label (λ f s. ok tt (with_node label f.tree.shape (rows.join f.tree.parts (pure_row row.items)) s))) state.old state.new result }
{
    drop_value(change(state, label, Edit::Join(row)))
}

/// The node, a dictionary, gets one key more and a new place at its end.
pub fn add_key(state: &mut RunState, label: u64, key: Value, tree: Tree) -> Result<(), Stop>
    ensures { FindsAndCarriesOut no_value (l.with_found label (λ f s. ok tt (with_node label (with_key (pure_value key) f.tree.shape) (rows.add_last (pure_tree tree) f.tree.parts) s))) state.old state.new result }
{
    drop_value(change(state, label, Edit::AddKey(key, tree)))
}

/// A key of the node, a dictionary, goes, and so does its place. The tree that stood there comes out without labels.
pub fn drop_key(state: &mut RunState, label: u64, i: usize) -> Result<Option<Tree>, Stop>
    ensures { FindsAndCarriesOut (λ o. option_map pure_tree o) (l.with_found label (λ f s. ok (bare_in (rows.slot i f.tree.parts)) (with_node label (without_key i f.tree.shape) (rows.cut i f.tree.parts) s))) state.old state.new result }
{
    change(state, label, Edit::DropKey(i))
}
