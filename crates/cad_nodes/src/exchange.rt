// The node at a way is taken out of the state, changed, and brought back.
ghost use Rattle.std.specs.Prelude.{◌≡◌, List, IfOk, IfSome, IsTrue, option_map};
ghost use Rattle.cad_nodes.specs.Edits.{changing};
ghost use Rattle.cad_nodes.specs.Exchanges.{IsExchanged, ChangesAt};
ghost use Rattle.cad_rows.specs.Views.{pure_tree};
ghost use Rattle.cad_state.specs.Views.{state_over, IsReady};
ghost use Rattle.cad_state.specs.Ways as ways;
ghost use Rattle.cad_state.specs.declared.hints.Root.TheVariants as root;
ghost use Rattle.cad_world.specs.State.{Account, ok};

use crate::edit::{Edit, OpenNode, discard_edit, discard_left, edit_node};
use cad_rows::laws::a_node_with_the_label_is_the_node;
use cad_rows::{Shape, Tree, discard_row, discard_shape, holds_label, swap_node};
use cad_state::{Accounts, Root, RunState, Way, known_place};
use cad_values::Value;
use std::alloc::{AllocError, Global};
use std::mem::replace;

// ---- where a way leads

/// Whether a way leads to a node with a label.
fn leads(state: &RunState, way: &Way, label: u64) -> bool
    ensures { result ≡ ways.is_there (ways.if_labelled label (ways.reached way.now.down.items (ways.row_at way.now.root state.now))) }
{
    match state.reach(way) {
        Some(node) => holds_label(node.labels, label),
        None => false,
    }
}

/// A way that leads to no node. It takes no memory.
fn no_way(alloc: Global) -> Way {
    Way {
        root: Root::Making,
        down: Vec::new(alloc),
    }
}

/// The way to the node with a label, taken out of its hint; None where the hint doesn't lead there.
fn take_way(state: &mut RunState, label: u64) -> Option<Way>
    ensures same { (accounts : List Account) → state_over accounts state.new ≡ state_over accounts state.old }
    ensures leads { IfSome result (λ way. IsTrue (ways.is_there (ways.if_labelled label (ways.reached way.down.items (ways.row_at way.root state.new))))) }
{
    let alloc = *state.making.allocator();
    let i = (label % 4096) as usize;
    if i < state.hints.ways.len() {
        if leads(state, &state.hints.ways[i], label) {
            return Some(replace(&mut state.hints.ways[i], no_way(alloc)));
        }
    }
    None
}

/// A way becomes the hint of a label again.
fn give_way(state: &mut RunState, label: u64, way: Way)
    ensures { (accounts : List Account) → state_over accounts state.new ≡ state_over accounts state.old }
{
    match state.hints.keep(label, way) {
        Ok(()) => {}
        Err(_) => {}
    }
}

// ---- an exchange

/// Exchanges the shape and the parts of the node at a way in the variables of a call. Nothing changes where no node is there.
fn swap_in_variables(state: &mut RunState, i: usize, down: &[usize], node: &mut OpenNode)
    ensures { IsExchanged (root.Variables i) down.now state.old state.new node.old node.new }
{
    if i < state.calls.len() {
        swap_node(
            &mut state.calls[i].variables,
            down,
            &mut node.shape,
            &mut node.parts,
        );
    }
}

/// The same in the values of `before` of a call.
fn swap_in_before(state: &mut RunState, i: usize, down: &[usize], node: &mut OpenNode)
    ensures { IsExchanged (root.Before i) down.now state.old state.new node.old node.new }
{
    if i < state.calls.len() {
        swap_node(
            &mut state.calls[i].before,
            down,
            &mut node.shape,
            &mut node.parts,
        );
    }
}

/// The same in the result of a call.
fn swap_in_result(state: &mut RunState, i: usize, down: &[usize], node: &mut OpenNode)
    ensures { IsExchanged (root.Result i) down.now state.old state.new node.old node.new }
{
    if i < state.calls.len() {
        swap_node(
            &mut state.calls[i].result,
            down,
            &mut node.shape,
            &mut node.parts,
        );
    }
}

/// The same in what an account stores; nothing changes where the run doesn't have it.
fn swap_in_stored(state: &mut RunState, i: usize, down: &[usize], node: &mut OpenNode)
    ensures { IsExchanged (root.Stored i) down.now state.old state.new node.old node.new }
{
    match &mut state.accounts {
        Accounts::All(all) => {
            if i < all.len() {
                swap_node(&mut all[i].stored, down, &mut node.shape, &mut node.parts);
            }
        }
        Accounts::Part { count, known } => {
            let index = i as u64;
            if index < *count {
                match known_place(known.as_slice(), index) {
                    Some(n) => {
                        let account = &mut known[n].account;
                        swap_node(&mut account.stored, down, &mut node.shape, &mut node.parts);
                    }
                    None => {}
                }
            }
        }
    }
}

/// The same in the value of a contract.
fn swap_in_value(state: &mut RunState, i: usize, down: &[usize], node: &mut OpenNode)
    ensures { IsExchanged (root.Contract i) down.now state.old state.new node.old node.new }
{
    if i < state.contracts.len() {
        swap_node(
            &mut state.contracts[i].value,
            down,
            &mut node.shape,
            &mut node.parts,
        );
    }
}

/// The same in what initializers make.
fn swap_in_making(state: &mut RunState, down: &[usize], node: &mut OpenNode)
    ensures { IsExchanged root.Making down.now state.old state.new node.old node.new }
{
    swap_node(&mut state.making, down, &mut node.shape, &mut node.parts);
}

/// The same in any row.
fn swap_at(state: &mut RunState, way: &Way, node: &mut OpenNode)
    ensures { IsExchanged way.now.root way.now.down.items state.old state.new node.old node.new }
{
    let down = way.down.as_slice();
    match way.root {
        Root::Variables(i) => swap_in_variables(state, i, down, node),
        Root::Before(i) => swap_in_before(state, i, down, node),
        Root::Result(i) => swap_in_result(state, i, down, node),
        Root::Making => swap_in_making(state, down, node),
        Root::Stored(i) => swap_in_stored(state, i, down, node),
        Root::Contract(i) => swap_in_value(state, i, down, node),
    }
}

/// A node without parts. It takes no memory.
fn no_node(alloc: Global) -> OpenNode {
    OpenNode {
        shape: Shape::Plain(Value::Nil),
        parts: Vec::new(alloc),
    }
}

/// Changes the node at a way: it is taken out, changed, and brought back. Where memory fails, what comes to it is let go.
fn change_at(state: &mut RunState, way: &Way, edit: Edit) -> Result<Option<Tree>, AllocError>
    ensures { IfOk result (λ o. ChangesAt way.now.root way.now.down.items edit (option_map pure_tree o) state.old state.new) }
{
    let mut node = no_node(*state.making.allocator());
    swap_at(state, way, &mut node);
    let left = edit_node(&mut node, edit);
    swap_at(state, way, &mut node);
    let OpenNode { shape, parts } = node;
    discard_shape(shape);
    discard_row(parts);
    left
}

/// Changes the node with a label, to which its hint leads; memory fails where it doesn't.
pub(crate) fn change_hinted(
    state: &mut RunState,
    label: u64,
    edit: Edit,
) -> Result<Option<Tree>, AllocError>
    ensures { IfOk result (λ o. (accounts : List Account) → IsReady accounts state.old → changing label edit (state_over accounts state.old) ≡ ok (option_map pure_tree o) (state_over accounts state.new)) }
{
    a_node_with_the_label_is_the_node();
    match take_way(state, label) {
        Some(way) => {
            let left = change_at(state, &way, edit);
            give_way(state, label, way);
            left
        }
        None => {
            discard_edit(edit);
            Err(AllocError)
        }
    }
}
