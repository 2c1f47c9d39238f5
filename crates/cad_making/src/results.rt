// The result of a call, while its postconditions run.
ghost use Rattle.std.specs.Prelude.{◌≡◌, true, false, List, OnOk, option_map};
ghost use Rattle.cad_evaluation.specs.Bodies as spec;
ghost use Rattle.cad_outcomes.specs.Outcomes.{no_value};
ghost use Rattle.cad_rows.specs.Places.{bare_in};
ghost use Rattle.cad_rows.specs.Views.{pure_row, pure_shape, pure_tree};
ghost use Rattle.cad_state.specs.Views.{CarriesOut, state_over};
ghost use Rattle.cad_syntax.specs.Types.{pure_type};
ghost use Rattle.cad_world.specs.Labels.{newest, with_frame};
ghost use Rattle.cad_world.specs.Rows as rows;
ghost use Rattle.cad_world.specs.State.{Account};
ghost use Rattle.cad_making.specs.Code.Results.{is_nil_node, is_nil_tree, linked_in, link_in, named_result, result_of, seen_at, seen_in};

use crate::linear::is_linear;
use crate::rows::{copy_at, keep_front};
use cad_operators::nil_tree;
use cad_outcomes::Stop;
use cad_rows::{Place, Shape, Slot, Tree, add_last, clear, discard_tree, name_in, tree_at};
use cad_state::RunState;
use cad_syntax::{Authorization, CadType};
use cad_values::Value;
use std::alloc::{AllocError, Global};

/// What a reference to a value sees: nil, or a node in as many optionals.
#[derive(Clone, Copy, Debug, PartialEq, Eq)]
pub enum Seen {
    Nil,
    Content(u64),
}

/// A value is all that stands in a row.
fn set_alone(row: &mut Vec<Place>, tree: Tree) -> Result<(), AllocError>
    ensures { OnOk result (pure_row row.new.items ≡ rows.alone (pure_tree tree)) }
{
    keep_front(row, 0);
    add_last(row, tree)
}

/// The first value leaves a row, which is empty then.
fn take_alone(row: &mut Vec<Place>) -> Option<Tree>
    ensures row { pure_row row.new.items ≡ rows.stop }
    ensures tree { option_map pure_tree result ≡ bare_in (rows.slot 0 (pure_row row.old.items)) }
{
    let tree = clear(row, 0);
    keep_front(row, 0);
    tree
}

/// The result of the newest call is kept.
pub fn put_result(state: &mut RunState, tree: Tree) -> Result<(), Stop>
    ensures { CarriesOut no_value (spec.result_aside (pure_tree tree)) state.old state.new result }
{
    let n = state.calls.len();
    if n == 0 {
        discard_tree(tree);
        return Ok(());
    }
    match set_alone(&mut state.calls[n - 1].result, tree) {
        Ok(()) => Ok(()),
        Err(_) => Err(Stop::Memory),
    }
}

/// The result comes back; IllTyped where none is kept.
pub fn take_result(state: &mut RunState) -> Result<Tree, Stop>
    ensures { CarriesOut pure_tree spec.result_taken state.old state.new result }
{
    let n = state.calls.len();
    if n == 0 {
        return Err(Stop::IllTyped);
    }
    match take_alone(&mut state.calls[n - 1].result) {
        Some(tree) => Ok(tree),
        None => Err(Stop::IllTyped),
    }
}

/// Whether a value is nil.
fn is_nil(tree: &Tree) -> bool
    ensures { result ≡ is_nil_tree (pure_tree tree.now) }
{
    tree.optionals == 0 && is_nil_shape(&tree.shape)
}

/// Whether a shape is that of nil.
fn is_nil_shape(shape: &Shape) -> bool
    ensures { result ≡ is_nil_node (pure_shape shape.now) }
{
    match shape {
        Shape::Plain(value) => matches!(value, Value::Nil),
        _ => false,
    }
}

/// What a reference to a value sees.
fn seen_of(tree: &Tree) -> Seen
    ensures { result ≡ seen_in (pure_tree tree.now) }
{
    if is_nil(tree) {
        Seen::Nil
    } else {
        Seen::Content(tree.optionals)
    }
}

/// What a reference to the first value of a row sees; none where no value stands there.
fn first_seen(row: &[Place]) -> Option<Seen>
    ensures { result ≡ seen_at (rows.slot 0 (pure_row row.now)) }
{
    match tree_at(row, 0) {
        Slot::Full(tree) => Some(seen_of(tree)),
        _ => None,
    }
}

/// A reference without authorization that sees a whole node, in as many optionals.
fn link(alloc: Global, label: u64, optionals: u64) -> Tree
    ensures { pure_tree result ≡ link_in label optionals }
{
    Tree {
        optionals,
        shape: Shape::Link {
            authorization: Authorization::Unauthorized,
            label,
            sees: 0,
        },
        parts: Vec::new(alloc),
    }
}

/// The result is named by a label.
fn name_result(state: &mut RunState, label: u64) -> Result<(), AllocError>
    ensures { OnOk result ((accounts : List Account) → state_over accounts state.new ≡ with_frame (named_result label) (state_over accounts state.old)) }
{
    let n = state.calls.len();
    if n == 0 {
        return Ok(());
    }
    name_in(&mut state.calls[n - 1].result, 0, label)
}

/// A reference to the result, in its optionals.
fn link_result(state: &mut RunState, optionals: u64) -> Result<Tree, Stop>
    ensures { CarriesOut pure_tree (linked_in optionals) state.old state.new result }
{
    let label = state.next_label;
    if label == u64::MAX {
        return Err(Stop::Memory);
    }
    match name_result(state, label) {
        Ok(()) => {
            state.next_label = label + 1;
            Ok(link(*state.making.allocator(), label, optionals))
        }
        Err(_) => Err(Stop::Memory),
    }
}

/// What a reference to the result sees.
fn result_seen(state: &RunState) -> Option<Seen>
    ensures { (accounts : List Account) → result ≡ seen_at (rows.slot 0 (spec.result_row (newest (state_over accounts state.now)))) }
{
    match state.calls.last() {
        Some(call) => first_seen(call.result.as_slice()),
        None => None,
    }
}

/// A reference to a resource that is the result; nil of nil.
fn refer_result(state: &mut RunState) -> Result<Tree, Stop>
    ensures { CarriesOut pure_tree (result_of true) state.old state.new result }
{
    match result_seen(state) {
        Some(Seen::Content(optionals)) => link_result(state, optionals),
        Some(Seen::Nil) => Ok(nil_tree(*state.making.allocator())),
        None => Err(Stop::IllTyped),
    }
}

/// A copy of the result.
fn copy_result(state: &RunState) -> Result<Tree, Stop>
    ensures { CarriesOut pure_tree (result_of false) state.now state.now result }
{
    match cad_access::newest(state) {
        Some(call) => copy_at(call.result.as_slice(), 0),
        None => Err(Stop::IllTyped),
    }
}

/// What `result` is: a copy, or of a resource a reference to it; IllTyped where none is kept.
pub fn result_value(state: &mut RunState, declared: &CadType) -> Result<Tree, Stop>
    ensures { CarriesOut pure_tree (spec.result_value (pure_type declared.now)) state.old state.new result }
{
    if is_linear(state, declared) {
        refer_result(state)
    } else {
        copy_result(state)
    }
}
