// How dictionaries are changed: the node with a label.
ghost use Rattle.std.specs.Prelude.{◌≡◌, ℕ, IfSome, None, Some, option_map};
ghost use Rattle.cad_containers.specs.Code.Dictionaries.{GivesNil, HasKeys, IsDictionary, IsWrapped};
ghost use Rattle.cad_containers.specs.Code.Changes.{Changes};
ghost use Rattle.cad_containers.specs.Code.Members.{dictionary_change};
ghost use Rattle.cad_evaluation.specs.Arguments.{argument};
ghost use Rattle.cad_evaluation.specs.Builtins.{on_dictionary_at};
ghost use Rattle.cad_evaluation.specs.Containers as spec;
ghost use Rattle.cad_receivers.specs.Views.{at_spot, settled_of};
ghost use Rattle.cad_rows.specs.Views.{pure_row, pure_tree};
ghost use Rattle.cad_state.specs.Views.{FindsAndCarriesOut};
ghost use Rattle.cad_syntax.specs.Types.{PureType, pure_type};
ghost use Rattle.cad_types.specs.declared.builtin.Builtin.TheVariants as m;
ghost use Rattle.cad_values.specs.Values.{pure_value};
ghost use Rattle.cad_world.specs.Locations.{key_position, keys_in};
ghost use Rattle.cad_world.specs.Rows as rows;
ghost use Rattle.cad_world.specs.Trees.{value_of};

use crate::aims::{DictionaryAim, aim_at_dictionary, discard_dictionary_aim};
use crate::array_changes::taken_out;
use crate::parts::{argument_at, has_room_for_one, take_argument, take_second, wrapped};
use cad_casts::check_type;
use cad_nodes::{add_key, drop_key, exchange_in};
use cad_operators::nil_tree;
use cad_outcomes::{RunError, Stop};
use cad_receivers::Settled;
use cad_rows::{Place, Tree, discard_row, discard_tree};
use cad_state::{RunState, discard_value};
use cad_types::Builtin;
use cad_value_trees::value_from_tree;
use cad_values::Value;
use std::alloc::Global;

/// What was taken out, in an optional.
fn taken_value(taken: Result<Tree, Stop>) -> Result<Tree, Stop>
    ensures { IsWrapped taken result }
{
    match taken {
        Ok(tree) => match wrapped(tree) {
            Ok(optional) => Ok(optional),
            Err(_) => Err(Stop::Memory),
        },
        Err(stop) => Err(stop),
    }
}

/// Nil, where a change was made.
fn nil_for(alloc: Global, done: Result<(), Stop>) -> Result<Tree, Stop>
    ensures { GivesNil done result }
{
    match done {
        Ok(()) => Ok(nil_tree(alloc)),
        Err(stop) => Err(stop),
    }
}

/// A value comes to the place under a key that is there.
fn replace(state: &mut RunState, label: u64, i: usize, tree: Tree) -> Result<Tree, Stop>
    ensures { (kt vt : PureType) (k : rows.Tree) → Changes label (HasKeys kt vt) (λ f. spec.key_put label kt vt (keys_in f.tree.shape) f.tree.parts k (pure_tree tree) (Some i)) state.old state.new result }
{
    let taken = exchange_in(state, label, i, tree);
    taken_value(taken_out(taken))
}

/// A value comes under a key that isn't there. TooLarge where there is no room.
fn add(state: &mut RunState, label: u64, count: usize, key: Value, tree: Tree) -> Result<Tree, Stop>
    ensures { (kt vt : PureType) (k : rows.Tree) → value_of k ≡ pure_value key → Changes label (IsDictionary kt vt count (pure_value key) None) (λ f. spec.key_put label kt vt (keys_in f.tree.shape) f.tree.parts k (pure_tree tree) None) state.old state.new result }
{
    if has_room_for_one(count) {
        let alloc = *state.making.allocator();
        let done = add_key(state, label, key, tree);
        return nil_for(alloc, done);
    }
    discard_value(key);
    discard_tree(tree);
    Err(Stop::Failed(RunError::TooLarge))
}

/// A value comes under a key, which stands in this place or not at all.
fn put(
    state: &mut RunState,
    label: u64,
    count: usize,
    position: Option<usize>,
    key: Value,
    tree: Tree,
) -> Result<Tree, Stop>
    ensures { (kt vt : PureType) (k : rows.Tree) → value_of k ≡ pure_value key → Changes label (IsDictionary kt vt count (pure_value key) position) (λ f. spec.key_put label kt vt (keys_in f.tree.shape) f.tree.parts k (pure_tree tree) (key_position (value_of k) (keys_in f.tree.shape))) state.old state.new result }
{
    match position {
        Some(i) => {
            discard_value(key);
            replace(state, label, i, tree)
        }
        None => add(state, label, count, key, tree),
    }
}

/// A value of the dictionary's own type comes under a key.
fn insert_value(
    state: &mut RunState,
    aim: &DictionaryAim,
    key: Value,
    tree: Tree,
) -> Result<Tree, Stop>
    ensures { (k : rows.Tree) → value_of k ≡ pure_value key → Changes aim.now.label (IsDictionary (pure_type aim.now.key) (pure_type aim.now.value) aim.now.count (pure_value key) aim.now.position) (λ f. spec.of_type (pure_type aim.now.value) (pure_tree tree) (spec.key_put aim.now.label (pure_type aim.now.key) (pure_type aim.now.value) (keys_in f.tree.shape) f.tree.parts k (pure_tree tree) (key_position (value_of k) (keys_in f.tree.shape)))) state.old state.new result }
{
    match check_type(state, &aim.value, &tree) {
        Ok(()) => put(state, aim.label, aim.count, aim.position, key, tree),
        Err(stop) => {
            discard_value(key);
            discard_tree(tree);
            Err(stop)
        }
    }
}

/// `insert`: a value comes under a key, both of the dictionary's own types.
fn insert(
    state: &mut RunState,
    aim: &DictionaryAim,
    k: Tree,
    key: Value,
    tree: Tree,
) -> Result<Tree, Stop>
    ensures { value_of (pure_tree k) ≡ pure_value key → Changes aim.now.label (IsDictionary (pure_type aim.now.key) (pure_type aim.now.value) aim.now.count (pure_value key) aim.now.position) (λ f. spec.dictionary_insert aim.now.label (pure_type aim.now.key) (pure_type aim.now.value) (keys_in f.tree.shape) f.tree.parts (pure_tree k) (pure_tree tree)) state.old state.new result }
{
    let done = check_type(state, &aim.key, &k);
    discard_tree(k);
    match done {
        Ok(()) => insert_value(state, aim, key, tree),
        Err(stop) => {
            discard_value(key);
            discard_tree(tree);
            Err(stop)
        }
    }
}

/// `remove`: what stands under a key goes, and the key.
fn remove(state: &mut RunState, label: u64, position: Option<usize>) -> Result<Tree, Stop>
    ensures { (kt vt : PureType) (n : ℕ) (k : rows.Tree) → Changes label (IsDictionary kt vt n (value_of k) position) (λ f. spec.dictionary_remove label kt vt (keys_in f.tree.shape) f.tree.parts k) state.old state.new result }
{
    match position {
        Some(i) => {
            let taken = drop_key(state, label, i);
            taken_value(taken_out(taken))
        }
        None => {
            let alloc = *state.making.allocator();
            Ok(nil_tree(alloc))
        }
    }
}

/// The first argument as a key. None where it is lacking, and where memory fails.
fn key_argument(alloc: Global, arguments: &[Place]) -> Option<Value>
    ensures { IfSome result (λ key. option_map value_of (argument 0 (pure_row arguments.now)) ≡ Some (pure_value key)) }
{
    match argument_at(arguments, 0) {
        Some(tree) => match value_from_tree(alloc, tree) {
            Ok(key) => Some(key),
            Err(_) => None,
        },
        None => None,
    }
}

/// `insert`, over its arguments, of which the first is this key.
fn insert_arguments(
    state: &mut RunState,
    aim: &DictionaryAim,
    key: Value,
    arguments: Vec<Place>,
) -> Result<Tree, Stop>
    ensures { option_map value_of (argument 0 (pure_row arguments.items)) ≡ Some (pure_value key) → Changes aim.now.label (IsDictionary (pure_type aim.now.key) (pure_type aim.now.value) aim.now.count (pure_value key) aim.now.position) (λ f. dictionary_change m.DictionaryInsert (pure_row arguments.items) aim.now.label (pure_type aim.now.key) (pure_type aim.now.value) (keys_in f.tree.shape) f.tree.parts) state.old state.new result }
{
    let mut left = arguments;
    match take_second(&mut left) {
        Some(tree) => match take_argument(left, 0) {
            Some(k) => insert(state, aim, k, key, tree),
            None => {
                discard_value(key);
                discard_tree(tree);
                Err(Stop::Memory)
            }
        },
        None => {
            discard_value(key);
            discard_row(left);
            Err(Stop::Memory)
        }
    }
}

/// How a dictionary is changed, over the arguments, of which the first is this key.
fn change(
    state: &mut RunState,
    member: Builtin,
    aim: &DictionaryAim,
    key: Value,
    arguments: Vec<Place>,
) -> Result<Tree, Stop>
    ensures { option_map value_of (argument 0 (pure_row arguments.items)) ≡ Some (pure_value key) → Changes aim.now.label (IsDictionary (pure_type aim.now.key) (pure_type aim.now.value) aim.now.count (pure_value key) aim.now.position) (λ f. dictionary_change member (pure_row arguments.items) aim.now.label (pure_type aim.now.key) (pure_type aim.now.value) (keys_in f.tree.shape) f.tree.parts) state.old state.new result }
{
    match member {
        Builtin::DictionaryInsert => insert_arguments(state, aim, key, arguments),
        Builtin::DictionaryRemove => {
            discard_value(key);
            discard_row(arguments);
            remove(state, aim.label, aim.position)
        }
        _ => {
            discard_value(key);
            discard_row(arguments);
            Err(Stop::Memory)
        }
    }
}

/// How the dictionary is changed that a receiver is now, over the arguments, of which the first is this key.
fn change_under(
    state: &mut RunState,
    member: Builtin,
    receiver: Settled<'_>,
    key: Value,
    arguments: Vec<Place>,
) -> Result<Tree, Stop>
    ensures { option_map value_of (argument 0 (pure_row arguments.items)) ≡ Some (pure_value key) → FindsAndCarriesOut pure_tree (at_spot (settled_of receiver.entry) (λ spot. on_dictionary_at spot (dictionary_change member (pure_row arguments.items)))) state.old state.new result }
{
    match aim_at_dictionary(state, receiver, &key) {
        Ok(aim) => {
            let result = change(state, member, &aim, key, arguments);
            discard_dictionary_aim(aim);
            result
        }
        Err(stop) => {
            discard_value(key);
            discard_row(arguments);
            Err(stop)
        }
    }
}

/// How the dictionary is changed that a receiver is now, over the arguments.
pub(crate) fn change_dictionary(
    state: &mut RunState,
    member: Builtin,
    receiver: Settled<'_>,
    arguments: Vec<Place>,
) -> Result<Tree, Stop>
    ensures { FindsAndCarriesOut pure_tree (at_spot (settled_of receiver.entry) (λ spot. on_dictionary_at spot (dictionary_change member (pure_row arguments.items)))) state.old state.new result }
{
    let alloc = *state.making.allocator();
    match key_argument(alloc, arguments.as_slice()) {
        Some(key) => change_under(state, member, receiver, key, arguments),
        None => {
            discard_row(arguments);
            Err(Stop::Memory)
        }
    }
}
