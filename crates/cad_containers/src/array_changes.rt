// How arrays are changed: the node with a label.
ghost use Rattle.std.specs.Prelude.{◌≡◌, ◌+◌, suc, option_and_then, option_map, unsigned_abs};
ghost use Rattle.cad_containers.specs.Code.Changes.{ChangesArray, IsPlace, Voids, taken_as};
ghost use Rattle.cad_containers.specs.Code.Members.{array_change};
ghost use Rattle.cad_evaluation.specs.Arguments.{argument};
ghost use Rattle.cad_evaluation.specs.Builtins.{on_array_at};
ghost use Rattle.cad_evaluation.specs.Containers as spec;
ghost use Rattle.cad_evaluation.specs.Numbers.{integer_in as integer_of_tree};
ghost use Rattle.cad_num.specs.Numbers.{value_of};
ghost use Rattle.cad_receivers.specs.Views.{at_spot, settled_of};
ghost use Rattle.cad_rows.specs.Views.{pure_row, pure_tree};
ghost use Rattle.cad_state.specs.Views.{FindsAndCarriesOut};
ghost use Rattle.cad_syntax.specs.Types.{PureType, pure_type};
ghost use Rattle.cad_types.specs.declared.builtin.Builtin.TheVariants as m;
ghost use Rattle.cad_values.specs.Values.{pure_value, void};
ghost use Rattle.cad_world.specs.Rows as rows;
ghost use Rattle.cad_world.specs.State.{require};

use crate::aims::{ArrayAim, aim_at_array};
use crate::arrays::natural;
use crate::literals::elements;
use crate::parts::{argument_at, discard_type, has_room_for, has_room_for_one, take_argument};
use cad_casts::{check_row, check_type};
use cad_nodes::{add_in, cut_in, join_in, wedge_in};
use cad_operators::{integer_in, plain_tree};
use cad_outcomes::{RunError, Stop};
use cad_receivers::Settled;
use cad_rows::{Place, Tree, count_places, discard_row, discard_tree};
use cad_state::RunState;
use cad_syntax::{CadType, Num};
use cad_types::Builtin;
use cad_values::Value;
use std::alloc::Global;

/// Void as a value of the program.
fn void_value() -> Value
    ensures { pure_value result ≡ void }
{
    Value::Void
}

/// What a change gives.
fn void_tree(alloc: Global) -> Tree
    ensures { pure_tree result ≡ spec.void_tree }
{
    plain_tree(alloc, void_value())
}

/// Void, where a change was made.
fn voided(alloc: Global, done: Result<(), Stop>) -> Result<Tree, Stop>
    ensures { Voids done result }
{
    match done {
        Ok(()) => Ok(void_tree(alloc)),
        Err(stop) => Err(stop),
    }
}

/// What was taken out, ReferenceInvalid where nothing was there.
pub(crate) fn taken_out(taken: Result<Option<Tree>, Stop>) -> Result<Tree, Stop>
    ensures { result ≡ taken_as taken }
{
    match taken {
        Ok(Some(tree)) => Ok(tree),
        Ok(None) => Err(Stop::Failed(RunError::ReferenceInvalid)),
        Err(stop) => Err(stop),
    }
}

/// An element comes last. TooLarge where there is no room.
fn add_at(state: &mut RunState, label: u64, count: usize, tree: Tree) -> Result<Tree, Stop>
    ensures { (type : PureType) → ChangesArray label type count (λ parts. spec.room (suc (rows.count_places parts)) (spec.becomes label (rows.array type) (rows.add_last (pure_tree tree) parts))) state.old state.new result }
{
    if has_room_for_one(count) {
        let alloc = *state.making.allocator();
        let done = add_in(state, label, tree);
        return voided(alloc, done);
    }
    discard_tree(tree);
    Err(Stop::Failed(RunError::TooLarge))
}

/// `append`: an element of the array's own type comes last.
fn append(
    state: &mut RunState,
    label: u64,
    element: &CadType,
    count: usize,
    tree: Tree,
) -> Result<Tree, Stop>
    ensures { ChangesArray label (pure_type element.now) count (λ parts. spec.array_append label (pure_type element.now) parts (pure_tree tree)) state.old state.new result }
{
    match check_type(state, element, &tree) {
        Ok(()) => add_at(state, label, count, tree),
        Err(stop) => {
            discard_tree(tree);
            Err(stop)
        }
    }
}

/// Elements come behind those that are there. TooLarge where there is no room.
fn join_at(state: &mut RunState, label: u64, count: usize, row: Vec<Place>) -> Result<Tree, Stop>
    ensures { (type : PureType) → ChangesArray label type count (λ parts. spec.room (rows.count_places parts + rows.count_places (pure_row row.items)) (spec.becomes label (rows.array type) (rows.join parts (pure_row row.items)))) state.old state.new result }
{
    if has_room_for(count, count_places(row.as_slice())) {
        let alloc = *state.making.allocator();
        let done = join_in(state, label, row);
        return voided(alloc, done);
    }
    discard_row(row);
    Err(Stop::Failed(RunError::TooLarge))
}

/// Elements of the array's own type come behind those that are there.
fn join_typed(
    state: &mut RunState,
    label: u64,
    element: &CadType,
    count: usize,
    row: Vec<Place>,
) -> Result<Tree, Stop>
    ensures { ChangesArray label (pure_type element.now) count (λ parts. spec.all_of_type (pure_type element.now) (pure_row row.items) (spec.room (rows.count_places parts + rows.count_places (pure_row row.items)) (spec.becomes label (rows.array (pure_type element.now)) (rows.join parts (pure_row row.items))))) state.old state.new result }
{
    match check_row(state, element, row.as_slice()) {
        Ok(()) => join_at(state, label, count, row),
        Err(stop) => {
            discard_row(row);
            Err(stop)
        }
    }
}

/// `appendAll`: the elements of another array come behind those that are there.
fn append_all(
    state: &mut RunState,
    label: u64,
    element: &CadType,
    count: usize,
    other: Tree,
) -> Result<Tree, Stop>
    ensures { ChangesArray label (pure_type element.now) count (λ parts. spec.array_append_all label (pure_type element.now) parts (pure_tree other)) state.old state.new result }
{
    match elements(other) {
        Ok(row) => join_typed(state, label, element, count, row),
        Err(stop) => Err(stop),
    }
}

/// An element comes to a place, or to the end. TooLarge where there is no room.
fn wedge_at(
    state: &mut RunState,
    label: u64,
    count: usize,
    i: usize,
    tree: Tree,
) -> Result<Tree, Stop>
    ensures { (type : PureType) → ChangesArray label type count (λ parts. spec.room (suc (rows.count_places parts)) (spec.becomes label (rows.array type) (rows.wedge i (pure_tree tree) parts))) state.old state.new result }
{
    if has_room_for_one(count) {
        let alloc = *state.making.allocator();
        let done = wedge_in(state, label, i, tree);
        return voided(alloc, done);
    }
    discard_tree(tree);
    Err(Stop::Failed(RunError::TooLarge))
}

/// An element of the array's own type comes to a place, or to the end.
fn wedge_typed(
    state: &mut RunState,
    label: u64,
    element: &CadType,
    count: usize,
    i: usize,
    tree: Tree,
) -> Result<Tree, Stop>
    ensures { ChangesArray label (pure_type element.now) count (λ parts. spec.of_type (pure_type element.now) (pure_tree tree) (spec.room (suc (rows.count_places parts)) (spec.becomes label (rows.array (pure_type element.now)) (rows.wedge i (pure_tree tree) parts)))) state.old state.new result }
{
    match check_type(state, element, &tree) {
        Ok(()) => wedge_at(state, label, count, i, tree),
        Err(stop) => {
            discard_tree(tree);
            Err(stop)
        }
    }
}

/// A number as a place up to a length.
#[tactic(auto, using(crate::proofs::Changing::negative_is_none, crate::proofs::Changing::above_is_none))]
fn place_up_to(x: Num, count: usize) -> Option<usize>
    ensures { IsPlace (value_of x) count result }
{
    match natural(x) {
        Some(i) => {
            if i <= count as u128 {
                return Some(i as usize);
            }
            None
        }
        None => None,
    }
}

/// `insert`: an element of the array's own type comes to an index, or to the end. IndexOutOfBounds where there is no such place.
fn insert_at(
    state: &mut RunState,
    label: u64,
    element: &CadType,
    count: usize,
    x: Num,
    tree: Tree,
) -> Result<Tree, Stop>
    ensures { ChangesArray label (pure_type element.now) count (λ parts. require 104 (spec.is_index (value_of x) (suc (rows.count_places parts))) (spec.of_type (pure_type element.now) (pure_tree tree) (spec.room (suc (rows.count_places parts)) (spec.becomes label (rows.array (pure_type element.now)) (rows.wedge (unsigned_abs (value_of x)) (pure_tree tree) parts))))) state.old state.new result }
{
    match place_up_to(x, count) {
        Some(i) => wedge_typed(state, label, element, count, i, tree),
        None => {
            discard_tree(tree);
            Err(Stop::Failed(RunError::IndexOutOfBounds))
        }
    }
}

/// The first argument as a whole number.
fn index_argument(arguments: &[Place]) -> Option<Num>
    ensures { option_map value_of result ≡ option_and_then integer_of_tree (argument 0 (pure_row arguments.now)) }
{
    match argument_at(arguments, 0) {
        Some(tree) => integer_in(tree),
        None => None,
    }
}

/// An element goes from a place. IndexOutOfBounds where there is no such place, ReferenceInvalid where a swap has taken it out.
fn cut_at(state: &mut RunState, label: u64, count: usize, i: usize) -> Result<Tree, Stop>
    ensures { (type : PureType) → ChangesArray label type count (λ parts. spec.array_cut label type parts i (rows.slot i parts)) state.old state.new result }
{
    if count <= i {
        return Err(Stop::Failed(RunError::IndexOutOfBounds));
    }
    taken_out(cut_in(state, label, i))
}

/// `remove`: the element at an index goes.
fn remove_at(state: &mut RunState, label: u64, count: usize, x: Num) -> Result<Tree, Stop>
    ensures { (type : PureType) → ChangesArray label type count (λ parts. spec.array_remove_at label type parts (value_of x)) state.old state.new result }
{
    match place_up_to(x, count) {
        Some(i) => cut_at(state, label, count, i),
        None => Err(Stop::Failed(RunError::IndexOutOfBounds)),
    }
}

/// `removeLast`: the last element goes.
fn remove_last(state: &mut RunState, label: u64, count: usize) -> Result<Tree, Stop>
    ensures { (type : PureType) → ChangesArray label type count (λ parts. spec.array_remove_last label type parts) state.old state.new result }
{
    if count == 0 {
        return Err(Stop::Failed(RunError::IndexOutOfBounds));
    }
    cut_at(state, label, count, count - 1)
}

/// `insert`, over its arguments.
fn insert(
    state: &mut RunState,
    label: u64,
    element: &CadType,
    count: usize,
    arguments: Vec<Place>,
) -> Result<Tree, Stop>
    ensures { ChangesArray label (pure_type element.now) count (array_change m.ArrayInsert (pure_row arguments.items) label (pure_type element.now)) state.old state.new result }
{
    match index_argument(arguments.as_slice()) {
        Some(x) => match take_argument(arguments, 1) {
            Some(tree) => insert_at(state, label, element, count, x, tree),
            None => Err(Stop::IllTyped),
        },
        None => {
            discard_row(arguments);
            Err(Stop::IllTyped)
        }
    }
}

/// `remove`, over its arguments.
fn remove(
    state: &mut RunState,
    label: u64,
    count: usize,
    arguments: Vec<Place>,
) -> Result<Tree, Stop>
    ensures { (type : PureType) → ChangesArray label type count (array_change m.ArrayRemove (pure_row arguments.items) label type) state.old state.new result }
{
    let index = index_argument(arguments.as_slice());
    discard_row(arguments);
    match index {
        Some(x) => remove_at(state, label, count, x),
        None => Err(Stop::IllTyped),
    }
}

/// How an array is changed, over the arguments.
fn change(
    state: &mut RunState,
    member: Builtin,
    label: u64,
    element: &CadType,
    count: usize,
    arguments: Vec<Place>,
) -> Result<Tree, Stop>
    ensures { ChangesArray label (pure_type element.now) count (array_change member (pure_row arguments.items) label (pure_type element.now)) state.old state.new result }
{
    match member {
        Builtin::ArrayAppend => match take_argument(arguments, 0) {
            Some(tree) => append(state, label, element, count, tree),
            None => Err(Stop::IllTyped),
        },
        Builtin::ArrayAppendAll => match take_argument(arguments, 0) {
            Some(other) => append_all(state, label, element, count, other),
            None => Err(Stop::IllTyped),
        },
        Builtin::ArrayInsert => insert(state, label, element, count, arguments),
        Builtin::ArrayRemove => remove(state, label, count, arguments),
        Builtin::ArrayRemoveFirst => {
            discard_row(arguments);
            cut_at(state, label, count, 0)
        }
        Builtin::ArrayRemoveLast => {
            discard_row(arguments);
            remove_last(state, label, count)
        }
        _ => {
            discard_row(arguments);
            Err(Stop::IllTyped)
        }
    }
}

/// How the array at an aim is changed, over the arguments.
fn change_at(
    state: &mut RunState,
    member: Builtin,
    aim: ArrayAim,
    arguments: Vec<Place>,
) -> Result<Tree, Stop>
    ensures { ChangesArray aim.label (pure_type aim.element) aim.count (array_change member (pure_row arguments.items) aim.label (pure_type aim.element)) state.old state.new result }
{
    let ArrayAim {
        label,
        element,
        count,
    } = aim;
    let result = change(state, member, label, &element, count, arguments);
    discard_type(element);
    result
}

/// How the array is changed that a receiver is now, over the arguments.
pub(crate) fn change_array(
    state: &mut RunState,
    member: Builtin,
    receiver: Settled<'_>,
    arguments: Vec<Place>,
) -> Result<Tree, Stop>
    ensures { FindsAndCarriesOut pure_tree (at_spot (settled_of receiver.entry) (λ spot. on_array_at spot (array_change member (pure_row arguments.items)))) state.old state.new result }
{
    match aim_at_array(state, receiver) {
        Ok(aim) => change_at(state, member, aim, arguments),
        Err(stop) => {
            discard_row(arguments);
            Err(stop)
        }
    }
}
