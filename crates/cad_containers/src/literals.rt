// Literals of arrays and dictionaries, and the elements of an array.
ghost use Rattle.std.specs.Prelude.{◌≡◌, ◌++◌, ◌∷◌, List, [], Some, length, map, IfOk};
ghost use Rattle.cad_containers.specs.Literals.{pure_pair};
ghost use Rattle.cad_containers.specs.Code.Tables.{Adds, pure_table, with_all, with_pair};
ghost use Rattle.cad_evaluation.specs.Containers.{elements_in, room};
ghost use Rattle.cad_evaluation.specs.Uses as spec;
ghost use Rattle.cad_outcomes.specs.Outcomes.{Gives};
ghost use Rattle.cad_rows.specs.Views.{pure_row, pure_tree};
ghost use Rattle.cad_state.specs.Views.{CarriesOut, state_over};
ghost use Rattle.cad_syntax.specs.Types.{pure_type};
ghost use Rattle.cad_types.specs.Declarations.{resource};
ghost use Rattle.cad_values.specs.Values.{pure_value};
ghost use Rattle.cad_world.specs.Declared.{declarations};
ghost use Rattle.cad_world.specs.Rows as rows;
ghost use Rattle.cad_world.specs.State.{Account, give, with_some};
ghost use Rattle.cad_world.specs.Trees.{value_of, whole};

use crate::parts::{array_tree, discard_type, has_room, is_array_shape};
use cad_access::kinds_of_run;
use cad_outcomes::{RunError, Stop};
use cad_rows::{
    Keys, Place, Shape, Tree, add_last, count_places, discard_keys, discard_row, discard_shape,
    discard_tree, put,
};
use cad_state::{RunState, discard_value};
use cad_syntax::CadType;
use cad_types::is_resource;
use cad_value_trees::value_from_tree;
use cad_values::Value;
use std::alloc::{AllocError, Global};

/// A key of a literal, and the value under it. It isn't let go but by `discard_pairs`.
pub struct Pair {
    pub key: Tree,
    pub value: Tree,
}

/// Keys and the values under them.
pub(crate) struct Table {
    pub keys: Keys,
    pub values: Vec<Place>,
}

/// Lets a pair go.
fn discard_pair(pair: Pair) {
    let Pair { key, value } = pair;
    discard_tree(key);
    discard_tree(value)
}

/// Lets pairs go.
pub fn discard_pairs(pairs: Vec<Pair>) {
    let mut left = pairs;
    while let Some(pair) = left.pop() {
        discard_pair(pair);
    }
    left.destroy_empty()
}

/// Lets keys and values go.
fn discard_table(table: Table) {
    let Table { keys, values } = table;
    discard_keys(keys);
    discard_row(values)
}

/// An array literal. TooLarge where it has over 65,536 elements.
pub fn array(element: CadType, row: Vec<Place>) -> Result<Tree, Stop>
    ensures { Gives pure_tree (spec.array_of (pure_type element) (pure_row row.items)) result }
{
    if has_room(count_places(row.as_slice())) {
        return Ok(array_tree(element, row));
    }
    discard_type(element);
    discard_row(row);
    Err(Stop::Failed(RunError::TooLarge))
}

/// The elements of an array. IllTyped of all else.
pub fn elements(tree: Tree) -> Result<Vec<Place>, Stop>
    ensures { Gives (λ row. pure_row row.items) (with_some (elements_in (pure_tree tree)) give) result }
{
    let Tree {
        optionals,
        shape,
        parts,
    } = tree;
    let is_array = optionals == 0 && is_array_shape(&shape);
    discard_shape(shape);
    if is_array {
        return Ok(parts);
    }
    discard_row(parts);
    Err(Stop::IllTyped)
}

/// Whether values of a type are resources where the program runs.
fn is_linear(alloc: Global, state: &RunState, t: &CadType) -> Result<bool, AllocError>
    ensures { IfOk result (λ is. (accounts : List Account) → is ≡ resource (declarations (state_over accounts state.now)) (pure_type t.now)) }
{
    match kinds_of_run(alloc, state.contracts.as_slice())? {
        Some(kinds) => Ok(is_resource(&kinds, t)),
        None => Err(AllocError),
    }
}

/// Where memory failed.
fn or_memory(table: Result<Table, AllocError>) -> Result<Table, Stop>
    ensures { (x : spec.Table) → IfOk table (λ t. pure_table t ≡ x) → Gives pure_table (give x) result }
{
    match table {
        Ok(table) => Ok(table),
        Err(_) => Err(Stop::Memory),
    }
}

/// A key that isn't there comes last, and so does its value.
fn add_pair(table: Table, key: Value, value: Tree) -> Result<Table, AllocError>
    ensures { IfOk result (λ more. pure_table more ≡ (record { keys = map pure_value table.keys ++ pure_value key ∷ []; values = rows.add_last (pure_tree value) (pure_row table.values.items) })) }
{
    let Table { keys, values } = table;
    match push_key(keys, key) {
        Ok(keys) => push_last(keys, values, value),
        Err(error) => {
            discard_row(values);
            discard_tree(value);
            Err(error)
        }
    }
}

/// A key more. Where memory fails, all are let go.
fn push_key(keys: Keys, key: Value) -> Result<Keys, AllocError>
    ensures { IfOk result (λ more. map pure_value more ≡ map pure_value keys ++ pure_value key ∷ []) }
{
    let mut all = keys;
    match all.push(key) {
        Ok(()) => Ok(all),
        Err(error) => {
            discard_keys(all);
            Err(error)
        }
    }
}

/// A value more, under these keys. Where memory fails, all are let go.
fn push_last(keys: Keys, values: Vec<Place>, value: Tree) -> Result<Table, AllocError>
    ensures { IfOk result (λ more. pure_table more ≡ (record { keys = map pure_value keys; values = rows.add_last (pure_tree value) (pure_row values.items) })) }
{
    let mut all = values;
    match add_last(&mut all, value) {
        Ok(()) => Ok(Table { keys, values: all }),
        Err(error) => {
            discard_keys(keys);
            discard_row(all);
            Err(error)
        }
    }
}

/// A value comes to a place, under these keys. Where memory fails, all are let go.
fn put_value(keys: Keys, values: Vec<Place>, i: usize, value: Tree) -> Result<Table, AllocError>
    ensures { IfOk result (λ more. pure_table more ≡ (record { keys = map pure_value keys; values = rows.put i (pure_tree value) (pure_row values.items) })) }
{
    let mut all = values;
    match put(&mut all, i, value) {
        Ok(()) => Ok(Table { keys, values: all }),
        Err(error) => {
            discard_keys(keys);
            discard_row(all);
            Err(error)
        }
    }
}

/// A value comes to the place of a key that is there: ForceAssignOccupied of resources.
fn replace_value(
    alloc: Global,
    state: &RunState,
    t: &CadType,
    table: Table,
    i: usize,
    value: Tree,
) -> Result<Table, Stop>
    ensures { (k : rows.Tree) → CarriesOut pure_table (λ s. spec.with_key (resource (declarations s) (pure_type t.now)) (pure_table table) (record { key = k; value = pure_tree value }) (Some i) s) state.now state.now result }
{
    match is_linear(alloc, state, t) {
        Ok(false) => {
            let Table { keys, values } = table;
            or_memory(put_value(keys, values, i, value))
        }
        Ok(true) => {
            discard_table(table);
            discard_tree(value);
            Err(Stop::Failed(RunError::ForceAssignOccupied))
        }
        Err(_) => {
            discard_table(table);
            discard_tree(value);
            Err(Stop::Memory)
        }
    }
}

/// A value comes under a key.
fn with_value(
    alloc: Global,
    state: &RunState,
    t: &CadType,
    table: Table,
    key: Value,
    value: Tree,
) -> Result<Table, Stop>
    ensures { (k : rows.Tree) → value_of k ≡ pure_value key → CarriesOut pure_table (with_pair (pure_type t.now) (pure_table table) (record { key = k; value = pure_tree value })) state.now state.now result }
{
    match table.keys.position(alloc, &key) {
        Ok(None) => or_memory(add_pair(table, key, value)),
        Ok(Some(i)) => {
            discard_value(key);
            replace_value(alloc, state, t, table, i, value)
        }
        Err(_) => {
            discard_table(table);
            discard_value(key);
            discard_tree(value);
            Err(Stop::Memory)
        }
    }
}

/// What a tree is as a key.
pub(crate) fn key_of(alloc: Global, tree: Tree) -> Result<Value, AllocError>
    ensures { IfOk result (λ key. pure_value key ≡ value_of (pure_tree tree)) }
{
    let key = value_from_tree(alloc, &tree);
    discard_tree(tree);
    key
}

/// A pair comes to a table.
fn with_key(
    alloc: Global,
    state: &RunState,
    t: &CadType,
    table: Table,
    pair: Pair,
) -> Result<Table, Stop>
    ensures { CarriesOut pure_table (with_pair (pure_type t.now) (pure_table table) (pure_pair pair)) state.now state.now result }
{
    let Pair { key, value } = pair;
    match key_of(alloc, key) {
        Ok(key) => with_value(alloc, state, t, table, key, value),
        Err(_) => {
            discard_table(table);
            discard_tree(value);
            Err(Stop::Memory)
        }
    }
}

/// A pair comes to what the pairs before it came to.
fn add_next(
    alloc: Global,
    state: &RunState,
    t: &CadType,
    done: Result<Table, Stop>,
    pair: Pair,
) -> Result<Table, Stop>
    ensures { (accounts : List Account) → Adds (pure_type t.now) (state_over accounts state.now) done (pure_pair pair) result }
{
    match done {
        Ok(table) => with_key(alloc, state, t, table, pair),
        Err(stop) => {
            discard_pair(pair);
            Err(stop)
        }
    }
}

/// Pairs come to an empty table.
fn with_pairs(alloc: Global, state: &RunState, t: &CadType, pairs: Vec<Pair>) -> Result<Table, Stop>
    ensures { CarriesOut pure_table (with_all (pure_type t.now) (record { keys = []; values = rows.stop }) (map pure_pair pairs.items)) state.now state.now result }
{
    let mut done = Ok(Table {
        keys: Keys::new(alloc),
        values: Vec::new(alloc),
    });
    let mut left = pairs.into_iter();
    while let Some(pair) = left.next() {
        done = add_next(alloc, state, t, done, pair);
    }
    left.destroy_empty();
    done
}

/// A dictionary of a table. TooLarge where there are over 65,536 keys.
fn dictionary_tree(key: CadType, value: CadType, table: Table) -> Result<Tree, Stop>
    ensures { Gives pure_tree (room (length (pure_table table).keys) (give (whole (rows.dictionary (pure_type key) (pure_type value) (pure_table table).keys) (pure_table table).values))) result }
{
    let Table { keys, values } = table;
    if has_room(keys.len()) {
        return Ok(Tree {
            optionals: 0,
            shape: Shape::Dictionary { key, value, keys },
            parts: values,
        });
    }
    discard_type(key);
    discard_type(value);
    discard_keys(keys);
    discard_row(values);
    Err(Stop::Failed(RunError::TooLarge))
}

/// A dictionary literal: of a key that stands there twice the last value counts, or ForceAssignOccupied of resources. TooLarge
/// where there are over 65,536 keys.
pub fn dictionary(
    state: &RunState,
    key: CadType,
    value: CadType,
    pairs: Vec<Pair>,
) -> Result<Tree, Stop>
    ensures { CarriesOut pure_tree (spec.dictionary_of (pure_type key) (pure_type value) (map pure_pair pairs.items)) state.now state.now result }
{
    let alloc = *state.making.allocator();
    match with_pairs(alloc, state, &value, pairs) {
        Ok(table) => dictionary_tree(key, value, table),
        Err(stop) => {
            discard_type(key);
            discard_type(value);
            Err(stop)
        }
    }
}
