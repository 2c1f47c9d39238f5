// Values as trees. What can fail is memory alone.
ghost use Rattle.std.specs.Prelude.{◌≡◌, [], ◌∷◌, ◌++◌, map, IfOk, OnOk};
ghost use Rattle.cad_syntax.specs.Types.{pure_type};
ghost use Rattle.cad_values.specs.Values.{pure_value, pure_entry, pure_field, values_of, entries_of, fields_of};
ghost use Rattle.cad_values.specs.Values as v;
ghost use Rattle.cad_world.specs.Rows as r;
ghost use Rattle.cad_world.specs.Trees as spec;
ghost use Rattle.cad_rows.specs.Views.{pure_row, pure_tree, pure_shape};

use cad_rows::{
    Keys, Place, Shape, Tree, add_last, copy_value, discard_row, discard_shape, discard_tree,
};
use cad_syntax::{CadType, Names, TypeId};
use cad_values::{CompositeField, DictionaryEntry, Value};
use std::alloc::{AllocError, Global};

/// A node of a copy of a value, without optionals and parts.
fn leaf(alloc: Global, value: &Value) -> Result<Tree, AllocError>
    ensures { IfOk result (λ t. pure_tree t ≡ spec.of_plain (pure_value value.now)) }
{
    let copy = copy_value(alloc, value)?;
    Ok(Tree {
        optionals: 0,
        shape: Shape::Plain(copy),
        parts: Vec::new(alloc),
    })
}

/// In one optional more. What is in 2^64 optionals has no room in memory.
fn wrap(tree: Tree) -> Result<Tree, AllocError>
    ensures { IfOk result (λ t. pure_tree t ≡ spec.wrapped (pure_tree tree)) }
{
    let mut all = tree;
    match all.optionals.checked_add(1) {
        Some(more) => {
            all.optionals = more;
            Ok(all)
        }
        None => {
            discard_tree(all);
            Err(AllocError)
        }
    }
}

/// A node of a shape and these parts, without optionals.
fn whole(shape: Shape, parts: Vec<Place>) -> Tree
    ensures { pure_tree result ≡ spec.whole (pure_shape shape) (pure_row parts.items) }
{
    Tree {
        optionals: 0,
        shape,
        parts,
    }
}

/// A copy of the key of an entry.
fn copy_key(alloc: Global, entry: &DictionaryEntry) -> Result<Value, AllocError>
    ensures { IfOk result (λ x. pure_value x ≡ (pure_entry entry.now).key) }
{
    copy_value(alloc, &entry.key)
}

/// Copies of the keys of entries.
fn copy_keys(alloc: Global, entries: &[DictionaryEntry]) -> Result<Vec<Value>, AllocError>
    ensures { IfOk result (λ ks. map pure_value ks.items ≡ v.keys (entries_of (map pure_entry entries.now))) }
{
    let mut keys = Vec::new(alloc);
    for entry in entries {
        keys.push(copy_key(alloc, entry)?)?;
    }
    Ok(keys)
}

/// Copies of the keys of entries, as a dictionary has them.
fn keys_in(alloc: Global, entries: &[DictionaryEntry]) -> Result<Keys, AllocError>
    ensures { IfOk result (λ ks. map pure_value ks ≡ v.keys (entries_of (map pure_entry entries.now))) }
{
    let copies = copy_keys(alloc, entries)?;
    let keys = Keys::from_vec(alloc, copies)?;
    Ok(keys)
}

/// Adds a copy of the name of a field.
fn push_name(field: &CompositeField, names: &mut Names) -> Result<(), AllocError>
    ensures { OnOk result (names.new ≡ names.old ++ (pure_field field.now).name ∷ []) }
{
    names.push(field.name.clone()?)
}

/// Copies of the names of fields.
fn copy_names(alloc: Global, fields: &[CompositeField]) -> Result<Names, AllocError>
    ensures { IfOk result (λ ns. ns ≡ v.names (fields_of (map pure_field fields.now))) }
{
    let mut names = Names::new(alloc);
    for field in fields {
        push_name(field, &mut names)?;
    }
    Ok(names)
}

/// The shape of an array.
fn array_shape(element: &CadType) -> Result<Shape, AllocError>
    ensures { IfOk result (λ s. pure_shape s ≡ r.array (pure_type element.now)) }
{
    Ok(Shape::Array(element.clone()?))
}

/// The shape of a dictionary of entries.
fn dictionary_shape(
    alloc: Global,
    entries: &[DictionaryEntry],
    key: &CadType,
    value: &CadType,
) -> Result<Shape, AllocError>
    ensures { IfOk result (λ s. pure_shape s ≡ r.dictionary (pure_type key.now) (pure_type value.now) (v.keys (entries_of (map pure_entry entries.now)))) }
{
    let key = key.clone()?;
    let value = match value.clone() {
        Ok(value) => value,
        Err(error) => {
            drop(key);
            return Err(error);
        }
    };
    match keys_in(alloc, entries) {
        Ok(keys) => Ok(Shape::Dictionary { key, value, keys }),
        Err(error) => {
            drop(key);
            drop(value);
            Err(error)
        }
    }
}

/// The shape of a composite of fields.
fn composite_shape(
    alloc: Global,
    fields: &[CompositeField],
    id: &TypeId,
    identity: u64,
) -> Result<Shape, AllocError>
    ensures { IfOk result (λ s. pure_shape s ≡ r.composite id.now identity (v.names (fields_of (map pure_field fields.now)))) }
{
    let id = id.clone()?;
    let fields = copy_names(alloc, fields)?;
    Ok(Shape::Composite {
        id,
        identity,
        fields,
    })
}

/// The tree of a value. It goes as deep as the value is high. What is in 2^64 optionals has no room in memory.
#[cycle(to_trees)]
pub fn tree_from_value(alloc: Global, value: &Value) -> Result<Tree, AllocError>
    ensures { IfOk result (λ t. pure_tree t ≡ spec.tree_of (pure_value value.now)) }
{
    match value {
        Value::Some(content) => wrap(tree_from_value(alloc, content)?),
        Value::Array { element, values } => {
            let shape = array_shape(element)?;
            with_values(alloc, values.as_slice(), shape)
        }
        Value::Dictionary {
            key,
            value,
            entries,
        } => {
            let shape = dictionary_shape(alloc, entries.as_slice(), key, value)?;
            with_entries(alloc, entries.as_slice(), shape)
        }
        Value::Composite {
            id,
            identity,
            fields,
        } => {
            let shape = composite_shape(alloc, fields.as_slice(), id, *identity)?;
            with_fields(alloc, fields.as_slice(), shape)
        }
        _ => leaf(alloc, value),
    }
}

/// A node of a shape, with the trees of values as its parts.
#[cycle(to_trees)]
fn with_values(alloc: Global, values: &[Value], shape: Shape) -> Result<Tree, AllocError>
    ensures { IfOk result (λ t. pure_tree t ≡ spec.whole (pure_shape shape) (spec.row_of (values_of (map pure_value values.now)))) }
{
    let mut parts = Vec::new(alloc);
    match push_values(alloc, values, &mut parts) {
        Ok(()) => Ok(whole(shape, parts)),
        Err(error) => {
            discard_shape(shape);
            discard_row(parts);
            Err(error)
        }
    }
}

/// A node of a shape, with the trees of what stands under the keys as its parts.
#[cycle(to_trees)]
fn with_entries(
    alloc: Global,
    entries: &[DictionaryEntry],
    shape: Shape,
) -> Result<Tree, AllocError>
    ensures { IfOk result (λ t. pure_tree t ≡ spec.whole (pure_shape shape) (spec.entries_row (entries_of (map pure_entry entries.now)))) }
{
    let mut parts = Vec::new(alloc);
    match push_entries(alloc, entries, &mut parts) {
        Ok(()) => Ok(whole(shape, parts)),
        Err(error) => {
            discard_shape(shape);
            discard_row(parts);
            Err(error)
        }
    }
}

/// A node of a shape, with the trees of the fields as its parts.
#[cycle(to_trees)]
fn with_fields(alloc: Global, fields: &[CompositeField], shape: Shape) -> Result<Tree, AllocError>
    ensures { IfOk result (λ t. pure_tree t ≡ spec.whole (pure_shape shape) (spec.fields_row (fields_of (map pure_field fields.now)))) }
{
    let mut parts = Vec::new(alloc);
    match push_fields(alloc, fields, &mut parts) {
        Ok(()) => Ok(whole(shape, parts)),
        Err(error) => {
            discard_shape(shape);
            discard_row(parts);
            Err(error)
        }
    }
}

/// Appends the trees of values.
#[cycle(to_trees)]
fn push_values(alloc: Global, values: &[Value], row: &mut Vec<Place>) -> Result<(), AllocError>
    ensures { OnOk result (pure_row row.new.items ≡ r.join (pure_row row.old.items) (spec.row_of (values_of (map pure_value values.now)))) }
{
    for value in values {
        let tree = tree_from_value(alloc, value)?;
        add_last(row, tree)?;
    }
    Ok(())
}

/// Appends the trees of what stands under the keys.
#[cycle(to_trees)]
fn push_entries(
    alloc: Global,
    entries: &[DictionaryEntry],
    row: &mut Vec<Place>,
) -> Result<(), AllocError>
    ensures { OnOk result (pure_row row.new.items ≡ r.join (pure_row row.old.items) (spec.entries_row (entries_of (map pure_entry entries.now)))) }
{
    for entry in entries {
        let tree = entry_tree(alloc, entry)?;
        add_last(row, tree)?;
    }
    Ok(())
}

/// Appends the trees of fields.
#[cycle(to_trees)]
fn push_fields(
    alloc: Global,
    fields: &[CompositeField],
    row: &mut Vec<Place>,
) -> Result<(), AllocError>
    ensures { OnOk result (pure_row row.new.items ≡ r.join (pure_row row.old.items) (spec.fields_row (fields_of (map pure_field fields.now)))) }
{
    for field in fields {
        let tree = field_tree(alloc, field)?;
        add_last(row, tree)?;
    }
    Ok(())
}

/// The tree of what stands under a key.
#[cycle(to_trees)]
fn entry_tree(alloc: Global, entry: &DictionaryEntry) -> Result<Tree, AllocError>
    ensures { IfOk result (λ t. pure_tree t ≡ spec.tree_of (pure_entry entry.now).value) }
{
    tree_from_value(alloc, &entry.value)
}

/// The tree of a field's value.
#[cycle(to_trees)]
fn field_tree(alloc: Global, field: &CompositeField) -> Result<Tree, AllocError>
    ensures { IfOk result (λ t. pure_tree t ≡ spec.tree_of (pure_field field.now).value) }
{
    tree_from_value(alloc, &field.value)
}
