// Trees as values. What can fail is memory alone.
ghost use Rattle.std.specs.Prelude.{◌≡◌, [], ◌∷◌, ◌++◌, map, IfOk, OnOk};
ghost use Rattle.cad_syntax.specs.Types.{basic};
ghost use Rattle.cad_syntax.specs.declared.types.Basic.TheVariants as b;
ghost use Rattle.cad_values.specs.declared.value.Target.TheVariants as target;
ghost use Rattle.cad_values.specs.Values.{pure_value, pure_entry, pure_field, values_of, entries_of, fields_of};
ghost use Rattle.cad_values.specs.Values as v;
ghost use Rattle.cad_world.specs.Trees as spec;
ghost use Rattle.cad_rows.specs.Views.{pure_row, pure_tree, pure_shape, pure_place};
ghost use Rattle.cad_value_trees.specs.Places.{values_at};

use cad_rows::{
    Place, Shape, Tree, array_value, composite_value, copy_value, dictionary_value, entry_of,
    field_of, some_value,
};
use cad_syntax::{Authorization, Basic, CadType, Name};
use cad_values::{CompositeField, DictionaryEntry, Reference, Target, Value};
use std::alloc::{AllocError, Global};

/// A value in as many optionals more.
fn in_optionals(alloc: Global, count: u64, value: Value) -> Result<Value, AllocError>
    ensures { IfOk result (λ x. pure_value x ≡ spec.in_optionals count (pure_value value)) }
{
    let mut all = value;
    for _ in 0..count {
        all = some_value(alloc, all)?;
    }
    Ok(all)
}

/// Adds an entry of a copy of a key and of a value.
fn push_entry(
    alloc: Global,
    key: &Value,
    value: Value,
    entries: &mut Vec<DictionaryEntry>,
) -> Result<(), AllocError>
    ensures { OnOk result (map pure_entry entries.new.items ≡ map pure_entry entries.old.items ++ (record { key = pure_value key.now; value = pure_value value }) ∷ []) }
{
    match copy_value(alloc, key) {
        Ok(key) => {
            entries.push(entry_of(key, value))?;
            Ok(())
        }
        Err(error) => {
            drop(value);
            Err(error)
        }
    }
}

/// Entries of copies of keys and of values, as many as there are both of.
fn keyed(
    alloc: Global,
    keys: &[Value],
    values: Vec<Value>,
) -> Result<Vec<DictionaryEntry>, AllocError>
    ensures { IfOk result (λ es. entries_of (map pure_entry es.items) ≡ spec.keyed (map pure_value keys.now) (values_of (map pure_value values.items))) }
{
    let mut entries = Vec::new(alloc);
    let mut left = values.into_iter();
    for key in keys {
        match left.next() {
            None => return Ok(entries),
            Some(value) => push_entry(alloc, key, value, &mut entries)?,
        }
    }
    Ok(entries)
}

/// Adds a field of a copy of a name and of a value.
fn push_field(name: &Name, value: Value, fields: &mut Vec<CompositeField>) -> Result<(), AllocError>
    ensures { OnOk result (map pure_field fields.new.items ≡ map pure_field fields.old.items ++ (record { name = name.now; value = pure_value value }) ∷ []) }
{
    match name.clone() {
        Ok(name) => {
            fields.push(field_of(name, value))?;
            Ok(())
        }
        Err(error) => {
            drop(value);
            Err(error)
        }
    }
}

/// Fields of copies of names and of values, as many as there are both of.
fn named(
    alloc: Global,
    names: &[Name],
    values: Vec<Value>,
) -> Result<Vec<CompositeField>, AllocError>
    ensures { IfOk result (λ fs. fields_of (map pure_field fs.items) ≡ spec.named_values names.now (values_of (map pure_value values.items))) }
{
    let mut fields = Vec::new(alloc);
    let mut left = values.into_iter();
    for name in names {
        match left.next() {
            None => return Ok(fields),
            Some(value) => push_field(name, value, &mut fields)?,
        }
    }
    Ok(fields)
}

/// A reference to a node. It tells no type.
fn node_reference(authorization: &Authorization, label: u64) -> Result<Value, AllocError>
    ensures { IfOk result (λ x. pure_value x ≡ v.reference authorization.now (basic b.Never) (target.Node label)) }
{
    Ok(Value::Reference(Reference {
        authorization: authorization.clone()?,
        target: CadType::Basic(Basic::Never),
        to: Target::Node(label),
    }))
}

/// The value of a shape over parts.
fn shaped(alloc: Global, shape: &Shape, values: Vec<Value>) -> Result<Value, AllocError>
    ensures { IfOk result (λ x. pure_value x ≡ spec.shaped (pure_shape shape.now) (values_of (map pure_value values.items))) }
{
    match shape {
        Shape::Plain(value) => copy_value(alloc, value),
        Shape::Link {
            authorization,
            label,
            ..
        } => node_reference(authorization, *label),
        Shape::Array(element) => Ok(array_value(element.clone()?, values)),
        Shape::Dictionary { key, value, keys } => {
            let entries = keyed(alloc, keys.as_slice(), values)?;
            let key = key.clone()?;
            match value.clone() {
                Ok(value) => Ok(dictionary_value(key, value, entries)),
                Err(error) => {
                    drop(key);
                    Err(error)
                }
            }
        }
        Shape::Composite {
            id,
            identity,
            fields,
        } => {
            let fields = named(alloc, fields.as_slice(), values)?;
            Ok(composite_value(id.clone()?, *identity, fields))
        }
    }
}

/// The value of a tree: empty places have none, and a reference to a node tells no type. It goes as deep as the tree is high.
#[cycle(to_values)]
pub fn value_from_tree(alloc: Global, tree: &Tree) -> Result<Value, AllocError>
    ensures { IfOk result (λ x. pure_value x ≡ spec.value_of (pure_tree tree.now)) }
{
    let values = values_from_row(alloc, tree.parts.as_slice())?;
    let value = shaped(alloc, &tree.shape, values)?;
    in_optionals(alloc, tree.optionals, value)
}

/// The values in a row.
#[cycle(to_values)]
fn values_from_row(alloc: Global, row: &[Place]) -> Result<Vec<Value>, AllocError>
    ensures { IfOk result (λ xs. values_of (map pure_value xs.items) ≡ spec.values_in (pure_row row.now)) }
{
    let mut values = Vec::new(alloc);
    for place in row {
        push_value(alloc, place, &mut values)?;
    }
    Ok(values)
}

/// Adds the value in a place.
#[cycle(to_values)]
fn push_value(alloc: Global, place: &Place, values: &mut Vec<Value>) -> Result<(), AllocError>
    ensures { OnOk result (map pure_value values.new.items ≡ map pure_value values.old.items ++ values_at (pure_place place.now)) }
{
    match place {
        Place::Empty => Ok(()),
        Place::Full(_, tree) => {
            let value = value_from_tree(alloc, tree)?;
            values.push(value)?;
            Ok(())
        }
    }
}
