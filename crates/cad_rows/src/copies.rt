// Copies of values and trees. What can fail is memory alone.
ghost use Rattle.std.specs.Prelude.{◌≡◌, map, IfOk, OnOk};
ghost use Rattle.cad_syntax.specs.Types.{pure_type};
ghost use Rattle.cad_values.specs.Values.{pure_value, pure_entry, pure_field, values_of, entries_of, fields_of};
ghost use Rattle.cad_values.specs.Values as v;
ghost use Rattle.cad_world.specs.Rows as spec;
ghost use Rattle.cad_rows.specs.Places.{bare_place};
ghost use Rattle.cad_rows.specs.Views.{pure_row, pure_tree, pure_place, pure_shape};

use crate::access::push_place;
use crate::discard::{discard_row, discard_shape};
use crate::tree::{Place, Shape, Tree};
use cad_keys::Keys;
use cad_syntax::{CadType, Name, Numbers, TypeId};
use cad_values::{Cap, CompositeField, DictionaryEntry, Reference, Target, Value};
use std::alloc::{AllocError, Global};

fn copy_target(to: &Target) -> Result<Target, AllocError>
    ensures { IfOk result (λ t. t ≡ to.now) }
{
    match to {
        Target::Node(label) => Ok(Target::Node(*label)),
        Target::Stored { address, path } => Ok(Target::Stored {
            address: *address,
            path: path.clone()?,
        }),
        Target::Account(address) => Ok(Target::Account(*address)),
        Target::Controller { address, id } => Ok(Target::Controller {
            address: *address,
            id: *id,
        }),
    }
}

fn copy_reference(reference: &Reference) -> Result<Value, AllocError>
    ensures { IfOk result (λ x. pure_value x ≡ v.reference reference.now.authorization (pure_type reference.now.target) reference.now.to) }
{
    let authorization = reference.authorization.clone()?;
    let target = reference.target.clone()?;
    match copy_target(&reference.to) {
        Ok(to) => Ok(Value::Reference(Reference {
            authorization,
            target,
            to,
        })),
        Err(error) => {
            drop(target);
            Err(error)
        }
    }
}

fn copy_capability(cap: &Cap) -> Result<Value, AllocError>
    ensures { IfOk result (λ x. pure_value x ≡ v.capability cap.now.address cap.now.id (pure_type cap.now.borrow)) }
{
    let borrow = cap.borrow.clone()?;
    Ok(Value::Capability(Cap {
        address: cap.address,
        id: cap.id,
        borrow,
    }))
}

/// An optional with a content.
pub fn some_value(alloc: Global, content: Value) -> Result<Value, AllocError>
    ensures { IfOk result (λ x. pure_value x ≡ v.some (pure_value content)) }
{
    Ok(Value::Some(Box::new(alloc, content)?))
}

/// An array of these elements.
pub fn array_value(element: CadType, values: Vec<Value>) -> Value
    ensures { pure_value result ≡ v.array (pure_type element) (values_of (map pure_value values.items)) }
{
    Value::Array { element, values }
}

/// A dictionary of these entries.
pub fn dictionary_value(key: CadType, value: CadType, entries: Vec<DictionaryEntry>) -> Value
    ensures { pure_value result ≡ v.dictionary (pure_type key) (pure_type value) (entries_of (map pure_entry entries.items)) }
{
    Value::Dictionary {
        key,
        value,
        entries,
    }
}

/// A composite of these fields.
pub fn composite_value(id: TypeId, identity: u64, fields: Vec<CompositeField>) -> Value
    ensures { pure_value result ≡ v.composite id identity (fields_of (map pure_field fields.items)) }
{
    Value::Composite {
        id,
        identity,
        fields,
    }
}

/// A key and what stands under it.
pub fn entry_of(key: Value, value: Value) -> DictionaryEntry
    ensures { pure_entry result ≡ (record { key = pure_value key; value = pure_value value }) }
{
    DictionaryEntry { key, value }
}

/// A field of a name.
pub fn field_of(name: Name, value: Value) -> CompositeField
    ensures { pure_field result ≡ (record { name = name; value = pure_value value }) }
{
    CompositeField { name, value }
}

/// Copies of the types of keys and of what stands under them.
fn copy_types(key: &CadType, value: &CadType) -> Result<(CadType, CadType), AllocError>
    ensures key { IfOk result (λ both. pure_type both.0 ≡ pure_type key.now) }
    ensures value { IfOk result (λ both. pure_type both.1 ≡ pure_type value.now) }
{
    let key = key.clone()?;
    match value.clone() {
        Ok(value) => Ok((key, value)),
        Err(error) => {
            drop(key);
            Err(error)
        }
    }
}

/// A copy of a value. It goes as deep as the value is high.
#[cycle(copies)]
pub fn copy_value(alloc: Global, value: &Value) -> Result<Value, AllocError>
    ensures { IfOk result (λ x. pure_value x ≡ pure_value value.now) }
{
    match value {
        Value::Void => Ok(Value::Void),
        Value::Nil => Ok(Value::Nil),
        Value::Some(content) => some_value(alloc, copy_value(alloc, content)?),
        Value::Bool(b) => Ok(Value::Bool(*b)),
        Value::Number(n) => Ok(Value::Number(*n)),
        Value::String(text) => Ok(Value::String(text.clone()?)),
        Value::Character(text) => Ok(Value::Character(text.clone()?)),
        Value::Address(address) => Ok(Value::Address(*address)),
        Value::Path(path) => Ok(Value::Path(path.clone()?)),
        Value::Meta(t) => Ok(Value::Meta(t.clone()?)),
        Value::Capability(cap) => copy_capability(cap),
        Value::Array { element, values } => copy_array(alloc, values.as_slice(), element),
        Value::Dictionary {
            key,
            value,
            entries,
        } => copy_dictionary(alloc, entries.as_slice(), key, value),
        Value::Composite {
            id,
            identity,
            fields,
        } => {
            let id = id.clone()?;
            Ok(composite_value(id, *identity, copy_fields(alloc, fields.as_slice())?))
        }
        Value::Reference(reference) => copy_reference(reference),
    }
}

/// A copy of an array.
#[cycle(copies)]
fn copy_array(alloc: Global, values: &[Value], element: &CadType) -> Result<Value, AllocError>
    ensures { IfOk result (λ x. pure_value x ≡ v.array (pure_type element.now) (values_of (map pure_value values.now))) }
{
    let element = element.clone()?;
    match copy_values(alloc, values) {
        Ok(copies) => Ok(array_value(element, copies)),
        Err(error) => {
            drop(element);
            Err(error)
        }
    }
}

/// A copy of a dictionary.
#[cycle(copies)]
fn copy_dictionary(
    alloc: Global,
    entries: &[DictionaryEntry],
    key: &CadType,
    value: &CadType,
) -> Result<Value, AllocError>
    ensures { IfOk result (λ x. pure_value x ≡ v.dictionary (pure_type key.now) (pure_type value.now) (entries_of (map pure_entry entries.now))) }
{
    let (key, value) = copy_types(key, value)?;
    match copy_entries(alloc, entries) {
        Ok(copies) => Ok(dictionary_value(key, value, copies)),
        Err(error) => {
            drop(key);
            drop(value);
            Err(error)
        }
    }
}

/// Copies of values.
#[cycle(copies)]
pub fn copy_values(alloc: Global, values: &[Value]) -> Result<Vec<Value>, AllocError>
    ensures { IfOk result (λ xs. map pure_value xs.items ≡ map pure_value values.now) }
{
    let mut copies = Vec::new(alloc);
    for value in values {
        copies.push(copy_value(alloc, value)?)?;
    }
    Ok(copies)
}

#[cycle(copies)]
fn copy_entries(
    alloc: Global,
    entries: &[DictionaryEntry],
) -> Result<Vec<DictionaryEntry>, AllocError>
    ensures { IfOk result (λ xs. map pure_entry xs.items ≡ map pure_entry entries.now) }
{
    let mut copies = Vec::new(alloc);
    for entry in entries {
        let key = copy_value(alloc, &entry.key)?;
        match copy_value(alloc, &entry.value) {
            Ok(value) => copies.push(entry_of(key, value))?,
            Err(error) => {
                drop(key);
                return Err(error);
            }
        }
    }
    Ok(copies)
}

#[cycle(copies)]
fn copy_fields(alloc: Global, fields: &[CompositeField]) -> Result<Vec<CompositeField>, AllocError>
    ensures { IfOk result (λ xs. map pure_field xs.items ≡ map pure_field fields.now) }
{
    let mut copies = Vec::new(alloc);
    for field in fields {
        let name = field.name.clone()?;
        copies.push(field_of(name, copy_value(alloc, &field.value)?))?;
    }
    Ok(copies)
}

/// A copy of keys.
fn copy_keys(alloc: Global, keys: &Keys) -> Result<Keys, AllocError>
    ensures { IfOk result (λ ks. map pure_value ks ≡ map pure_value keys.now) }
{
    let copies = copy_values(alloc, keys.as_slice())?;
    let list = Keys::from_vec(alloc, copies)?;
    Ok(list)
}

/// A copy of the shape of a dictionary.
fn copy_keyed(
    alloc: Global,
    keys: &Keys,
    key: &CadType,
    value: &CadType,
) -> Result<Shape, AllocError>
    ensures { IfOk result (λ x. pure_shape x ≡ spec.dictionary (pure_type key.now) (pure_type value.now) (map pure_value keys.now)) }
{
    let (key, value) = copy_types(key, value)?;
    match copy_keys(alloc, keys) {
        Ok(keys) => Ok(Shape::Dictionary { key, value, keys }),
        Err(error) => {
            drop(key);
            drop(value);
            Err(error)
        }
    }
}

/// A copy of a shape.
pub fn copy_shape(alloc: Global, shape: &Shape) -> Result<Shape, AllocError>
    ensures { IfOk result (λ x. pure_shape x ≡ pure_shape shape.now) }
{
    match shape {
        Shape::Plain(value) => Ok(Shape::Plain(copy_value(alloc, value)?)),
        Shape::Link {
            authorization,
            label,
            sees,
        } => Ok(Shape::Link {
            authorization: authorization.clone()?,
            label: *label,
            sees: *sees,
        }),
        Shape::Array(element) => Ok(Shape::Array(element.clone()?)),
        Shape::Dictionary { key, value, keys } => copy_keyed(alloc, keys, key, value),
        Shape::Composite {
            id,
            identity,
            fields,
        } => {
            let id = id.clone()?;
            Ok(Shape::Composite {
                id,
                identity: *identity,
                fields: fields.clone()?,
            })
        }
    }
}

/// A copy of a tree, without labels at any depth.
#[cycle(tree_copies)]
pub fn copy_tree(alloc: Global, tree: &Tree) -> Result<Tree, AllocError>
    ensures { IfOk result (λ t. pure_tree t ≡ spec.bare_tree (pure_tree tree.now)) }
{
    let shape = copy_shape(alloc, &tree.shape)?;
    match copy_row(alloc, tree.parts.as_slice()) {
        Ok(parts) => Ok(Tree {
            optionals: tree.optionals,
            shape,
            parts,
        }),
        Err(error) => {
            discard_shape(shape);
            Err(error)
        }
    }
}

/// A copy of a row, without labels at any depth.
#[cycle(tree_copies)]
pub fn copy_row(alloc: Global, row: &[Place]) -> Result<Vec<Place>, AllocError>
    ensures { IfOk result (λ r. pure_row r.items ≡ spec.bare (pure_row row.now)) }
{
    let mut copies = Vec::new(alloc);
    match push_copies(alloc, row, &mut copies) {
        Ok(()) => Ok(copies),
        Err(error) => {
            discard_row(copies);
            Err(error)
        }
    }
}

/// Appends copies of places.
#[cycle(tree_copies)]
fn push_copies(alloc: Global, row: &[Place], copies: &mut Vec<Place>) -> Result<(), AllocError>
    ensures { OnOk result (pure_row copies.new.items ≡ spec.join (pure_row copies.old.items) (spec.bare (pure_row row.now))) }
{
    for place in row {
        let copy = copy_place(alloc, place)?;
        push_place(copies, copy)?;
    }
    Ok(())
}

/// A copy of a place, without labels at any depth.
#[cycle(tree_copies)]
fn copy_place(alloc: Global, place: &Place) -> Result<Place, AllocError>
    ensures { IfOk result (λ p. pure_place p ≡ bare_place (pure_place place.now)) }
{
    match place {
        Place::Empty => Ok(Place::Empty),
        Place::Full(_, tree) => {
            let copy = copy_tree(alloc, tree)?;
            Ok(Place::Full(Numbers::new(alloc), copy))
        }
    }
}
