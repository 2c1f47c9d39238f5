// The registers of each kind, one by one.
ghost use Rattle.std.specs.Prelude.{◌≡◌, ◌∷◌, ◌++◌, IfOk, OnOk};
ghost use Rattle.std.specs.List.{flat_map};
ghost use Rattle.cad_codec.specs.TypeBytes.{type_bytes};
ghost use Rattle.cad_codec.specs.ValueBytes as codec;
ghost use Rattle.cad_rows.specs.Views.{pure_tree};
ghost use Rattle.cad_state.specs.Views.{contract_of, controller_of, publication_of};
ghost use Rattle.cad_syntax.specs.Types.{pure_type};
ghost use Rattle.cad_values.specs.Values.{pure_value, capability};
ghost use Rattle.cad_wire.specs.Fields.{number_field, bytes_field};
ghost use Rattle.cad_world.specs.Orders.{contract_name};
ghost use Rattle.cad_world.specs.Registers as spec;
ghost use Rattle.cad_world.specs.Trees.{value_of};
ghost use Rattle.cad_worlds.specs.Sections.{fields_register, name_bytes};
ghost use Rattle.cad_worlds.specs.Standing.{coding, register_of};

use cad_accounts::Row;
use cad_codec::{encode, encode_type};
use cad_rows::Tree;
use cad_state::{Contract, Controller, Publication, discard_value};
use cad_syntax::{Address, Bytes, Items, Name, TypeId};
use cad_value_trees::value_from_tree;
use cad_values::{Cap, Value, has_no_reference};
use cad_wire::{Key, Writer};
use std::alloc::{AllocError, Global};

pub(crate) const HEAD: u8 = 0;

pub(crate) const NEXT: u8 = 1;

pub(crate) const CODE: u8 = 2;

pub(crate) const FIELDS: u8 = 3;

pub(crate) const STORED: u8 = 4;

pub(crate) const PUBLISHED: u8 = 5;

pub(crate) const CONTROLLER: u8 = 6;

// ---- keys

/// The key of an account's next controller.
fn next_key(alloc: Global, address: u64) -> Result<Key, AllocError>
    ensures { IfOk result (λ key. key.0 ≡ spec.next_key address) }
{
    let mut writer = Writer::new(alloc);
    writer.byte(NEXT)?;
    writer.number(address)?;
    Ok(Key(writer.finish()))
}

/// The key of what an account has of a kind under an identifier.
fn named_key(alloc: Global, kind: u8, address: u64, name: &Name) -> Result<Key, AllocError>
    ensures { IfOk result (λ key. key.0 ≡ kind ∷ (number_field address ++ name.now.0)) }
{
    let mut bytes = Vec::new(alloc);
    bytes.push(kind)?;
    bytes.extend_from_slice(&address.to_be_bytes())?;
    bytes.extend_from_slice(name.0.as_bytes())?;
    Ok(Key(Bytes::from_vec(bytes)))
}

/// Appends the bytes of a name.
fn push_name(bytes: &mut Vec<u8>, name: &Name) -> Result<(), AllocError>
    ensures { OnOk result (bytes.new.items ≡ bytes.old.items ++ name_bytes name.now) }
{
    bytes.extend_from_slice(name.0.as_bytes())
}

/// Appends the bytes of names.
fn push_names(bytes: &mut Vec<u8>, names: &[Name]) -> Result<(), AllocError>
    ensures { OnOk result (bytes.new.items ≡ bytes.old.items ++ flat_map name_bytes names.now) }
{
    for name in names {
        push_name(bytes, name)?;
    }
    Ok(())
}

/// The key of what a contract has of a kind.
fn contract_key(alloc: Global, kind: u8, id: &TypeId) -> Result<Key, AllocError>
    ensures { IfOk result (λ key. key.0 ≡ kind ∷ (number_field id.now.address.0 ++ contract_name id.now)) }
{
    let mut bytes = Vec::new(alloc);
    bytes.push(kind)?;
    bytes.extend_from_slice(&id.address.0.to_be_bytes())?;
    push_names(&mut bytes, id.names.as_slice())?;
    Ok(Key(Bytes::from_vec(bytes)))
}

/// The key of a controller.
fn controller_key(alloc: Global, address: u64, number: u64) -> Result<Key, AllocError>
    ensures { IfOk result (λ key. key.0 ≡ spec.controller_key address number) }
{
    let mut writer = Writer::new(alloc);
    writer.byte(CONTROLLER)?;
    writer.number(address)?;
    writer.number(number)?;
    Ok(Key(writer.finish()))
}

// ---- bytes

/// The bytes of a value. AllocError too where it holds a reference, which has none.
fn value_bytes(alloc: Global, value: &Value) -> Result<Bytes, AllocError>
    ensures { IfOk result (λ bytes. bytes ≡ codec.value_bytes (pure_value value.now)) }
{
    if !has_no_reference(value) {
        return Err(AllocError);
    }
    encode(alloc, value)
}

/// The bytes of what stands in a place.
fn tree_bytes(alloc: Global, tree: &Tree) -> Result<Bytes, AllocError>
    ensures { IfOk result (λ bytes. bytes ≡ codec.value_bytes (value_of (pure_tree tree.now))) }
{
    let value = value_from_tree(alloc, tree)?;
    let bytes = value_bytes(alloc, &value);
    discard_value(value);
    bytes
}

/// The capability that an account publishes.
fn published_value(address: u64, publication: &Publication) -> Result<Value, AllocError>
    ensures { IfOk result (λ x. pure_value x ≡ capability (record { 0 = address }) publication.now.number (pure_type publication.now.lent)) }
{
    Ok(Value::Capability(Cap {
        address: Address(address),
        id: publication.number,
        borrow: publication.lent.clone()?,
    }))
}

/// The bytes of the capability that an account publishes.
fn published_bytes(
    alloc: Global,
    address: u64,
    publication: &Publication,
) -> Result<Bytes, AllocError>
    ensures { IfOk result (λ bytes. bytes ≡ codec.value_bytes (capability (record { 0 = address }) publication.now.number (pure_type publication.now.lent))) }
{
    let value = published_value(address, publication)?;
    let bytes = value_bytes(alloc, &value);
    discard_value(value);
    bytes
}

/// Appends a byte string: its length and its bytes. AllocError too where it has 2^32 bytes or more.
fn push_string(bytes: &mut Vec<u8>, text: &[u8]) -> Result<(), AllocError>
    ensures { OnOk result (bytes.new.items ≡ bytes.old.items ++ bytes_field text.now) }
{
    if text.len() > u32::MAX as usize {
        return Err(AllocError);
    }
    bytes.extend_from_slice(&(text.len() as u32).to_be_bytes())?;
    bytes.extend_from_slice(text)
}

/// The target, the tag and the type of a controller.
fn controller_bytes(alloc: Global, controller: &Controller) -> Result<Bytes, AllocError>
    ensures { IfOk result (λ bytes. bytes ≡ bytes_field controller.now.target.0 ++ (bytes_field controller.now.tag ++ type_bytes (pure_type controller.now.borrow))) }
{
    let borrow = encode_type(alloc, &controller.borrow)?;
    let mut bytes = Vec::new(alloc);
    push_string(&mut bytes, controller.target.0.as_bytes())?;
    push_string(&mut bytes, controller.tag.as_slice())?;
    bytes.extend_from_slice(borrow.as_slice())?;
    Ok(Bytes::from_vec(bytes))
}

// ---- registers

/// How many accounts there are, and the next identity.
pub(crate) fn head_row(alloc: Global, count: u64, identity: u64) -> Result<Row, AllocError>
    ensures { IfOk result (λ row. register_of row ≡ spec.register spec.head_key (number_field count ++ number_field identity)) }
{
    let mut key = Writer::new(alloc);
    key.byte(HEAD)?;
    let mut bytes = Writer::new(alloc);
    bytes.number(count)?;
    bytes.number(identity)?;
    Ok(Row {
        key: Key(key.finish()),
        value: bytes.finish(),
    })
}

/// The number of an account's next controller.
pub(crate) fn next_row(alloc: Global, address: u64, number: u64) -> Result<Row, AllocError>
    ensures { IfOk result (λ row. register_of row ≡ spec.register (spec.next_key address) (number_field number)) }
{
    let key = next_key(alloc, address)?;
    let mut bytes = Writer::new(alloc);
    bytes.number(number)?;
    Ok(Row {
        key,
        value: bytes.finish(),
    })
}

/// The code of a contract.
pub(crate) fn code_row(alloc: Global, contract: &Contract) -> Result<Row, AllocError>
    ensures { IfOk result (λ row. register_of row ≡ spec.code_register (contract_of contract.now)) }
{
    let key = contract_key(alloc, CODE, &contract.id)?;
    let value = Items::from_slice(alloc, contract.code.as_slice())?;
    Ok(Row { key, value })
}

/// The value of a contract.
pub(crate) fn fields_row(alloc: Global, id: &TypeId, tree: &Tree) -> Result<Row, AllocError>
    ensures { IfOk result (λ row. register_of row ≡ fields_register id.now (value_of (pure_tree tree.now))) }
{
    let key = contract_key(alloc, FIELDS, id)?;
    let value = tree_bytes(alloc, tree)?;
    Ok(Row { key, value })
}

/// What an account stores under an identifier.
pub(crate) fn stored_row(
    alloc: Global,
    address: u64,
    name: &Name,
    tree: &Tree,
) -> Result<Row, AllocError>
    ensures { IfOk result (λ row. register_of row ≡ spec.register (spec.stored_key address name.now) (codec.value_bytes (value_of (pure_tree tree.now)))) }
{
    let key = named_key(alloc, STORED, address, name)?;
    let value = tree_bytes(alloc, tree)?;
    Ok(Row { key, value })
}

/// What an account publishes under an identifier.
pub(crate) fn published_row(
    alloc: Global,
    address: u64,
    publication: &Publication,
) -> Result<Row, AllocError>
    ensures { IfOk result (λ row. register_of row ≡ spec.published_register coding address (publication_of publication.now)) }
{
    let key = named_key(alloc, PUBLISHED, address, &publication.identifier)?;
    let value = published_bytes(alloc, address, publication)?;
    Ok(Row { key, value })
}

/// A controller of an account.
pub(crate) fn controller_row(
    alloc: Global,
    address: u64,
    controller: &Controller,
) -> Result<Row, AllocError>
    ensures { IfOk result (λ row. register_of row ≡ spec.controller_register coding address (controller_of controller.now)) }
{
    let key = controller_key(alloc, address, controller.number)?;
    let value = controller_bytes(alloc, controller)?;
    Ok(Row { key, value })
}
