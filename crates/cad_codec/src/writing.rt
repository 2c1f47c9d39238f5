// Values to bytes.
ghost use Rattle.std.specs.Prelude.{◌≡◌, ◌<◌, ◌^◌, ◌++◌, ◌∷◌, [], length, map, true, IfOk, OnOk};
ghost use Rattle.cad_syntax.specs.Types.{pure_type};
ghost use Rattle.cad_values.specs.Values.{pure_value, pure_entry, pure_field, values_of, entries_of, fields_of};
ghost use Rattle.cad_values.specs.Values.{elements, keys, names};
ghost use Rattle.cad_values.specs.Forms.{has_no_reference};
ghost use Rattle.cad_wire.specs.Fields.{bytes_field};
ghost use Rattle.cad_number_codec.specs.Spelling.{sign_byte};
ghost use Rattle.cad_codec.specs.ValueBytes as spec;
ghost use Rattle.cad_codec.specs.TypeBytes.{word, type_bytes};
ghost use Rattle.cad_codec.specs.Ranges.{InRange, ValuesInRange, EntriesInRange, FieldsInRange, NameInRange, TypeInRange};

use crate::writing_types::{write_id, write_length, write_text, write_type, write_word};
use cad_number_codec::write_number;
use cad_syntax::{Bytes, CadType, Domain, Path};
use cad_values::{Cap, CompositeField, DictionaryEntry, Value};
use cad_wire::Writer;
use std::alloc::{AllocError, Global};

/// The byte of a domain.
fn domain_byte(domain: Domain) -> u8
    ensures { result ≡ spec.domain_byte domain }
{
    match domain {
        Domain::Storage => 0,
        Domain::Public => 1,
    }
}

/// The byte of a truth value.
fn bool_byte(b: bool) -> u8
    ensures { result ≡ sign_byte b }
{
    if b { 1 } else { 0 }
}

/// Appends a path, behind its form.
fn write_path(writer: &mut Writer, path: &Path) -> Result<(), AllocError>
    ensures ok { OnOk result (writer.new ≡ writer.old ++ spec.domain_byte path.now.domain ∷ bytes_field path.now.identifier.0) }
    ensures in_range { OnOk result (NameInRange path.now.identifier) }
{
    writer.byte(domain_byte(path.domain))?;
    write_text(writer, &path.identifier.0)
}

/// Appends a capability, behind its form.
fn write_capability(writer: &mut Writer, cap: &Cap) -> Result<(), AllocError>
    ensures ok { OnOk result (writer.new ≡ writer.old ++ (word cap.now.address.0 ++ (word cap.now.id ++ type_bytes (pure_type cap.now.borrow)))) }
    ensures address { OnOk result (cap.now.address.0 < 2 ^ 64) }
    ensures id { OnOk result (cap.now.id < 2 ^ 64) }
    ensures in_range { OnOk result (TypeInRange (pure_type cap.now.borrow)) }
{
    write_word(writer, cap.address.0)?;
    write_word(writer, cap.id)?;
    write_type(writer, &cap.borrow)
}

/// Appends a value; of a reference nothing. The recursion goes as deep as the value is high.
#[cycle(writes)]
pub fn write_value(writer: &mut Writer, value: &Value) -> Result<(), AllocError>
    ensures ok { OnOk result (writer.new ≡ writer.old ++ spec.value_bytes (pure_value value.now)) }
    ensures in_range { OnOk result (InRange (pure_value value.now)) }
{
    match value {
        Value::Void => writer.byte(0),
        Value::Nil => writer.byte(1),
        Value::Some(content) => {
            writer.byte(2)?;
            write_value(writer, content)
        }
        Value::Bool(b) => {
            writer.byte(3)?;
            writer.byte(bool_byte(*b))
        }
        Value::Number(n) => write_number(writer, *n),
        Value::String(text) => {
            writer.byte(5)?;
            write_text(writer, text)
        }
        Value::Character(text) => {
            writer.byte(6)?;
            write_text(writer, text)
        }
        Value::Address(address) => {
            writer.byte(7)?;
            write_word(writer, address.0)
        }
        Value::Path(path) => {
            writer.byte(8)?;
            write_path(writer, path)
        }
        Value::Meta(t) => {
            writer.byte(9)?;
            write_type(writer, t)
        }
        Value::Capability(cap) => {
            writer.byte(10)?;
            write_capability(writer, cap)
        }
        Value::Array { element, values } => {
            writer.byte(11)?;
            write_type(writer, element)?;
            write_values(writer, values.as_slice())
        }
        Value::Dictionary {
            key,
            value,
            entries,
        } => {
            writer.byte(12)?;
            write_type(writer, key)?;
            write_type(writer, value)?;
            write_entries(writer, entries.as_slice())
        }
        Value::Composite {
            id,
            identity,
            fields,
        } => {
            writer.byte(13)?;
            write_id(writer, id)?;
            write_word(writer, *identity)?;
            write_fields(writer, fields.as_slice())
        }
        Value::Reference(_) => Ok(()),
    }
}

/// Appends a key and what stands under it.
#[cycle(writes)]
fn write_entry(writer: &mut Writer, entry: &DictionaryEntry) -> Result<(), AllocError>
    ensures ok { OnOk result (writer.new ≡ writer.old ++ (spec.value_bytes (pure_entry entry.now).key ++ spec.value_bytes (pure_entry entry.now).value)) }
    ensures key { OnOk result (InRange (pure_entry entry.now).key) }
    ensures value { OnOk result (InRange (pure_entry entry.now).value) }
{
    write_value(writer, &entry.key)?;
    write_value(writer, &entry.value)
}

/// Appends a name and the field's value.
#[cycle(writes)]
fn write_field(writer: &mut Writer, field: &CompositeField) -> Result<(), AllocError>
    ensures ok { OnOk result (writer.new ≡ writer.old ++ (bytes_field (pure_field field.now).name.0 ++ spec.value_bytes (pure_field field.now).value)) }
    ensures name { OnOk result (NameInRange (pure_field field.now).name) }
    ensures value { OnOk result (InRange (pure_field field.now).value) }
{
    write_text(writer, &field.name.0)?;
    write_value(writer, &field.value)
}

/// Appends the list of an array's elements.
#[cycle(writes)]
#[tactic(auto, using(crate::proofs::Counts::count_values), unfolding(crate::specs::TypeBytes::counted))]
fn write_values(writer: &mut Writer, values: &[Value]) -> Result<(), AllocError>
    ensures ok { OnOk result (writer.new ≡ writer.old ++ spec.values_field (values_of (map pure_value values.now))) }
    ensures few { OnOk result (length (elements (values_of (map pure_value values.now))) < 2 ^ 32) }
    ensures in_range { OnOk result (ValuesInRange (values_of (map pure_value values.now))) }
{
    write_length(writer, values.len())?;
    for value in values {
        write_value(writer, value)?;
    }
    Ok(())
}

/// Appends the list of a dictionary's entries.
#[cycle(writes)]
#[tactic(auto, using(crate::proofs::Counts::count_entries), unfolding(crate::specs::TypeBytes::counted))]
fn write_entries(writer: &mut Writer, entries: &[DictionaryEntry]) -> Result<(), AllocError>
    ensures ok { OnOk result (writer.new ≡ writer.old ++ spec.entries_field (entries_of (map pure_entry entries.now))) }
    ensures few { OnOk result (length (keys (entries_of (map pure_entry entries.now))) < 2 ^ 32) }
    ensures in_range { OnOk result (EntriesInRange (entries_of (map pure_entry entries.now))) }
{
    write_length(writer, entries.len())?;
    for entry in entries {
        write_entry(writer, entry)?;
    }
    Ok(())
}

/// Appends the list of a composite's fields.
#[cycle(writes)]
#[tactic(auto, using(crate::proofs::Counts::count_fields), unfolding(crate::specs::TypeBytes::counted))]
fn write_fields(writer: &mut Writer, fields: &[CompositeField]) -> Result<(), AllocError>
    ensures ok { OnOk result (writer.new ≡ writer.old ++ spec.fields_field (fields_of (map pure_field fields.now))) }
    ensures few { OnOk result (length (names (fields_of (map pure_field fields.now))) < 2 ^ 32) }
    ensures in_range { OnOk result (FieldsInRange (fields_of (map pure_field fields.now))) }
{
    write_length(writer, fields.len())?;
    for field in fields {
        write_field(writer, field)?;
    }
    Ok(())
}

/// The bytes of a value in which no reference stands. Memory also where one of its lists or texts has 2^32 members or bytes
/// or more.
pub fn encode(alloc: Global, value: &Value) -> Result<Bytes, AllocError>
    requires { has_no_reference (pure_value value.now) ≡ true }
    ensures ok { IfOk result (λ bytes. bytes ≡ spec.value_bytes (pure_value value.now)) }
    ensures in_range { OnOk result (InRange (pure_value value.now)) }
{
    let mut writer = Writer::new(alloc);
    write_value(&mut writer, value)?;
    Ok(writer.finish())
}

/// The bytes of a type. Memory also where one of its lists or texts has 2^32 members or bytes or more.
pub fn encode_type(alloc: Global, t: &CadType) -> Result<Bytes, AllocError>
    ensures ok { IfOk result (λ bytes. bytes ≡ type_bytes (pure_type t.now)) }
    ensures in_range { OnOk result (TypeInRange (pure_type t.now)) }
{
    let mut writer = Writer::new(alloc);
    write_type(&mut writer, t)?;
    Ok(writer.finish())
}
