// The body of a record: the format byte, and a list of entries.
ghost use Rattle.std.specs.Prelude.{◌≡◌, ◌<◌, ◌^◌, ◌++◌, ◌∷◌, [], List, ℕ, true, length, IfOk, OnOk, OnErr, Some};
ghost use Rattle.cad_wire.specs.Fields.{bytes_field};
ghost use Rattle.cad_wire.specs.Body.{change_field, entry_field, body_bytes, are_ascending, FewEnough, Fits, IsRecord};
ghost use Rattle.cad_wire.specs.Reading.{change_at, entry_at, entries_at, entries_of, Gives, Reads};

use crate::entry::{Entries, Entry, Key};
use crate::error::DecodeError;
use crate::reader::Reader;
use crate::writer::Writer;
use cad_syntax::{Bytes, Items};
use std::alloc::{AllocError, Global};

const FORMAT: u8 = 1;

const REMOVED: u8 = 0;

const PRESENT: u8 = 1;

fn write_string(writer: &mut Writer, bytes: &[u8]) -> Result<(), AllocError>
    ensures ok { OnOk result (writer.new ≡ writer.old ++ bytes_field bytes.now) }
    ensures few { OnOk result (length bytes.now < 2 ^ 32) }
{
    if bytes.len() > u32::MAX as usize {
        return Err(AllocError);
    }
    writer.bytes(bytes)
}

fn write_entry(writer: &mut Writer, entry: &Entry) -> Result<(), AllocError>
    ensures ok { OnOk result (writer.new ≡ writer.old ++ entry_field entry.now) }
    ensures fits { OnOk result (Fits entry.now) }
{
    write_string(writer, entry.key.0.as_slice())?;
    match &entry.value {
        None => writer.byte(REMOVED),
        Some(value) => {
            writer.byte(PRESENT)?;
            write_string(writer, value.as_slice())
        }
    }
}

/// The body of a record with these entries. Memory where they or one of their byte strings are 2^32 or more.
pub fn write_entries(alloc: Global, entries: &[Entry]) -> Result<Bytes, AllocError>
    ensures bytes { IfOk result (λ b. b ≡ body_bytes entries.now) }
    ensures few { OnOk result (FewEnough entries.now) }
{
    if entries.len() > u32::MAX as usize {
        return Err(AllocError);
    }
    let mut writer = Writer::new(alloc);
    writer.byte(FORMAT)?;
    writer.length(entries.len() as u32)?;
    for entry in entries {
        write_entry(&mut writer, entry)?;
    }
    Ok(writer.finish())
}

#[tactic(auto, unfolding(crate::specs::Reading::change_at))]
fn read_change(alloc: Global, reader: &mut Reader<'_>) -> Result<Option<Bytes>, DecodeError>
    ensures { Reads result (change_at reader.old) reader.new }
{
    match reader.byte()? {
        REMOVED => Ok(None),
        PRESENT => {
            let bytes = reader.bytes()?;
            Ok(Some(Items::from_slice(alloc, bytes)?))
        }
        _ => Err(DecodeError::Damaged),
    }
}

#[tactic(auto, unfolding(crate::specs::Reading::entry_at))]
fn read_entry(alloc: Global, reader: &mut Reader<'_>) -> Result<Entry, DecodeError>
    ensures { Reads result (entry_at reader.old) reader.new }
{
    let bytes = reader.bytes()?;
    let key = Key(Items::from_slice(alloc, bytes)?);
    let value = read_change(alloc, reader)?;
    Ok(Entry { key, value })
}

fn read_members(alloc: Global, count: u32, reader: &mut Reader<'_>) -> Result<Entries, DecodeError>
    ensures { Reads result (entries_at count reader.old) reader.new }
{
    let mut entries = Items::new(alloc);
    for _ in 0..count {
        let entry = read_entry(alloc, reader)?;
        entries.push(entry)?;
    }
    Ok(entries)
}

fn is_ascending(entries: &[Entry]) -> bool
    ensures { result ≡ are_ascending entries.now }
{
    for i in 1..entries.len() {
        let before = entries[i - 1].key.0.as_slice();
        if !before.cmp(entries[i].key.0.as_slice()).is_lt() {
            return false;
        }
    }
    true
}

#[tactic(auto, unfolding(crate::specs::Reading::entries_of))]
fn read_body(alloc: Global, bytes: &[u8]) -> Result<Entries, DecodeError>
    ensures { Gives result (entries_of bytes.now) }
{
    let mut reader = Reader::new(bytes);
    if reader.byte()? != FORMAT {
        return Err(DecodeError::Damaged);
    }
    let count = reader.length()?;
    let entries = read_members(alloc, count, &mut reader)?;
    if reader.left() > 0 || !is_ascending(entries.as_slice()) {
        return Err(DecodeError::Damaged);
    }
    Ok(entries)
}

/// The entries of the record with this body. Damaged exactly where the bytes are no body.
pub fn read_entries(alloc: Global, bytes: &[u8]) -> Result<Entries, DecodeError>
    // What is read is spelled so.
    ensures found { IfOk result (λ entries. IsRecord entries × (bytes.now ≡ body_bytes entries)) }
    // What is spelled so is read, unless memory runs out.
    ensures only { (entries : List Entry) → IsRecord entries → bytes.now ≡ body_bytes entries → Gives result (Some entries) }
    ensures exact { Gives result (entries_of bytes.now) }
{
    read_body(alloc, bytes)
}
