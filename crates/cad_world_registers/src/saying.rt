// What registers say, one by one.
ghost use Rattle.cad_codec.specs.Answers.{GivesAs};
ghost use Rattle.cad_state.specs.Views as views;
ghost use Rattle.cad_world_registers.specs.Meaning.{item_of};
ghost use Rattle.cad_world_registers.specs.Told as spec;

use crate::fields::{
    contract_at, lent_in, name_in, number_in, split_number, split_text, type_in, value_in,
};
use cad_accounts::Row;
use cad_codec::DecodeError;
use cad_state::{Controller, Publication};
use cad_syntax::{Bytes, Items, Name, TypeId};
use cad_values::Value;
use std::alloc::Global;

const HEAD: u8 = 0;

pub(crate) const NEXT: u8 = 1;

const CODE: u8 = 2;

const FIELDS: u8 = 3;

pub(crate) const STORED: u8 = 4;

pub(crate) const PUBLISHED: u8 = 5;

pub(crate) const CONTROLLER: u8 = 6;

/// What an account has more.
pub(crate) enum Change {
    /// A value under an identifier.
    Stored { name: Name, value: Value },
    Published(Publication),
    Controlled(Controller),
}

/// What one register says.
pub(crate) enum Said {
    /// How many accounts there are, and the next identity.
    Head { count: u64, identity: u64 },
    /// The number of an account's next controller.
    Next { address: u64, number: u64 },
    /// The code of a contract.
    Code { id: TypeId, code: Bytes },
    /// The value of a contract.
    Fields { id: TypeId, value: Value },
    /// That an account has something.
    Has { address: u64, change: Change },
}

/// How many accounts there are, and the next identity.
fn read_head(bytes: &[u8]) -> Result<Said, DecodeError>
    ensures { GivesAs item_of result (spec.head_in bytes.now) }
{
    let (count, rest) = split_number(bytes)?;
    let identity = number_in(rest)?;
    Ok(Said::Head { count, identity })
}

/// The number of an account's next controller.
fn read_next(place: &[u8], bytes: &[u8]) -> Result<Said, DecodeError>
    ensures { GivesAs item_of result (spec.next_in place.now bytes.now) }
{
    let address = number_in(place)?;
    let number = number_in(bytes)?;
    Ok(Said::Next { address, number })
}

/// The code of a contract.
fn read_code(alloc: Global, place: &[u8], bytes: &[u8]) -> Result<Said, DecodeError>
    ensures { GivesAs item_of result (spec.code_in place.now bytes.now) }
{
    let id = contract_at(alloc, place)?;
    let code = Items::from_slice(alloc, bytes)?;
    Ok(Said::Code { id, code })
}

/// The value of a contract.
fn read_fields(alloc: Global, place: &[u8], bytes: &[u8]) -> Result<Said, DecodeError>
    ensures { GivesAs item_of result (spec.fields_in place.now bytes.now) }
{
    let id = contract_at(alloc, place)?;
    let value = value_in(alloc, bytes)?;
    Ok(Said::Fields { id, value })
}

/// What an account stores under an identifier.
fn read_stored(alloc: Global, place: &[u8], bytes: &[u8]) -> Result<Said, DecodeError>
    ensures { GivesAs item_of result (spec.stored_in place.now bytes.now) }
{
    let (address, rest) = split_number(place)?;
    let name = name_in(alloc, rest)?;
    let value = value_in(alloc, bytes)?;
    Ok(Said::Has {
        address,
        change: Change::Stored { name, value },
    })
}

/// What an account publishes under an identifier.
fn read_published(alloc: Global, place: &[u8], bytes: &[u8]) -> Result<Said, DecodeError>
    ensures { GivesAs item_of result (spec.published_in place.now bytes.now) }
{
    let (address, rest) = split_number(place)?;
    let identifier = name_in(alloc, rest)?;
    let (number, lent) = lent_in(alloc, address, bytes)?;
    Ok(Said::Has {
        address,
        change: Change::Published(Publication {
            identifier,
            number,
            lent,
        }),
    })
}

/// The controller of a number that has these bytes.
fn read_controller(alloc: Global, number: u64, bytes: &[u8]) -> Result<Controller, DecodeError>
    ensures { GivesAs views.controller_of result (spec.controller_in number bytes.now) }
{
    let (target, rest) = split_text(bytes)?;
    let (tag, rest) = split_text(rest)?;
    let target = name_in(alloc, target)?;
    let tag = Items::from_slice(alloc, tag)?;
    let borrow = type_in(alloc, rest)?;
    Ok(Controller {
        number,
        borrow,
        tag,
        target,
    })
}

/// A controller of an account.
fn read_controlled(alloc: Global, place: &[u8], bytes: &[u8]) -> Result<Said, DecodeError>
    ensures { GivesAs item_of result (spec.controlled_in place.now bytes.now) }
{
    let (address, rest) = split_number(place)?;
    let number = number_in(rest)?;
    let controller = read_controller(alloc, number, bytes)?;
    Ok(Said::Has {
        address,
        change: Change::Controlled(controller),
    })
}

/// What a register of a kind says.
fn read_kind(alloc: Global, kind: u8, place: &[u8], bytes: &[u8]) -> Result<Said, DecodeError>
    ensures { GivesAs item_of result (spec.of_kind kind place.now bytes.now) }
{
    if kind == HEAD {
        return read_head(bytes);
    }
    if kind == NEXT {
        return read_next(place, bytes);
    }
    if kind == CODE {
        return read_code(alloc, place, bytes);
    }
    if kind == FIELDS {
        return read_fields(alloc, place, bytes);
    }
    if kind == STORED {
        return read_stored(alloc, place, bytes);
    }
    if kind == PUBLISHED {
        return read_published(alloc, place, bytes);
    }
    if kind == CONTROLLER {
        return read_controlled(alloc, place, bytes);
    }
    Err(DecodeError::Damaged)
}

/// What a register says. Damaged where no register of a World is so; what some are that aren't is left to who compares the
/// registers.
pub(crate) fn read_row(alloc: Global, row: &Row) -> Result<Said, DecodeError>
    ensures { GivesAs item_of result (spec.item_in row.now.key.0 row.now.value) }
{
    let [kind, place @ ..] = row.key.0.as_slice() else {
        return Err(DecodeError::Damaged);
    };
    read_kind(alloc, *kind, place, row.value.as_slice())
}
