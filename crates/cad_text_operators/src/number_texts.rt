// Texts and bytes of numbers and addresses.
ghost use Rattle.std.specs.Prelude.{◌≡◌, ◌≢◌, ◌++◌, OnOk, option_and_then, option_map};
ghost use Rattle.cad_evaluation.specs.Numbers as numbers;
ghost use Rattle.cad_evaluation.specs.Numbers.{number_from};
ghost use Rattle.cad_evaluation.specs.Texts as spec;
ghost use Rattle.cad_num.specs.Decimal.{read_of, written};
ghost use Rattle.cad_num.specs.Numbers as words;
ghost use Rattle.cad_num.specs.Numbers.{value_of};
ghost use Rattle.cad_outcomes.specs.Outcomes.{Gives};
ghost use Rattle.cad_rows.specs.Views.{pure_tree};
ghost use Rattle.cad_values.specs.Values.{pure_value};
ghost use Rattle.cad_world.specs.State.{give, with_some};

use crate::bytes::bytes_tree;
use crate::texts::{text_in, text_tree};
use cad_operators::{nil_tree, number_in, number_tree, plain_value, twos_complement, wrapped};
use cad_outcomes::Stop;
use cad_rows::Tree;
use cad_syntax::{Address, Bytes, Kind, Num};
use cad_values::Value;
use std::alloc::{AllocError, Global};

/// The number of 64 bits with the magnitude of an address.
#[tactic(auto, using(crate::proofs::Numerals::kept_alike))]
fn of_64_bits(x: Num) -> Num
    requires { x.kind ≡ Kind.Address }
    ensures kind { result.kind ≡ Kind.UInt64 }
    ensures text { written result ≡ written x }
{
    Num {
        kind: Kind::UInt64,
        negative: x.negative,
        magnitude: x.magnitude,
    }
}

/// A number of another kind than `Address` with the same text.
fn written_alike(x: Num) -> Num
    ensures kind { result.kind ≢ Kind.Address }
    ensures text { written result ≡ written x }
{
    match x.kind {
        Kind::Address => of_64_bits(x),
        _ => x,
    }
}

/// The text of a number, as a value.
fn number_told(alloc: Global, x: Num) -> Result<Tree, Stop>
    ensures { Gives pure_tree (give (spec.text_tree (written x))) result }
{
    match cad_num::write_decimal(alloc, written_alike(x)) {
        Ok(text) => Ok(text_tree(alloc, text)),
        Err(_) => Err(Stop::Memory),
    }
}

/// The text of a number. IllTyped of all else.
pub fn number_text(alloc: Global, tree: &Tree) -> Result<Tree, Stop>
    ensures { Gives pure_tree (spec.number_text (pure_tree tree.now)) result }
{
    match number_in(tree) {
        Some(x) => number_told(alloc, x),
        None => Err(Stop::IllTyped),
    }
}

/// The address with the magnitude of a number of 64 bits.
#[tactic(auto, using(crate::proofs::Numerals::kept_back))]
fn as_address(x: Num) -> Num
    requires { x.kind ≡ Kind.UInt64 }
    ensures kind { result.kind ≡ Kind.Address }
    ensures value { value_of result ≡ value_of x }
{
    Num {
        kind: Kind::Address,
        negative: x.negative,
        magnitude: x.magnitude,
    }
}

/// The address number that a text writes.
fn read_address(text: &str) -> Option<Num>
    ensures { result ≡ option_and_then (number_from Kind.Address) (read_of Kind.Address text.now) }
{
    match cad_num::read_decimal(Kind::UInt64, text) {
        Some(x) => Some(as_address(x)),
        None => None,
    }
}

/// The number of a kind that a text writes.
fn read(kind: Kind, text: &str) -> Option<Num>
    ensures { result ≡ option_and_then (number_from kind) (read_of kind text.now) }
{
    if kind == Kind::Address {
        return read_address(text);
    }
    cad_num::read_decimal(kind, text)
}

/// A number in an optional, or nil.
fn optional_number(alloc: Global, number: Option<Num>) -> Tree
    ensures { pure_tree result ≡ spec.optional_tree (option_map numbers.number_tree number) }
{
    match number {
        Some(x) => wrapped(number_tree(alloc, x)),
        None => nil_tree(alloc),
    }
}

/// The number of a kind that a text writes, or nil. IllTyped of what is no text.
pub fn number_read(alloc: Global, kind: Kind, tree: &Tree) -> Result<Tree, Stop>
    ensures { Gives pure_tree (spec.number_read kind (pure_tree tree.now)) result }
{
    match text_in(tree) {
        Some(text) => Ok(optional_number(alloc, read(kind, text))),
        None => Err(Stop::IllTyped),
    }
}

/// How many bytes the numbers of a kind have, if all have as many.
fn width(kind: Kind) -> Option<u32>
    ensures { result ≡ spec.width kind }
{
    match kind {
        Kind::Int8 | Kind::UInt8 | Kind::Word8 => Some(1),
        Kind::Int16 | Kind::UInt16 | Kind::Word16 => Some(2),
        Kind::Int32 | Kind::UInt32 | Kind::Word32 => Some(4),
        Kind::Int64 | Kind::UInt64 | Kind::Word64 => Some(8),
        Kind::Int128 | Kind::UInt128 | Kind::Word128 => Some(16),
        _ => None,
    }
}

/// Appends the lowest bytes of a number, as many as `count` says, the highest of them first.
#[tactic(auto, using(crate::proofs::Numerals::big_endian_none, crate::proofs::Numerals::big_endian_more))]
fn push_big_endian(bytes: &mut Bytes, count: u32, number: u128) -> Result<(), AllocError>
    ensures { OnOk result (bytes.new ≡ bytes.old ++ spec.big_endian count number) }
{
    if count == 0 {
        return Ok(());
    }
    push_big_endian(bytes, count - 1, number / 256)?;
    bytes.push((number % 256) as u8)
}

/// The lowest bytes of a number, as an array.
fn big_endian_tree(alloc: Global, count: u32, number: u128) -> Result<Tree, Stop>
    ensures { Gives pure_tree (spec.bytes_tree (spec.big_endian count number)) result }
{
    let mut bytes = Bytes::new(alloc);
    match push_big_endian(&mut bytes, count, number) {
        Ok(()) => bytes_tree(alloc, bytes.as_slice()),
        Err(_) => Err(Stop::Memory),
    }
}

/// The bytes of a number, as an array.
fn bytes_of_number(alloc: Global, x: Num) -> Result<Tree, Stop>
    ensures { Gives pure_tree (with_some (spec.width x.kind) (λ n. spec.bytes_tree (spec.big_endian n (words.twos_complement x.kind (value_of x))))) result }
{
    match width(x.kind) {
        Some(count) => big_endian_tree(alloc, count, twos_complement(x)),
        None => Err(Stop::IllTyped),
    }
}

/// The bytes of a number in two's complement, the highest first. IllTyped of kinds whose numbers have no fixed size, and of
/// all else.
pub fn number_bytes(alloc: Global, tree: &Tree) -> Result<Tree, Stop>
    ensures { Gives pure_tree (spec.number_bytes (pure_tree tree.now)) result }
{
    match number_in(tree) {
        Some(x) => bytes_of_number(alloc, x),
        None => Err(Stop::IllTyped),
    }
}

/// The address that a value is.
fn address_in_value(value: &Value) -> Option<Address>
    ensures { result ≡ spec.address_in_value (pure_value value.now) }
{
    match value {
        Value::Address(address) => Some(*address),
        _ => None,
    }
}

/// The address that a tree is.
pub fn address_in(tree: &Tree) -> Option<Address>
    ensures { result ≡ spec.in_tree spec.address_in_value (pure_tree tree.now) }
{
    match plain_value(tree) {
        Some(value) => address_in_value(value),
        None => None,
    }
}

/// The 8 bytes of an address.
pub fn address_bytes(alloc: Global, address: Address) -> Result<Tree, Stop>
    ensures { Gives pure_tree (spec.address_bytes address) result }
{
    big_endian_tree(alloc, 8, u128::from(address.0))
}

/// The text of an address.
pub fn address_text(alloc: Global, address: Address) -> Result<Tree, Stop>
    ensures { Gives pure_tree (spec.address_told address) result }
{
    match address.to_hex(alloc) {
        Ok(text) => Ok(text_tree(alloc, text)),
        Err(_) => Err(Stop::Memory),
    }
}
