// The words of values.
ghost use Rattle.std.specs.Prelude.{◌≡◌};
ghost use Rattle.cad_json.specs.Words as spec;

use cad_syntax::{Domain, Kind};
use cad_types::Sort;

/// The word of a kind of numbers.
pub fn kind_word(kind: Kind) -> &'static str
    ensures { result.now ≡ spec.kind_word kind }
{
    match kind {
        Kind::Int => "Int",
        Kind::Int8 => "Int8",
        Kind::Int16 => "Int16",
        Kind::Int32 => "Int32",
        Kind::Int64 => "Int64",
        Kind::Int128 => "Int128",
        Kind::UInt => "UInt",
        Kind::UInt8 => "UInt8",
        Kind::UInt16 => "UInt16",
        Kind::UInt32 => "UInt32",
        Kind::UInt64 => "UInt64",
        Kind::UInt128 => "UInt128",
        Kind::Word8 => "Word8",
        Kind::Word16 => "Word16",
        Kind::Word32 => "Word32",
        Kind::Word64 => "Word64",
        Kind::Word128 => "Word128",
        Kind::Fix64 => "Fix64",
        Kind::UFix64 => "UFix64",
        Kind::Address => "Address",
    }
}

/// The word of a domain.
pub fn domain_word(domain: Domain) -> &'static str
    ensures { result.now ≡ spec.domain_word domain }
{
    match domain {
        Domain::Storage => "storage",
        Domain::Public => "public",
    }
}

/// The word of a sort of composites. Contracts and interfaces have none.
pub fn sort_word(sort: Sort) -> &'static str
    ensures { result.now ≡ spec.sort_word sort }
{
    match sort {
        Sort::Struct => "Struct",
        Sort::Resource => "Resource",
        Sort::Event => "Event",
        Sort::Enum => "Enum",
        Sort::Contract | Sort::StructInterface | Sort::ResourceInterface => "",
    }
}
