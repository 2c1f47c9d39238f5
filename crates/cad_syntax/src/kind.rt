// The kinds of numbers.
ghost use Rattle.std.specs.Prelude.{◌≡◌};
ghost use Rattle.cad_syntax.specs.Kinds as spec;

/// A kind of numbers. `Int` ranges over -2^127 to 2^127-1 and `UInt` over 0 to 2^128-1, the others over as many bits as
/// their names say. `Fix64` and `UFix64` have 8 decimals over 64 bits, and `Address` 64 bits.
#[derive(Clone, Copy, Debug, PartialEq, Eq)]
pub enum Kind {
    Int,
    Int8,
    Int16,
    Int32,
    Int64,
    Int128,
    UInt,
    UInt8,
    UInt16,
    UInt32,
    UInt64,
    UInt128,
    Word8,
    Word16,
    Word32,
    Word64,
    Word128,
    Fix64,
    UFix64,
    Address,
}

impl Kind {
    /// The greatest number of this kind; of a fixed-point kind scaled by 10^8.
    pub fn greatest(self) -> u128
        ensures { result ≡ spec.greatest self }
    {
        match self {
            Kind::Int | Kind::Int128 => i128::MAX as u128,
            Kind::Int8 => i8::MAX as u128,
            Kind::Int16 => i16::MAX as u128,
            Kind::Int32 => i32::MAX as u128,
            Kind::Int64 | Kind::Fix64 => i64::MAX as u128,
            Kind::UInt | Kind::UInt128 | Kind::Word128 => u128::MAX,
            Kind::UInt8 | Kind::Word8 => u8::MAX as u128,
            Kind::UInt16 | Kind::Word16 => u16::MAX as u128,
            Kind::UInt32 | Kind::Word32 => u32::MAX as u128,
            Kind::UInt64 | Kind::Word64 | Kind::UFix64 | Kind::Address => u64::MAX as u128,
        }
    }

    /// How far this kind goes below 0: the magnitude of its least number.
    pub fn depth(self) -> u128
        ensures { result ≡ spec.depth self }
    {
        match self {
            Kind::Int | Kind::Int128 => 1 << 127,
            Kind::Int8 => 1 << 7,
            Kind::Int16 => 1 << 15,
            Kind::Int32 => 1 << 31,
            Kind::Int64 | Kind::Fix64 => 1 << 63,
            _ => 0,
        }
    }
}
