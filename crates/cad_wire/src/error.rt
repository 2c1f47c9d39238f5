// Why bytes could not be read.
ghost use Rattle.std.specs.Prelude.{◌≡◌};
ghost use Rattle.cad_wire.specs.declared.error.DecodeError.TheVariants.{Damaged, Memory};

use crate::reader::Short;
use std::alloc::{AllocError, AllocFailed};

/// Why bytes could not be read.
#[derive(Clone, Copy, Debug, PartialEq, Eq)]
pub enum DecodeError {
    /// Nothing has these bytes.
    Damaged,
    /// Memory ran out.
    Memory,
}

impl From<Short> for DecodeError {
    ghost from_gives = { λ _ e. e ≡ Damaged };

    fn from(_short: Short) -> DecodeError {
        DecodeError::Damaged
    }
}

impl From<AllocError> for DecodeError {
    ghost from_gives = { λ _ e. e ≡ Memory };

    fn from(_error: AllocError) -> DecodeError {
        DecodeError::Memory
    }
}
