// Why a tape could not be read.
ghost use Rattle.std.specs.Prelude.{◌≡◌};
ghost use Rattle.cad_tape.specs.declared.stop.ScanStop.TheVariants.{Failed, Memory};
ghost use Rattle.cad_tape.specs.Stops.{stop_of};

use cad_wire::DecodeError;
use std::alloc::AllocError;

/// Why a tape could not be read.
#[derive(Clone, Copy, Debug, PartialEq, Eq)]
pub enum ScanStop {
    /// The disk failed.
    Failed,
    /// The tape's bytes aren't those of records.
    Damaged,
    /// Memory ran out.
    Memory,
}

impl From<cad_host::Failed> for ScanStop {
    ghost from_gives = { λ _ stop. stop ≡ Failed };

    fn from(_failed: cad_host::Failed) -> ScanStop {
        ScanStop::Failed
    }
}

impl From<AllocError> for ScanStop {
    ghost from_gives = { λ _ stop. stop ≡ Memory };

    fn from(_error: AllocError) -> ScanStop {
        ScanStop::Memory
    }
}

impl From<DecodeError> for ScanStop {
    ghost from_gives = { λ error stop. stop ≡ stop_of error };

    fn from(error: DecodeError) -> ScanStop {
        match error {
            DecodeError::Damaged => ScanStop::Damaged,
            DecodeError::Memory => ScanStop::Memory,
        }
    }
}
