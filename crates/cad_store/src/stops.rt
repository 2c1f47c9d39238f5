// Why a call on a store ended.
ghost use Rattle.std.specs.Prelude.{◌≡◌};
ghost use Rattle.cad_store.specs.declared.stops.OpenStop.TheVariants.{Failed, Memory};
ghost use Rattle.cad_store.specs.Stops.{stop_of};

use cad_tape::ScanStop;
use std::alloc::AllocError;

/// Why a store could not be opened.
#[derive(Clone, Copy, Debug, PartialEq, Eq)]
pub enum OpenStop {
    /// The disk failed.
    Failed,
    /// The tapes don't hold registers that are accepted.
    BadStore,
    /// Memory ran out.
    Memory,
}

/// Why changes were not made ready.
#[derive(Clone, Copy, Debug, PartialEq, Eq)]
pub enum ReadyStop {
    /// The registers would be over the store's room.
    Full,
    /// Memory ran out.
    Memory,
}

impl From<cad_host::Failed> for OpenStop {
    ghost from_gives = { λ _ stop. stop ≡ Failed };

    fn from(_failed: cad_host::Failed) -> OpenStop {
        OpenStop::Failed
    }
}

impl From<AllocError> for OpenStop {
    ghost from_gives = { λ _ stop. stop ≡ Memory };

    fn from(_error: AllocError) -> OpenStop {
        OpenStop::Memory
    }
}

impl From<ScanStop> for OpenStop {
    ghost from_gives = { λ stop own. own ≡ stop_of stop };

    fn from(stop: ScanStop) -> OpenStop {
        match stop {
            ScanStop::Failed => OpenStop::Failed,
            ScanStop::Damaged => OpenStop::BadStore,
            ScanStop::Memory => OpenStop::Memory,
        }
    }
}
