// Why an action of a program has no value.
use crate::error::RunError;
use std::alloc::AllocError;

/// Why an action has no value: it fails, a unit is due and none is left, a value isn't of the type that it should have, or
/// memory ran out.
#[derive(Clone, Copy, Debug, PartialEq, Eq)]
pub enum Stop {
    Failed(RunError),
    Limit,
    IllTyped,
    Memory,
}

impl From<AllocError> for Stop {
    ghost use Rattle.std.specs.Prelude.{◌≡◌};
    ghost use Rattle.cad_outcomes.specs.declared.stop.Stop.TheVariants.{Memory};

    ghost from_gives = { λ _ stop. stop ≡ Memory };

    fn from(_: AllocError) -> Stop {
        Stop::Memory
    }
}
