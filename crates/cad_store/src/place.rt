// Where the next record goes.
use cad_host::Tape;

/// Where the next record goes.
#[derive(Clone, Copy, Debug, PartialEq, Eq)]
pub enum Place {
    /// At this gate, which ends the records of the tape in use.
    Behind(Tape, u64),
    /// Onto this tape, since the one in use is empty.
    Onto(Tape),
}
