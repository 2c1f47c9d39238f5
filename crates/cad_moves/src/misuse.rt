// How a variable is misused.
use cad_paths::{MoveKind, Position};
use cad_syntax::Name;

/// A variable that is misused, how, and where.
#[derive(Drop)]
pub struct Misuse {
    pub variable: Name,
    /// How many variables were in scope when it was declared.
    pub number: u64,
    pub kind: MoveKind,
    pub at: Position,
}

/// Why moves are refused, or couldn't be judged.
#[derive(Drop)]
pub enum MoveStop {
    /// The first misuse.
    At(Misuse),
    /// There was no memory.
    Memory,
}
