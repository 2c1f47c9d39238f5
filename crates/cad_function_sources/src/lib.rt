//! What a type declares that takes part in calls: a function, as it and its interfaces have it, its initializer, and the event
//! that tells of its end.
#![tactic(auto)]

mod sources;

pub use sources::{
    Piece, Source, destroyed_event, discard_own, discard_source, discard_sources,
    initializer_piece, interface_sources, piece_of, pieces_of, source_of,
};
