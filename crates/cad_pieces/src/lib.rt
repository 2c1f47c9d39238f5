//! What a program declares, piece by piece: where one is refused first by typing, and the bodies that they give.
#![tactic(auto)]

mod comes;
mod ends;
mod gather;
mod piece;
mod returns;
mod stops;

pub use gather::bodies;
pub use piece::{Piece, PieceBody};
// For the crates above, which let nothing with a tree in it go in another way.
pub use piece::{discard_piece, discard_piece_body, discard_pieces};
pub use returns::lacks_return;
pub use stops::types_stop;
