// What a program declares, piece by piece.
use cad_declarations::{DestroyedEvent, TypedBody};
use cad_paths::FieldRule;
use cad_syntax::{Names, TypeId};
use cad_typed_rows::{discard_body, discard_destroyed};

/// What the phases behind typing judge.
#[derive(Drop)]
pub enum PieceBody {
    /// A contract, struct or resource, whose fields its initializer sets; or an interface.
    Type(TypeId),
    /// A function; an initializer, whose type is the owner; or a transaction, with the rules of its fields.
    Body {
        owner: Option<TypeId>,
        rules: Vec<FieldRule>,
        body: TypedBody,
    },
    /// The event `ResourceDestroyed`.
    Destroyed(DestroyedEvent),
    /// An event, an enum, or a part of a transaction, in which nothing is left to judge.
    Plain,
}

/// A declaration or function by its names, and what it is, or the number of its first statement that is ill-typed.
#[derive(Drop)]
pub struct Piece {
    pub inside: Names,
    pub typing: Result<PieceBody, u64>,
}

/// Lets go what the phases behind typing judge.
pub fn discard_piece_body(body: PieceBody) {
    match body {
        PieceBody::Type(_) => {}
        PieceBody::Body { body, .. } => discard_body(body),
        PieceBody::Destroyed(event) => discard_destroyed(event),
        PieceBody::Plain => {}
    }
}

/// Lets a piece go.
pub fn discard_piece(piece: Piece) {
    let Piece { typing, inside: _ } = piece;
    match typing {
        Ok(body) => discard_piece_body(body),
        Err(_) => {}
    }
}

/// Lets pieces go, from the last one on.
pub fn discard_pieces(pieces: Vec<Piece>) {
    let mut left = pieces;
    while let Some(piece) = left.pop() {
        discard_piece(piece);
    }
    left.destroy_empty()
}
