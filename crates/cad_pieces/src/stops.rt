// Where a program is ill-typed first.
ghost use Rattle.std.specs.Prelude.{◌≡◌, IfOk};
ghost use Rattle.cad_declarations.specs.Build as build;
ghost use Rattle.cad_declarations.specs.Views.{function_of};
ghost use Rattle.cad_typing.specs.Programs.{IllTyped};
ghost use Rattle.cad_pieces.specs.Answers.{StopAnswer};
ghost use Rattle.cad_pieces.specs.Code.Stops as spec;
ghost use Rattle.cad_pieces.specs.Views.{piece_of, piece_body_of, pieces_of};

use crate::piece::{Piece, PieceBody};
use crate::returns::lacks;
use cad_declarations::{Stop, TypedBody, TypedFunction};
use cad_syntax::Names;
use std::alloc::AllocError;

/// Where the first piece that typing refuses is refused: at its first statement that is ill-typed, and a function that lacks its
/// return at its number of statements. None where each is well-typed and returns.
pub fn types_stop(pieces: &[Piece]) -> Result<Option<Stop>, AllocError>
    ensures { IfOk result (λ stop. StopAnswer IllTyped (pieces_of pieces.now) stop) }
{
    first_stop(pieces)
}

/// Where the first piece that is refused is refused.
fn first_stop(pieces: &[Piece]) -> Result<Option<Stop>, AllocError>
    ensures { IfOk result (λ stop. stop ≡ spec.first_stop (pieces_of pieces.now)) }
{
    for piece in pieces {
        if let Some(stop) = piece_stop(piece)? {
            return Ok(Some(stop));
        }
    }
    Ok(None)
}

/// Where a piece is refused; None where it is well-typed and returns.
fn piece_stop(piece: &Piece) -> Result<Option<Stop>, AllocError>
    ensures { IfOk result (λ stop. stop ≡ spec.piece_stop (piece_of piece.now)) }
{
    match refused_at(piece) {
        Some(at) => Ok(Some(stop_at(&piece.inside, at)?)),
        None => Ok(None),
    }
}

/// The number of the statement at which a piece is refused.
fn refused_at(piece: &Piece) -> Option<u64>
    ensures { result ≡ spec.refused_at (piece_of piece.now).typing }
{
    match &piece.typing {
        Ok(body) => refused_body(body),
        Err(at) => Some(*at),
    }
}

/// The number of statements of a function that lacks its return; None of any other body.
fn refused_body(body: &PieceBody) -> Option<u64>
    ensures { result ≡ spec.refused_body (piece_body_of body.now) }
{
    match body {
        PieceBody::Body { body, .. } => match body {
            TypedBody::Function(function) => lacking(function),
            TypedBody::Initializer(_) => None,
            TypedBody::Transaction(_) => None,
        },
        PieceBody::Type(_) => None,
        PieceBody::Destroyed(_) => None,
        PieceBody::Plain => None,
    }
}

/// The number of statements of a function that lacks its return.
fn lacking(function: &TypedFunction) -> Option<u64>
    ensures { result ≡ spec.lacking (function_of function.now) }
{
    if lacks(function) {
        Some(function.statements)
    } else {
        None
    }
}

/// A place in a program.
fn stop_at(inside: &Names, at: u64) -> Result<Stop, AllocError>
    ensures { IfOk result (λ stop. stop ≡ build.stop_at inside.now at) }
{
    Ok(Stop {
        inside: inside.clone()?,
        at,
    })
}
