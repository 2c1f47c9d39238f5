// The phases behind the tables, in their order.
ghost use Rattle.std.specs.Prelude.{IfOk, None};
ghost use Rattle.cad_check.specs.Answers.{Conformance, FirstOf, piece_refused};
ghost use Rattle.cad_check.specs.declared.refusals.BodyPhase.TheVariants as phase;
ghost use Rattle.cad_declarations.specs.Views.{tables_of};
ghost use Rattle.cad_pieces.specs.Answers.{StopAnswer};
ghost use Rattle.cad_pieces.specs.Views.{pieces_of};
ghost use Rattle.cad_typing.specs.Programs.{IllTyped};

use crate::refusals::{BodyPhase, piece_stop};
use cad_conform::conforms;
use cad_declarations::{Refused, Stop, Tables};
use cad_grammar::Phase;
use cad_pieces::{Piece, types_stop};
use std::alloc::{AllocError, Global};

/// Where a phase refuses the first of these pieces.
fn pieces_stop(
    alloc: Global,
    tables: &Tables,
    phase: BodyPhase,
    pieces: &[Piece],
) -> Result<Option<Stop>, AllocError>
    ensures { IfOk result (λ stop. StopAnswer (piece_refused (tables_of tables.now) phase) (pieces_of pieces.now) stop) }
{
    for piece in pieces {
        match piece_stop(alloc, tables, phase, piece)? {
            Some(stop) => return Ok(Some(stop)),
            None => {}
        }
    }
    Ok(None)
}

/// The first type of the program's contract that doesn't meet its interfaces.
fn unmet(alloc: Global, tables: &Tables) -> Result<Option<Stop>, AllocError>
    ensures { IfOk result (λ stop. Conformance (tables_of tables.now) stop) }
{
    match conforms(alloc, tables) {
        Ok(()) => Ok(None),
        Err(Refused::Is(stop)) => Ok(Some(stop)),
        Err(Refused::Memory) => Err(AllocError),
    }
}

/// Where initialisation refuses pieces that nothing before it refuses.
fn behind_purity(
    alloc: Global,
    tables: &Tables,
    pieces: &[Piece],
) -> Result<Option<(Phase, Stop)>, AllocError>
    ensures { StopAnswer IllTyped (pieces_of pieces.now) None → Conformance (tables_of tables.now) None → StopAnswer (piece_refused (tables_of tables.now) phase.Moves) (pieces_of pieces.now) None → StopAnswer (piece_refused (tables_of tables.now) phase.Purity) (pieces_of pieces.now) None → IfOk result (FirstOf (tables_of tables.now) (pieces_of pieces.now)) }
{
    match pieces_stop(alloc, tables, BodyPhase::Initialisation, pieces)? {
        Some(stop) => Ok(Some((Phase::Initialisation, stop))),
        None => Ok(None),
    }
}

/// Where purity or initialisation refuses pieces that nothing before them refuses.
fn behind_moves(
    alloc: Global,
    tables: &Tables,
    pieces: &[Piece],
) -> Result<Option<(Phase, Stop)>, AllocError>
    ensures { StopAnswer IllTyped (pieces_of pieces.now) None → Conformance (tables_of tables.now) None → StopAnswer (piece_refused (tables_of tables.now) phase.Moves) (pieces_of pieces.now) None → IfOk result (FirstOf (tables_of tables.now) (pieces_of pieces.now)) }
{
    match pieces_stop(alloc, tables, BodyPhase::Purity, pieces)? {
        Some(stop) => Ok(Some((Phase::Purity, stop))),
        None => behind_purity(alloc, tables, pieces),
    }
}

/// Where moves, purity or initialisation refuse pieces that nothing before them refuses.
fn behind_conformance(
    alloc: Global,
    tables: &Tables,
    pieces: &[Piece],
) -> Result<Option<(Phase, Stop)>, AllocError>
    ensures { StopAnswer IllTyped (pieces_of pieces.now) None → Conformance (tables_of tables.now) None → IfOk result (FirstOf (tables_of tables.now) (pieces_of pieces.now)) }
{
    match pieces_stop(alloc, tables, BodyPhase::Moves, pieces)? {
        Some(stop) => Ok(Some((Phase::Moves, stop))),
        None => behind_moves(alloc, tables, pieces),
    }
}

/// Where conformance or what is judged behind it refuses pieces that are well-typed.
fn behind_types(
    alloc: Global,
    tables: &Tables,
    pieces: &[Piece],
) -> Result<Option<(Phase, Stop)>, AllocError>
    ensures { StopAnswer IllTyped (pieces_of pieces.now) None → IfOk result (FirstOf (tables_of tables.now) (pieces_of pieces.now)) }
{
    match unmet(alloc, tables)? {
        Some(stop) => Ok(Some((Phase::Conformance, stop))),
        None => behind_conformance(alloc, tables, pieces),
    }
}

/// The first phase that refuses a program's pieces, and where; None where none does. The phases are tried in their order.
pub fn first_refusal(
    alloc: Global,
    tables: &Tables,
    pieces: &[Piece],
) -> Result<Option<(Phase, Stop)>, AllocError>
    ensures { IfOk result (FirstOf (tables_of tables.now) (pieces_of pieces.now)) }
{
    match types_stop(pieces)? {
        Some(stop) => Ok(Some((Phase::Types, stop))),
        None => behind_types(alloc, tables, pieces),
    }
}
