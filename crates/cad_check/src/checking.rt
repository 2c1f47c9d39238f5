// The check of a program.
ghost use Rattle.std.specs.Prelude.{◌≡◌, IfOk, None, Ok};
ghost use Rattle.cad_acceptance.specs.Stops.{Subject, as_a_whole, subject, subject_tables};
ghost use Rattle.cad_check.specs.Answers.{FirstOf, Gathered, Verdict};
ghost use Rattle.cad_declarations.specs.Views.{tables_of};
ghost use Rattle.cad_grammar.specs.Views.{program_of};
ghost use Rattle.cad_tables.specs.Views.{contracts_of};
ghost use Rattle.cad_typing.specs.Pieces.{program_pieces};
ghost use Rattle.cad_pieces.specs.Views.{pieces_of};

use crate::phases::first_refusal;
use cad_bodies::pieces;
use cad_declarations::{Bodies, Checked, Deployed, Rejected, Stop, Tables};
use cad_discards::{discard_program, discard_tables};
use cad_environment::Known;
use cad_grammar::{Phase, Program};
use cad_heights::is_too_high;
use cad_pieces::{Piece, bodies, discard_pieces};
use cad_syntax::{Address, Names};
use cad_table_laws::imports_are_enough;
use cad_tables::build;
use std::alloc::{AllocError, Global};

/// A stop of a phase.
fn rejected(phase: Phase, stop: Stop) -> Rejected
    ensures { result ≡ record { phase = phase; inside = stop.inside; at = stop.at } }
{
    Rejected {
        phase,
        inside: stop.inside,
        at: stop.at,
    }
}

/// What typing makes of a program.
fn program_pieces(
    alloc: Global,
    tables: &Tables,
    program: &Program,
) -> Result<Vec<Piece>, AllocError>
    ensures { IfOk result (λ all. pieces_of all.items ≡ program_pieces (tables_of tables.now) (program_of program.now)) }
{
    let kinds = tables.kinds(alloc)?;
    pieces(alloc, Known::new(tables, &kinds), program)
}

/// The bodies of a program, out of its pieces, of which no phase refuses one.
fn accepted_bodies(
    alloc: Global,
    tables: &Tables,
    program: &Program,
    pieces: Vec<Piece>,
) -> Result<Result<Bodies, (Phase, Stop)>, AllocError>
    ensures { pieces_of pieces.items ≡ program_pieces (tables_of tables.now) (program_of program.now) → FirstOf (tables_of tables.now) (pieces_of pieces.items) None → IfOk result (Gathered (tables_of tables.now) (program_of program.now)) }
{
    let made = bodies(alloc, tables, program, pieces)?;
    Ok(Ok(made))
}

/// The bodies of a program with these tables, where no phase refuses it; else the phase that refuses it first, and where.
fn gathered(
    alloc: Global,
    tables: &Tables,
    program: &Program,
) -> Result<Result<Bodies, (Phase, Stop)>, AllocError>
    ensures { IfOk result (Gathered (tables_of tables.now) (program_of program.now)) }
{
    let pieces = program_pieces(alloc, tables, program)?;
    match first_refusal(alloc, tables, pieces.as_slice()) {
        Ok(None) => accepted_bodies(alloc, tables, program, pieces),
        Ok(Some(refusal)) => {
            discard_pieces(pieces);
            Ok(Err(refusal))
        }
        Err(error) => {
            discard_pieces(pieces);
            Err(error)
        }
    }
}

/// The check of a program with these tables.
fn check_with(
    alloc: Global,
    tables: Tables,
    program: Program,
) -> Result<Result<Checked, Rejected>, AllocError>
    ensures { IfOk result (λ verdict. (s : Subject) → s.program ≡ program_of program → subject_tables s ≡ Ok (tables_of tables) → Verdict s verdict) }
{
    match gathered(alloc, &tables, &program) {
        Ok(Ok(bodies)) => Ok(Ok(Checked {
            program,
            tables,
            bodies,
        })),
        Ok(Err(refusal)) => {
            discard_program(program);
            discard_tables(tables);
            Ok(Err(rejected(refusal.0, refusal.1)))
        }
        Err(error) => {
            discard_program(program);
            discard_tables(tables);
            Err(error)
        }
    }
}

/// The rejection of a program that is too high: as a whole.
fn too_high(alloc: Global) -> Rejected
    ensures { result ≡ record { phase = Phase.Resolve; inside = as_a_whole.inside; at = as_a_whole.at } }
{
    Rejected {
        phase: Phase::Resolve,
        inside: Names::new(alloc),
        at: 0,
    }
}

/// The program with its tables and elaborated bodies, where no phase refuses it at a place beside deployed contracts; else the
/// phase that refuses it first, and where.
pub fn check(
    alloc: Global,
    program: Program,
    place: Option<Address>,
    deployed: &Deployed,
) -> Result<Result<Checked, Rejected>, AllocError>
    ensures { IfOk result (λ verdict. Verdict (subject (contracts_of deployed.now) place (program_of program)) verdict) }
{
    imports_are_enough();
    if is_too_high(&program) {
        discard_program(program);
        return Ok(Err(too_high(alloc)));
    }
    match build(alloc, &program, place, deployed) {
        Ok(Ok(tables)) => check_with(alloc, tables, program),
        Ok(Err(stop)) => {
            discard_program(program);
            Ok(Err(rejected(Phase::Resolve, stop)))
        }
        Err(error) => {
            discard_program(program);
            Err(error)
        }
    }
}
