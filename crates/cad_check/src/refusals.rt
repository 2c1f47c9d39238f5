// What the phases behind conformance refuse of a piece.
ghost use Rattle.std.specs.Prelude.{◌≡◌, ◌∷◌, [], IfOk, Some, option_copied, option_map, unwrap_or};
ghost use Rattle.cad_acceptance.specs.Bodies as spec;
ghost use Rattle.cad_acceptance.specs.Bodies.{MisMoved};
ghost use Rattle.cad_check.specs.Answers.{Tells, Unset, body_refused, piece_refused, position_refused};
ghost use Rattle.cad_declarations.specs.Build.{stop_at};
ghost use Rattle.cad_declarations.specs.Entries.{no_id};
ghost use Rattle.cad_declarations.specs.Members.{type_in};
ghost use Rattle.cad_declarations.specs.Points.{word};
ghost use Rattle.cad_declarations.specs.Views.{part_of, destroyed_of, tables_of};
ghost use Rattle.cad_paths.specs.Fields as fields;
ghost use Rattle.cad_pieces.specs.Views.{piece_of, body_piece, piece_body_of};
ghost use Rattle.cad_typing.specs.Pieces as p;

use cad_declarations::{DestroyedEvent, Stop, Tables, TypedBody};
use cad_moves::{MoveStop, moves};
use cad_paths::{BodyPart, FieldRule, Position};
use cad_pieces::{Piece, PieceBody};
use cad_pure::{impurity, initialised, is_pure_event, lacks_initializer, rules_in};
use cad_syntax::{Address, Name, Names, Text, TypeId};
use std::alloc::{AllocError, Global};

/// A phase that judges bodies.
#[derive(Clone, Copy)]
pub enum BodyPhase {
    Moves,
    Purity,
    Initialisation,
}

/// Where a phase refuses a piece; None where it doesn't. What is ill-typed is judged by no such phase.
pub fn piece_stop(
    alloc: Global,
    tables: &Tables,
    phase: BodyPhase,
    piece: &Piece,
) -> Result<Option<Stop>, AllocError>
    ensures { IfOk result (λ stop. Tells (piece_refused (tables_of tables.now) phase (piece_of piece.now)) stop) }
{
    match &piece.typing {
        Ok(body) => body_stop(alloc, tables, phase, &piece.inside, body),
        Err(_) => Ok(None),
    }
}

/// The same by what a piece is.
fn body_stop(
    alloc: Global,
    tables: &Tables,
    phase: BodyPhase,
    inside: &Names,
    body: &PieceBody,
) -> Result<Option<Stop>, AllocError>
    ensures { IfOk result (λ stop. Tells (body_refused (tables_of tables.now) phase inside.now (piece_body_of body.now)) stop) }
{
    match body {
        PieceBody::Type(id) => type_stop(tables, phase, inside, id),
        PieceBody::Body { owner, rules, body } => {
            let own = owner.as_ref();
            part_stop(alloc, tables, phase, inside, own, rules.as_slice(), body)
        }
        PieceBody::Destroyed(event) => event_stop(tables, phase, inside, event),
        PieceBody::Plain => Ok(None),
    }
}

/// Where a phase refuses a body, as refusals name it.
fn part_stop(
    alloc: Global,
    tables: &Tables,
    phase: BodyPhase,
    inside: &Names,
    owner: Option<&TypeId>,
    rules: &[FieldRule],
    body: &TypedBody,
) -> Result<Option<Stop>, AllocError>
    ensures { IfOk result (λ stop. Tells (body_refused (tables_of tables.now) phase inside.now (body_piece (option_copied owner.entry) rules.now (part_of body.now))) stop) }
{
    let at = position(alloc, tables, phase, owner, rules, body)?;
    placed(alloc, inside, at)
}

/// The stop at a declaration itself.
fn at_start(inside: &Names) -> Result<Option<Stop>, AllocError>
    ensures { IfOk result (λ stop. stop ≡ Some (stop_at inside.now 0)) }
{
    Ok(Some(Stop {
        inside: inside.clone()?,
        at: 0,
    }))
}

/// A type that has fields and no initializer.
fn type_stop(
    tables: &Tables,
    phase: BodyPhase,
    inside: &Names,
    id: &TypeId,
) -> Result<Option<Stop>, AllocError>
    ensures { IfOk result (λ stop. Tells (body_refused (tables_of tables.now) phase inside.now (p.type_piece id.now)) stop) }
{
    match phase {
        BodyPhase::Initialisation => {
            if is_unset(tables, id) {
                at_start(inside)
            } else {
                Ok(None)
            }
        }
        BodyPhase::Moves => Ok(None),
        BodyPhase::Purity => Ok(None),
    }
}

/// Whether a type has fields and no initializer.
fn is_unset(tables: &Tables, id: &TypeId) -> bool
    ensures { result ≡ spec.is_unset (type_in (tables_of tables.now).types id.now) }
{
    match tables.find(id) {
        Some(declared) => lacks_initializer(declared),
        None => false,
    }
}

/// An event `ResourceDestroyed` whose arguments are no view expressions.
fn event_stop(
    tables: &Tables,
    phase: BodyPhase,
    inside: &Names,
    event: &DestroyedEvent,
) -> Result<Option<Stop>, AllocError>
    ensures { IfOk result (λ stop. Tells (body_refused (tables_of tables.now) phase inside.now (p.destroyed_piece (destroyed_of event.now))) stop) }
{
    match phase {
        BodyPhase::Purity => {
            if is_pure_event(tables, event) {
                Ok(None)
            } else {
                at_start(inside)
            }
        }
        BodyPhase::Moves => Ok(None),
        BodyPhase::Initialisation => Ok(None),
    }
}

/// Where a phase refuses a body.
fn position(
    alloc: Global,
    tables: &Tables,
    phase: BodyPhase,
    owner: Option<&TypeId>,
    rules: &[FieldRule],
    body: &TypedBody,
) -> Result<Option<Position>, AllocError>
    ensures { IfOk result (λ at. Tells (position_refused (tables_of tables.now) phase (option_copied owner.entry) rules.now (part_of body.now)) at) }
{
    match phase {
        BodyPhase::Moves => moved_at(alloc, body),
        BodyPhase::Purity => Ok(impurity(tables, body)),
        BodyPhase::Initialisation => unset_at(alloc, tables, owner, rules, body),
    }
}

/// Where a resource is lost first, or used after its move.
fn moved_at(alloc: Global, body: &TypedBody) -> Result<Option<Position>, AllocError>
    ensures { IfOk result (λ at. Tells (MisMoved (part_of body.now)) at) }
{
    match moves(alloc, body) {
        Ok(()) => Ok(None),
        Err(MoveStop::At(misuse)) => Ok(Some(misuse.at)),
        Err(MoveStop::Memory) => Err(AllocError),
    }
}

/// Where a field is set or used wrongly first.
fn unset_at(
    alloc: Global,
    tables: &Tables,
    owner: Option<&TypeId>,
    rules: &[FieldRule],
    body: &TypedBody,
) -> Result<Option<Position>, AllocError>
    ensures { IfOk result (λ at. Tells (Unset (tables_of tables.now) (option_copied owner.entry) rules.now (part_of body.now)) at) }
{
    match body {
        TypedBody::Function(_) => Ok(None),
        TypedBody::Initializer(_) => {
            let own = owner_rules(alloc, tables, owner)?;
            initialised(alloc, own.as_slice(), body)
        }
        TypedBody::Transaction(_) => initialised(alloc, rules, body),
    }
}

/// The rules of the fields of a type.
fn owner_rules(
    alloc: Global,
    tables: &Tables,
    owner: Option<&TypeId>,
) -> Result<Vec<FieldRule>, AllocError>
    ensures { IfOk result (λ all. all.items ≡ fields.rules_in (tables_of tables.now) (unwrap_or (option_copied owner.entry) no_id)) }
{
    if let Some(id) = owner {
        return rules_in(alloc, tables, id);
    }
    let none = TypeId {
        address: Address(0),
        names: Names::new(alloc),
    };
    rules_in(alloc, tables, &none)
}

/// A position as refusals name it.
fn placed(alloc: Global, inside: &Names, at: Option<Position>) -> Result<Option<Stop>, AllocError>
    ensures { IfOk result (λ stop. stop ≡ option_map (spec.place_of inside.now) at) }
{
    match at {
        Some(position) => Ok(Some(Stop {
            inside: part_names(alloc, inside, position.part)?,
            at: position.at,
        })),
        None => Ok(None),
    }
}

/// The names of a part: those of a transaction have names of their own.
fn part_names(alloc: Global, inside: &Names, part: BodyPart) -> Result<Names, AllocError>
    ensures { IfOk result (λ names. names ≡ spec.part_names inside.now part) }
{
    match part {
        BodyPart::Whole => inside.clone(),
        BodyPart::Declaration => only_name(alloc, "transaction"),
        BodyPart::Prepare => only_name(alloc, "prepare"),
        BodyPart::Pre => only_name(alloc, "pre"),
        BodyPart::Execute => only_name(alloc, "execute"),
        BodyPart::Post => only_name(alloc, "post"),
    }
}

/// One name.
fn only_name(alloc: Global, text: &str) -> Result<Names, AllocError>
    ensures { IfOk result (λ names. names ≡ word text.now ∷ []) }
{
    let mut names = Names::new(alloc);
    names.push(Name(Text::from_str(alloc, text)?))?;
    Ok(names)
}
