// Whether each resource is spent once on every path.
ghost use Rattle.std.specs.Prelude.{◌≡◌, IfOk, option_map};
ghost use Rattle.cad_declarations.specs.Views.{part_of};
ghost use Rattle.cad_paths.specs.Bodies as bodies;
ghost use Rattle.cad_paths.specs.Linear.{MovesOf};
ghost use Rattle.cad_moves.specs.Answers.{MovesAnswer};
ghost use Rattle.cad_moves.specs.Views.{offence_of};

use crate::bodies::resource_letters;
use crate::misuse::{Misuse, MoveStop};
use crate::search::search;
use crate::state::Rules;
use cad_declarations::TypedBody;
use std::alloc::{AllocError, Global};

/// The first misuse of a resource in a body.
fn first_misuse(alloc: Global, body: &TypedBody) -> Result<Option<Misuse>, AllocError>
    ensures { IfOk result (λ m. MovesOf (bodies.resource_letters (part_of body.now)) (option_map offence_of m)) }
{
    let paths = resource_letters(alloc, body)?;
    let found = search(Rules::Moves, &paths)?;
    Ok(found.misuse)
}

/// Whether each resource variable, parameter and transaction's field of resource type is used, and spent once, on every path.
///
/// `At` has the first misuse: by part and statement, then a use after a move before a loss, then the variable declared first.
/// A use after a move stands at the using statement, a loss at the statement that declares the variable; for a parameter it
/// stands at the number of statements, for a transaction's field at the end of `execute`, else of `prepare`, else at the
/// declaration. `Memory`: there was no memory.
pub fn moves(alloc: Global, body: &TypedBody) -> Result<(), MoveStop>
    ensures { MovesAnswer (bodies.resource_letters (part_of body.now)) result }
{
    match first_misuse(alloc, body) {
        Err(_) => Err(MoveStop::Memory),
        Ok(found) => match found {
            None => Ok(()),
            Some(misuse) => Err(MoveStop::At(misuse)),
        },
    }
}
