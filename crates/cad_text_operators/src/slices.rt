// Parts of texts.
ghost use Rattle.std.specs.Prelude.{◌≡◌, ◌<◌, ◌^◌, false, length, IsTrue, MatchOption, unsigned_abs, ℤ};
ghost use Rattle.cad_evaluation.specs.Texts as spec;
ghost use Rattle.cad_num.specs.Numbers.{value_of};
ghost use Rattle.cad_text_operators.specs.Places.{IsNoPlace};
ghost use Rattle.cad_outcomes.specs.Outcomes.{Gives};
ghost use Rattle.cad_rows.specs.Views.{pure_tree};
ghost use Rattle.cad_text.specs.Texts.{are_places, characters, part};
ghost use Rattle.cad_world.specs.State.{give, require};

use crate::texts::text_tree;
use cad_operators::integer_in;
use cad_outcomes::{RunError, Stop};
use cad_rows::Tree;
use cad_syntax::Num;
use cad_text::TextError;
use std::alloc::Global;

/// Whether a place is beyond those that `cad_text` takes: no text has so many characters.
fn is_beyond(text: &str, place: u128) -> bool
    ensures told { IsTrue result → length (characters text.now) < place }
    ensures small { result ≡ false → place < 2 ^ 127 }
{
    place > i128::MAX as u128 && u128::from(cad_text::length(text)) < place
}

/// A number as a place in a text. None of one that is no place in it.
fn place_in(text: &str, x: Num) -> Option<i128>
    ensures { MatchOption result (IsNoPlace text.now (value_of x)) (λ i. i ≡ value_of x) }
{
    if x.negative || is_beyond(text, x.magnitude) {
        return None;
    }
    Some(x.magnitude as i128)
}

/// The characters between two places.
fn between(alloc: Global, text: &str, from: i128, up_to: i128) -> Result<Tree, Stop>
    ensures { Gives pure_tree (require 105 (are_places text.now from up_to)
        (give (spec.text_tree (part text.now (unsigned_abs from) (unsigned_abs up_to))))) result }
{
    match cad_text::slice(alloc, text, from, up_to) {
        Ok(cut) => Ok(text_tree(alloc, cut)),
        Err(TextError::Slice) => Err(Stop::Failed(RunError::SliceOutOfBounds)),
        Err(_) => Err(Stop::Memory),
    }
}

/// The characters between two numbers, which have to be places.
fn cut(alloc: Global, text: &str, x: Num, y: Num) -> Result<Tree, Stop>
    ensures { Gives pure_tree (require 105 (are_places text.now (value_of x) (value_of y))
        (give (spec.text_tree (part text.now (unsigned_abs (value_of x)) (unsigned_abs (value_of y)))))) result }
{
    match place_in(text, x) {
        None => Err(Stop::Failed(RunError::SliceOutOfBounds)),
        Some(from) => match place_in(text, y) {
            None => Err(Stop::Failed(RunError::SliceOutOfBounds)),
            Some(up_to) => between(alloc, text, from, up_to),
        },
    }
}

/// The characters of a text from one place to before another. SliceOutOfBounds where these aren't places in order,
/// IllTyped of what is no whole number.
pub fn text_slice(alloc: Global, text: &str, from: &Tree, up_to: &Tree) -> Result<Tree, Stop>
    ensures { Gives pure_tree (spec.text_slice text.now (pure_tree from.now) (pure_tree up_to.now)) result }
{
    match integer_in(from) {
        None => Err(Stop::IllTyped),
        Some(x) => match integer_in(up_to) {
            None => Err(Stop::IllTyped),
            Some(y) => cut(alloc, text, x, y),
        },
    }
}
