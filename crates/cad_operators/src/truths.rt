// Truths as values.
ghost use Rattle.std.specs.Prelude.{◌≡◌, Option, Bool, Ok, IfOk};
ghost use Rattle.cad_evaluation.specs.Operators as spec;
ghost use Rattle.cad_evaluation.specs.Uses as uses;
ghost use Rattle.cad_grammar.specs.declared.expression.UnaryOperator.{UnaryOperator};
ghost use Rattle.cad_outcomes.specs.Outcomes.{Gives};
ghost use Rattle.cad_rows.specs.Views.{pure_tree};

use crate::leaves::{bool_tree, truth_in};
use cad_outcomes::Stop;
use cad_rows::Tree;
use std::alloc::{AllocError, Global};

/// A truth as a value, where there is one. IllTyped where there is none.
fn told(alloc: Global, truth: Option<bool>) -> Result<Tree, Stop>
    ensures { Gives pure_tree (spec.told truth) result }
{
    match truth {
        Some(x) => Ok(bool_tree(alloc, x)),
        None => Err(Stop::IllTyped),
    }
}

/// What a comparison found, as a value. IllTyped where it found nothing.
pub(crate) fn found(alloc: Global, truth: Result<Option<bool>, AllocError>) -> Result<Tree, Stop>
    ensures { (x : Option Bool) → IfOk truth (λ o. o ≡ x) → Gives pure_tree (spec.told x) result }
{
    match truth {
        Ok(x) => told(alloc, x),
        Err(_) => Err(Stop::Memory),
    }
}

/// The other truth. IllTyped of all else.
pub fn denied(alloc: Global, a: &Tree) -> Result<Tree, Stop>
    ensures { Gives pure_tree (spec.unary UnaryOperator.Not (pure_tree a.now)) result }
{
    match truth_in(a) {
        Some(x) => Ok(bool_tree(alloc, !x)),
        None => Err(Stop::IllTyped),
    }
}

/// The truth again. IllTyped of all else.
pub fn truth_only(alloc: Global, a: &Tree) -> Result<Tree, Stop>
    ensures { Gives pure_tree (uses.truth_only (pure_tree a.now)) result }
{
    told(alloc, truth_in(a))
}
