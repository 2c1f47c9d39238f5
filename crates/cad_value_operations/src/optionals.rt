// Optionals in hand.
ghost use Rattle.std.specs.Prelude.{◌≡◌, option_map};
ghost use Rattle.cad_evaluation.specs.Changing as changing;
ghost use Rattle.cad_evaluation.specs.Uses as uses;
ghost use Rattle.cad_outcomes.specs.Outcomes.{Gives};
ghost use Rattle.cad_rows.specs.Views.{pure_shape, pure_tree};
ghost use Rattle.cad_syntax.specs.Types.{pure_type};
ghost use Rattle.cad_value_operations.specs.Code.Optionals as code;
ghost use Rattle.cad_value_operations.specs.Optionals as spec;
ghost use Rattle.cad_values.specs.Values.{pure_value};
ghost use Rattle.cad_world.specs.State.{give};
ghost use Rattle.cad_world.specs.Transfers.{rounded};
ghost use Rattle.cad_world.specs.Trees.{wrapped};

use crate::leaves::{optionals, shape};
use cad_operators::bool_tree;
use cad_outcomes::{RunError, Stop};
use cad_rows::{Shape, Tree, discard_tree};
use cad_syntax::CadType;
use cad_values::Value;
use std::alloc::Global;

/// What is in an optional.
enum Content {
    Nil,
    Inside(Tree),
    /// The value is no optional.
    NoOptional,
}

/// Whether a value is nil.
fn is_nil_value(value: &Value) -> bool
    ensures { result ≡ code.is_nil_value (pure_value value.now) }
{
    matches!(value, Value::Nil)
}

/// Whether a shape is that of nil.
fn is_nil(shape: &Shape) -> bool
    ensures { result ≡ code.is_nil (pure_shape shape.now) }
{
    match shape {
        Shape::Plain(value) => is_nil_value(value),
        _ => false,
    }
}

/// A value in as many optionals as are told.
fn in_optionals(tree: Tree, count: u64) -> Tree
    ensures { pure_tree result ≡ code.in_optionals (pure_tree tree) count }
{
    let Tree {
        optionals: _,
        shape,
        parts,
    } = tree;
    Tree {
        optionals: count,
        shape,
        parts,
    }
}

/// What is in an optional.
#[tactic(auto, using(crate::proofs::OptionalLaws::content_inside, crate::proofs::OptionalLaws::content_nil, crate::proofs::OptionalLaws::content_not))]
fn content_of(tree: Tree) -> Content
    ensures { code.content_of result ≡ changing.content_of (pure_tree tree) }
{
    let count = optionals(&tree);
    if count != 0 {
        return Content::Inside(in_optionals(tree, count - 1));
    }
    let there = is_nil(shape(&tree));
    discard_tree(tree);
    if there {
        Content::Nil
    } else {
        Content::NoOptional
    }
}

/// The content of an optional; ForceNil of nil, IllTyped of what is no optional.
pub fn force(tree: Tree) -> Result<Tree, Stop>
    ensures { Gives pure_tree (uses.forced (pure_tree tree)) result }
{
    match content_of(tree) {
        Content::Inside(inside) => Ok(inside),
        Content::Nil => Err(Stop::Failed(RunError::ForceNil)),
        Content::NoOptional => Err(Stop::IllTyped),
    }
}

/// The content of an optional, none of nil; IllTyped of what is no optional.
pub fn open(tree: Tree) -> Result<Option<Tree>, Stop>
    ensures { Gives (λ o. option_map (λ t. pure_tree t) o) (spec.content_or_none (pure_tree tree)) result }
{
    match content_of(tree) {
        Content::Inside(inside) => Ok(Some(inside)),
        Content::Nil => Ok(None),
        Content::NoOptional => Err(Stop::IllTyped),
    }
}

/// Whether an optional is nil; none of what is no optional.
#[tactic(auto, using(crate::proofs::OptionalLaws::told_inside, crate::proofs::OptionalLaws::told_nil, crate::proofs::OptionalLaws::told_not))]
fn nil_in(tree: &Tree) -> Option<bool>
    ensures { result ≡ code.nil_in (changing.content_of (pure_tree tree.now)) }
{
    if optionals(tree) != 0 {
        return Some(false);
    }
    if is_nil(shape(tree)) {
        Some(true)
    } else {
        None
    }
}

/// What the first operand of `??` gives: the content of an optional or, where it isn't taken, the optional itself, none of nil;
/// IllTyped of what is no optional.
pub fn coalesce(takes: bool, tree: Tree) -> Result<Option<Tree>, Stop>
    ensures { Gives (λ o. option_map (λ t. pure_tree t) o) (spec.left_or_none takes (pure_tree tree)) result }
{
    if takes {
        return open(tree);
    }
    match nil_in(&tree) {
        Some(false) => Ok(Some(tree)),
        Some(true) => {
            discard_tree(tree);
            Ok(None)
        }
        None => {
            discard_tree(tree);
            Err(Stop::IllTyped)
        }
    }
}

/// Whether an optional is nil or, where that is negated, whether it isn't; IllTyped of what is no optional.
pub fn tell_nil(alloc: Global, negated: bool, tree: &Tree) -> Result<Tree, Stop>
    ensures { Gives pure_tree (uses.nil_told negated (pure_tree tree.now)) result }
{
    match nil_in(tree) {
        Some(is) => Ok(bool_tree(alloc, is != negated)),
        None => Err(Stop::IllTyped),
    }
}

/// A value with the optionals of a type round it, and no more.
pub fn round(declared: &CadType, tree: Tree) -> Result<Tree, Stop>
    ensures { Gives pure_tree (give (rounded (pure_type declared.now) (pure_tree tree))) result }
{
    let mut own = tree;
    match cad_rows::round(&mut own, declared) {
        Ok(()) => Ok(own),
        Err(_) => {
            discard_tree(own);
            Err(Stop::Memory)
        }
    }
}

/// A value in one optional more.
pub fn wrap(tree: Tree) -> Result<Tree, Stop>
    ensures { Gives pure_tree (give (wrapped (pure_tree tree))) result }
{
    match optionals(&tree).checked_add(1) {
        Some(more) => Ok(in_optionals(tree, more)),
        None => {
            discard_tree(tree);
            Err(Stop::Memory)
        }
    }
}
