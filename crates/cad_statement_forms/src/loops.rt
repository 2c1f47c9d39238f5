// Loops.
ghost use Rattle.std.specs.Prelude.{◌≡◌, IfOk, option_map};
ghost use Rattle.cad_grammar.specs.Views.{expr_of};
ghost use Rattle.cad_environment.specs.Views.{environment_of};
ghost use Rattle.cad_typing.specs.StatementForms as spec;
ghost use Rattle.cad_statement_trees.specs.Views.{for_typing_of};

use cad_environment::{Environment, Position};
use cad_grammar::Expr;
use cad_infer_targets::infer;
use cad_statement_trees::{ForTyping, for_over};
use cad_syntax::Name;
use std::alloc::{AllocError, Global};

/// A `for`, which goes over an array that isn't one of resources.
pub fn for_typing(
    alloc: Global,
    env: Environment<'_>,
    index: &Option<Name>,
    name: &Name,
    array: &Expr,
) -> Result<Option<ForTyping>, AllocError>
    ensures { IfOk result (λ x. option_map for_typing_of x ≡ spec.for_typing (environment_of env.entry) index.now name.now (expr_of array.now)) }
{
    let Some(x) = infer(array, alloc, env, Position::Ordinary, None)? else {
        return Ok(None);
    };
    for_over(env, index, name, x)
}
