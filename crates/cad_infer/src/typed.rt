// What the crates above call.
ghost use Rattle.std.specs.Prelude.{◌≡◌, IfOk, option_map};
ghost use Rattle.cad_grammar.specs.Views.{expr_of};
ghost use Rattle.cad_typing.specs.Expressions as spec;
ghost use Rattle.cad_environment.specs.Views.{environment_of, position_of, typing_of, base_of};
ghost use Rattle.cad_infer_parts.specs.Views.{expected_of};

use crate::expression::typing;
use crate::places::place;
use cad_environment::{Base, Environment, Position, Typing};
use cad_grammar::Expr;
use cad_syntax::CadType;
use std::alloc::{AllocError, Global};

/// The elaborated tree of an expression and its type, where a value of the given type is expected, if one is. None where it
/// has no type.
#[tactic(auto, unfolding(cad_infer_parts::specs::Code::Steps::typing))]
pub fn infer(
    e: &Expr,
    alloc: Global,
    env: Environment<'_>,
    position: Position,
    expected: Option<&CadType>,
) -> Result<Option<Typing>, AllocError>
    ensures { IfOk result (λ o. option_map typing_of o ≡ spec.infer (environment_of env.entry) (position_of position) (expected_of expected.entry) (expr_of e.now)) }
{
    typing(e, alloc, env, position, expected)
}

/// Where a name, `self`, a member, an element or a content stands. None of any other form, and where nothing stands there.
#[tactic(auto, unfolding(cad_infer_parts::specs::Code::Steps::place))]
pub fn infer_place(
    e: &Expr,
    alloc: Global,
    env: Environment<'_>,
) -> Result<Option<Base>, AllocError>
    ensures { IfOk result (λ o. option_map base_of o ≡ spec.infer_place (environment_of env.entry) (expr_of e.now)) }
{
    place(e, alloc, env)
}
