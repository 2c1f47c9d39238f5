// The statements in which no statements stand.
ghost use Rattle.std.specs.Prelude.{◌≡◌, ◌+◌, IfOk, option_map};
ghost use Rattle.cad_grammar.specs.Trees as s;
ghost use Rattle.cad_grammar.specs.Views.{expr_of, annotation_of, second_of};
ghost use Rattle.cad_typing.specs.Statements as spec;
ghost use Rattle.cad_statement_parts.specs.Blocks.{numbered};
ghost use Rattle.cad_statement_parts.specs.Views.{judged_at, surroundings_of};
ghost use Rattle.cad_statement_trees.specs.Views.{statement_typing_of};

use crate::simple::{assignment, emitted, evaluated, returned, swap};
use crate::variables::declaration;
use cad_declarations::TypedStatement;
use cad_grammar::{Expr, Transfer, TypeAnnotation, VariableKind};
use cad_statement_parts::Surroundings;
use cad_statement_trees::{StatementTyping, found, single};
use cad_syntax::Name;
use std::alloc::{AllocError, Global};

/// The declaration of a variable.
pub fn type_variable(
    alloc: Global,
    w: Surroundings<'_>,
    at: u64,
    kind: VariableKind,
    name: &Name,
    written: &Option<TypeAnnotation>,
    by: Transfer,
    value: &Expr,
    second: &Option<(Transfer, Expr)>,
) -> Result<Result<(StatementTyping, u64), u64>, AllocError>
    ensures { IfOk result (λ o. judged_at statement_typing_of o ≡ numbered (at + 1) (spec.type_statement (surroundings_of w.entry) at (s.variable kind name.now (option_map annotation_of written.now) by (expr_of value.now) (option_map second_of second.now)))) }
{
    let typing = declaration(alloc, w.env, at, kind, name, written, by, value, second)?;
    found(at, typing)
}

/// `break`, where it may stand.
pub fn type_break(
    w: Surroundings<'_>,
    at: u64,
) -> Result<Result<(StatementTyping, u64), u64>, AllocError>
    ensures { IfOk result (λ o. judged_at statement_typing_of o ≡ numbered (at + 1) (spec.type_statement (surroundings_of w.entry) at s.break_loop)) }
{
    if w.may_break {
        single(at, Some(TypedStatement::Break { at }))
    } else {
        single(at, None)
    }
}

/// `continue`, where it may stand.
pub fn type_continue(
    w: Surroundings<'_>,
    at: u64,
) -> Result<Result<(StatementTyping, u64), u64>, AllocError>
    ensures { IfOk result (λ o. judged_at statement_typing_of o ≡ numbered (at + 1) (spec.type_statement (surroundings_of w.entry) at s.continue_loop)) }
{
    if w.may_continue {
        single(at, Some(TypedStatement::Continue { at }))
    } else {
        single(at, None)
    }
}

/// `return`.
pub fn type_return(
    alloc: Global,
    w: Surroundings<'_>,
    at: u64,
    value: &Option<Expr>,
) -> Result<Result<(StatementTyping, u64), u64>, AllocError>
    ensures { IfOk result (λ o. judged_at statement_typing_of o ≡ numbered (at + 1) (spec.type_statement (surroundings_of w.entry) at (s.return_value (option_map expr_of value.now)))) }
{
    let tree = returned(alloc, w.env, w.result, at, value)?;
    single(at, tree)
}

/// `emit`.
pub fn type_emit(
    alloc: Global,
    w: Surroundings<'_>,
    at: u64,
    event: &Expr,
) -> Result<Result<(StatementTyping, u64), u64>, AllocError>
    ensures { IfOk result (λ o. judged_at statement_typing_of o ≡ numbered (at + 1) (spec.type_statement (surroundings_of w.entry) at (s.emit (expr_of event.now)))) }
{
    let tree = emitted(alloc, w.env, at, event)?;
    single(at, tree)
}

/// An assignment.
pub fn type_assignment(
    alloc: Global,
    w: Surroundings<'_>,
    at: u64,
    place: &Expr,
    by: Transfer,
    value: &Expr,
) -> Result<Result<(StatementTyping, u64), u64>, AllocError>
    ensures { IfOk result (λ o. judged_at statement_typing_of o ≡ numbered (at + 1) (spec.type_statement (surroundings_of w.entry) at (s.assignment (expr_of place.now) by (expr_of value.now)))) }
{
    let tree = assignment(alloc, w.env, at, place, by, value)?;
    single(at, tree)
}

/// A swap.
pub fn type_swap(
    alloc: Global,
    w: Surroundings<'_>,
    at: u64,
    left: &Expr,
    right: &Expr,
) -> Result<Result<(StatementTyping, u64), u64>, AllocError>
    ensures { IfOk result (λ o. judged_at statement_typing_of o ≡ numbered (at + 1) (spec.type_statement (surroundings_of w.entry) at (s.swap (expr_of left.now) (expr_of right.now)))) }
{
    let tree = swap(alloc, w.env, at, left, right)?;
    single(at, tree)
}

/// An expression.
pub fn type_expression(
    alloc: Global,
    w: Surroundings<'_>,
    at: u64,
    value: &Expr,
) -> Result<Result<(StatementTyping, u64), u64>, AllocError>
    ensures { IfOk result (λ o. judged_at statement_typing_of o ≡ numbered (at + 1) (spec.type_statement (surroundings_of w.entry) at (s.expression (expr_of value.now)))) }
{
    let tree = evaluated(alloc, w.env, at, value)?;
    single(at, tree)
}
