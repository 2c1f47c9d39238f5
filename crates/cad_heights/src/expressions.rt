// How high expressions are.
ghost use Rattle.std.specs.Prelude.{◌≡◌, ◌^◌, ◌-◌, map, min, Option, option_map};
ghost use Rattle.cad_grammar.specs.Trees.{arguments_of, entries_of, exprs_of};
ghost use Rattle.cad_grammar.specs.Views.{argument_of, entry_of, expr_of};
ghost use Rattle.cad_heights.specs.Heights as spec;

use cad_grammar::{Argument, Entry, Expr};

/// Levels from an expression down to its lowest part; 2^64-1 where it is more.
#[cycle(heights)]
pub fn height(expr: &Expr) -> u64
    ensures { result ≡ min (spec.height (expr_of expr.now)) (2 ^ 64 - 1) }
{
    match expr {
        Expr::Create { arguments, .. } => arguments_height(arguments).saturating_add(1),
        Expr::Array(all) => exprs_height(all).saturating_add(1),
        Expr::Dictionary(all) => entries_height(all).saturating_add(1),
        Expr::Member(a, _) => height(a).saturating_add(1),
        Expr::OptionalMember(a, _) => height(a).saturating_add(1),
        Expr::Index(a, b) => height(a).max(height(b)).saturating_add(1),
        Expr::Call {
            function,
            arguments,
            ..
        } => height(function)
            .max(arguments_height(arguments))
            .saturating_add(1),
        Expr::Force(a) => height(a).saturating_add(1),
        Expr::Unary(_, a) => height(a).saturating_add(1),
        Expr::Reference(a, _) => height(a).saturating_add(1),
        Expr::Cast(_, a, _) => height(a).saturating_add(1),
        Expr::Binary(_, a, b) => height(a).max(height(b)).saturating_add(1),
        Expr::Conditional(a, b, c) => height(a).max(height(b).max(height(c))).saturating_add(1),
        _ => 1,
    }
}

/// The height of the highest of expressions, 0 of none.
#[cycle(heights)]
fn exprs_height(all: &[Expr]) -> u64
    ensures { result ≡ min (spec.exprs_height (exprs_of (map expr_of all.now))) (2 ^ 64 - 1) }
{
    let mut highest = 0u64;
    for expr in all {
        highest = highest.max(height(expr));
    }
    highest
}

/// The height of the highest of arguments, 0 of none.
#[cycle(heights)]
fn arguments_height(all: &[Argument]) -> u64
    ensures { result ≡ min (spec.arguments_height (arguments_of (map argument_of all.now))) (2 ^ 64 - 1) }
{
    let mut highest = 0u64;
    for argument in all {
        highest = highest.max(height(&argument.value));
    }
    highest
}

/// The height of the highest key or value of entries, 0 of none.
#[cycle(heights)]
fn entries_height(all: &[Entry]) -> u64
    ensures { result ≡ min (spec.entries_height (entries_of (map entry_of all.now))) (2 ^ 64 - 1) }
{
    let mut highest = 0u64;
    for entry in all {
        highest = highest.max(height(&entry.key).max(height(&entry.value)));
    }
    highest
}
