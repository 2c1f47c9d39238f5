// Reading at a place of a list of tokens.
ghost use Rattle.std.specs.Prelude.{◌≡◌, ℕ, [], ◌-◌, ◌<◌, ◌≤◌, ◌⊎◌, List, length, drop, IfOk, OnErr, Err};
ghost use Rattle.cad_grammar.specs.declared.token.Token.{Token};
ghost use Rattle.cad_grammar.specs.declared.phase.Phase.{Phase};
ghost use Rattle.cad_grammar.specs.Trees.{ExprTree, TypeTree};
ghost use Rattle.cad_grammar.specs.Views.{expr_of, type_of};
ghost use Rattle.cad_parse_type.specs.Code.Views.{seen};
ghost use Rattle.cad_parse_expr.specs.Cursor.{ahead, before, place, last_end, SpellsExpr, SpellsType};

use crate::reader::expression_at;
use cad_grammar::{Expr, ParseStop, Phase, Token, TypeExpr, TypePosition};
use cad_parse_type::{Spot, type_at};
use std::alloc::Global;

/// How many nestings may be open at once.
pub const MAX_NESTING: u32 = 128;

/// Tokens, and the place of the next one among them.
#[derive(Clone, Copy, Debug)]
pub struct Cursor<'a> {
    pub tokens: &'a [Token],
    pub at: usize,
}

// The tokens from a place on.
fn tokens_from(tokens: &[Token], at: usize) -> &[Token]
    requires { at ≤ length tokens.now }
    ensures { result.now ≡ drop at tokens.now }
{
    &tokens[at..]
}

// Where the last token ends.
fn end_of(tokens: &[Token]) -> usize
    ensures { result ≡ last_end tokens.now }
{
    match tokens {
        [.., last] => last.end,
        [] => 0,
    }
}

// Where the next token stands, or the end of the last of all.
fn place_of(tokens: &[Token], rest: &[Token]) -> usize
    ensures { result ≡ place tokens.now rest.now }
{
    match rest {
        [first, ..] => first.start,
        [] => end_of(tokens),
    }
}

// The spot before these tokens.
#[tactic(auto, unfolding(cad_parse_type::specs::Code::Views::seen))]
fn before_tokens(left: u32, tokens: &[Token]) -> Spot<'_>
    ensures { seen result ≡ before left tokens.now }
{
    Spot {
        left,
        after_name: false,
        tokens,
    }
}

/// The expression that the longest prefix of the tokens from the cursor spells within as many nestings as are left at `depth`
/// open ones; the cursor then stands behind it. Where no prefix spells one, it stays.
pub fn parse_expr(alloc: Global, cursor: &mut Cursor<'_>, depth: u32) -> Result<Expr, ParseStop>
    requires depth { depth ≤ MAX_NESTING }
    requires within { cursor.old.at ≤ length cursor.old.tokens.now }
    ensures tokens { cursor.new.tokens.now ≡ cursor.old.tokens.now }
    ensures inside { cursor.new.at ≤ length cursor.old.tokens.now }
    ensures found { IfOk result (λ e. SpellsExpr (MAX_NESTING - depth) (ahead cursor.old) (expr_of e) (ahead cursor.new)) }
    ensures longest { IfOk result (λ e. (a : ExprTree) (rest : List Token) → SpellsExpr (MAX_NESTING - depth) (ahead cursor.old) a rest
        → ((a ≡ expr_of e) × (rest ≡ ahead cursor.new)) ⊎ (length (ahead cursor.new) < length rest)) }
    ensures none { (phase : Phase) (at : ℕ) → result ≡ Err (ParseStop.At phase at) → (a : ExprTree) (rest : List Token) → SpellsExpr (MAX_NESTING - depth) (ahead cursor.old) a rest → ⊥ }
    ensures place { (phase : Phase) (at : ℕ) → result ≡ Err (ParseStop.At phase at) → (phase ≡ Phase.Parse) × (at ≡ place cursor.old.tokens.now (ahead cursor.old)) }
    ensures stays { OnErr result (cursor.new ≡ cursor.old) }
{
    let tokens = tokens_from(cursor.tokens, cursor.at);
    let spot = before_tokens(MAX_NESTING - depth, tokens);
    match expression_at(alloc, spot)? {
        None => Err(ParseStop::At {
            phase: Phase::Parse,
            at: place_of(cursor.tokens, tokens),
        }),
        Some((found, rest)) => {
            cursor.at = cursor.tokens.len() - rest.tokens.len();
            Ok(found)
        }
    }
}

/// The type that the longest prefix of the tokens from the cursor spells within as many nestings as are left at `depth` open
/// ones; the cursor then stands behind it. Where no prefix spells one, it stays.
pub fn parse_type(alloc: Global, cursor: &mut Cursor<'_>, depth: u32) -> Result<TypeExpr, ParseStop>
    requires depth { depth ≤ MAX_NESTING }
    requires within { cursor.old.at ≤ length cursor.old.tokens.now }
    ensures tokens { cursor.new.tokens.now ≡ cursor.old.tokens.now }
    ensures inside { cursor.new.at ≤ length cursor.old.tokens.now }
    ensures found { IfOk result (λ t. SpellsType (MAX_NESTING - depth) (ahead cursor.old) (type_of t) (ahead cursor.new)) }
    ensures longest { IfOk result (λ t. (a : TypeTree) (rest : List Token) → SpellsType (MAX_NESTING - depth) (ahead cursor.old) a rest
        → ((a ≡ type_of t) × (rest ≡ ahead cursor.new)) ⊎ (length (ahead cursor.new) < length rest)) }
    ensures none { (phase : Phase) (at : ℕ) → result ≡ Err (ParseStop.At phase at) → (a : TypeTree) (rest : List Token) → SpellsType (MAX_NESTING - depth) (ahead cursor.old) a rest → ⊥ }
    ensures place { (phase : Phase) (at : ℕ) → result ≡ Err (ParseStop.At phase at) → (phase ≡ Phase.Parse) × (at ≡ place cursor.old.tokens.now (ahead cursor.old)) }
    ensures stays { OnErr result (cursor.new ≡ cursor.old) }
{
    let tokens = tokens_from(cursor.tokens, cursor.at);
    let left = MAX_NESTING - depth;
    let spot = before_tokens(left, tokens);
    match type_at(alloc, TypePosition::Anywhere, spot)? {
        None => Err(ParseStop::At {
            phase: Phase::Parse,
            at: place_of(cursor.tokens, tokens),
        }),
        Some((written, rest)) => {
            cursor.at = cursor.tokens.len() - rest.tokens.len();
            Ok(written)
        }
    }
}

/// A list of tokens spells one expression at most, and one type at most.
pub fn one_tree()
    ensures expressions { (n : ℕ) (tokens : List Token) (a b : ExprTree) → SpellsExpr n tokens a [] → SpellsExpr n tokens b [] → a ≡ b }
    ensures types { (n : ℕ) (tokens : List Token) (a b : TypeTree) → SpellsType n tokens a [] → SpellsType n tokens b [] → a ≡ b }
{}
