// The lexer.
ghost use Rattle.std.specs.Prelude.{◌≡◌, ◌||◌, List, option_map, IfOk, IsUtf8, Some, ℕ};
ghost use Rattle.cad_grammar.specs.declared.token.Token.{Token};
ghost use Rattle.cad_syntax.specs.Names.{is_part_of_name};
ghost use Rattle.cad_grammar.specs.Lexes.{opens_block, opens_line, Lexes, Stops};
ghost use Rattle.cad_lex.specs.Code.Reading as spec;

use crate::gap::gap;
use crate::literal::literal;
use crate::number::is_digit;
use crate::quotation::quotation;
use crate::sign::sign;
use crate::word::{is_first_of_name, split_word, word_kind};
use cad_grammar::{Sign, Token, TokenKind, Tokens};
use cad_syntax::{Items, Keyword};
use std::alloc::{AllocError, AllocFailed, Global};

/// Why a text has no tokens.
#[derive(Debug, Drop)]
pub enum LexStop {
    /// At this byte the text has its first fault.
    At(usize),
    /// Memory ran out.
    Memory,
}

impl From<AllocError> for LexStop {
    ghost use Rattle.cad_lex.specs.declared.lexer.LexStop.TheVariants.{Memory};

    ghost from_gives = { λ _ e. e ≡ Memory };

    fn from(_error: AllocError) -> LexStop {
        LexStop::Memory
    }
}

impl<T: Drop> From<AllocFailed<T>> for LexStop {
    ghost use Rattle.cad_lex.specs.declared.lexer.LexStop.TheVariants.{Memory};

    ghost from_gives = { λ _ e. e ≡ Memory };

    fn from(_error: AllocFailed<T>) -> LexStop {
        LexStop::Memory
    }
}

fn opens_comment(bytes: &[u8]) -> bool
    ensures { result ≡ (opens_line bytes.now || opens_block bytes.now) }
{
    match bytes {
        [b'/', second, ..] => *second == b'/' || *second == b'*',
        _ => false,
    }
}

// The word at the front, or the cast of which it is a part, and the bytes behind it.
#[tactic(auto, unfolding(crate::specs::Code::Reading::word_shape, crate::specs::Code::Reading::cast, crate::specs::Code::Reading::judge))]
fn word(alloc: Global, bytes: &[u8]) -> Result<(TokenKind, &[u8]), AllocError>
    ensures { IfOk result (λ found. Some (spec.seen found) ≡ spec.judged (Some (spec.word_shape (spec.front is_part_of_name bytes.now) (spec.behind is_part_of_name bytes.now)))) }
{
    let (word, rest) = split_word(bytes);
    if word == "as" {
        return Ok(cast(rest));
    }
    Ok((word_kind(alloc, word)?, rest))
}

// What `as` begins, before these bytes.
#[tactic(auto, unfolding(crate::specs::Code::Reading::cast, crate::specs::Code::Reading::judge, crate::specs::Code::Reading::word_kind, crate::specs::Code::Reading::keyword, crate::specs::Code::Reading::of_two))]
fn cast(bytes: &[u8]) -> (TokenKind, &[u8])
    ensures { Some (spec.seen result) ≡ spec.judged (Some (spec.cast bytes.now)) }
{
    match bytes {
        [b'?', rest @ ..] => (TokenKind::Sign(Sign::AsOptional), rest),
        [b'!', rest @ ..] => (TokenKind::Sign(Sign::AsForce), rest),
        _ => (TokenKind::Keyword(Keyword::As), bytes),
    }
}

// The token at the front, and the bytes behind it; None where no token begins.
#[tactic(auto, unfolding(crate::specs::Code::Reading::token, crate::specs::Code::Reading::shape, crate::specs::Code::Reading::judge))]
fn token(alloc: Global, bytes: &[u8]) -> Result<Option<(TokenKind, &[u8])>, AllocError>
    requires { IsUtf8 bytes.now }
    ensures { IfOk result (λ found. option_map spec.seen found ≡ spec.token bytes.now) }
{
    if opens_comment(bytes) {
        return Ok(None);
    }
    let [first, behind @ ..] = bytes else {
        return Ok(None);
    };
    if is_first_of_name(*first) {
        return Ok(Some(word(alloc, bytes)?));
    }
    if is_digit(*first, 10) {
        return Ok(literal(bytes));
    }
    if *first == b'"' {
        let Some((content, rest)) = quotation(alloc, behind)? else {
            return Ok(None);
        };
        return Ok(Some((TokenKind::Text(content), rest)));
    }
    let Some((sign, rest)) = sign(*first, behind) else {
        return Ok(None);
    };
    Ok(Some((TokenKind::Sign(sign), rest)))
}

/// The tokens of a text, with their places. `At` tells the first byte that isn't UTF-8, or else the first where neither
/// white space nor a comment nor a token begins.
pub fn lex(alloc: Global, bytes: &[u8]) -> Result<Tokens, LexStop>
    ensures found { IfOk result (λ tokens. Lexes bytes.now tokens) }
    ensures none { (n : ℕ) → result ≡ Err (LexStop.At n) → (tokens : List Token) → Lexes bytes.now tokens → ⊥ }
    ensures place { (n : ℕ) → result ≡ Err (LexStop.At n) → Stops bytes.now n }
{
    if let Err(fault) = str::from_utf8(bytes) {
        return Err(LexStop::At(fault.valid_up_to()));
    }
    let mut tokens = Vec::new(alloc);
    let mut after_break = false;
    let mut rest = bytes;
    while !rest.is_empty() {
        if let Some((has_line_feed, behind)) = gap(rest) {
            after_break |= has_line_feed;
            rest = behind;
            continue;
        }
        let start = bytes.len() - rest.len();
        let Some((kind, behind)) = token(alloc, rest)? else {
            return Err(LexStop::At(start));
        };
        tokens.push(Token {
            kind,
            start,
            end: bytes.len() - behind.len(),
            after_break,
        })?;
        after_break = false;
        rest = behind;
    }
    Ok(Items::from_vec(tokens))
}

/// A text has at most one list of tokens.
pub fn one_lexing()
    ensures { (text : List ℕ) (a b : List Token) → Lexes text a → Lexes text b → a ≡ b }
{}

/// A text stops at one place at most, and a text with tokens stops nowhere.
pub fn one_stop()
    ensures one { (text : List ℕ) (m n : ℕ) → Stops text m → Stops text n → m ≡ n }
    ensures none { (text : List ℕ) (n : ℕ) (tokens : List Token) → Stops text n → Lexes text tokens → ⊥ }
{}
