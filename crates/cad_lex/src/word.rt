// Words: keywords and names.
ghost use Rattle.std.specs.Prelude.{◌≡◌, IfOk, IsUtf8};
ghost use Rattle.cad_syntax.specs.Names.{is_first_of_name, is_part_of_name};
ghost use Rattle.cad_lex.specs.Code.Reading as spec;

use cad_grammar::TokenKind;
use cad_syntax::{Keyword, Name, Text};
use std::alloc::{AllocError, Global};

/// Whether a name may begin with this byte: an ASCII letter or `_`.
pub fn is_first_of_name(byte: u8) -> bool
    ensures { result ≡ is_first_of_name byte }
{
    byte.is_ascii_alphabetic() || byte == b'_'
}

fn is_part_of_name(byte: u8) -> bool
    ensures { result ≡ is_part_of_name byte }
{
    byte.is_ascii_alphanumeric() || byte == b'_'
}

#[tactic(auto, unfolding(crate::specs::Code::Reading::behind))]
fn behind_word(mut bytes: &[u8]) -> &[u8]
    ensures { result.now ≡ spec.behind is_part_of_name bytes.entry.now }
{
    while let [first, rest @ ..] = bytes {
        if !is_part_of_name(*first) {
            break;
        }
        bytes = rest;
    }
    bytes
}

/// Bytes as the text that they are.
pub fn text_of(bytes: &[u8]) -> &str
    requires { IsUtf8 bytes.now }
    ensures { result.now ≡ bytes.now }
{
    match str::from_utf8(bytes) {
        Ok(text) => text,
        Err(_) => unreachable!(),
    }
}

/// The word at the front, and the bytes behind it.
#[tactic(auto, using(crate::proofs::Runs::length_behind, crate::proofs::Runs::take_behind))]
pub fn split_word(bytes: &[u8]) -> (&str, &[u8])
    ensures word { result.0.now ≡ spec.front is_part_of_name bytes.now }
    ensures rest { result.1.now ≡ spec.behind is_part_of_name bytes.now }
{
    let rest = behind_word(bytes);
    let word = &bytes[..bytes.len() - rest.len()];
    (text_of(word), rest)
}

#[tactic(auto, unfolding(crate::specs::Code::Reading::of_two))]
fn of_two(word: &str) -> Option<Keyword>
    ensures { result ≡ spec.of_two word.now }
{
    match word {
        "as" => Some(Keyword::As),
        "if" => Some(Keyword::If),
        "in" => Some(Keyword::In),
        _ => None,
    }
}

#[tactic(auto, unfolding(crate::specs::Code::Reading::of_three))]
fn of_three(word: &str) -> Option<Keyword>
    ensures { result ≡ spec.of_three word.now }
{
    match word {
        "for" => Some(Keyword::For),
        "fun" => Some(Keyword::Fun),
        "let" => Some(Keyword::Let),
        "nil" => Some(Keyword::Nil),
        "pre" => Some(Keyword::Pre),
        "var" => Some(Keyword::Var),
        _ => None,
    }
}

#[tactic(auto, unfolding(crate::specs::Code::Reading::of_four))]
fn of_four(word: &str) -> Option<Keyword>
    ensures { result ≡ spec.of_four word.now }
{
    match word {
        "auth" => Some(Keyword::Auth),
        "case" => Some(Keyword::Case),
        "else" => Some(Keyword::Else),
        "emit" => Some(Keyword::Emit),
        "enum" => Some(Keyword::Enum),
        "init" => Some(Keyword::Init),
        "post" => Some(Keyword::Post),
        "self" => Some(Keyword::Self_),
        "true" => Some(Keyword::True),
        _ => None,
    }
}

#[tactic(auto, unfolding(crate::specs::Code::Reading::of_five))]
fn of_five(word: &str) -> Option<Keyword>
    ensures { result ≡ spec.of_five word.now }
{
    match word {
        "break" => Some(Keyword::Break),
        "event" => Some(Keyword::Event),
        "false" => Some(Keyword::False),
        "while" => Some(Keyword::While),
        _ => None,
    }
}

#[tactic(auto, unfolding(crate::specs::Code::Reading::of_six))]
fn of_six(word: &str) -> Option<Keyword>
    ensures { result ≡ spec.of_six word.now }
{
    match word {
        "access" => Some(Keyword::Access),
        "create" => Some(Keyword::Create),
        "import" => Some(Keyword::Import),
        "return" => Some(Keyword::Return),
        "struct" => Some(Keyword::Struct),
        "switch" => Some(Keyword::Switch),
        _ => None,
    }
}

#[tactic(auto, unfolding(crate::specs::Code::Reading::of_seven))]
fn of_seven(word: &str) -> Option<Keyword>
    ensures { result ≡ spec.of_seven word.now }
{
    match word {
        "default" => Some(Keyword::Default),
        "destroy" => Some(Keyword::Destroy),
        "execute" => Some(Keyword::Execute),
        "prepare" => Some(Keyword::Prepare),
        _ => None,
    }
}

#[tactic(auto, unfolding(crate::specs::Code::Reading::of_eight))]
fn of_eight(word: &str) -> Option<Keyword>
    ensures { result ≡ spec.of_eight word.now }
{
    match word {
        "continue" => Some(Keyword::Continue),
        "contract" => Some(Keyword::Contract),
        "resource" => Some(Keyword::Resource),
        _ => None,
    }
}

#[tactic(auto, unfolding(crate::specs::Code::Reading::longer))]
fn longer(word: &str) -> Option<Keyword>
    ensures { result ≡ spec.longer word.now }
{
    match word {
        "interface" => Some(Keyword::Interface),
        "transaction" => Some(Keyword::Transaction),
        _ => None,
    }
}

// The length leaves few keywords to compare with.
#[tactic(auto, unfolding(crate::specs::Code::Reading::keyword))]
fn keyword(word: &str) -> Option<Keyword>
    ensures { result ≡ spec.keyword word.now }
{
    match word.len() {
        2 => of_two(word),
        3 => of_three(word),
        4 => of_four(word),
        5 => of_five(word),
        6 => of_six(word),
        7 => of_seven(word),
        8 => of_eight(word),
        _ => longer(word),
    }
}

/// The keyword or the name that a word is.
#[tactic(auto, unfolding(crate::specs::Code::Reading::word_kind))]
pub fn word_kind(alloc: Global, word: &str) -> Result<TokenKind, AllocError>
    ensures { IfOk result (λ kind. kind ≡ spec.word_kind word.now) }
{
    match keyword(word) {
        Some(keyword) => Ok(TokenKind::Keyword(keyword)),
        None => Ok(TokenKind::Name(Name(Text::from_str(alloc, word)?))),
    }
}
