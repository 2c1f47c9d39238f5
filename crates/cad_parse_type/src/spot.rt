// Where reading stands, and tests on the tokens that come next.
ghost use Rattle.std.specs.Prelude.{◌≡◌, ◌==◌, option_map};
ghost use Rattle.std.specs.Cmp.Lexicographic.{pointwise};
ghost use Rattle.cad_grammar.specs.Spots as spec;
ghost use Rattle.cad_parse_type.specs.Code.Views.{seen, seen_with, seen_name};

use cad_grammar::{Sign, Token, TokenKind};
use cad_syntax::{Keyword, Name};

/// Where reading stands: how many nestings may still be opened, whether the name of an expression or of a member was read
/// last, and the tokens that are left.
#[derive(Clone, Copy, Debug)]
pub struct Spot<'a> {
    pub left: u32,
    pub after_name: bool,
    pub tokens: &'a [Token],
}

#[tactic(auto, unfolding(cad_grammar::specs::Spots::same_sign))]
fn is_sign(sign: Sign, kind: &TokenKind) -> bool
    ensures { result ≡ spec.is_sign sign kind.now }
{
    match kind {
        TokenKind::Sign(found) => sign == *found,
        _ => false,
    }
}

#[tactic(auto, unfolding(cad_grammar::specs::Spots::same_keyword))]
fn is_keyword(keyword: Keyword, kind: &TokenKind) -> bool
    ensures { result ≡ spec.is_keyword keyword kind.now }
{
    match kind {
        TokenKind::Keyword(found) => keyword == *found,
        _ => false,
    }
}

fn is_word(text: &str, kind: &TokenKind) -> bool
    ensures { result ≡ spec.is_word text.now kind.now }
{
    match kind {
        TokenKind::Name(name) => name.0.as_str() == text,
        _ => false,
    }
}

#[tactic(auto, unfolding(cad_grammar::specs::Spots::next, crate::specs::Code::Views::seen))]
impl<'a> Spot<'a> {
    /// The spot behind this sign, where it comes next.
    pub fn after(self, sign: Sign) -> Option<Spot<'a>>
        ensures { option_map seen result ≡ spec.after sign (seen self.entry) }
    {
        match self.tokens {
            [first, rest @ ..] if is_sign(sign, &first.kind) => Some(self.behind(rest)),
            _ => None,
        }
    }

    /// The spot behind this sign, where it comes next with no line break before it.
    pub fn joined(self, sign: Sign) -> Option<Spot<'a>>
        ensures { option_map seen result ≡ spec.joined sign (seen self.entry) }
    {
        match self.tokens {
            [first, rest @ ..] if !first.after_break && is_sign(sign, &first.kind) => {
                Some(self.behind(rest))
            }
            _ => None,
        }
    }

    /// The spot behind this keyword, where it comes next.
    pub fn keyword(self, keyword: Keyword) -> Option<Spot<'a>>
        ensures { option_map seen result ≡ spec.keyword keyword (seen self.entry) }
    {
        match self.tokens {
            [first, rest @ ..] if is_keyword(keyword, &first.kind) => Some(self.behind(rest)),
            _ => None,
        }
    }

    /// The spot behind a name that is spelled so, where it comes next.
    pub fn word(self, text: &str) -> Option<Spot<'a>>
        ensures { option_map seen result ≡ spec.word text.now (seen self.entry) }
    {
        match self.tokens {
            [first, rest @ ..] if is_word(text, &first.kind) => Some(self.behind(rest)),
            _ => None,
        }
    }

    /// The name that comes next, and the spot behind it.
    #[tactic(auto, unfolding(cad_grammar::specs::Spots::read, crate::specs::Code::Views::seen))]
    pub fn name(self) -> Option<(&'a Name, Spot<'a>)>
        ensures { option_map (seen_with seen_name) result ≡ spec.name (seen self.entry) }
    {
        match self.tokens {
            [first, rest @ ..] => match &first.kind {
                TokenKind::Name(name) => Some((name, self.behind(rest))),
                _ => None,
            },
            [] => None,
        }
    }

    /// The spot where these tokens are left.
    pub fn behind(self, rest: &'a [Token]) -> Spot<'a>
        ensures { seen result ≡ spec.behind (seen self.entry) rest.now }
    {
        Spot {
            left: self.left,
            after_name: false,
            tokens: rest,
        }
    }

    /// The spot, behind a name.
    pub fn named(self) -> Spot<'a>
        ensures { seen result ≡ spec.named (seen self.entry) }
    {
        Spot {
            left: self.left,
            after_name: true,
            tokens: self.tokens,
        }
    }

    /// The spot `end`, where what was opened since this one is closed.
    pub fn back(self, end: Spot<'a>) -> Spot<'a>
        ensures { seen result ≡ spec.back (seen self.entry) (seen end.entry) }
    {
        Spot {
            left: self.left,
            after_name: false,
            tokens: end.tokens,
        }
    }

    /// One nesting is opened, if there is one left.
    #[tactic(auto, unfolding(cad_grammar::specs::Spots::opened, crate::specs::Code::Views::seen))]
    pub fn opened(self) -> Option<Spot<'a>>
        ensures { option_map seen result ≡ spec.opened (seen self.entry) }
    {
        Some(Spot {
            left: self.left.checked_sub(1)?,
            after_name: self.after_name,
            tokens: self.tokens,
        })
    }

    /// The spot behind an opening sign, where it comes next and a nesting is left.
    #[tactic(auto)]
    pub fn opening(self, sign: Sign) -> Option<Spot<'a>>
        ensures { option_map seen result ≡ spec.opening sign (seen self.entry) }
    {
        self.after(sign)?.opened()
    }

    /// The spot behind a sign at `end`, where what was opened since this one is closed.
    #[tactic(auto)]
    pub fn resumed(self, sign: Sign, end: Spot<'a>) -> Option<Spot<'a>>
        ensures { option_map seen result ≡ spec.resumed sign (seen self.entry) (seen end.entry) }
    {
        Some(self.back(end.after(sign)?))
    }
}
