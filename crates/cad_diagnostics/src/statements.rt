// Where statements begin.
use crate::groups::{behind_group, behind_type};
use crate::tokens::{begins_expression, begins_statement, is_sign};
use cad_grammar::{Sign, Token, TokenKind};
use cad_syntax::Keyword;

/// How far the statements and conditions of a body are read. What stands in brackets and types is passed over, and braces of
/// statements are entered.
#[derive(Clone, Copy)]
struct Walk {
    /// How many further statements stand before the one that is sought.
    left: u64,
    /// How many braces of statements are open in the body.
    depth: usize,
    /// A statement begins at the next token, unless that closes a brace or opens one.
    is_due: bool,
    /// A statement may end here.
    may_end: bool,
    /// The braces of conditions are open, or come next.
    in_conditions: bool,
    /// The head of a case is being read.
    in_case: bool,
    /// How many choices of that head lack their `:`.
    choices: usize,
    /// The arguments of `create` come next.
    in_create: bool,
}

/// Whether a token that stands where a statement is due begins one.
fn is_statement(token: &Token) -> bool {
    match &token.kind {
        TokenKind::Keyword(keyword) => !matches!(
            keyword,
            Keyword::Case | Keyword::Default | Keyword::Pre | Keyword::Post
        ),
        TokenKind::Sign(sign) => !matches!(sign, Sign::OpenBrace),
        _ => true,
    }
}

/// Whether a value follows `return`.
fn value_follows(tokens: &[Token], place: usize) -> bool {
    match tokens.get(place) {
        Some(next) => !next.after_break && begins_expression(next),
        None => false,
    }
}

/// Whether an expression may begin at a place.
fn expression_follows(tokens: &[Token], place: usize) -> bool {
    match tokens.get(place) {
        Some(next) => begins_expression(next),
        None => false,
    }
}

impl Walk {
    /// Whether a statement begins at a token.
    fn begins(&self, token: &Token) -> bool {
        if self.is_due {
            return is_statement(token);
        }
        self.may_end && token.after_break && !self.in_create && begins_statement(token)
    }

    /// A part of a statement was read, behind which it may end or not.
    fn read(&mut self, may_end: bool) {
        self.is_due = false;
        self.may_end = may_end;
    }

    /// A brace of statements was opened, or the head of a case was read.
    fn enter(&mut self) {
        self.is_due = true;
        self.may_end = false;
    }

    /// A brace of statements was closed. The body goes on behind conditions.
    fn leave(&mut self) {
        self.depth = self.depth.saturating_sub(1);
        self.read(true);
        if self.in_conditions {
            self.in_conditions = false;
            self.is_due = true;
        }
    }

    /// Reads the opening bracket at a place; the place behind what was read.
    fn bracket(&mut self, tokens: &[Token], place: usize, is_brace: bool) -> usize {
        if is_brace && (self.is_due || self.may_end) {
            self.depth = self.depth.saturating_add(1);
            self.enter();
            return place.saturating_add(1);
        }
        self.read(true);
        self.in_create = false;
        behind_group(tokens, place)
    }

    /// Reads a type behind `as`; the place behind it.
    fn cast(&mut self, tokens: &[Token], place: usize) -> usize {
        self.read(true);
        behind_type(tokens, place.saturating_add(1))
    }

    /// Reads a `:`.
    fn colon(&mut self) {
        self.read(false);
        if !self.in_case {
            return;
        }
        if self.choices == 0 {
            self.in_case = false;
            self.enter();
        } else {
            self.choices = self.choices.saturating_sub(1);
        }
    }

    /// Reads a `?`: that of a choice, or of a type argument, which no expression follows.
    fn question(&mut self, tokens: &[Token], place: usize) {
        self.read(false);
        if self.in_case && expression_follows(tokens, place.saturating_add(1)) {
            self.choices = self.choices.saturating_add(1);
        }
    }

    /// Reads a keyword; the place behind what was read.
    fn keyword(&mut self, tokens: &[Token], place: usize, keyword: Keyword) -> usize {
        let next = place.saturating_add(1);
        match keyword {
            Keyword::As => return self.cast(tokens, place),
            Keyword::True | Keyword::False | Keyword::Nil | Keyword::Self_ => self.read(true),
            Keyword::Break | Keyword::Continue => self.read(true),
            Keyword::Return => self.read(!value_follows(tokens, next)),
            Keyword::Else => self.enter(),
            Keyword::Pre | Keyword::Post => {
                self.read(true);
                self.in_conditions = true;
            }
            Keyword::Case | Keyword::Default => {
                self.read(false);
                self.in_case = true;
                self.choices = 0;
            }
            Keyword::Create => {
                self.read(false);
                self.in_create = true;
            }
            _ => self.read(false),
        }
        next
    }

    /// Reads a sign; the place behind what was read.
    fn sign(&mut self, tokens: &[Token], place: usize, sign: Sign, after_break: bool) -> usize {
        match sign {
            Sign::OpenBrace => return self.bracket(tokens, place, true),
            Sign::OpenParenthesis | Sign::OpenBracket => {
                return self.bracket(tokens, place, false);
            }
            Sign::AsOptional | Sign::AsForce => return self.cast(tokens, place),
            Sign::CloseBrace => self.leave(),
            Sign::Semicolon => self.enter(),
            Sign::Colon => self.colon(),
            Sign::Question => self.question(tokens, place),
            Sign::Bang => {
                let is_behind = self.may_end && !after_break;
                self.read(is_behind);
            }
            _ => self.read(false),
        }
        place.saturating_add(1)
    }

    /// Reads a token; the place behind what was read.
    fn token(&mut self, tokens: &[Token], place: usize, token: &Token) -> usize {
        match &token.kind {
            TokenKind::Keyword(keyword) => self.keyword(tokens, place, *keyword),
            TokenKind::Sign(sign) => self.sign(tokens, place, *sign, token.after_break),
            _ => {
                self.read(true);
                place.saturating_add(1)
            }
        }
    }

    /// Whether the walk ends at a token: at the statement that is sought, or at the brace that closes the body.
    fn ends(&mut self, token: &Token) -> bool {
        if is_sign(token, Sign::CloseBrace) {
            return self.depth == 0;
        }
        if is_sign(token, Sign::Semicolon) || !self.begins(token) {
            return false;
        }
        if self.left == 0 {
            return true;
        }
        self.left = self.left.saturating_sub(1);
        self.read(false);
        false
    }
}

/// The place of the first token of a statement or condition in the body whose brace opens at a place, by its number, counted
/// from 0 in the order of the text; that of the body's closing brace where there are no more than so many.
pub fn statement(tokens: &[Token], open: usize, number: u64) -> usize {
    let mut walk = Walk {
        left: number,
        depth: 0,
        is_due: true,
        may_end: false,
        in_conditions: false,
        in_case: false,
        choices: 0,
        in_create: false,
    };
    let mut place = open.saturating_add(1);
    for _ in open..tokens.len() {
        let Some(token) = tokens.get(place) else {
            return place;
        };
        if walk.ends(token) {
            return place;
        }
        place = walk.token(tokens, place, token);
    }
    place
}
