// Signs.
ghost use Rattle.std.specs.Prelude.{◌≡◌, option_map};
ghost use Rattle.cad_lex.specs.Code.Reading as spec;

use cad_grammar::Sign;

// The first sign where this byte comes next, else the second; and the bytes behind it.
#[tactic(auto, unfolding(crate::specs::Code::Reading::longer_by))]
fn longer_by(byte: u8, long: Sign, short: Sign, bytes: &[u8]) -> (Sign, &[u8])
    ensures { spec.seen result ≡ spec.longer_by byte long short bytes.now }
{
    match bytes {
        [first, rest @ ..] if *first == byte => (long, rest),
        _ => (short, bytes),
    }
}

#[tactic(auto, unfolding(crate::specs::Code::Reading::longer_by_two))]
fn behind_move(bytes: &[u8]) -> (Sign, &[u8])
    ensures { spec.seen result ≡ spec.longer_by_two 62 Sign.Swap 33 Sign.ForceMove Sign.Move bytes.now }
{
    match bytes {
        [b'>', rest @ ..] => (Sign::Swap, rest),
        [b'!', rest @ ..] => (Sign::ForceMove, rest),
        _ => (Sign::Move, bytes),
    }
}

#[tactic(auto, unfolding(crate::specs::Code::Reading::longer_by_two))]
fn behind_question(bytes: &[u8]) -> (Sign, &[u8])
    ensures { spec.seen result ≡ spec.longer_by_two 63 Sign.Coalesce 46 Sign.OptionalDot Sign.Question bytes.now }
{
    match bytes {
        [b'?', rest @ ..] => (Sign::Coalesce, rest),
        [b'.', rest @ ..] => (Sign::OptionalDot, rest),
        _ => (Sign::Question, bytes),
    }
}

#[tactic(auto, unfolding(crate::specs::Code::Reading::behind_less))]
fn behind_less(bytes: &[u8]) -> (Sign, &[u8])
    ensures { spec.seen result ≡ spec.behind_less bytes.now }
{
    let [first, rest @ ..] = bytes else {
        return (Sign::Less, bytes);
    };
    if *first == b'-' {
        return behind_move(rest);
    }
    longer_by(b'=', Sign::LessOrEqual, Sign::Less, bytes)
}

// The sign of one byte that begins no other.
#[tactic(auto, unfolding(crate::specs::Code::Reading::single))]
fn single(byte: u8) -> Option<Sign>
    ensures { result ≡ spec.single byte }
{
    match byte {
        b'^' => Some(Sign::Caret),
        b'+' => Some(Sign::Plus),
        b'*' => Some(Sign::Star),
        b'/' => Some(Sign::Slash),
        b'%' => Some(Sign::Percent),
        b'.' => Some(Sign::Dot),
        b',' => Some(Sign::Comma),
        b':' => Some(Sign::Colon),
        b';' => Some(Sign::Semicolon),
        b'(' => Some(Sign::OpenParenthesis),
        b')' => Some(Sign::CloseParenthesis),
        b'[' => Some(Sign::OpenBracket),
        b']' => Some(Sign::CloseBracket),
        b'{' => Some(Sign::OpenBrace),
        b'}' => Some(Sign::CloseBrace),
        b'@' => Some(Sign::At),
        _ => None,
    }
}

/// The longest sign of this byte and those that follow, and the bytes behind it.
#[tactic(auto, unfolding(crate::specs::Code::Reading::sign))]
pub fn sign(first: u8, bytes: &[u8]) -> Option<(Sign, &[u8])>
    ensures { option_map spec.seen result ≡ spec.sign first bytes.now }
{
    match first {
        b'<' => Some(behind_less(bytes)),
        b'>' => Some(longer_by(b'=', Sign::GreaterOrEqual, Sign::Greater, bytes)),
        b'=' => Some(longer_by(b'=', Sign::Equal, Sign::Assign, bytes)),
        b'!' => Some(longer_by(b'=', Sign::NotEqual, Sign::Bang, bytes)),
        b'&' => Some(longer_by(b'&', Sign::And, Sign::Ampersand, bytes)),
        b'|' => Some(longer_by(b'|', Sign::Or, Sign::Bar, bytes)),
        b'-' => Some(longer_by(b'>', Sign::Arrow, Sign::Minus, bytes)),
        b'?' => Some(behind_question(bytes)),
        _ => Some((single(first)?, bytes)),
    }
}
