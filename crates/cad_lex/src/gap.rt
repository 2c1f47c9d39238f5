// Gaps: white space and comments.
ghost use Rattle.std.specs.Prelude.{◌≡◌, ◌&&◌, ◌||◌, ◌==◌, false, option_map};
ghost use Rattle.cad_grammar.specs.Lexes.{is_white_space, is_in_line};
ghost use Rattle.cad_lex.specs.Code.Reading as spec;

fn is_white_space(byte: u8) -> bool
    ensures { result ≡ is_white_space byte }
{
    byte == b' ' || byte == b'\t' || byte == b'\r' || byte == b'\n'
}

#[tactic(auto, unfolding(crate::specs::Code::Reading::behind))]
fn behind_line(mut bytes: &[u8]) -> &[u8]
    ensures { result.now ≡ spec.behind is_in_line bytes.entry.now }
{
    while let [first, rest @ ..] = bytes {
        if *first == b'\n' {
            break;
        }
        bytes = rest;
    }
    bytes
}

// `/*` opens a comment, and `*/` closes one.
fn opens_block(first: u8, second: u8) -> bool
    ensures { result ≡ (first == 47 && second == 42) }
{
    first == b'/' && second == b'*'
}

fn closes_block(first: u8, second: u8) -> bool
    ensures { result ≡ (first == 42 && second == 47) }
{
    first == b'*' && second == b'/'
}

fn breaks(before: bool, byte: u8) -> bool
    ensures { result ≡ (before || byte == 10) }
{
    before || byte == b'\n'
}

// From inside a block comment: whether a line feed stands before its end, and the bytes behind it. The byte before the
// next is held where the two can make a sign.
#[tactic(auto, unfolding(crate::specs::Code::Reading::block))]
fn behind_block(mut bytes: &[u8]) -> Option<(bool, &[u8])>
    ensures { option_map spec.seen result ≡ spec.block 1 0 false bytes.entry.now }
{
    let mut depth = 1usize;
    let mut held = 0u8;
    let mut has_line_feed = false;
    while let [byte, rest @ ..] = bytes {
        if opens_block(held, *byte) {
            depth += 1;
            held = 0;
            bytes = rest;
        } else if closes_block(held, *byte) {
            if depth == 1 {
                return Some((has_line_feed, rest));
            }
            depth -= 1;
            held = 0;
            bytes = rest;
        } else {
            has_line_feed = breaks(has_line_feed, *byte);
            held = *byte;
            bytes = rest;
        }
    }
    None
}

#[tactic(auto, unfolding(crate::specs::Code::Reading::comment))]
fn comment(bytes: &[u8]) -> Option<(bool, &[u8])>
    ensures { option_map spec.seen result ≡ spec.comment bytes.now }
{
    match bytes {
        [b'/', b'/', rest @ ..] => Some((false, behind_line(rest))),
        [b'/', b'*', rest @ ..] => behind_block(rest),
        _ => None,
    }
}

/// The gap at the front: whether a line feed stands in it, and the bytes behind it.
#[tactic(auto, unfolding(crate::specs::Code::Reading::gap))]
pub fn gap(bytes: &[u8]) -> Option<(bool, &[u8])>
    ensures { option_map spec.seen result ≡ spec.gap bytes.now }
{
    let [first, rest @ ..] = bytes else {
        return None;
    };
    if is_white_space(*first) {
        return Some((*first == b'\n', rest));
    }
    comment(bytes)
}
