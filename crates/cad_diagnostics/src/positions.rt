// Lines and columns.
ghost use Rattle.std.specs.Prelude.{◌≡◌, ◌-◌, ◌<◌, ◌^◌, take};
ghost use Rattle.cad_diagnostics.specs.Positions as spec;

/// A place in a text: its line and its column, counted from 1. A column counts characters, and a tab is one.
#[derive(Clone, Copy, Debug, PartialEq, Eq)]
pub struct Position {
    pub line: usize,
    pub column: usize,
}

/// Whether a byte stands in the UTF-8 of a character behind its first byte.
fn continues(byte: u8) -> bool
    ensures { result ≡ spec.continues byte }
{
    128 <= byte && byte <= 191
}

/// The position behind one more byte.
fn behind(byte: u8, position: Position) -> Position
    requires line { position.line < 2 ^ 64 - 1 }
    requires column { position.column < 2 ^ 64 - 1 }
    ensures { result ≡ spec.behind byte position }
{
    if byte == 10 {
        return Position {
            line: position.line + 1,
            column: 1,
        };
    }
    if continues(byte) {
        return position;
    }
    Position {
        line: position.line,
        column: position.column + 1,
    }
}

/// The front of a text, up to a place, or the whole where the place is behind it.
fn front(text: &[u8], place: usize) -> &[u8]
    ensures { result.now ≡ take place text.now }
{
    match text.get(..place) {
        Some(front) => front,
        None => text,
    }
}

/// The position behind these bytes of a text, which begin it.
fn behind_all(bytes: &[u8]) -> Position
    ensures { result ≡ spec.behind_all (spec.at 1 1) bytes.now }
{
    let mut position = Position { line: 1, column: 1 };
    for byte in bytes {
        position = behind(*byte, position);
    }
    position
}

/// The position of the byte at a place of a text, or of the text's end.
pub fn position_at(text: &[u8], place: usize) -> Position
    ensures { result ≡ spec.position_at text.now place }
{
    behind_all(front(text, place))
}
