// What people are told.
use crate::places::place;
use crate::positions::{Position, position_at};
use cad_declarations::Rejected;
use cad_grammar::Phase;
use cad_syntax::{Name, Text};
use std::alloc::{AllocError, Global};

/// The name of a phase.
fn phase_name(phase: Phase) -> &'static str {
    match phase {
        Phase::Lex => "lex",
        Phase::Parse => "parse",
        Phase::Resolve => "resolve",
        Phase::Types => "types",
        Phase::Conformance => "conformance",
        Phase::Moves => "moves",
        Phase::Purity => "purity",
        Phase::Initialisation => "initialisation",
    }
}

/// Appends names with `.` between them.
fn push_names(shown: &mut Text, names: &[Name]) -> Result<(), AllocError> {
    for (number, name) in names.iter().enumerate() {
        if number > 0 {
            shown.push_str(".")?;
        }
        shown.push_str(name.0.as_str())?;
    }
    Ok(())
}

/// Appends the statement that a refusal names, or its byte where it names no declaration.
fn push_where(alloc: Global, shown: &mut Text, rejected: &Rejected) -> Result<(), AllocError> {
    if rejected.inside.is_empty() {
        shown.push_str("byte ")?;
    } else {
        shown.push_str("in ")?;
        push_names(shown, rejected.inside.as_slice())?;
        shown.push_str(", statement ")?;
    }
    shown.push_str(rejected.at.to_string(alloc)?.as_str())
}

/// Appends a position, with `:` before each of its numbers.
fn push_position(alloc: Global, shown: &mut Text, at: Position) -> Result<(), AllocError> {
    shown.push_str(":")?;
    shown.push_str(at.line.to_string(alloc)?.as_str())?;
    shown.push_str(":")?;
    shown.push_str(at.column.to_string(alloc)?.as_str())
}

/// Appends a line of a text, without the carriage returns in it.
fn push_line(shown: &mut Text, text: &str, line: usize) -> Result<(), AllocError> {
    let mut current: usize = 1;
    for letter in text.chars() {
        if letter == '\n' {
            current = current.saturating_add(1);
        } else if current == line && letter != '\r' {
            shown.push(letter)?;
        }
    }
    Ok(())
}

/// What stands in the line of the mark under a character.
fn blank(letter: char) -> &'static str {
    match letter {
        '\t' => "\t",
        '\r' => "",
        _ => " ",
    }
}

/// Appends a mark that stands under a position of the line as it is shown.
fn push_mark(shown: &mut Text, text: &str, at: Position) -> Result<(), AllocError> {
    let mut line: usize = 1;
    let mut column: usize = 1;
    for letter in text.chars() {
        if letter == '\n' {
            line = line.saturating_add(1);
        } else if line == at.line && column < at.column {
            shown.push_str(blank(letter))?;
            column = column.saturating_add(1);
        }
    }
    shown.push_str("^")
}

/// What people are told of a text that is refused, in three lines without a line feed at the end:
/// `NAME:LINE:COLUMN: PHASE: in F, statement N`, or `byte N` for a text that is no program; the line of the text; and a mark
/// under the place. It fails where memory runs out alone.
pub fn diagnostic(
    alloc: Global,
    name: &str,
    text: &str,
    rejected: &Rejected,
) -> Result<Text, AllocError> {
    let bytes = text.as_bytes();
    let at = position_at(bytes, place(alloc, bytes, rejected)?);
    let mut shown = Text::from_str(alloc, name)?;
    push_position(alloc, &mut shown, at)?;
    shown.push_str(": ")?;
    shown.push_str(phase_name(rejected.phase))?;
    shown.push_str(": ")?;
    push_where(alloc, &mut shown, rejected)?;
    shown.push_str("\n")?;
    push_line(&mut shown, text, at.line)?;
    shown.push_str("\n")?;
    push_mark(&mut shown, text, at)?;
    Ok(shown)
}
