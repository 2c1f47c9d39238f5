// What readers tell of texts, and the rows of tests that they tell otherwise.
use cad_grammar::{ParseStop, Phase, Tokens, TypePosition};
use cad_lex::lex;
use cad_parse::parse_program;
use cad_parse_expr::{Cursor, MAX_NESTING, parse_expr};
use cad_parse_statement::statements;
use cad_parse_type::{Spot, annotation_at};
use std::alloc::{AllocError, Global};

/// What is read of a text: a program, or two programs that are compared, or what the text begins with.
#[derive(Clone, Copy)]
pub enum Part {
    Program,
    TwoPrograms,
    Statements,
    Expression,
    Type,
}

/// The tokens of a text. A text that has none fails the test.
pub(crate) fn tokens(alloc: Global, code: &str) -> Result<Tokens, AllocError> {
    match lex(alloc, code.as_bytes()) {
        Ok(tokens) => Ok(tokens),
        Err(_) => Err(AllocError),
    }
}

/// The printed form of a tree, with each name between two of these marks, and shorter types.
pub(crate) fn shown(alloc: Global, text: &str, mark: &str) -> Result<String, AllocError> {
    let text = text.replace(alloc, "Name(Text { text: \"", mark)?;
    let text = text.replace(alloc, "\" })", mark)?;
    let text = text.replace(alloc, "Named { name: Items { items: [", "Type[")?;
    text.replace(alloc, "] }, arguments: [] }", "]")
}

pub(crate) fn told_program(alloc: Global, code: &str) -> Result<String, AllocError> {
    match parse_program(alloc, code.as_bytes()) {
        Ok(program) => {
            drop(program);
            String::from_str(alloc, "ok")
        }
        Err(ParseStop::At { phase, at }) => match phase {
            Phase::Lex => format!(in alloc; "lex {at}"),
            Phase::Parse => format!(in alloc; "parse {at}"),
            _ => format!(in alloc; "later {at}"),
        },
        Err(ParseStop::Memory) => String::from_str(alloc, "memory"),
    }
}

// The printed form of the program that a text is, empty where it is none.
fn printed(alloc: Global, code: &str) -> Result<String, AllocError> {
    match parse_program(alloc, code.as_bytes()) {
        Ok(program) => {
            let text = format!(in alloc; "{program:?}");
            drop(program);
            text
        }
        Err(_) => Ok(String::new(alloc)),
    }
}

// Whether two texts with `⇔` between them are programs of one tree, told by its printed form.
fn compared(alloc: Global, pair: &str) -> Result<&'static str, AllocError> {
    let Some((one, other)) = pair.split_once(" ⇔ ") else {
        return Ok("no pair");
    };
    let first = printed(alloc, one)?;
    let second = printed(alloc, other)?;
    if first.is_empty() || second.is_empty() {
        return Ok("no program");
    }
    Ok(if first == second { "same" } else { "other" })
}

/// The statements that a text begins with where so many nestings may be opened, and the number of tokens behind them.
pub(crate) fn told_statements(alloc: Global, left: u32, code: &str) -> Result<String, AllocError> {
    let all = tokens(alloc, code)?;
    let spot = Spot {
        left,
        after_name: false,
        tokens: all.as_slice(),
    };
    match statements(alloc, spot)? {
        Some((found, rest)) => {
            let text = format!(in alloc; "{found:?} {}", rest.tokens.len())?;
            shown(alloc, text.as_str(), "")
        }
        None => String::from_str(alloc, "none"),
    }
}

/// The expression that a text begins with where so many nestings are open, and the number of tokens behind it.
pub(crate) fn told_expression(alloc: Global, depth: u32, code: &str) -> Result<String, AllocError> {
    let all = tokens(alloc, code)?;
    let mut cursor = Cursor {
        tokens: all.as_slice(),
        at: 0,
    };
    match parse_expr(alloc, &mut cursor, depth.min(MAX_NESTING)) {
        Ok(found) => {
            let text = format!(in alloc; "{found:?} {}", all.len().saturating_sub(cursor.at));
            drop(found);
            shown(alloc, text?.as_str(), "'")
        }
        Err(ParseStop::At { at, .. }) => format!(in alloc; "none {at}"),
        Err(ParseStop::Memory) => Err(AllocError),
    }
}

/// The annotated type that a text begins with where two nestings may be opened, the number of tokens behind it, and that of the
/// nestings that may still be opened.
pub(crate) fn told_type(
    alloc: Global,
    position: TypePosition,
    code: &str,
) -> Result<String, AllocError> {
    let all = tokens(alloc, code)?;
    let spot = Spot {
        left: 2,
        after_name: false,
        tokens: all.as_slice(),
    };
    match annotation_at(alloc, position, spot)? {
        Some((found, rest)) => {
            let tokens = rest.tokens.len();
            let left = rest.left;
            let text = format!(in alloc; "{found:?} {tokens} {left}");
            drop(found);
            text
        }
        None => String::from_str(alloc, "none"),
    }
}

fn told(alloc: Global, part: Part, code: &str) -> Result<String, AllocError> {
    match part {
        Part::Program => told_program(alloc, code),
        Part::TwoPrograms => String::from_str(alloc, compared(alloc, code)?),
        Part::Statements => told_statements(alloc, 128, code),
        Part::Expression => told_expression(alloc, 0, code),
        Part::Type => told_type(alloc, TypePosition::Anywhere, code),
    }
}

/// The rows that are told otherwise than they say. Of programs a row begins with what is told, of all else with the text.
pub(crate) fn differences(alloc: Global, part: Part, rows: &str) -> Result<String, AllocError> {
    let mut out = String::new(alloc);
    for row in rows.split('\n') {
        let Some((front, back)) = row.split_once(" ⇒ ") else {
            continue;
        };
        let (code, want) = match part {
            Part::Program | Part::TwoPrograms => (back, front),
            Part::Statements | Part::Expression | Part::Type => (front, back),
        };
        let code = code.replace(alloc, "↵", "\n")?;
        let told = told(alloc, part, code.as_str())?;
        if told.as_str() != want {
            write!(out, "{row}: {told}\n")?;
        }
    }
    Ok(out)
}
