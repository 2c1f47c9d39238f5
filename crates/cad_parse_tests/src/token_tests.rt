// Texts with their tokens.
use crate::token_rows::{GAPS, NUMBERS, QUOTATIONS, SIGNS, WORDS};
use cad_grammar::{Token, TokenKind};
use cad_lex::*;
use std::alloc::{AllocError, Global};

fn push_kind(out: &mut String, kind: &TokenKind) -> Result<(), AllocError> {
    match kind {
        TokenKind::Name(name) => out.push_str(name.0.as_str()),
        TokenKind::Keyword(keyword) => write!(out, "{keyword:?}"),
        TokenKind::Whole { value, hexadecimal } => {
            write!(out, "{value}{}", if *hexadecimal { "x" } else { "" })
        }
        TokenKind::Fixed(value) => write!(out, "fixed {value}"),
        TokenKind::Text(text) => write!(out, "{:?}", text.as_str()),
        TokenKind::Sign(sign) => write!(out, "{sign:?}"),
    }
}

fn push_token(out: &mut String, token: &Token) -> Result<(), AllocError> {
    if !out.is_empty() {
        out.push_str(", ")?;
    }
    if token.after_break {
        out.push_str("!")?;
    }
    write!(out, "{}-{} ", token.start, token.end)?;
    push_kind(out, &token.kind)
}

fn told(alloc: Global, code: &[u8]) -> Result<String, AllocError> {
    match lex(alloc, code) {
        Ok(tokens) => {
            let mut out = String::new(alloc);
            for token in tokens.as_slice() {
                push_token(&mut out, token)?;
            }
            Ok(out)
        }
        Err(LexStop::At(n)) => format!(in alloc; "stop {n}"),
        Err(LexStop::Memory) => format!(in alloc; "memory"),
    }
}

// The rows that are told otherwise than they say.
fn differences(alloc: Global, rows: &str) -> Result<String, AllocError> {
    let mut out = String::new(alloc);
    for row in rows.split('\n') {
        let Some((code, want)) = row.split_once(" ⇒") else {
            continue;
        };
        let code = code.replace(alloc, "↵", "\n")?;
        let code = code.replace(alloc, "↤", "\r")?;
        let told = told(alloc, code.as_bytes())?;
        if told.as_str() != want.trim_start() {
            write!(out, "{row}: {told}\n")?;
        }
    }
    Ok(out)
}

#[test]
fn words_are_read(rt: HostRuntime) {
    assert_eq!(rt;
        differences(rt.alloc(), WORDS)
            .expect(&rt, "memory")
            .as_str(),
        ""
    );
}

#[test]
fn numbers_are_read(rt: HostRuntime) {
    assert_eq!(rt;
        differences(rt.alloc(), NUMBERS)
            .expect(&rt, "memory")
            .as_str(),
        ""
    );
}

#[test]
fn quotations_are_read(rt: HostRuntime) {
    assert_eq!(rt;
        differences(rt.alloc(), QUOTATIONS)
            .expect(&rt, "memory")
            .as_str(),
        ""
    );
}

#[test]
fn gaps_are_passed(rt: HostRuntime) {
    assert_eq!(rt;
        differences(rt.alloc(), GAPS).expect(&rt, "memory").as_str(),
        ""
    );
}

#[test]
fn signs_are_read(rt: HostRuntime) {
    assert_eq!(rt;
        differences(rt.alloc(), SIGNS)
            .expect(&rt, "memory")
            .as_str(),
        ""
    );
}

// The first byte that isn't UTF-8 goes before all else.
#[test]
fn bad_bytes_stop(rt: HostRuntime) {
    let alloc = rt.alloc();
    assert_eq!(rt;
        told(alloc, b"a\x80").expect(&rt, "memory").as_str(),
        "stop 1"
    );
    assert_eq!(rt;
        told(alloc, b"# \xff").expect(&rt, "memory").as_str(),
        "stop 2"
    );
    assert_eq!(rt;
        told(alloc, b"\"ab\xff").expect(&rt, "memory").as_str(),
        "stop 3"
    );
    assert_eq!(rt;
        told(alloc, b"/* \xff").expect(&rt, "memory").as_str(),
        "stop 3"
    );
    assert_eq!(rt;
        told(alloc, b"a \xe2\x82").expect(&rt, "memory").as_str(),
        "stop 2"
    );
    assert_eq!(rt;
        told(alloc, b"\"\xe2\x82x\"").expect(&rt, "memory").as_str(),
        "stop 1"
    );
    assert_eq!(rt;
        told(alloc, b"\"\xed\xa0\x80\"")
            .expect(&rt, "memory")
            .as_str(),
        "stop 1"
    );
}
