//! The tokens of a text.
#![tactic(auto)]

mod gap;
mod lexer;
mod literal;
mod number;
mod quotation;
mod sign;
mod word;

pub use lexer::{LexStop, lex, one_lexing, one_stop};
