// Where a phase refuses a program.
use cad_grammar::Phase;
use cad_syntax::Names;
use std::alloc::AllocError;

/// The first place of a program that a phase refuses: a declaration or function by its names, and the number of a statement
/// in it, counted from 0; 0 of a declaration. A number over 2^64-1 is told as 2^64-1.
#[derive(Debug, Drop, PartialEq, Eq)]
pub struct Stop {
    pub inside: Names,
    pub at: u64,
}

/// The phase that refuses a program, and where. In the phases `lex` and `parse` no names are told, and `at` is a place in the
/// text.
#[derive(Debug, Drop, PartialEq, Eq)]
pub struct Rejected {
    pub phase: Phase,
    pub inside: Names,
    pub at: u64,
}

/// Why there is no answer: what a definition refuses, or want of memory.
#[derive(Debug, Drop, PartialEq, Eq)]
pub enum Refused<E> {
    Is(E),
    Memory,
}
