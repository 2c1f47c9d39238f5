// Trees that are let go. Crates above call these in place of `drop`: the drop of a type is proved anew in each crate that
// drops it itself.
use crate::statement::{TypedBlock, TypedStatement, Variable};
use crate::term::{Argument, Place, Term, TermEntry, Use};
use cad_syntax::CadType;

/// Lets a type go.
pub fn discard_type(declared: CadType) {
    drop(declared)
}

/// Lets types go.
pub fn discard_types(types: Vec<CadType>) {
    drop(types)
}

/// Lets an expression go.
pub fn discard_term(term: Term) {
    drop(term)
}

/// Lets a place go.
pub fn discard_place(place: Place) {
    drop(place)
}

/// Lets a use of a receiver go.
pub fn discard_use(usage: Use) {
    drop(usage)
}

/// Lets arguments go.
pub fn discard_arguments(arguments: Vec<Argument>) {
    drop(arguments)
}

/// Lets the entries of a dictionary go.
pub fn discard_entries(entries: Vec<TermEntry>) {
    drop(entries)
}

/// Lets a variable go.
pub fn discard_variable(variable: Variable) {
    drop(variable)
}

/// Lets a statement go.
pub fn discard_statement(statement: TypedStatement) {
    drop(statement)
}

/// Lets a block go.
pub fn discard_block(block: TypedBlock) {
    drop(block)
}

/// Lets an expression go that is a part of a tree.
pub fn discard_boxed_term(term: Box<Term>) {
    drop(term)
}

/// Lets a place go that is a part of a tree.
pub fn discard_boxed_place(place: Box<Place>) {
    drop(place)
}
