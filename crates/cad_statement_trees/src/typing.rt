// What the forms of statements are typed to.
use cad_declarations::{
    Argument, Place, Term, TypedBlock, TypedStatement, discard_block, discard_place,
    discard_statement, discard_term, discard_type,
};
use cad_environment::Local;
use cad_statement_parts::{discard_local, discard_maybe_local};
use cad_syntax::CadType;
use cad_typed_rows::{discard_argument, discard_blocks, discard_terms};

/// A statement, and the variable that is in scope behind it.
#[derive(Drop)]
pub struct StatementTyping {
    pub tree: TypedStatement,
    pub declares: Option<Local>,
}

/// What stands behind `if`.
#[derive(Drop)]
pub enum TestTyping {
    /// A Bool.
    Plain(Term),
    /// The content of a value, which is transferred to an optional type, in a variable.
    Content(Local, Argument),
    /// A resource variable's value, if it is of this type, in a variable of its own.
    Cast(Local, Place, CadType),
}

/// The variables of a `for`, the array and its type.
#[derive(Drop)]
pub struct ForTyping {
    pub index: Option<Local>,
    pub element: Local,
    pub array: Argument,
}

/// The value of a `switch`, and the values of its cases.
#[derive(Drop)]
pub struct SwitchTyping {
    pub value: Term,
    pub cases: Vec<Term>,
}

/// Lets a statement and its variable go.
pub fn discard_statement_typing(x: StatementTyping) {
    discard_maybe_local(x.declares);
    discard_statement(x.tree)
}

/// Lets go what stands behind `if`.
pub fn discard_test_typing(x: TestTyping) {
    match x {
        TestTyping::Plain(test) => discard_term(test),
        TestTyping::Content(v, value) => {
            discard_local(v);
            discard_argument(value)
        }
        TestTyping::Cast(v, place, target) => {
            discard_local(v);
            discard_place(place);
            discard_type(target)
        }
    }
}

/// Lets the variables and the array of a `for` go.
pub fn discard_for_typing(x: ForTyping) {
    discard_maybe_local(x.index);
    discard_local(x.element);
    discard_argument(x.array)
}

/// Lets the values of a `switch` go.
pub fn discard_switch_typing(x: SwitchTyping) {
    discard_term(x.value);
    discard_terms(x.cases)
}

/// Lets a block go, where it is typed.
pub fn discard_judged_block(x: Result<(TypedBlock, u64), u64>) {
    match x {
        Ok((block, _)) => discard_block(block),
        Err(_) => {}
    }
}

/// Lets blocks go, where they are typed.
pub fn discard_judged_blocks(x: Result<(Vec<TypedBlock>, u64), u64>) {
    match x {
        Ok((blocks, _)) => discard_blocks(blocks),
        Err(_) => {}
    }
}

/// Lets a statement go, where it is typed.
pub fn discard_judged_statement(x: Result<(StatementTyping, u64), u64>) {
    match x {
        Ok((typing, _)) => discard_statement_typing(typing),
        Err(_) => {}
    }
}
