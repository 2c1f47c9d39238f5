// Parts of statements and of bodies that are let go, by the calls of the crate that has their types.
use cad_declarations::{
    Argument, Term, TypedBefore, TypedBlock, TypedCase, TypedCondition, TypedStatement, Variable,
    discard_arguments, discard_block, discard_term, discard_type, discard_variable,
};
use cad_syntax::{Basic, CadType};

/// Lets a transferred part go.
pub fn discard_argument(argument: Argument) {
    discard_term(argument.value);
    discard_type(argument.target)
}

/// Lets expressions go: an array of them has the same drop.
pub fn discard_terms(items: Vec<Term>) {
    let element = CadType::Basic(Basic::Never);
    discard_term(Term::Array { element, items })
}

/// Lets statements go: a block of them has the same drop.
pub fn discard_statements(statements: Vec<TypedStatement>) {
    discard_block(TypedBlock {
        in_scope: 0,
        statements,
    })
}

/// Lets blocks go, from the last one on.
pub fn discard_blocks(blocks: Vec<TypedBlock>) {
    let mut left = blocks;
    while let Some(block) = left.pop() {
        discard_block(block);
    }
    left.destroy_empty()
}

/// Lets a case go.
pub fn discard_case(case: TypedCase) {
    discard_term(case.value);
    discard_block(case.body)
}

/// Lets cases go, from the last one on.
pub fn discard_cases(cases: Vec<TypedCase>) {
    let mut left = cases;
    while let Some(case) = left.pop() {
        discard_case(case);
    }
    left.destroy_empty()
}

/// Lets a condition go.
pub fn discard_condition(condition: TypedCondition) {
    match condition {
        TypedCondition::Test { test, message, .. } => {
            discard_term(test);
            discard_maybe_term(message)
        }
        TypedCondition::Emit { arguments, .. } => discard_arguments(arguments),
    }
}

/// Lets an expression go, where there is one.
pub fn discard_maybe_term(term: Option<Term>) {
    match term {
        Some(term) => discard_term(term),
        None => {}
    }
}

/// Lets a block go, where there is one.
pub fn discard_maybe_block(block: Option<TypedBlock>) {
    match block {
        Some(block) => discard_block(block),
        None => {}
    }
}

/// Lets a variable go, where there is one.
pub fn discard_maybe_variable(variable: Option<Variable>) {
    match variable {
        Some(variable) => discard_variable(variable),
        None => {}
    }
}

/// Lets conditions go, from the last one on.
pub fn discard_conditions(conditions: Vec<TypedCondition>) {
    let mut left = conditions;
    while let Some(condition) = left.pop() {
        discard_condition(condition);
    }
    left.destroy_empty()
}

/// Lets a value at entry go.
pub fn discard_before(before: TypedBefore) {
    discard_term(before.value)
}

/// Lets values at entry go, from the last one on.
pub fn discard_befores(befores: Vec<TypedBefore>) {
    let mut left = befores;
    while let Some(before) = left.pop() {
        discard_before(before);
    }
    left.destroy_empty()
}
