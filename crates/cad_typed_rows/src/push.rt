// What is added to a row of trees; where memory runs out, it is let go by the crate that has its type.
ghost use Rattle.std.specs.Prelude.{◌≡◌, ◌++◌, ◌∷◌, [], OnOk, map};
ghost use Rattle.cad_declarations.specs.Views.{before_of, block_of, case_of, condition_of, member_body_of, statement_of, term_of, type_body_of, variable_of};

use crate::bodies::{discard_member, discard_type_body};
use crate::discard::{discard_before, discard_case, discard_condition};
use cad_declarations::{
    Term, TypedBefore, TypedBlock, TypedCase, TypedCondition, TypedMember, TypedStatement,
    TypedType, Variable, discard_block, discard_statement, discard_term, discard_variable,
};
use std::alloc::AllocError;

/// Adds an expression.
pub fn push_term(all: &mut Vec<Term>, x: Term) -> Result<(), AllocError>
    ensures { OnOk result (map term_of all.new.items ≡ map term_of all.old.items ++ term_of x ∷ []) }
{
    match all.push(x) {
        Ok(()) => Ok(()),
        Err(refused) => {
            discard_term(refused.value);
            Err(AllocError)
        }
    }
}

/// Adds a statement.
pub fn push_statement(all: &mut Vec<TypedStatement>, x: TypedStatement) -> Result<(), AllocError>
    ensures { OnOk result (map statement_of all.new.items ≡ map statement_of all.old.items ++ statement_of x ∷ []) }
{
    match all.push(x) {
        Ok(()) => Ok(()),
        Err(refused) => {
            discard_statement(refused.value);
            Err(AllocError)
        }
    }
}

/// Adds a block.
pub fn push_block(all: &mut Vec<TypedBlock>, x: TypedBlock) -> Result<(), AllocError>
    ensures { OnOk result (map block_of all.new.items ≡ map block_of all.old.items ++ block_of x ∷ []) }
{
    match all.push(x) {
        Ok(()) => Ok(()),
        Err(refused) => {
            discard_block(refused.value);
            Err(AllocError)
        }
    }
}

/// Adds a case.
pub fn push_case(all: &mut Vec<TypedCase>, x: TypedCase) -> Result<(), AllocError>
    ensures { OnOk result (map case_of all.new.items ≡ map case_of all.old.items ++ case_of x ∷ []) }
{
    match all.push(x) {
        Ok(()) => Ok(()),
        Err(refused) => {
            discard_case(refused.value);
            Err(AllocError)
        }
    }
}

/// Adds a condition.
pub fn push_condition(all: &mut Vec<TypedCondition>, x: TypedCondition) -> Result<(), AllocError>
    ensures { OnOk result (map condition_of all.new.items ≡ map condition_of all.old.items ++ condition_of x ∷ []) }
{
    match all.push(x) {
        Ok(()) => Ok(()),
        Err(refused) => {
            discard_condition(refused.value);
            Err(AllocError)
        }
    }
}

/// Adds a value at entry.
pub fn push_before(all: &mut Vec<TypedBefore>, x: TypedBefore) -> Result<(), AllocError>
    ensures { OnOk result (map before_of all.new.items ≡ map before_of all.old.items ++ before_of x ∷ []) }
{
    match all.push(x) {
        Ok(()) => Ok(()),
        Err(refused) => {
            discard_before(refused.value);
            Err(AllocError)
        }
    }
}

/// Adds a variable.
pub fn push_variable(all: &mut Vec<Variable>, x: Variable) -> Result<(), AllocError>
    ensures { OnOk result (map variable_of all.new.items ≡ map variable_of all.old.items ++ variable_of x ∷ []) }
{
    match all.push(x) {
        Ok(()) => Ok(()),
        Err(refused) => {
            discard_variable(refused.value);
            Err(AllocError)
        }
    }
}

/// Adds a function of a type.
pub fn push_member(all: &mut Vec<TypedMember>, x: TypedMember) -> Result<(), AllocError>
    ensures { OnOk result (map member_body_of all.new.items ≡ map member_body_of all.old.items ++ member_body_of x ∷ []) }
{
    match all.push(x) {
        Ok(()) => Ok(()),
        Err(refused) => {
            discard_member(refused.value);
            Err(AllocError)
        }
    }
}

/// Adds the bodies of a type.
pub fn push_type_body(all: &mut Vec<TypedType>, x: TypedType) -> Result<(), AllocError>
    ensures { OnOk result (map type_body_of all.new.items ≡ map type_body_of all.old.items ++ type_body_of x ∷ []) }
{
    match all.push(x) {
        Ok(()) => Ok(()),
        Err(refused) => {
            discard_type_body(refused.value);
            Err(AllocError)
        }
    }
}
