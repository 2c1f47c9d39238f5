// Elaborated functions, initializers and transactions, and what a program has of them.
use crate::statement::{TypedBlock, Variable};
use crate::term::{Argument, Term};
use cad_syntax::{CadType, Name, Names, TypeId};

/// A condition.
#[derive(Drop)]
pub enum TypedCondition {
    Test {
        at: u64,
        test: Term,
        message: Option<Term>,
    },
    Emit {
        at: u64,
        event: TypeId,
        arguments: Vec<Argument>,
    },
}

/// What stands under `before`, with the number of its condition.
#[derive(Drop)]
pub struct TypedBefore {
    pub at: u64,
    pub value: Term,
}

/// A function or an initializer. Its parameters have the numbers from 0; in its postconditions the result has the next.
#[derive(Drop)]
pub struct TypedFunction {
    /// Its names, as refusals name it.
    pub inside: Names,
    pub is_view: bool,
    pub parameters: Vec<Variable>,
    pub result: CadType,
    /// The result in postconditions; of a resource a reference to it.
    pub result_variable: Option<Variable>,
    pub pre: Vec<TypedCondition>,
    /// What stands under `before`, in order.
    pub before: Vec<TypedBefore>,
    pub post: Vec<TypedCondition>,
    /// A function of an interface may have none.
    pub body: Option<TypedBlock>,
    /// How many statements and conditions there are.
    pub statements: u64,
}

/// A transaction. Its fields have the numbers from 0, its parameters the next; then come those of `prepare`.
#[derive(Drop)]
pub struct TypedTransaction {
    pub fields: Vec<Variable>,
    pub parameters: Vec<Variable>,
    pub signers: Vec<Variable>,
    pub prepare: Option<TypedBlock>,
    pub pre: Vec<TypedCondition>,
    pub before: Vec<TypedBefore>,
    pub execute: Option<TypedBlock>,
    pub post: Vec<TypedCondition>,
    /// How many statements and conditions `prepare`, `pre`, `execute` and `post` have.
    pub prepare_statements: u64,
    pub pre_statements: u64,
    pub execute_statements: u64,
    pub post_statements: u64,
}

/// The body of one part of a program.
#[derive(Drop)]
pub enum TypedBody {
    Function(TypedFunction),
    Initializer(TypedFunction),
    Transaction(TypedTransaction),
}

/// A function of a type, by its name.
#[derive(Drop)]
pub struct TypedMember {
    pub name: Name,
    pub function: TypedFunction,
}

/// The event `ResourceDestroyed` of a resource: its default arguments, over the resource as `self`.
#[derive(Drop)]
pub struct DestroyedEvent {
    pub event: TypeId,
    pub arguments: Vec<Argument>,
}

/// The bodies of a declared type: its functions in order.
#[derive(Drop)]
pub struct TypedType {
    pub id: TypeId,
    pub initializer: Option<TypedFunction>,
    pub functions: Vec<TypedMember>,
    pub destroyed: Option<DestroyedEvent>,
}

/// The bodies of a program, its imports' not among them.
#[derive(Drop)]
pub struct Bodies {
    pub types: Vec<TypedType>,
    pub functions: Vec<TypedMember>,
    pub transaction: Option<TypedTransaction>,
}
