// Elaborated statements. Each has its number in the body: statements and conditions are counted from 0 in source order.
use crate::term::{Argument, Place, Term};
use cad_syntax::{CadType, Name, TypeId};

/// A variable.
#[derive(Drop)]
pub struct Variable {
    pub number: u32,
    pub name: Name,
    pub declared: CadType,
    pub is_resource: bool,
}

/// A block: how many variables are in scope where it begins, and its statements.
#[cycle(statements)]
#[derive(Drop)]
pub struct TypedBlock {
    pub in_scope: u32,
    pub statements: Vec<TypedStatement>,
}

/// A statement.
#[cycle(statements)]
#[derive(Drop)]
pub enum TypedStatement {
    /// `let a: T = e`
    Declare {
        at: u64,
        variable: Variable,
        value: Term,
    },
    /// `let old: T <- place <- e`, where the place has this type.
    Exchange {
        at: u64,
        variable: Variable,
        place: Place,
        of: CadType,
        value: Term,
    },
    /// `place = e`, or the first setting of a field by `<-`.
    Assign {
        at: u64,
        place: Place,
        value: Argument,
    },
    /// `place <-! e`
    ForceAssign {
        at: u64,
        place: Place,
        value: Argument,
    },
    /// `a <-> b`, with the types of both.
    Swap {
        at: u64,
        left: Place,
        left_type: CadType,
        right: Place,
        right_type: CadType,
    },
    Expression {
        at: u64,
        value: Term,
    },
    If {
        at: u64,
        test: Term,
        then: TypedBlock,
        otherwise: TypedBlock,
    },
    /// `if let a = e`
    IfLet {
        at: u64,
        variable: Variable,
        value: Argument,
        then: TypedBlock,
        otherwise: TypedBlock,
    },
    /// `if let a <- place as? @T`: where the value isn't of the type, it stays.
    IfCast {
        at: u64,
        variable: Variable,
        place: Place,
        target: CadType,
        then: TypedBlock,
        otherwise: TypedBlock,
    },
    While {
        at: u64,
        test: Term,
        body: TypedBlock,
    },
    /// `for i, a in e`
    For {
        at: u64,
        index: Option<Variable>,
        variable: Variable,
        array: Argument,
        body: TypedBlock,
    },
    Switch {
        at: u64,
        value: Term,
        cases: Vec<TypedCase>,
        default: TypedBlock,
    },
    Break {
        at: u64,
    },
    Continue {
        at: u64,
    },
    Return {
        at: u64,
        value: Option<Argument>,
    },
    Emit {
        at: u64,
        event: TypeId,
        arguments: Vec<Argument>,
    },
}

/// A case of a `switch`.
#[cycle(statements)]
#[derive(Drop)]
pub struct TypedCase {
    pub value: Term,
    pub body: TypedBlock,
}
