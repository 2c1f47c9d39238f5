// Statements.
use crate::expression::Expr;
use crate::type_expr::TypeAnnotation;
use cad_syntax::Name;

/// `let` or `var`
#[derive(Clone, Copy, Debug, PartialEq, Eq)]
pub enum VariableKind {
    Let,
    Var,
}

/// `=`, `<-` or `<-!`
#[derive(Clone, Copy, Debug, PartialEq, Eq)]
pub enum Transfer {
    Copy,
    Move,
    ForceMove,
}

/// The test of an `if`.
#[derive(Debug, Drop)]
pub enum Test {
    Expr(Expr),
    /// `let a: T = e`
    Binding {
        kind: VariableKind,
        name: Name,
        annotation: Option<TypeAnnotation>,
        transfer: Transfer,
        value: Expr,
    },
}

/// A statement.
#[cycle(statements)]
#[derive(Debug, Drop)]
pub enum Stmt {
    /// `let a: T <- e <- f`
    Variable {
        kind: VariableKind,
        name: Name,
        annotation: Option<TypeAnnotation>,
        transfer: Transfer,
        value: Expr,
        second: Option<(Transfer, Expr)>,
    },
    If {
        test: Test,
        then: Vec<Stmt>,
        otherwise: Otherwise,
    },
    While(Expr, Vec<Stmt>),
    /// `for i, a in e { .. }`
    For {
        index: Option<Name>,
        name: Name,
        array: Expr,
        body: Vec<Stmt>,
    },
    Switch {
        value: Expr,
        cases: Vec<Case>,
        default: Option<Vec<Stmt>>,
    },
    Break,
    Continue,
    Return(Option<Expr>),
    Emit(Expr),
    /// `a = e`, `a <- e`, `a <-! e`
    Assignment(Expr, Transfer, Expr),
    /// `a <-> b`
    Swap(Expr, Expr),
    Expr(Expr),
}

/// What stands behind `else`.
#[cycle(statements)]
#[derive(Debug, Drop)]
pub enum Otherwise {
    /// There is no `else`.
    Nothing,
    Block(Vec<Stmt>),
    /// An `if` statement.
    If(Box<Stmt>),
}

/// A case of a `switch`.
#[cycle(statements)]
#[derive(Debug, Drop)]
pub struct Case {
    pub value: Expr,
    pub body: Vec<Stmt>,
}
