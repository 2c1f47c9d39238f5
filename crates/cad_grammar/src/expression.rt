// Expressions.
use crate::type_expr::{Dotted, TypeAnnotation, TypeExpr};
use cad_syntax::{Name, Path, Text};

#[derive(Clone, Copy, Debug, PartialEq, Eq)]
pub enum UnaryOperator {
    /// `-a`
    Negate,
    /// `!a`
    Not,
    /// `*a`
    Dereference,
    /// `<-a`
    Move,
    /// `destroy a`
    Destroy,
}

#[derive(Clone, Copy, Debug, PartialEq, Eq)]
pub enum BinaryOperator {
    /// `a || b`
    Or,
    /// `a && b`
    And,
    /// `a < b`
    Less,
    /// `a <= b`
    LessOrEqual,
    /// `a > b`
    Greater,
    /// `a >= b`
    GreaterOrEqual,
    /// `a == b`
    Equal,
    /// `a != b`
    NotEqual,
    /// `a ?? b`
    Coalesce,
    /// `a | b`
    BitOr,
    /// `a ^ b`
    BitXor,
    /// `a & b`
    BitAnd,
    /// `a + b`
    Add,
    /// `a - b`
    Subtract,
    /// `a * b`
    Multiply,
    /// `a / b`
    Divide,
    /// `a % b`
    Remainder,
}

#[derive(Clone, Copy, Debug, PartialEq, Eq)]
pub enum CastKind {
    /// `a as T`
    Static,
    /// `a as? T`
    Failable,
    /// `a as! T`
    Forced,
}

/// An expression.
#[cycle(expressions)]
#[derive(Debug, Drop)]
pub enum Expr {
    /// `1`, `0x1f`
    Whole {
        value: u128,
        hexadecimal: bool,
    },
    /// `1.5`, scaled by 10^8
    Fixed(u128),
    /// `"a"`
    Text(Text),
    /// `true`, `false`
    Bool(bool),
    /// `nil`
    Nil,
    /// `self`
    Self_,
    /// `a`
    Name(Name),
    /// `/storage/a`
    Path(Path),
    /// `create R(a: 1)`
    Create {
        composite: Dotted,
        arguments: Vec<Argument>,
    },
    /// `[a, b]`
    Array(Vec<Expr>),
    /// `{k: v}`
    Dictionary(Vec<Entry>),
    /// `a.n`
    Member(Box<Expr>, Name),
    /// `a?.n`
    OptionalMember(Box<Expr>, Name),
    /// `a[e]`
    Index(Box<Expr>, Box<Expr>),
    /// `f(a: 1)`, `f<T>(a: 1)`
    Call {
        function: Box<Expr>,
        type_arguments: Vec<TypeAnnotation>,
        arguments: Vec<Argument>,
    },
    /// `a!`
    Force(Box<Expr>),
    Unary(UnaryOperator, Box<Expr>),
    /// `&a as T`
    Reference(Box<Expr>, TypeExpr),
    Cast(CastKind, Box<Expr>, TypeAnnotation),
    Binary(BinaryOperator, Box<Expr>, Box<Expr>),
    /// `a ? b : c`
    Conditional(Box<Expr>, Box<Expr>, Box<Expr>),
}

/// An argument of a call: `e`, `n: e`
#[cycle(expressions)]
#[derive(Debug, Drop)]
pub struct Argument {
    pub label: Option<Name>,
    pub value: Expr,
}

/// A pair of a dictionary: `k: v`
#[cycle(expressions)]
#[derive(Debug, Drop)]
pub struct Entry {
    pub key: Expr,
    pub value: Expr,
}
