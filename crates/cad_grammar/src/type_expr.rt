// Types as a program writes them.
use cad_syntax::{Items, Names};

/// A name behind which further names stand with a `.` before each.
pub type Dotted = Names;

/// Entitlements: all of these, or any one of them.
#[derive(Debug, Drop)]
pub enum Entitlements {
    /// `E, F`
    All(Items<Dotted>),
    /// `E | F`
    Any(Items<Dotted>),
}

/// A type.
#[cycle(types)]
#[derive(Debug, Drop)]
pub enum TypeExpr {
    /// `T`, `A.T`, `T<U, V>`
    Named {
        name: Dotted,
        arguments: Vec<TypeAnnotation>,
    },
    /// `&T`, `auth(E) &T`
    Reference {
        authorization: Option<Entitlements>,
        target: Box<TypeExpr>,
    },
    /// `[T]`
    Array(Box<TypeExpr>),
    /// `{K: V}`
    Dictionary(Box<TypeExpr>, Box<TypeExpr>),
    /// `{I, J}`
    Intersection(Items<Dotted>),
    /// `T?`
    Optional(Box<TypeExpr>),
}

/// A type, with `@` before it or without.
#[cycle(types)]
#[derive(Debug, Drop)]
pub struct TypeAnnotation {
    pub is_resource: bool,
    pub written: TypeExpr,
}
