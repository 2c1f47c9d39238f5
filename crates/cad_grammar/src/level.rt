// Where expressions and types stand.

/// How tightly a form of expression binds, from the loosest on.
#[derive(Clone, Copy, Debug, PartialEq, Eq)]
pub enum Level {
    /// `a ? b : c`
    Conditional,
    /// `a || b`
    Or,
    /// `a && b`
    And,
    /// `a < b`, `a == b`
    Comparison,
    /// `a ?? b`
    Coalesce,
    /// `a | b`
    BitOr,
    /// `a ^ b`
    BitXor,
    /// `a & b`
    BitAnd,
    /// `a + b`
    Sum,
    /// `a * b`
    Product,
    /// `a as T`
    Cast,
    /// `-a`
    Prefix,
    /// `a.n`, `f(a)`
    Postfix,
    /// names, literals and what stands in brackets
    Primary,
}

/// Where a type stands: behind the `as` of a cast or of a reference, or elsewhere.
#[derive(Clone, Copy, Debug, PartialEq, Eq)]
pub enum TypePosition {
    Anywhere,
    BehindAs,
}
