// Members of declared types.
use cad_grammar::VariableKind;
use cad_syntax::{Authorization, CadType, Name, TypeId};

/// Who may use a member.
#[derive(Debug, Drop, PartialEq, Eq)]
pub enum MemberAccess {
    /// Everybody.
    All,
    /// The type that declares it, and the types declared in it.
    Own,
    /// The contract in which it is declared.
    Contract,
    /// Contracts of the same account.
    Account,
    /// Owners of a value, and references with these entitlements.
    Entitled(Authorization),
    /// Everybody; through a reference with the image of its authorization under this mapping.
    Mapped(TypeId),
}

/// A parameter. Without a label an argument has none either.
#[derive(Debug, Drop, PartialEq, Eq)]
pub struct Parameter {
    pub label: Option<Name>,
    pub name: Name,
    pub declared: CadType,
}

/// What a function, an initializer or an event takes and gives.
#[derive(Debug, Drop, PartialEq, Eq)]
pub struct Signature {
    pub is_view: bool,
    pub parameters: Vec<Parameter>,
    pub result: CadType,
}

#[derive(Debug, Drop, PartialEq, Eq)]
pub enum MemberKind {
    /// A field; in an interface it may be neither `let` nor `var`.
    Field {
        kind: Option<VariableKind>,
        declared: CadType,
    },
    /// A function; in an interface it may have no body.
    Function {
        signature: Signature,
        has_body: bool,
    },
}

/// A member, and the type that declares it.
#[derive(Debug, Drop, PartialEq, Eq)]
pub struct Member {
    pub name: Name,
    pub access: MemberAccess,
    pub declared_by: TypeId,
    pub kind: MemberKind,
}
