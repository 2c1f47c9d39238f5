// Imports, declarations and programs.
use crate::expression::Expr;
use crate::statement::{Stmt, VariableKind};
use crate::type_expr::{Dotted, Entitlements, TypeAnnotation};
use cad_syntax::{Items, Name, Names};

/// `import A, B from 0x1`
#[derive(Debug, Drop)]
pub struct Import {
    pub names: Names,
    pub address: u128,
}

/// Who may use a member.
#[derive(Debug, Drop)]
pub enum Access {
    /// `access(all)`
    All,
    /// `access(self)`
    Self_,
    /// `access(contract)`
    Contract,
    /// `access(account)`
    Account,
    /// `access(mapping M)`
    Mapping(Dotted),
    /// `access(E, F)`, `access(E | F)`
    Entitled(Entitlements),
}

/// `to name: T`
#[derive(Debug, Drop)]
pub struct Parameter {
    pub label: Option<Name>,
    pub name: Name,
    pub annotation: TypeAnnotation,
}

/// A condition before or after a function's body.
#[derive(Debug, Drop)]
pub enum Condition {
    /// `e: m`
    Test { test: Expr, message: Option<Expr> },
    /// `emit e`
    Emit(Expr),
}

pub type Conditions = Vec<Condition>;

/// A block with its conditions.
#[derive(Debug, Drop)]
pub struct FunctionBlock {
    pub pre: Option<Conditions>,
    pub post: Option<Conditions>,
    pub body: Vec<Stmt>,
}

/// A function. In an interface it may have no block.
#[derive(Debug, Drop)]
pub struct Function {
    pub access: Access,
    pub is_view: bool,
    pub name: Name,
    pub parameters: Vec<Parameter>,
    pub result: Option<TypeAnnotation>,
    pub block: Option<FunctionBlock>,
}

/// An initializer.
#[derive(Debug, Drop)]
pub struct Init {
    pub is_view: bool,
    pub parameters: Vec<Parameter>,
    pub block: FunctionBlock,
}

/// A field. In an interface it may be neither `let` nor `var`.
#[derive(Debug, Drop)]
pub struct Field {
    pub access: Access,
    pub kind: Option<VariableKind>,
    pub name: Name,
    pub annotation: TypeAnnotation,
}

/// A parameter of an event. The event `ResourceDestroyed` alone has defaults, and one for each parameter.
#[derive(Debug, Drop)]
pub struct EventParameter {
    pub parameter: Parameter,
    pub default: Option<Expr>,
}

/// An event. Only `ResourceDestroyed` may have no access.
#[derive(Debug, Drop)]
pub struct Event {
    pub access: Option<Access>,
    pub name: Name,
    pub parameters: Vec<EventParameter>,
}

#[derive(Clone, Copy, Debug, PartialEq, Eq)]
pub enum CompositeKind {
    Struct,
    Resource,
}

#[derive(Debug, Drop)]
pub enum CompositeMember {
    Field(Field),
    Function(Function),
    Init(Init),
    Event(Event),
}

/// A struct or a resource.
#[derive(Debug, Drop)]
pub struct Composite {
    pub access: Access,
    pub kind: CompositeKind,
    pub name: Name,
    pub conformances: Items<Dotted>,
    pub members: Vec<CompositeMember>,
}

#[derive(Debug, Drop)]
pub enum InterfaceMember {
    Field(Field),
    Function(Function),
}

/// An interface of structs or of resources.
#[derive(Debug, Drop)]
pub struct Interface {
    pub access: Access,
    pub kind: CompositeKind,
    pub name: Name,
    pub conformances: Items<Dotted>,
    pub members: Vec<InterfaceMember>,
}

/// A case of an enum.
#[derive(Debug, Drop)]
pub struct EnumCase {
    pub access: Access,
    pub name: Name,
}

/// An enum with the type of its raw values.
#[derive(Debug, Drop)]
pub struct Enum {
    pub access: Access,
    pub name: Name,
    pub raw: Dotted,
    pub cases: Vec<EnumCase>,
}

#[derive(Debug, Drop)]
pub struct Entitlement {
    pub access: Access,
    pub name: Name,
}

/// An item of an entitlement mapping.
#[derive(Debug, Drop)]
pub enum MappingItem {
    /// `include Identity`
    Identity,
    /// `E -> F`
    Pair(Dotted, Dotted),
}

/// An entitlement mapping.
#[derive(Debug, Drop)]
pub struct Mapping {
    pub access: Access,
    pub name: Name,
    pub items: Vec<MappingItem>,
}

#[derive(Debug, Drop)]
pub enum ContractMember {
    Field(Field),
    Function(Function),
    Init(Init),
    Composite(Composite),
    Interface(Interface),
    Event(Event),
    Enum(Enum),
    Entitlement(Entitlement),
    Mapping(Mapping),
}

#[derive(Debug, Drop)]
pub struct Contract {
    pub access: Access,
    pub name: Name,
    pub members: Vec<ContractMember>,
}

/// A field of a transaction.
#[derive(Debug, Drop)]
pub struct TransactionField {
    pub kind: VariableKind,
    pub name: Name,
    pub annotation: TypeAnnotation,
}

/// What a transaction does with the accounts of its signers.
#[derive(Debug, Drop)]
pub struct Prepare {
    pub parameters: Vec<Parameter>,
    pub body: Vec<Stmt>,
}

#[derive(Debug, Drop)]
pub struct Transaction {
    pub parameters: Option<Vec<Parameter>>,
    pub fields: Vec<TransactionField>,
    pub prepare: Option<Prepare>,
    pub pre: Option<Conditions>,
    pub execute: Option<Vec<Stmt>>,
    pub post: Option<Conditions>,
}

#[derive(Debug, Drop)]
pub enum Decl {
    Contract(Contract),
    Function(Function),
    Transaction(Transaction),
}

#[derive(Debug, Drop)]
pub struct Program {
    pub imports: Vec<Import>,
    pub declarations: Vec<Decl>,
}
