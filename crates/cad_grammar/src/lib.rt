//! Tokens and the trees of programs: which text has which tokens, and which tokens spell which tree.
#![tactic(auto)]

mod declaration;
mod expression;
mod level;
mod phase;
mod statement;
mod token;
mod type_expr;

pub use declaration::{
    Access, Composite, CompositeKind, CompositeMember, Condition, Conditions, Contract,
    ContractMember, Decl, Entitlement, Enum, EnumCase, Event, EventParameter, Field, Function,
    FunctionBlock, Import, Init, Interface, InterfaceMember, Mapping, MappingItem, Parameter,
    Prepare, Program, Transaction, TransactionField,
};
pub use expression::{Argument, BinaryOperator, CastKind, Entry, Expr, UnaryOperator};
pub use level::{Level, TypePosition};
pub use phase::{ParseStop, Phase};
pub use statement::{Case, Otherwise, Stmt, Test, Transfer, VariableKind};
pub use token::{Sign, Token, TokenKind, Tokens};
pub use type_expr::{Dotted, Entitlements, TypeAnnotation, TypeExpr};
