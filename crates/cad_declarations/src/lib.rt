//! The declared types of programs with their members, and the elaborated trees of their bodies: types, and definitions in
//! specs/.
#![tactic(auto)]

mod body;
mod boxes;
mod discard;
mod link;
mod lookup;
mod member;
mod program;
mod rights;
mod statement;
mod stop;
mod tables;
mod term;
mod type_declarations;

pub use body::{
    Bodies, DestroyedEvent, TypedBefore, TypedBody, TypedCondition, TypedFunction, TypedMember,
    TypedTransaction, TypedType,
};
pub use boxes::{boxed_place, boxed_term, boxed_terms, boxed_type, boxed_use};
pub use discard::{
    discard_arguments, discard_block, discard_boxed_place, discard_boxed_term, discard_entries,
    discard_place, discard_statement, discard_term, discard_type, discard_types, discard_use,
    discard_variable,
};
pub use link::{Link, Links, linearised, reached_from};
pub use lookup::{
    default_in, find_member, find_type, interface_member, is_interface_sort, is_same_name,
    own_member,
};
pub use member::{Member, MemberAccess, MemberKind, Parameter, Signature};
pub use program::{Checked, Deployed, Installed};
pub use rights::{EntitlementDeclarations, MappingDeclarations};
pub use statement::{TypedBlock, TypedCase, TypedStatement, Variable};
pub use stop::{Refused, Rejected, Stop};
pub use tables::{MappingDeclaration, Tables, TypeDeclaration};
pub use term::{Argument, Place, Term, TermEntry, Use};
pub use type_declarations::TypeDeclarations;
