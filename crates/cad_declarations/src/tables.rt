// The declarations of a program and of all that it imports.
ghost use Rattle.std.specs.Prelude.{map};
ghost use Rattle.cad_types.specs.Declarations.{IsClosed};
ghost use Rattle.cad_declarations.specs.Kinds.{declaration_of};
ghost use Rattle.cad_declarations.specs.MemberViews.{type_entry_of};

use crate::member::{Member, Signature};
use crate::rights::{EntitlementDeclarations, MappingDeclarations};
use crate::type_declarations::TypeDeclarations;
use cad_auth::Mapping;
use cad_syntax::{Address, Kind, Names, TypeId, TypeIds};
use cad_types::Sort;

/// A declared type.
#[derive(Drop)]
pub struct TypeDeclaration {
    pub id: TypeId,
    pub sort: Sort,
    /// The interfaces that it names, in order.
    pub parents: TypeIds,
    /// All interfaces that it has: each before its own parents, later repeats dropped.
    pub interfaces: TypeIds,
    /// The fields and functions that it declares itself, in order; of an event its parameters, as fields.
    pub members: Vec<Member>,
    /// The initializer that is written, or the event.
    pub initializer: Option<Signature>,
    /// The cases of an enum, and the kind of their numbers.
    pub cases: Names,
    pub raw: Option<Kind>,
}

/// An entitlement mapping.
#[derive(Drop)]
pub struct MappingDeclaration {
    pub id: TypeId,
    pub mapping: Mapping,
}

/// The declarations of a program and of all that it imports, each once, those of imports first.
#[derive(Drop)]
pub struct Tables {
    /// The account of a contract's program.
    pub place: Option<Address>,
    /// The contract that the program is.
    pub contract: Option<TypeId>,
    /// The contracts that it imports by name, in order.
    pub imports: TypeIds,
    pub types: TypeDeclarations,
    pub entitlements: EntitlementDeclarations,
    pub mappings: MappingDeclarations,
    /// The functions that stand outside a contract.
    pub functions: Vec<Member>,
    /// The interfaces of an interface that a type has are its own too.
    pub ghost closed: { IsClosed (map declaration_of (map type_entry_of types)) },
}
