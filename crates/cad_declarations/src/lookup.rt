// What tables tell of types and members.
ghost use Rattle.std.specs.Prelude.{◌≡◌, ◌++◌, map, option_map, option_to_list, IfOk, OnOk};
ghost use Rattle.cad_syntax.specs.Types.{pure_type};
ghost use Rattle.cad_types.specs.Views.{declarations};
ghost use Rattle.cad_types.specs.Declarations.{declaration_of as kind_of};
ghost use Rattle.cad_declarations.specs.Kinds.{kinds_of, declaration_of, field_type};
ghost use Rattle.cad_declarations.specs.Members as spec;
ghost use Rattle.cad_declarations.specs.Names.{same_name};
ghost use Rattle.cad_declarations.specs.Scopes as scopes;
ghost use Rattle.cad_declarations.specs.Views.{form_of, member_of, type_entry_of, tables_of};

use crate::member::{Member, MemberKind};
use crate::tables::{Tables, TypeDeclaration};
use crate::type_declarations::TypeDeclarations;
use cad_syntax::{Basic, CadType, Name, TypeId, Types};
use cad_types::{Declared, DeclaredTypes, Sort};
use std::alloc::{AllocError, Global};

impl Tables {
    /// The declared types, their fields in order, as the order of types and its classes are judged by them.
    pub fn kinds(&self, alloc: Global) -> Result<DeclaredTypes, AllocError>
        ensures { IfOk result (λ types. declarations types ≡ kinds_of (tables_of self.now)) }
    {
        let declared = all_declared(alloc, self.types.as_slice())?;
        DeclaredTypes::new(alloc, declared)
    }

    /// The first declaration of an identifier.
    pub fn find(&self, id: &TypeId) -> Option<&TypeDeclaration>
        ensures { option_map (λ t. type_entry_of t.now) result ≡ spec.type_in (tables_of self.now).types id.now }
    {
        find_type(&self.types, id)
    }

    /// All interfaces that a type has, each before its own parents; none of an identifier that isn't declared.
    pub fn linearised(&self, of: &TypeId) -> &[TypeId]
        ensures { result.now ≡ spec.interfaces_of_type (tables_of self.now) of.now }
    {
        interfaces(&self.types, of)
    }

    /// The member of a name that a declared type has, or an intersection, interface by interface. None where there is none; the
    /// members of other types are built in.
    pub fn member(&self, of: &CadType, name: &Name) -> Option<&Member>
        ensures { option_map (λ m. member_of m.now) result ≡ spec.member (tables_of self.now) (pure_type of.now) name.now }
    {
        match of {
            CadType::Declared(id) => declared_member(&self.types, name, id),
            CadType::Intersection(ids) => {
                first_interface_member(&self.types, name, ids.as_slice())
            }
            _ => None,
        }
    }
}

/// Declared types with the types of their fields.
pub(crate) fn all_declared(
    alloc: Global,
    types: &[TypeDeclaration],
) -> Result<Vec<Declared>, AllocError>
    ensures { IfOk result (λ all. map kind_of all.items ≡ map declaration_of (map type_entry_of types.now)) }
{
    let mut all = Vec::new(alloc);
    for t in types {
        all.push(declared_of(alloc, t)?)?;
    }
    Ok(all)
}

/// A declared type with the types of its fields.
#[tactic(auto, using(crate::proofs::Fields::one_more))]
fn declared_of(alloc: Global, t: &TypeDeclaration) -> Result<Declared, AllocError>
    ensures { IfOk result (λ d. kind_of d ≡ declaration_of (type_entry_of t.now)) }
{
    let mut fields = Vec::new(alloc);
    for member in t.members.iter() {
        push_field(&mut fields, &member.kind)?;
    }
    if let Some(kind) = t.raw {
        fields.push(CadType::Basic(Basic::Number(kind)))?;
    }
    Ok(Declared {
        id: t.id.clone()?,
        sort: t.sort,
        fields: Types::from_vec(fields),
        interfaces: t.interfaces.clone()?,
    })
}

/// Appends the type of a field.
fn push_field(fields: &mut Vec<CadType>, kind: &MemberKind) -> Result<(), AllocError>
    ensures { OnOk result (map pure_type fields.new.items ≡ map pure_type fields.old.items ++ option_to_list (field_type (form_of kind.now))) }
{
    match kind {
        MemberKind::Field { declared, .. } => {
            fields.push(declared.clone()?)?;
            Ok(())
        }
        MemberKind::Function { .. } => Ok(()),
    }
}

/// Whether two names are one.
pub fn is_same_name(a: &Name, b: &Name) -> bool
    ensures { result ≡ same_name a.now b.now }
{
    a.0.as_str() == b.0.as_str()
}

/// The first declaration of an identifier.
pub fn find_type<'a>(types: &'a TypeDeclarations, id: &TypeId) -> Option<&'a TypeDeclaration>
    ensures { option_map (λ t. type_entry_of t.now) result ≡ spec.type_in (map type_entry_of types.now) id.now }
{
    types.find(id)
}

/// The first member of a name.
pub fn find_member<'a>(members: &'a [Member], name: &Name) -> Option<&'a Member>
    ensures { option_map (λ m. member_of m.now) result ≡ spec.member_in (map member_of members.now) name.now }
{
    for member in members {
        if is_same_name(&member.name, name) {
            return Some(member);
        }
    }
    None
}

fn interfaces<'a>(types: &'a TypeDeclarations, id: &TypeId) -> &'a [TypeId]
    ensures { result.now ≡ spec.interfaces_in (spec.type_in (map type_entry_of types.now) id.now) }
{
    match find_type(types, id) {
        Some(t) => t.interfaces.as_slice(),
        None => &[],
    }
}

/// What a type declares itself under a name.
pub fn own_member<'a>(types: &'a TypeDeclarations, name: &Name, id: &TypeId) -> Option<&'a Member>
    ensures { option_map (λ m. member_of m.now) result ≡ spec.own_member (map type_entry_of types.now) name.now id.now }
{
    match find_type(types, id) {
        Some(t) => find_member(t.members.as_slice(), name),
        None => None,
    }
}

/// Whether a member is a function with a body.
fn has_body(kind: &MemberKind) -> bool
    ensures { result ≡ spec.has_body (form_of kind.now) }
{
    match kind {
        MemberKind::Field { .. } => false,
        MemberKind::Function { has_body, .. } => *has_body,
    }
}

/// The function of a name that an interface has with a body.
pub fn default_in<'a>(types: &'a TypeDeclarations, name: &Name, id: &TypeId) -> Option<&'a Member>
    ensures { option_map (λ m. member_of m.now) result ≡ spec.default_in (map type_entry_of types.now) name.now id.now }
{
    match own_member(types, name, id) {
        Some(member) => if_default(member),
        None => None,
    }
}

fn if_default(member: &Member) -> Option<&Member>
    ensures { option_map (λ m. member_of m.now) result ≡ spec.if_default (member_of member.now) }
{
    if has_body(&member.kind) {
        Some(member)
    } else {
        None
    }
}

/// What the first of these types that declares the name declares under it.
fn first_own<'a>(types: &'a TypeDeclarations, name: &Name, ids: &[TypeId]) -> Option<&'a Member>
    ensures { option_map (λ m. member_of m.now) result ≡ spec.first_some (spec.own_member (map type_entry_of types.now) name.now) ids.now }
{
    for id in ids {
        if let Some(member) = own_member(types, name, id) {
            return Some(member);
        }
    }
    None
}

/// The first body of a function of this name in these interfaces.
fn first_default<'a>(types: &'a TypeDeclarations, name: &Name, ids: &[TypeId]) -> Option<&'a Member>
    ensures { option_map (λ m. member_of m.now) result ≡ spec.first_some (spec.default_in (map type_entry_of types.now) name.now) ids.now }
{
    for id in ids {
        if let Some(member) = default_in(types, name, id) {
            return Some(member);
        }
    }
    None
}

/// The member of an interface: the first of its name, in itself and then in its parents.
pub fn interface_member<'a>(
    types: &'a TypeDeclarations,
    name: &Name,
    id: &TypeId,
) -> Option<&'a Member>
    ensures { option_map (λ m. member_of m.now) result ≡ spec.interface_member (map type_entry_of types.now) name.now id.now }
{
    if let Some(member) = own_member(types, name, id) {
        return Some(member);
    }
    first_own(types, name, interfaces(types, id))
}

/// The member of an intersection, interface by interface.
fn first_interface_member<'a>(
    types: &'a TypeDeclarations,
    name: &Name,
    ids: &[TypeId],
) -> Option<&'a Member>
    ensures { option_map (λ m. member_of m.now) result ≡ spec.first_some (spec.interface_member (map type_entry_of types.now) name.now) ids.now }
{
    for id in ids {
        if let Some(member) = interface_member(types, name, id) {
            return Some(member);
        }
    }
    None
}

/// The member of a composite: its own, else the first body in its interfaces.
fn composite_member<'a>(types: &'a TypeDeclarations, name: &Name, id: &TypeId) -> Option<&'a Member>
    ensures { option_map (λ m. member_of m.now) result ≡ spec.composite_member (map type_entry_of types.now) name.now id.now }
{
    if let Some(member) = own_member(types, name, id) {
        return Some(member);
    }
    first_default(types, name, interfaces(types, id))
}

fn declared_member<'a>(types: &'a TypeDeclarations, name: &Name, id: &TypeId) -> Option<&'a Member>
    ensures { option_map (λ m. member_of m.now) result ≡ spec.declared_member (map type_entry_of types.now) name.now id.now }
{
    if is_interface(types, id) {
        interface_member(types, name, id)
    } else {
        composite_member(types, name, id)
    }
}

fn is_interface(types: &TypeDeclarations, id: &TypeId) -> bool
    ensures { result ≡ spec.is_interface_entry (spec.type_in (map type_entry_of types.now) id.now) }
{
    match find_type(types, id) {
        Some(t) => is_interface_sort(t.sort),
        None => false,
    }
}

/// Whether a declared type is an interface.
pub fn is_interface_sort(sort: Sort) -> bool
    ensures { result ≡ scopes.is_interface_sort sort }
{
    matches!(sort, Sort::StructInterface | Sort::ResourceInterface)
}
