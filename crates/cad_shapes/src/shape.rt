// The shapes of declared types.
ghost use Rattle.std.specs.Prelude.{◌≡◌, ◌↔◌, not, map, IsTrue, IfOk};
ghost use Rattle.cad_syntax.specs.Types.{pure_type};
ghost use Rattle.cad_types.specs.Declarations.{declaration_of, IsClosed};
ghost use Rattle.cad_values.specs.Shapes.{declaration};
ghost use Rattle.cad_shapes.specs.Views as views;
ghost use Rattle.cad_shapes.specs.Views.{pure_field, pure_shape, same_name};
ghost use Rattle.std.specs.List.{list_all};

use cad_syntax::{CadType, Kind, Name, TypeId, TypeIds, Types};
use cad_types::{Declared, Sort, is_closed};
use std::alloc::{AllocError, Global};

/// A field of a declared type.
#[derive(Debug, Drop)]
pub struct ShapeField {
    pub name: Name,
    pub is: CadType,
}

/// What is declared of one type: its fields in order, the interfaces that it has by linearisation, and of an enum the kind
/// of its raw values and how many cases it has.
#[derive(Debug, Drop)]
pub struct Shape {
    pub id: TypeId,
    pub sort: Sort,
    pub fields: Vec<ShapeField>,
    pub interfaces: TypeIds,
    pub raw: Kind,
    pub cases: u64,
}

/// The types of fields.
fn field_types(alloc: Global, fields: &[ShapeField]) -> Result<Types, AllocError>
    ensures { IfOk result (λ types. map pure_type types ≡ map (λ f. f.is) (map pure_field fields.now)) }
{
    let mut types = Types::new(alloc);
    for field in fields {
        types.push(field.is.clone()?)?;
    }
    Ok(types)
}

/// The declaration by which types are ordered.
fn declared_of(alloc: Global, shape: &Shape) -> Result<Declared, AllocError>
    ensures { IfOk result (λ d. declaration_of d ≡ declaration (pure_shape shape.now)) }
{
    Ok(Declared {
        id: shape.id.clone()?,
        sort: shape.sort,
        fields: field_types(alloc, shape.fields.as_slice())?,
        interfaces: shape.interfaces.clone()?,
    })
}

/// The declarations of shapes.
pub fn all_declared(alloc: Global, shapes: &[Shape]) -> Result<Vec<Declared>, AllocError>
    ensures { IfOk result (λ all. map declaration_of all.items ≡ map declaration (map pure_shape shapes.now)) }
{
    let mut all = Vec::new(alloc);
    for shape in shapes {
        let declared = declared_of(alloc, shape)?;
        all.push(declared)?;
    }
    Ok(all)
}

/// Whether the interfaces of an interface that a type has are its own too.
pub fn are_closed(alloc: Global, shapes: &[Shape]) -> Result<bool, AllocError>
    ensures { IfOk result (λ b. IsTrue b ↔ IsClosed (map declaration (map pure_shape shapes.now))) }
{
    let declared = all_declared(alloc, shapes)?;
    let closed = is_closed(declared.as_slice());
    Ok(closed)
}

/// The identifiers of shapes.
pub fn identifiers(alloc: Global, shapes: &[Shape]) -> Result<Vec<&TypeId>, AllocError>
    ensures { IfOk result (λ ids. map (λ id. id.now) ids.items ≡ map (λ s. s.id) shapes.now) }
{
    let mut ids = Vec::new(alloc);
    for shape in shapes {
        ids.push(&shape.id)?;
    }
    Ok(ids)
}

/// Whether none of these fields has a name.
fn lacks(fields: &[ShapeField], name: &Name) -> bool
    ensures { result ≡ list_all (λ other. not (same_name other.name name.now)) (map pure_field fields.now) }
{
    for other in fields {
        if is_same(&other.name, name) {
            return false;
        }
    }
    true
}

fn is_same(a: &Name, b: &Name) -> bool
    ensures { result ≡ same_name a.now b.now }
{
    a.0 == b.0
}

/// Whether no two of these fields have one name.
fn names_differ(fields: &[ShapeField]) -> bool
    ensures { result ≡ views.names_differ (map pure_field fields.now) }
{
    match fields {
        [] => true,
        [first, rest @ ..] => lacks(rest, &first.name) && names_differ(rest),
    }
}

/// Whether no two fields of a type have one name.
pub fn all_names_differ(shapes: &[Shape]) -> bool
    ensures { result ≡ views.all_names_differ (map pure_shape shapes.now) }
{
    for shape in shapes {
        if !names_differ(shape.fields.as_slice()) {
            return false;
        }
    }
    true
}
