// What a program and all that it imports declare.
ghost use Rattle.std.specs.Prelude.{◌≡◌, ◌++◌, IfOk, map};
ghost use Rattle.cad_contract_shapes.specs.Arguments.{argument_shapes, HasDistinctFields};
ghost use Rattle.cad_declarations.specs.Names.{built_in, entitlement_names};
ghost use Rattle.cad_declarations.specs.Views.{tables_of, type_entry_of};
ghost use Rattle.cad_shapes.specs.Held.{shapes_of};
ghost use Rattle.cad_shapes.specs.Views.{pure_shape};
ghost use Rattle.cad_types.specs.Declarations.{IsClosed};
ghost use Rattle.cad_values.specs.Shapes.{declaration};
ghost use Rattle.cad_world.specs.Shapes.{shape_of_entry};

use crate::built_in::push_built_in;
use crate::entries::shape_of;
use cad_declarations::{Tables, TypeDeclaration};
use cad_shapes::{DeclaredShapes, Shape, all_names_differ};
use cad_syntax::{TypeId, TypeIds};
use std::alloc::{AllocError, Global};

/// The shapes of declared types.
fn type_shapes(alloc: Global, types: &[TypeDeclaration]) -> Result<Vec<Shape>, AllocError>
    ensures { IfOk result (λ shapes. map pure_shape shapes.items ≡ map shape_of_entry (map type_entry_of types.now)) }
{
    let mut shapes = Vec::new(alloc);
    for t in types {
        shapes.push(shape_of(alloc, t)?)?;
    }
    Ok(shapes)
}

/// Copies of identifiers.
fn copied(alloc: Global, ids: &[TypeId]) -> Result<TypeIds, AllocError>
    ensures { IfOk result (λ copies. copies ≡ ids.now) }
{
    let mut copies = TypeIds::new(alloc);
    for id in ids {
        copies.push(id.clone()?)?;
    }
    Ok(copies)
}

/// These entitlements, and those that are built in.
fn all_entitlements(alloc: Global, declared: &[TypeId]) -> Result<TypeIds, AllocError>
    ensures { IfOk result (λ ids. ids ≡ declared.now ++ map built_in entitlement_names) }
{
    let mut ids = copied(alloc, declared)?;
    push_built_in(alloc, &mut ids)?;
    Ok(ids)
}

/// Shapes by which values are judged. AllocError too where two fields of a type have one name.
fn judged(
    alloc: Global,
    shapes: Vec<Shape>,
    entitlements: TypeIds,
) -> Result<DeclaredShapes, AllocError>
    requires { IsClosed (map declaration (map pure_shape shapes.items)) }
    ensures { IfOk result (λ it. shapes_of it ≡ record { types = map pure_shape shapes.items; entitlements = entitlements }) }
{
    if !all_names_differ(shapes.as_slice()) {
        return Err(AllocError);
    }
    DeclaredShapes::new(alloc, shapes, entitlements)
}

/// The types and entitlements that a program and all that it imports declare, and the entitlements that are built in. AllocError too where
/// two fields of a type have one name: in programs that were accepted that isn't so, which isn't proved here.
pub fn shapes_of_tables(alloc: Global, tables: &Tables) -> Result<DeclaredShapes, AllocError>
    ensures shapes { IfOk result (λ it. shapes_of it ≡ argument_shapes (tables_of tables.now)) }
    ensures distinct { IfOk result (λ it. HasDistinctFields (tables_of tables.now)) }
{
    let shapes = type_shapes(alloc, tables.types.as_slice())?;
    let entitlements = all_entitlements(alloc, tables.entitlements.as_slice())?;
    judged(alloc, shapes, entitlements)
}
