// What the contracts of a state declare.
ghost use Rattle.std.specs.Prelude.{◌≡◌, ◌++◌, IfOk, OnOk, map};
ghost use Rattle.std.specs.List.{flat_map};
ghost use Rattle.cad_declarations.specs.Names.{built_in, entitlement_names};
ghost use Rattle.cad_shapes.specs.Held.{shapes_of};
ghost use Rattle.cad_shapes.specs.Views.{pure_shape};
ghost use Rattle.cad_state.specs.Views.{contract_of};
ghost use Rattle.cad_world.specs.Declared.{own_types, types_of};
ghost use Rattle.cad_world.specs.Shapes as spec;

use crate::built_in::push_built_in;
use crate::entries::shape_of;
use cad_access::is_within;
use cad_shapes::{DeclaredShapes, Shape, all_names_differ, are_closed};
use cad_state::Contract;
use cad_syntax::TypeIds;
use std::alloc::{AllocError, Global};

/// Appends the shapes of the types that a contract declares.
fn push_own_types(
    alloc: Global,
    shapes: &mut Vec<Shape>,
    contract: &Contract,
) -> Result<(), AllocError>
    ensures { OnOk result (map pure_shape shapes.new.items ≡ map pure_shape shapes.old.items ++ map spec.shape_of_entry (own_types (contract_of contract.now))) }
{
    for t in contract.checked.tables.types.as_slice() {
        if is_within(&contract.id, &t.id) {
            shapes.push(shape_of(alloc, t)?)?;
        }
    }
    Ok(())
}

/// The shapes of the types that contracts declare.
fn all_shapes(alloc: Global, contracts: &[Contract]) -> Result<Vec<Shape>, AllocError>
    ensures { IfOk result (λ all. map pure_shape all.items ≡ map spec.shape_of_entry (types_of (map contract_of contracts.now))) }
{
    let mut all = Vec::new(alloc);
    for contract in contracts {
        push_own_types(alloc, &mut all, contract)?;
    }
    Ok(all)
}

/// Appends the entitlements that a contract declares.
fn push_own_entitlements(ids: &mut TypeIds, contract: &Contract) -> Result<(), AllocError>
    ensures { OnOk result (ids.new ≡ ids.old ++ spec.own_entitlements (contract_of contract.now)) }
{
    for id in contract.checked.tables.entitlements.as_slice() {
        if is_within(&contract.id, id) {
            ids.push(id.clone()?)?;
        }
    }
    Ok(())
}

/// The entitlements that contracts declare.
fn declared_entitlements(alloc: Global, contracts: &[Contract]) -> Result<TypeIds, AllocError>
    ensures { IfOk result (λ ids. ids ≡ flat_map spec.own_entitlements (map contract_of contracts.now)) }
{
    let mut ids = TypeIds::new(alloc);
    for contract in contracts {
        push_own_entitlements(&mut ids, contract)?;
    }
    Ok(ids)
}

/// The entitlements that contracts declare, and those that are built in.
fn all_entitlements(alloc: Global, contracts: &[Contract]) -> Result<TypeIds, AllocError>
    ensures { IfOk result (λ ids. ids ≡ flat_map spec.own_entitlements (map contract_of contracts.now) ++ map built_in entitlement_names) }
{
    let mut ids = declared_entitlements(alloc, contracts)?;
    push_built_in(alloc, &mut ids)?;
    Ok(ids)
}

/// Shapes by which values are judged. AllocError too where two fields of a type have one name, and where an interface that a type has has
/// an interface that isn't that type's own.
fn judged(
    alloc: Global,
    shapes: Vec<Shape>,
    entitlements: TypeIds,
) -> Result<DeclaredShapes, AllocError>
    ensures { IfOk result (λ it. shapes_of it ≡ record { types = map pure_shape shapes.items; entitlements = entitlements }) }
{
    if !are_closed(alloc, shapes.as_slice())? {
        return Err(AllocError);
    }
    if !all_names_differ(shapes.as_slice()) {
        return Err(AllocError);
    }
    DeclaredShapes::new(alloc, shapes, entitlements)
}

/// The types and entitlements that contracts declare, and the entitlements that are built in. AllocError too where two fields of a type
/// have one name, and where an interface that a type has has an interface that isn't that type's own: of contracts whose codes were
/// accepted one beside the other neither is so, which isn't proved here.
pub fn shapes_of_contracts(
    alloc: Global,
    contracts: &[Contract],
) -> Result<DeclaredShapes, AllocError>
    ensures { IfOk result (λ it. shapes_of it ≡ spec.shapes (map contract_of contracts.now)) }
{
    let shapes = all_shapes(alloc, contracts)?;
    let entitlements = all_entitlements(alloc, contracts)?;
    judged(alloc, shapes, entitlements)
}
