// Entitlements and mappings that are found by their identifiers.
ghost use Rattle.std.specs.Prelude.{◌≡◌, map, option_map, IfOk};
ghost use Rattle.cad_syntax.specs.TypeIds.{has};
ghost use Rattle.cad_types.specs.Places.{ArePlaces};
ghost use Rattle.cad_declarations.specs.Members.{mapping_in_entries};
ghost use Rattle.cad_declarations.specs.MemberViews.{mapping_entry_of};

use crate::tables::MappingDeclaration;
use cad_syntax::{TypeId, TypeIds};
use cad_types::{Places, places_of};
use std::alloc::{AllocError, Global};
use std::marker::Model;

/// Entitlements in order, with their places by identifier; contracts see them as a list.
#[derive(Drop)]
pub struct EntitlementDeclarations {
    all: TypeIds,
    places: Places,
}

impl Model for EntitlementDeclarations {
    ghost use Rattle.std.specs.Prelude.{List};
    ghost use Rattle.cad_types.specs.Places.{ArePlaces};
    ghost use Rattle.cad_syntax.specs.declared.type_id.TypeId.{TypeId as Id};

    ghost Value = { List Id };

    ghost view = { λ entitlements. entitlements.all };

    ghost invariant = { λ entitlements. ArePlaces entitlements.places entitlements.all };
}

impl EntitlementDeclarations {
    /// These entitlements.
    pub fn new(alloc: Global, all: TypeIds) -> Result<EntitlementDeclarations, AllocError>
        ensures { IfOk result (λ entitlements. entitlements ≡ all) }
    {
        let places = entitlement_places(alloc, all.as_slice())?;
        Ok(EntitlementDeclarations { all, places })
    }

    /// The same entitlements once more.
    pub fn copied(&self, alloc: Global) -> Result<EntitlementDeclarations, AllocError>
        ensures { IfOk result (λ entitlements. entitlements ≡ self.now) }
    {
        EntitlementDeclarations::new(alloc, self.all.clone()?)
    }

    /// All of them, in order.
    pub fn as_slice(&self) -> &[TypeId]
        ensures { result.now ≡ self.now }
    {
        self.all.as_slice()
    }

    /// Whether an identifier is an entitlement's.
    pub fn contains(&self, id: &TypeId) -> bool
        ensures { result ≡ has self.now id.now }
    {
        match self.places.get(id) {
            Some(_) => true,
            None => false,
        }
    }
}

/// Mappings in order, with their places by identifier; contracts see them as a list.
#[derive(Drop)]
pub struct MappingDeclarations {
    all: Vec<MappingDeclaration>,
    places: Places,
}

impl Model for MappingDeclarations {
    ghost use Rattle.std.specs.Prelude.{List, map};
    ghost use Rattle.cad_types.specs.Places.{ArePlaces};
    ghost use Rattle.cad_declarations.specs.declared.tables.MappingDeclaration.{MappingDeclaration as Declared};

    ghost Value = { List Declared };

    ghost view = { λ mappings. mappings.all.items };

    ghost invariant = { λ mappings. ArePlaces mappings.places (map (λ m. m.id) mappings.all.items) };
}

impl MappingDeclarations {
    /// These mappings.
    pub fn new(
        alloc: Global,
        all: Vec<MappingDeclaration>,
    ) -> Result<MappingDeclarations, AllocError>
        ensures { IfOk result (λ mappings. mappings ≡ all.items) }
    {
        let places = mapping_places(alloc, all.as_slice())?;
        Ok(MappingDeclarations { all, places })
    }

    /// All of them, in order.
    pub fn as_slice(&self) -> &[MappingDeclaration]
        ensures { result.now ≡ self.now }
    {
        self.all.as_slice()
    }

    /// Whether an identifier is a mapping's.
    pub fn contains(&self, id: &TypeId) -> bool
        ensures { result ≡ has (map (λ m. m.id) self.now) id.now }
    {
        match self.places.get(id) {
            Some(_) => true,
            None => false,
        }
    }

    /// The first of an identifier.
    pub fn find(&self, id: &TypeId) -> Option<&MappingDeclaration>
        ensures { option_map (λ m. m.now.mapping) result ≡ mapping_in_entries (map mapping_entry_of self.now) id.now }
    {
        match self.places.get(id) {
            Some(place) => self.all.get(*place),
            None => None,
        }
    }
}

/// The first place of each entitlement.
fn entitlement_places(alloc: Global, entitlements: &[TypeId]) -> Result<Places, AllocError>
    ensures { IfOk result (λ places. ArePlaces places entitlements.now) }
{
    let ids = entitlement_ids(alloc, entitlements)?;
    places_of(alloc, ids.as_slice())
}

/// The identifiers of entitlements.
fn entitlement_ids(alloc: Global, entitlements: &[TypeId]) -> Result<Vec<&TypeId>, AllocError>
    ensures { IfOk result (λ ids. map (λ id. id.now) ids.items ≡ entitlements.now) }
{
    let mut ids = Vec::new(alloc);
    for id in entitlements {
        ids.push(id)?;
    }
    Ok(ids)
}

/// The first place of each mapping.
fn mapping_places(alloc: Global, mappings: &[MappingDeclaration]) -> Result<Places, AllocError>
    ensures { IfOk result (λ places. ArePlaces places (map (λ m. m.id) mappings.now)) }
{
    let ids = mapping_ids(alloc, mappings)?;
    places_of(alloc, ids.as_slice())
}

/// The identifiers of mappings.
fn mapping_ids(alloc: Global, mappings: &[MappingDeclaration]) -> Result<Vec<&TypeId>, AllocError>
    ensures { IfOk result (λ ids. map (λ id. id.now) ids.items ≡ map (λ m. m.id) mappings.now) }
{
    let mut ids = Vec::new(alloc);
    for mapping in mappings {
        ids.push(&mapping.id)?;
    }
    Ok(ids)
}
