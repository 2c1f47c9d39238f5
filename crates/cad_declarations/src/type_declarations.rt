// Declared types that are found by their identifiers.
ghost use Rattle.std.specs.Prelude.{◌≡◌, map, option_map, IfOk};
ghost use Rattle.cad_types.specs.Places.{ArePlaces};
ghost use Rattle.cad_declarations.specs.Members.{type_in};
ghost use Rattle.cad_declarations.specs.MemberViews.{type_entry_of};

use crate::tables::TypeDeclaration;
use cad_syntax::TypeId;
use cad_types::{Places, places_of};
use std::alloc::{AllocError, Global};
use std::marker::Model;

/// Declared types in order, with their places by identifier; contracts see them as a list.
#[derive(Drop)]
pub struct TypeDeclarations {
    all: Vec<TypeDeclaration>,
    places: Places,
}

impl Model for TypeDeclarations {
    ghost use Rattle.std.specs.Prelude.{List, map};
    ghost use Rattle.std.specs.Coded.{coded_list};
    ghost use Rattle.cad_types.specs.Places.{ArePlaces};
    ghost use Rattle.cad_declarations.specs.declared.tables.TypeDeclaration.{TypeDeclaration as Declared};
    ghost use Rattle.cad_declarations.specs.contracts.tables.TypeDeclaration as declared;

    ghost Value = { List Declared };

    ghost coded = { coded_list declared.the_row.coded };

    ghost view = { λ types. types.all.items };

    ghost invariant = { λ types. ArePlaces types.places (map (λ t. t.id) types.all.items) };
}

impl TypeDeclarations {
    /// These types.
    pub fn new(alloc: Global, all: Vec<TypeDeclaration>) -> Result<TypeDeclarations, AllocError>
        ensures { IfOk result (λ types. types ≡ all.items) }
    {
        let places = placed(alloc, all.as_slice())?;
        Ok(TypeDeclarations { all, places })
    }

    /// All of them, in order.
    pub fn as_slice(&self) -> &[TypeDeclaration]
        ensures { result.now ≡ self.now }
    {
        self.all.as_slice()
    }

    /// The first of an identifier.
    pub fn find(&self, id: &TypeId) -> Option<&TypeDeclaration>
        ensures { option_map (λ t. type_entry_of t.now) result ≡ type_in (map type_entry_of self.now) id.now }
    {
        match self.places.get(id) {
            Some(place) => self.all.get(*place),
            None => None,
        }
    }
}

/// The first place of each type.
fn placed(alloc: Global, types: &[TypeDeclaration]) -> Result<Places, AllocError>
    ensures { IfOk result (λ places. ArePlaces places (map (λ t. t.id) types.now)) }
{
    let ids = identifiers(alloc, types)?;
    places_of(alloc, ids.as_slice())
}

/// The identifiers of types.
fn identifiers(alloc: Global, types: &[TypeDeclaration]) -> Result<Vec<&TypeId>, AllocError>
    ensures { IfOk result (λ ids. map (λ id. id.now) ids.items ≡ map (λ t. t.id) types.now) }
{
    let mut ids = Vec::new(alloc);
    for t in types {
        ids.push(&t.id)?;
    }
    Ok(ids)
}
