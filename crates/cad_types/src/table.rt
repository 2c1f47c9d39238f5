// Declared types that are found by their identifiers.
ghost use Rattle.std.specs.Prelude.{◌≡◌, map, IfOk};
ghost use Rattle.cad_types.specs.Places.{ArePlaces};

use crate::declared::Declared;
use crate::places::{Places, places_of};
use cad_syntax::TypeId;
use std::alloc::{AllocError, Global};

/// Declared types, with their places by identifier.
#[derive(Debug, Drop)]
pub struct TypeTable {
    declared: Vec<Declared>,
    places: Places,
    ghost placed: { ArePlaces places (map (λ d. d.id) declared.items) },
}

/// The first place of each declaration.
fn placed(alloc: Global, declared: &[Declared]) -> Result<Places, AllocError>
    ensures { IfOk result (λ places. ArePlaces places (map (λ d. d.id) declared.now)) }
{
    let ids = identifiers(alloc, declared)?;
    places_of(alloc, ids.as_slice())
}

/// The identifiers of declarations.
fn identifiers(alloc: Global, declared: &[Declared]) -> Result<Vec<&TypeId>, AllocError>
    ensures { IfOk result (λ ids. map (λ id. id.now) ids.items ≡ map (λ d. d.id) declared.now) }
{
    let mut ids = Vec::new(alloc);
    for d in declared {
        ids.push(&d.id)?;
    }
    Ok(ids)
}

impl TypeTable {
    ghost use Rattle.std.specs.Prelude.{◌≡◌, map, option_map, IfOk};
    ghost use Rattle.cad_types.specs.Declarations.{declaration_of, found};
    ghost use Rattle.cad_types.specs.Code.Declarations.{place_of};
    ghost use Rattle.cad_types.specs.Code.Views.{listed};

    /// The table of these declarations.
    pub fn new(alloc: Global, declared: Vec<Declared>) -> Result<TypeTable, AllocError>
        ensures { IfOk result (λ table. listed table ≡ map declaration_of declared.items) }
    {
        let places = placed(alloc, declared.as_slice())?;
        Ok(TypeTable { declared, places })
    }

    /// The declarations.
    pub fn declared(&self) -> &[Declared]
        ensures { map declaration_of result.now ≡ listed self.now }
    {
        self.declared.as_slice()
    }

    /// The first declaration of an identifier.
    pub fn find(&self, id: &TypeId) -> Option<&Declared>
        ensures { option_map (λ d. declaration_of d.now) result ≡ found (listed self.now) id.now }
    {
        match self.places.get(id) {
            Some(place) => self.declared.get(*place),
            None => None,
        }
    }

    /// The place of the first declaration of an identifier.
    pub fn place(&self, id: &TypeId) -> Option<usize>
        ensures { result ≡ place_of (listed self.now) id.now }
    {
        match self.places.get(id) {
            Some(place) => Some(*place),
            None => None,
        }
    }
}
