// The shapes that values are judged by.
ghost use Rattle.std.specs.Prelude.{◌≡◌, map, true, IfOk};
ghost use Rattle.cad_types.specs.Places.{ArePlaces};
ghost use Rattle.cad_types.specs.Views.{declarations};
ghost use Rattle.cad_values.specs.Shapes.{declaration};
ghost use Rattle.cad_shapes.specs.Same.{SameDeclarations, SameDeclarations-prop};
ghost use Rattle.cad_shapes.specs.Views.{pure_shape, all_names_differ};

use crate::shape::{Shape, all_declared, identifiers};
use cad_syntax::{TypeId, TypeIds};
use cad_types::{DeclaredTypes, Places, places_of};
use std::alloc::{AllocError, Global};

/// The shapes of declared types, with the order of types, and the entitlements. The names of a type's fields differ.
#[derive(Debug, Drop)]
pub struct DeclaredShapes {
    shapes: Vec<Shape>,
    places: Places,
    types: DeclaredTypes,
    entitlements: TypeIds,
    ghost placed: { ArePlaces places (map (λ s. s.id) shapes.items) },
    ghost typed: { SameDeclarations (declarations types) (map declaration (map pure_shape shapes.items)) } by { SameDeclarations-prop (declarations types) (map declaration (map pure_shape shapes.items)) },
    ghost named: { all_names_differ (map pure_shape shapes.items) ≡ true },
}

/// The first place of each shape.
fn placed(alloc: Global, shapes: &[Shape]) -> Result<Places, AllocError>
    ensures { IfOk result (λ places. ArePlaces places (map (λ s. s.id) shapes.now)) }
{
    let ids = identifiers(alloc, shapes)?;
    places_of(alloc, ids.as_slice())
}

impl DeclaredShapes {
    ghost use Rattle.std.specs.Prelude.{◌≡◌, map, true, option_map, IfOk};
    ghost use Rattle.cad_types.specs.Declarations.{IsClosed};
    ghost use Rattle.cad_types.specs.Views.{declarations};
    ghost use Rattle.cad_values.specs.Shapes as spec;
    ghost use Rattle.cad_shapes.specs.Held.{shapes_of};
    ghost use Rattle.cad_shapes.specs.Views.{pure_shape, all_names_differ};

    /// The shapes of declared types, and the entitlements, declared and built in.
    #[tactic(auto, using(crate::proofs::Told::same))]
    pub fn new(
        alloc: Global,
        shapes: Vec<Shape>,
        entitlements: TypeIds,
    ) -> Result<DeclaredShapes, AllocError>
        requires closed { IsClosed (map spec.declaration (map pure_shape shapes.items)) }
        requires named { all_names_differ (map pure_shape shapes.items) ≡ true }
        ensures { IfOk result (λ it. shapes_of it ≡ record { types = map pure_shape shapes.items; entitlements = entitlements }) }
    {
        let places = placed(alloc, shapes.as_slice())?;
        let declared = all_declared(alloc, shapes.as_slice())?;
        let types = DeclaredTypes::new(alloc, declared)?;
        Ok(DeclaredShapes {
            shapes,
            places,
            types,
            entitlements,
        })
    }

    /// The declared types, by which types are ordered.
    #[tactic(auto, using(crate::proofs::Told::tells))]
    pub fn types(&self) -> &DeclaredTypes
        ensures same { result.now ≡ self.now.types }
        ensures declared { declarations result.now ≡ spec.declarations (shapes_of self.now) }
    {
        &self.types
    }

    /// The entitlements, declared and built in.
    pub fn entitlements(&self) -> &[TypeId]
        ensures { result.now ≡ (shapes_of self.now).entitlements }
    {
        self.entitlements.as_slice()
    }

    /// The first shape of an identifier.
    pub fn find(&self, id: &TypeId) -> Option<&Shape>
        ensures { option_map (λ s. pure_shape s.now) result ≡ spec.shape_of (shapes_of self.now) id.now }
    {
        match self.places.get(id) {
            Some(place) => self.shapes.get(*place),
            None => None,
        }
    }
}
