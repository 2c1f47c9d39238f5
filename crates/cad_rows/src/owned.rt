// The resources in trees and rows.
ghost use Rattle.std.specs.Prelude.{◌≡◌, ◌++◌, ◌∷◌, [], OnOk};
ghost use Rattle.cad_world.specs.Rows as spec;
ghost use Rattle.cad_rows.specs.Views.{as_row, pure_row, pure_tree, pure_place, pure_shape};
ghost use Rattle.cad_rows.specs.Owned.{is_resource};

use crate::tree::{Place, Shape, Tree};
use cad_syntax::Numbers;
use std::alloc::AllocError;

/// Whether a shape is that of a resource.
fn is_resource(shape: &Shape) -> bool
    ensures { result ≡ is_resource (pure_shape shape.now) }
{
    match shape {
        Shape::Composite { identity, .. } => *identity != 0,
        _ => false,
    }
}

/// Whether there is a resource in a tree.
#[tactic(auto, using(crate::proofs::Parts::tree_owned))]
#[cycle(owning)]
pub fn owns(tree: &Tree) -> bool
    ensures { result ≡ spec.tree_owns (pure_tree tree.now) }
{
    is_resource(&tree.shape) || row_owns(tree.parts.as_slice())
}

#[tactic(auto, using(crate::proofs::Parts::owns_alone))]
#[cycle(owning)]
fn place_owns(place: &Place) -> bool
    ensures { result ≡ spec.owns (as_row (pure_place place.now ∷ [])) }
{
    match place {
        Place::Empty => false,
        Place::Full(_, tree) => owns(tree),
    }
}

/// Whether there is a resource in a row.
#[tactic(auto, using(crate::proofs::Parts::owns_before))]
#[cycle(owning)]
pub fn row_owns(row: &[Place]) -> bool
    ensures { result ≡ spec.owns (pure_row row.now) }
{
    for place in row {
        if place_owns(place) {
            return true;
        }
    }
    false
}

/// Appends a composite's own identity, if it has one.
fn add_own(found: &mut Numbers, shape: &Shape) -> Result<(), AllocError>
    ensures { OnOk result (found.new ≡ found.old ++ spec.own_identity (pure_shape shape.now)) }
{
    match shape {
        Shape::Composite { identity, .. } => {
            if *identity == 0 {
                return Ok(());
            }
            found.push(*identity)
        }
        _ => Ok(()),
    }
}

/// Appends the identities in a tree, that of a resource before those inside.
#[tactic(auto, using(std::proofs::lemmas::List::append_assoc))]
#[cycle(identified)]
pub fn add_identities(found: &mut Numbers, tree: &Tree) -> Result<(), AllocError>
    ensures { OnOk result (found.new ≡ found.old ++ spec.tree_identities (pure_tree tree.now)) }
{
    add_own(found, &tree.shape)?;
    add_row_identities(found, tree.parts.as_slice())
}

#[tactic(auto, using(crate::proofs::Parts::identities_alone))]
#[cycle(identified)]
fn add_place_identities(found: &mut Numbers, place: &Place) -> Result<(), AllocError>
    ensures { OnOk result (found.new ≡ found.old ++ spec.identities (as_row (pure_place place.now ∷ []))) }
{
    match place {
        Place::Empty => Ok(()),
        Place::Full(_, tree) => add_identities(found, tree),
    }
}

/// Appends the identities in a row.
#[tactic(auto, using(crate::proofs::Parts::added_identities))]
#[cycle(identified)]
pub fn add_row_identities(found: &mut Numbers, row: &[Place]) -> Result<(), AllocError>
    ensures { OnOk result (found.new ≡ found.old ++ spec.identities (pure_row row.now)) }
{
    for place in row {
        add_place_identities(found, place)?;
    }
    Ok(())
}
