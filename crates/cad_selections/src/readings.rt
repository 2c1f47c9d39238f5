// What is read of a place: a copy, or a reference to the node that stands there.
ghost use Rattle.std.specs.Prelude.{◌≡◌, option_map};
ghost use Rattle.cad_locations.specs.Views.{location_of};
ghost use Rattle.cad_outcomes.specs.Outcomes.{Gives};
ghost use Rattle.cad_rows.specs.Views.{pure_shape, pure_tree};
ghost use Rattle.cad_state.specs.Views.{FindsAndCarriesOut};
ghost use Rattle.cad_syntax.specs.Types.{pure_type};
ghost use Rattle.cad_types.specs.Optionals as types;
ghost use Rattle.cad_world.specs.Locations as locations;
ghost use Rattle.cad_world.specs.State.{State};
ghost use Rattle.cad_evaluation.specs.Reading as spec;
ghost use Rattle.cad_selections.specs.Code.Readings.{Leaves, linked, reading_of, is_whole as is_whole_shape, lends as is_lent};

use crate::trees::link_tree;
use cad_locations::{Location, discard_location, name};
use cad_outcomes::Stop;
use cad_receivers::{discard_rights, shape};
use cad_rows::{Shape, Tree, copy_tree, owns};
use cad_state::RunState;
use cad_syntax::{Authorization, Basic, CadType};
use std::alloc::Global;

/// What is read, before the state changes.
pub(crate) enum Reading {
    /// A value.
    Copy(Tree),
    /// A reference to the node in a place, in so many optionals.
    Link {
        authorization: Authorization,
        location: Location,
        optionals: u64,
    },
}

/// A copy of a value. IllTyped where there is a resource in it.
pub fn copied(alloc: Global, tree: &Tree) -> Result<Tree, Stop>
    ensures { Gives pure_tree (spec.copied (pure_tree tree.now)) result }
{
    if owns(tree) {
        return Err(Stop::IllTyped);
    }
    match copy_tree(alloc, tree) {
        Ok(copy) => Ok(copy),
        Err(_) => Err(Stop::Memory),
    }
}

/// Whether a type of this name gives a reference.
fn basic_gives_reference(basic: Basic) -> bool
    ensures { result ≡ types.gives_reference (pure_type (CadType.Basic basic)) }
{
    matches!(basic, Basic::AnyResource)
}

/// Whether a place of a declared type is read through a reference as a reference.
pub fn gives_reference(declared: &CadType) -> bool
    ensures { result ≡ types.gives_reference (pure_type declared.now) }
{
    match declared {
        CadType::Optional(content) => gives_reference(content),
        CadType::Basic(basic) => basic_gives_reference(*basic),
        CadType::Array(_)
        | CadType::Dictionary(_, _)
        | CadType::Intersection(_)
        | CadType::Declared(_) => true,
        CadType::Reference(_, _) | CadType::Capability | CadType::CapabilityOf(_) => false,
    }
}

/// Whether a node is a composite or container.
fn is_whole(shape: &Shape) -> bool
    ensures { result ≡ is_whole_shape (pure_shape shape.now) }
{
    !matches!(shape, Shape::Plain(_) | Shape::Link { .. })
}

/// Whether what stands in a place of this declared type, met with these rights, is read as a reference.
pub(crate) fn lends(rights: Option<&Authorization>, declared: &CadType, tree: &Tree) -> bool
    ensures { result ≡ is_lent (option_map (λ own. own.now) rights.entry) (pure_type declared.now) (pure_tree tree.now).shape }
{
    match rights {
        None => false,
        Some(_) => gives_reference(declared) && is_whole(shape(tree)),
    }
}

/// A copy, as what is read.
pub(crate) fn copy_of(alloc: Global, tree: &Tree) -> Result<Reading, Stop>
    ensures { (s : State) → Leaves reading_of (spec.copied (pure_tree tree.now)) s result }
{
    match copied(alloc, tree) {
        Ok(copy) => Ok(Reading::Copy(copy)),
        Err(stop) => Err(stop),
    }
}

/// Gives the node in a place one label more, and lets the location go.
fn name_last(state: &mut RunState, location: Location) -> Result<u64, Stop>
    ensures { FindsAndCarriesOut (λ l. l) (locations.name (location_of location)) state.old state.new result }
{
    let label = name(state, &location);
    discard_location(location);
    label
}

/// A reference to the node in a place, which gets one label more.
fn link_to(
    state: &mut RunState,
    authorization: Authorization,
    location: Location,
    optionals: u64,
) -> Result<Tree, Stop>
    ensures { FindsAndCarriesOut pure_tree (linked authorization (location_of location) optionals) state.old state.new result }
{
    let alloc = *state.making.allocator();
    match name_last(state, location) {
        Ok(label) => Ok(link_tree(alloc, authorization, label, optionals)),
        Err(stop) => {
            discard_rights(Some(authorization));
            Err(stop)
        }
    }
}

/// What was found out is read.
pub(crate) fn read_out(state: &mut RunState, reading: Reading) -> Result<Tree, Stop>
    ensures { FindsAndCarriesOut pure_tree (reading_of reading) state.old state.new result }
{
    match reading {
        Reading::Copy(tree) => Ok(tree),
        Reading::Link {
            authorization,
            location,
            optionals,
        } => link_to(state, authorization, location, optionals),
    }
}
