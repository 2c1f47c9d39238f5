// Places that are cast.
ghost use Rattle.std.specs.Prelude.{◌≡◌, Some, None, IfOk, option_map};
ghost use Rattle.cad_evaluation.specs.Changing as changing;
ghost use Rattle.cad_evaluation.specs.Standing.{is_variable};
ghost use Rattle.cad_locations.specs.Views.{location_of};
ghost use Rattle.cad_rows.specs.Views.{pure_tree};
ghost use Rattle.cad_standing.specs.CastPlaces as spec;
ghost use Rattle.cad_standing.specs.Code.Plans.{Plans};
ghost use Rattle.cad_standing.specs.Code.Shells as shells;
ghost use Rattle.cad_standing.specs.Actions.{and_then};
ghost use Rattle.cad_standing.specs.Views.{standing_of};
ghost use Rattle.cad_state.specs.Views.{CarriesOut, FindsAndCarriesOut};
ghost use Rattle.cad_syntax.specs.Types.{PureType, pure_type};
ghost use Rattle.cad_syntax.specs.Types as types;
ghost use Rattle.cad_types.specs.Below.{below};
ghost use Rattle.cad_world.specs.Declared.{declarations};
ghost use Rattle.cad_world.specs.Locations as locations;
ghost use Rattle.cad_world.specs.State.{give, guard, choose};
ghost use Rattle.cad_world.specs.Transfers.{transferred};

use crate::leaves::{memory, wrapped};
use crate::standing::Standing;
use crate::values::{location, variable_at};
use cad_access::in_optionals;
use cad_casts::{is_instance, own_type_of};
use cad_locations::{Location, discard_location};
use cad_outcomes::Stop;
use cad_rows::{Shape, Slot, Tree, copy_shape, discard_shape, discard_tree};
use cad_state::RunState;
use cad_syntax::CadType;
use std::alloc::{AllocError, Global};

/// Lets a type go.
fn discard_type(declared: CadType) {
    discard_shape(Shape::Array(declared))
}

/// A copy of a value without its parts.
fn shell_of(alloc: Global, tree: &Tree) -> Result<Tree, AllocError>
    ensures { IfOk result (λ t. shells.over (pure_tree tree.now).parts (pure_tree t) ≡ pure_tree tree.now) }
{
    Ok(Tree {
        optionals: tree.optionals,
        shape: copy_shape(alloc, &tree.shape)?,
        parts: Vec::new(alloc),
    })
}

/// A copy of what stands in a variable, without its parts: they don't count for its type. IllTyped where none stands there.
fn shell(state: &RunState, x: usize) -> Result<Tree, Stop>
    ensures { (type : PureType) → Plans (λ t. spec.cast_value type (locations.variable x) (Some (pure_tree t))) (and_then (locations.read (locations.variable x)) (spec.cast_value type (locations.variable x))) state.now result }
{
    match state.variable(x) {
        Slot::Full(tree) => match shell_of(memory(state), tree) {
            Ok(own) => Ok(own),
            Err(_) => Err(Stop::Memory),
        },
        Slot::Free => Err(Stop::IllTyped),
        Slot::Out => Err(Stop::IllTyped),
    }
}

/// A type as an optional.
fn optional_of(alloc: Global, wanted: &CadType) -> Result<CadType, AllocError>
    ensures { IfOk result (λ t. pure_type t ≡ types.optional (pure_type wanted.now)) }
{
    in_optionals(alloc, 1, wanted.clone()?)
}

/// An optional is handed over to an optional of a type.
fn hand_over(state: &mut RunState, tree: Tree, wanted: &CadType) -> Result<Option<Tree>, Stop>
    ensures { CarriesOut (option_map pure_tree) (and_then (transferred (types.optional (pure_type wanted.now)) (pure_tree tree)) (λ v. give (Some v))) state.old state.new result }
{
    match optional_of(memory(state), wanted) {
        Ok(optional) => match state.transfer(tree, &optional) {
            Ok(handed) => {
                discard_type(optional);
                Ok(Some(handed))
            }
            Err(stop) => {
                discard_type(optional);
                Err(stop)
            }
        },
        Err(_) => {
            discard_tree(tree);
            Err(Stop::Memory)
        }
    }
}

/// A value that was cast, as an optional of the type.
fn cast_content(state: &mut RunState, tree: Tree, wanted: &CadType) -> Result<Option<Tree>, Stop>
    ensures { CarriesOut (option_map pure_tree) (spec.cast_content (pure_type wanted.now) (pure_tree tree)) state.old state.new result }
{
    match wrapped(tree) {
        Ok(content) => hand_over(state, content, wanted),
        Err(_) => Err(Stop::Memory),
    }
}

/// A value that was taken is cast.
fn cast_handed(state: &mut RunState, tree: Tree, wanted: &CadType) -> Result<Option<Tree>, Stop>
    ensures { CarriesOut (option_map pure_tree) (and_then (transferred (pure_type wanted.now) (pure_tree tree)) (spec.cast_content (pure_type wanted.now))) state.old state.new result }
{
    match state.transfer(tree, wanted) {
        Ok(handed) => cast_content(state, handed, wanted),
        Err(stop) => Err(stop),
    }
}

/// The value of a variable is taken and cast.
fn cast_taken(state: &mut RunState, x: usize, wanted: &CadType) -> Result<Option<Tree>, Stop>
    ensures { CarriesOut (option_map pure_tree) (and_then (and_then (changing.take (locations.variable x)) (transferred (pure_type wanted.now))) (spec.cast_content (pure_type wanted.now))) state.old state.new result }
{
    match state.take_variable(x) {
        Ok(tree) => cast_handed(state, tree, wanted),
        Err(stop) => Err(stop),
    }
}

/// The value of a variable is taken and cast, where its own type is below the type.
fn cast_of_type(
    state: &mut RunState,
    x: usize,
    own: &CadType,
    wanted: &CadType,
) -> Result<Option<Tree>, Stop>
    ensures { CarriesOut (option_map pure_tree) (λ s. choose (below (declarations s) (pure_type own.now) (pure_type wanted.now)) (and_then (and_then (changing.take (locations.variable x)) (transferred (pure_type wanted.now))) (spec.cast_content (pure_type wanted.now))) (give None) s) state.old state.new result }
{
    match is_instance(state, own, wanted) {
        Ok(is) => {
            if is {
                cast_taken(state, x, wanted)
            } else {
                Ok(None)
            }
        }
        Err(_) => Err(Stop::Memory),
    }
}

/// The value of a variable is taken and cast, told what it is without its parts.
fn cast_shell(
    state: &mut RunState,
    x: usize,
    shell: &Tree,
    wanted: &CadType,
) -> Result<Option<Tree>, Stop>
    ensures { FindsAndCarriesOut (option_map pure_tree) (spec.cast_value (pure_type wanted.now) (locations.variable x) (Some (pure_tree shell.now))) state.old state.new result }
{
    match own_type_of(state, shell) {
        Ok(own) => {
            let cast = cast_of_type(state, x, &own, wanted);
            discard_type(own);
            cast
        }
        Err(stop) => Err(stop),
    }
}

/// The value of a variable is taken and cast, where its own type is below the type.
fn cast_variable(state: &mut RunState, x: usize, wanted: &CadType) -> Result<Option<Tree>, Stop>
    ensures { FindsAndCarriesOut (option_map pure_tree) (and_then (locations.read (locations.variable x)) (spec.cast_value (pure_type wanted.now) (locations.variable x))) state.old state.new result }
{
    match shell(state, x) {
        Ok(own) => {
            let cast = cast_shell(state, x, &own, wanted);
            discard_tree(own);
            cast
        }
        Err(stop) => Err(stop),
    }
}

/// The value at a location, which is that of a variable, is taken and cast.
fn cast_at(
    state: &mut RunState,
    location: &Location,
    wanted: &CadType,
) -> Result<Option<Tree>, Stop>
    ensures { FindsAndCarriesOut (option_map pure_tree) (guard (is_variable (location_of location.now)) (and_then (locations.read (location_of location.now)) (spec.cast_value (pure_type wanted.now) (location_of location.now)))) state.old state.new result }
{
    match variable_at(location) {
        Some(x) => cast_variable(state, x, wanted),
        None => Err(Stop::IllTyped),
    }
}

/// The value in a place, which is that of a variable, is taken where its own type is below a type, and becomes an optional of
/// that type; None where it isn't, and stays. ReferenceInvalid of a reference to what is gone, TooLarge of what is too high.
pub fn cast_place(
    state: &mut RunState,
    place: Standing,
    wanted: &CadType,
) -> Result<Option<Tree>, Stop>
    ensures { FindsAndCarriesOut (option_map pure_tree) (spec.cast_place (pure_type wanted.now) (standing_of place)) state.old state.new result }
{
    match location(place) {
        Ok(found) => {
            let cast = cast_at(state, &found, wanted);
            discard_location(found);
            cast
        }
        Err(stop) => Err(stop),
    }
}
