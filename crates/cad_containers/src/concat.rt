// An array of copies of the elements of two.
ghost use Rattle.std.specs.Prelude.{◌+◌, ℕ};
ghost use Rattle.cad_containers.specs.Code.Changes.{Changes, IsArray};
ghost use Rattle.cad_evaluation.specs.Arguments.{with_argument};
ghost use Rattle.cad_evaluation.specs.Builtins.{on_array};
ghost use Rattle.cad_evaluation.specs.Containers as spec;
ghost use Rattle.cad_receivers.specs.Views.{at_spot, settled_of};
ghost use Rattle.cad_rows.specs.Views.{pure_row, pure_tree};
ghost use Rattle.cad_state.specs.Views.{FindsAndCarriesOut};
ghost use Rattle.cad_syntax.specs.Types.{pure_type};
ghost use Rattle.cad_world.specs.Rows as rows;

use crate::aims::{ArrayAim, aim_at_array, discard_array_aim};
use crate::copies::array_joined;
use crate::parts::{array_parts, discard_type, has_room_for, parts_of, take_argument};
use cad_casts::check_row;
use cad_nodes::find;
use cad_outcomes::{RunError, Stop};
use cad_receivers::Settled;
use cad_rows::{Place, Tree, count_places, discard_row, discard_tree};
use cad_state::RunState;
use cad_syntax::CadType;

/// Copies of the elements of the array with a label, which was found, and of others behind them.
fn joined_found(
    state: &RunState,
    label: u64,
    element: &CadType,
    more: &[Place],
) -> Result<Tree, Stop>
    ensures { (n : ℕ) → Changes label (IsArray (pure_type element.now) n) (λ f. spec.array_copy (pure_type element.now) (rows.join f.tree.parts (pure_row more.now))) state.now state.now result }
{
    let alloc = *state.making.allocator();
    match state.node(label) {
        Some(node) => array_joined(alloc, element, parts_of(node.tree), more),
        None => Err(Stop::Memory),
    }
}

/// Copies of the elements of the array with a label, and of others behind them.
fn joined_at(
    state: &mut RunState,
    label: u64,
    element: &CadType,
    more: &[Place],
) -> Result<Tree, Stop>
    ensures { (n : ℕ) → Changes label (IsArray (pure_type element.now) n) (λ f. spec.array_copy (pure_type element.now) (rows.join f.tree.parts (pure_row more.now))) state.old state.new result }
{
    match find(state, label) {
        Ok(()) => joined_found(state, label, element, more),
        Err(stop) => Err(stop),
    }
}

/// The same where there is room for so many. TooLarge where there isn't.
fn joined_with_room(
    state: &mut RunState,
    label: u64,
    element: &CadType,
    count: usize,
    more: &[Place],
) -> Result<Tree, Stop>
    ensures { Changes label (IsArray (pure_type element.now) count) (λ f. spec.room (rows.count_places f.tree.parts + rows.count_places (pure_row more.now)) (spec.array_copy (pure_type element.now) (rows.join f.tree.parts (pure_row more.now)))) state.old state.new result }
{
    if has_room_for(count, count_places(more)) {
        return joined_at(state, label, element, more);
    }
    Err(Stop::Failed(RunError::TooLarge))
}

/// The same where all of the others are of the array's own type.
fn joined_typed(
    state: &mut RunState,
    label: u64,
    element: &CadType,
    count: usize,
    more: &[Place],
) -> Result<Tree, Stop>
    ensures { Changes label (IsArray (pure_type element.now) count) (λ f. spec.all_of_type (pure_type element.now) (pure_row more.now) (spec.room (rows.count_places f.tree.parts + rows.count_places (pure_row more.now)) (spec.array_copy (pure_type element.now) (rows.join f.tree.parts (pure_row more.now))))) state.old state.new result }
{
    match check_row(state, element, more) {
        Ok(()) => joined_with_room(state, label, element, count, more),
        Err(stop) => Err(stop),
    }
}

/// `concat`: copies of the elements of the array with a label, and of those of another behind them.
fn concat(
    state: &mut RunState,
    label: u64,
    element: &CadType,
    count: usize,
    other: &Tree,
) -> Result<Tree, Stop>
    ensures { Changes label (IsArray (pure_type element.now) count) (λ f. spec.array_concat (pure_type element.now) f.tree.parts (pure_tree other.now)) state.old state.new result }
{
    match array_parts(other) {
        Some(more) => joined_typed(state, label, element, count, more),
        None => Err(Stop::IllTyped),
    }
}

/// `concat`, of the array at an aim.
fn concat_at(state: &mut RunState, aim: ArrayAim, other: Tree) -> Result<Tree, Stop>
    ensures { Changes aim.label (IsArray (pure_type aim.element) aim.count) (λ f. spec.array_concat (pure_type aim.element) f.tree.parts (pure_tree other)) state.old state.new result }
{
    let ArrayAim {
        label,
        element,
        count,
    } = aim;
    let result = concat(state, label, &element, count, &other);
    discard_type(element);
    discard_tree(other);
    result
}

/// `concat`, over its arguments, of the array at an aim.
fn concat_arguments(
    state: &mut RunState,
    aim: ArrayAim,
    arguments: Vec<Place>,
) -> Result<Tree, Stop>
    ensures { Changes aim.label (IsArray (pure_type aim.element) aim.count) (λ f. with_argument (pure_row arguments.items) (spec.array_concat (pure_type aim.element) f.tree.parts)) state.old state.new result }
{
    match take_argument(arguments, 0) {
        Some(other) => concat_at(state, aim, other),
        None => {
            discard_array_aim(aim);
            Err(Stop::IllTyped)
        }
    }
}

/// `concat`, over its arguments, of the array that a receiver is now.
pub(crate) fn concat_array(
    state: &mut RunState,
    receiver: Settled<'_>,
    arguments: Vec<Place>,
) -> Result<Tree, Stop>
    ensures { FindsAndCarriesOut pure_tree (at_spot (settled_of receiver.entry) (λ spot. on_array spot (λ type parts. with_argument (pure_row arguments.items) (spec.array_concat type parts)))) state.old state.new result }
{
    match aim_at_array(state, receiver) {
        Ok(aim) => concat_arguments(state, aim, arguments),
        Err(stop) => {
            discard_row(arguments);
            Err(stop)
        }
    }
}
