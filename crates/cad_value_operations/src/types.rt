// What is told of the type of a receiver. A reference inside optionals leads to a node of its own, which is found by another label
// than the receiver is: so the receiver is copied first, without its parts.
ghost use Rattle.std.specs.Prelude.{◌≡◌, option_map};
ghost use Rattle.cad_evaluation.specs.Arguments.{with_argument};
ghost use Rattle.cad_evaluation.specs.Casts as casts;
ghost use Rattle.cad_outcomes.specs.Outcomes.{Gives};
ghost use Rattle.cad_receivers.specs.Views.{at_spot, settled_of, spot_of};
ghost use Rattle.cad_rows.specs.Views.{pure_row, pure_shape, pure_tree};
ghost use Rattle.cad_state.specs.Views.{CarriesOut, FindsAndCarriesOut};
ghost use Rattle.cad_syntax.specs.Types.{pure_type};
ghost use Rattle.cad_value_operations.specs.Code.Members as spec;
ghost use Rattle.cad_values.specs.Values.{pure_value};
ghost use Rattle.cad_world.specs.State.{give};

use crate::arguments::argument;
use crate::spots::leaf_of;
use cad_casts::{is_instance, own_type_of};
use cad_declarations::discard_type;
use cad_operators::{bool_tree, plain_tree};
use cad_outcomes::{RunError, Stop};
use cad_receivers::{Settled, Spot, look};
use cad_rows::{Place, Shape, Tree, discard_tree};
use cad_state::RunState;
use cad_syntax::CadType;
use cad_text_operators::type_in;
use cad_values::Value;
use std::alloc::Global;

/// Whether a receiver is met through a reference and has no label: an account, a part of it or a controller.
fn is_met(spot: Spot<'_>) -> bool
    ensures { result ≡ spec.is_met (spot_of spot.entry) }
{
    match spot.label {
        Some(_) => false,
        None => match spot.rights {
            Some(_) => true,
            None => false,
        },
    }
}

/// What the type of a receiver is told by.
enum Told {
    /// A copy of it without its parts.
    Copy(Tree),
    /// The type that the reference to an account, a part of one or a controller names.
    Named(CadType),
    /// A reference that names none.
    Nothing,
}

/// Lets go of what a type is told by.
fn discard_told(told: Told) {
    match told {
        Told::Copy(tree) => discard_tree(tree),
        Told::Named(own) => discard_type(own),
        Told::Nothing => {}
    }
}

/// The type that a reference names.
fn target_of(value: &Value) -> Option<&CadType>
    ensures { option_map (λ t. pure_type t.now) result ≡ casts.target_of (pure_value value.now) }
{
    match value {
        Value::Reference(reference) => Some(&reference.target),
        _ => None,
    }
}

/// The type that a reference of this shape names which doesn't lead to a node.
fn target_in(shape: &Shape) -> Option<&CadType>
    ensures { option_map (λ t. pure_type t.now) result ≡ casts.target_in (pure_shape shape.now) }
{
    match shape {
        Shape::Plain(value) => target_of(value),
        _ => None,
    }
}

/// A type that a reference names.
fn told_type(own: &CadType) -> Result<Told, Stop>
    ensures { Gives spec.told_of (give (spec.by_name (pure_type own.now))) result }
{
    match own.clone() {
        Ok(copy) => Ok(Told::Named(copy)),
        Err(_) => Err(Stop::Memory),
    }
}

/// The same, where a reference names one.
fn told_named(target: Option<&CadType>) -> Result<Told, Stop>
    ensures { Gives spec.told_of (give (spec.named (option_map (λ t. pure_type t.now) target.entry))) result }
{
    match target {
        Some(own) => told_type(own),
        None => Ok(Told::Nothing),
    }
}

/// What the type of a receiver is told by: of an account, a part of one or a controller by the reference to it, of anything else
/// by a copy.
fn told_by(alloc: Global, spot: Spot<'_>) -> Result<Told, Stop>
    ensures { Gives spec.told_of (give (spec.told_by (spot_of spot.entry))) result }
{
    if is_met(spot) {
        return told_named(target_in(spot.shape));
    }
    match leaf_of(alloc, spot) {
        Ok(tree) => Ok(Told::Copy(tree)),
        Err(_) => Err(Stop::Memory),
    }
}

/// What the type of a receiver is told by that was settled.
fn told_here(state: &RunState, receiver: Settled<'_>) -> Result<Told, Stop>
    ensures { FindsAndCarriesOut spec.told_of (at_spot (settled_of receiver.entry) (λ spot. give (spec.told_by spot))) state.now state.now result }
{
    match look(state, receiver) {
        Ok(spot) => told_by(*state.making.allocator(), spot),
        Err(stop) => Err(stop),
    }
}

/// A type as a value.
fn type_tree(alloc: Global, own: CadType) -> Tree
    ensures { pure_tree result ≡ casts.type_tree (pure_type own) }
{
    plain_tree(alloc, Value::Meta(own))
}

/// The type of a value, as a value; ReferenceInvalid of a reference to what is gone.
fn type_of(state: &mut RunState, tree: &Tree) -> Result<Tree, Stop>
    ensures { FindsAndCarriesOut pure_tree (spec.type_of (pure_tree tree.now)) state.old state.new result }
{
    match own_type_of(state, tree) {
        Ok(own) => Ok(type_tree(*state.making.allocator(), own)),
        Err(stop) => Err(stop),
    }
}

/// The type that is told, as a value; ReferenceInvalid where there is none.
fn type_by(state: &mut RunState, told: Told) -> Result<Tree, Stop>
    ensures { FindsAndCarriesOut pure_tree (spec.with_told (spec.told_of told) (λ own. give (casts.type_tree own))) state.old state.new result }
{
    match told {
        Told::Copy(tree) => {
            let own = type_of(state, &tree);
            discard_tree(tree);
            own
        }
        Told::Named(own) => Ok(type_tree(*state.making.allocator(), own)),
        Told::Nothing => Err(Stop::Failed(RunError::ReferenceInvalid)),
    }
}

/// Whether a value of one type is a value of another, as a value.
fn instance_told(state: &RunState, own: &CadType, wanted: &CadType) -> Result<Tree, Stop>
    ensures { CarriesOut pure_tree (spec.instance_of (pure_type wanted.now) (pure_type own.now)) state.now state.now result }
{
    match is_instance(state, own, wanted) {
        Ok(passes) => Ok(bool_tree(*state.making.allocator(), passes)),
        Err(_) => Err(Stop::Memory),
    }
}

/// Whether a value is of a type, as a value; ReferenceInvalid of a reference to what is gone.
fn instance_of(state: &mut RunState, tree: &Tree, wanted: &CadType) -> Result<Tree, Stop>
    ensures { FindsAndCarriesOut pure_tree (casts.with_type (pure_tree tree.now) (spec.instance_of (pure_type wanted.now))) state.old state.new result }
{
    match own_type_of(state, tree) {
        Ok(own) => {
            let told = instance_told(state, &own, wanted);
            discard_type(own);
            told
        }
        Err(stop) => Err(stop),
    }
}

/// Whether what is told is of a type, as a value; ReferenceInvalid where no type is told.
fn instance_by(state: &mut RunState, told: &Told, wanted: &CadType) -> Result<Tree, Stop>
    ensures { FindsAndCarriesOut pure_tree (spec.with_told (spec.told_of told.now) (spec.instance_of (pure_type wanted.now))) state.old state.new result }
{
    match told {
        Told::Copy(tree) => instance_of(state, tree, wanted),
        Told::Named(own) => instance_told(state, own, wanted),
        Told::Nothing => Err(Stop::Failed(RunError::ReferenceInvalid)),
    }
}

/// Whether what is told is of the type that the argument is, as a value; IllTyped where it is none.
fn instance(state: &mut RunState, told: &Told, row: &[Place]) -> Result<Tree, Stop>
    ensures { FindsAndCarriesOut pure_tree (spec.instance_by (pure_row row.now) (spec.told_of told.now)) state.old state.new result }
{
    match argument(row, 0) {
        Some(given) => match type_in(given) {
            Some(wanted) => instance_by(state, told, wanted),
            None => Err(Stop::IllTyped),
        },
        None => Err(Stop::IllTyped),
    }
}

/// The type of what a receiver is now that was settled; ReferenceInvalid of a reference to what is gone.
pub(crate) fn type_at(state: &mut RunState, receiver: Settled<'_>) -> Result<Tree, Stop>
    ensures { FindsAndCarriesOut pure_tree (at_spot (settled_of receiver.entry) casts.type_told) state.old state.new result }
{
    match told_here(state, receiver) {
        Ok(told) => type_by(state, told),
        Err(stop) => Err(stop),
    }
}

/// Whether what a receiver is now that was settled is of the type that the argument is. Errors as `type_at` has them; IllTyped
/// where the argument is no type.
pub(crate) fn instance_at(
    state: &mut RunState,
    receiver: Settled<'_>,
    row: &[Place],
) -> Result<Tree, Stop>
    ensures { FindsAndCarriesOut pure_tree (at_spot (settled_of receiver.entry) (λ spot. with_argument (pure_row row.now) (casts.instance_told spot))) state.old state.new result }
{
    match told_here(state, receiver) {
        Ok(told) => {
            let answer = instance(state, &told, row);
            discard_told(told);
            answer
        }
        Err(stop) => Err(stop),
    }
}
