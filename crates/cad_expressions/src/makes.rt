// Structs and resources that are made, by their initializers.
ghost use Rattle.std.specs.Prelude.{◌≡◌, ℕ};
ghost use Rattle.cad_access.specs.RunContracts.{run_of};
ghost use Rattle.cad_evaluation.specs.Making as making;
ghost use Rattle.cad_expression_leaves.specs.Code.Steps as steps;
ghost use Rattle.cad_expression_leaves.specs.Code.Steps.{GoesOn};
ghost use Rattle.cad_expression_leaves.specs.Views.{items_row, tree_in};
ghost use Rattle.cad_labels.specs.Laws.{HasNoneInRow};
ghost use Rattle.cad_outcomes.specs.Outcomes.{no_value};
ghost use Rattle.cad_rows.specs.Views.{pure_row};
ghost use Rattle.cad_state.specs.Views.{CarriesOut, FindsAndCarriesOut};
ghost use Rattle.cad_world.specs.Declared as declared;

use cad_access::bodies_of;
use cad_expression_leaves::{Callee, Evaluator, boxed, discard_boxed, discard_row};
use cad_making::{begin, draw_identity, finish};
use cad_outcomes::Stop;
use cad_rows::{Place, Tree};
use cad_state::RunState;
use cad_syntax::TypeId;

/// A struct is made.
pub(crate) fn construct_with<E: Evaluator>(
    evaluator: &E,
    state: &mut RunState,
    id: &TypeId,
    row: Result<Vec<Place>, Stop>,
) -> Result<Box<Tree>, Stop>
    requires { E.is_ready evaluator.now }
    ensures { GoesOn HasNoneInRow items_row tree_in (steps.constructed (E.calls evaluator.now) id.now) row state.old state.new result }
{
    match row {
        Ok(found) => construct(evaluator, state, id, found),
        Err(stop) => Err(stop),
    }
}

/// A struct is made with these arguments.
fn construct<E: Evaluator>(
    evaluator: &E,
    state: &mut RunState,
    id: &TypeId,
    row: Vec<Place>,
) -> Result<Box<Tree>, Stop>
    requires { E.is_ready evaluator.now }
    ensures { HasNoneInRow (pure_row row.items) → FindsAndCarriesOut tree_in (steps.constructed (E.calls evaluator.now) id.now (pure_row row.items)) state.old state.new result }
{
    match state.tick() {
        Ok(()) => make(evaluator, state, id, 0, row),
        Err(stop) => {
            discard_row(row);
            Err(stop)
        }
    }
}

/// A resource is made.
pub(crate) fn create_with<E: Evaluator>(
    evaluator: &E,
    state: &mut RunState,
    id: &TypeId,
    row: Result<Vec<Place>, Stop>,
) -> Result<Box<Tree>, Stop>
    requires { E.is_ready evaluator.now }
    ensures { GoesOn HasNoneInRow items_row tree_in (steps.created (E.calls evaluator.now) id.now) row state.old state.new result }
{
    match row {
        Ok(found) => create(evaluator, state, id, found),
        Err(stop) => Err(stop),
    }
}

/// A unit, and then the identity of a new resource.
fn next_identity(state: &mut RunState) -> Result<u64, Stop>
    ensures { CarriesOut (λ (identity : ℕ). identity) steps.identity_drawn state.old state.new result }
{
    match state.tick() {
        Ok(()) => draw_identity(state),
        Err(stop) => Err(stop),
    }
}

/// A resource is made with these arguments.
fn create<E: Evaluator>(
    evaluator: &E,
    state: &mut RunState,
    id: &TypeId,
    row: Vec<Place>,
) -> Result<Box<Tree>, Stop>
    requires { E.is_ready evaluator.now }
    ensures { HasNoneInRow (pure_row row.items) → FindsAndCarriesOut tree_in (steps.created (E.calls evaluator.now) id.now (pure_row row.items)) state.old state.new result }
{
    match next_identity(state) {
        Ok(identity) => make(evaluator, state, id, identity, row),
        Err(stop) => {
            discard_row(row);
            Err(stop)
        }
    }
}

/// Whether the initializer of a type is written.
#[inline(never)]
fn has_initializer(state: &RunState, id: &TypeId) -> bool
    ensures { result ≡ steps.is_written (making.initializer_of (declared.bodies_of (run_of state.now) id.now)) }
{
    match bodies_of(state, id) {
        Some(bodies) => bodies.initializer.is_some(),
        None => false,
    }
}

/// A composite with this identity is made: its fields are set by the written initializer, if there is one.
fn make<E: Evaluator>(
    evaluator: &E,
    state: &mut RunState,
    id: &TypeId,
    identity: u64,
    row: Vec<Place>,
) -> Result<Box<Tree>, Stop>
    requires { E.is_ready evaluator.now }
    ensures { HasNoneInRow (pure_row row.items) → FindsAndCarriesOut tree_in (making.make (E.calls evaluator.now) id.now identity (pure_row row.items)) state.old state.new result }
{
    let is_written = has_initializer(state, id);
    match begin(state, id, identity) {
        Ok(label) => initialize(evaluator, state, id, label, is_written, row),
        Err(stop) => {
            discard_row(row);
            Err(stop)
        }
    }
}

/// The fields of what is made are set, and it is whole.
fn initialize<E: Evaluator>(
    evaluator: &E,
    state: &mut RunState,
    id: &TypeId,
    label: u64,
    is_written: bool,
    row: Vec<Place>,
) -> Result<Box<Tree>, Stop>
    requires { E.is_ready evaluator.now }
    ensures { HasNoneInRow (pure_row row.items) → FindsAndCarriesOut tree_in (steps.made_from (E.calls evaluator.now) id.now label is_written (pure_row row.items)) state.old state.new result }
{
    match set_fields(evaluator, state, id, label, is_written, row) {
        Ok(()) => finish_boxed(state),
        Err(stop) => Err(stop),
    }
}

/// What was made last leaves its place, for the heap.
#[inline(never)]
fn finish_boxed(state: &mut RunState) -> Result<Box<Tree>, Stop>
    ensures { CarriesOut tree_in making.finish state.old state.new result }
{
    boxed(finish(state))
}

/// The fields of what is made are set by the written initializer.
#[inline(never)]
fn set_fields<E: Evaluator>(
    evaluator: &E,
    state: &mut RunState,
    id: &TypeId,
    label: u64,
    is_written: bool,
    row: Vec<Place>,
) -> Result<(), Stop>
    requires { E.is_ready evaluator.now }
    ensures { HasNoneInRow (pure_row row.items) → FindsAndCarriesOut no_value (steps.fields_set (E.calls evaluator.now) id.now label is_written (pure_row row.items)) state.old state.new result }
{
    if !is_written {
        discard_row(row);
        return Ok(());
    }
    match evaluator.call(state, Callee::Initializer { of: id, label }, row) {
        Ok(found) => {
            discard_boxed(found);
            Ok(())
        }
        Err(stop) => Err(stop),
    }
}
