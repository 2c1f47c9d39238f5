// A function runs: its conditions, its body, its result.
ghost use Rattle.std.specs.Prelude.{◌≡◌, None, map, option_map};
ghost use Rattle.cad_calls.specs.Code.Parts as parts;
ghost use Rattle.cad_calls.specs.Pieces.{maybe_piece};
ghost use Rattle.cad_declarations.specs.Views.{block_of};
ghost use Rattle.cad_evaluation.specs.Bodies as spec;
ghost use Rattle.cad_evaluation.specs.Containers as containers;
ghost use Rattle.cad_evaluation.specs.Evaluation as evaluation;
ghost use Rattle.cad_evaluation.specs.Statements.{exec_block};
ghost use Rattle.cad_execution.specs.Passed.{flow_of, tree_in};
ghost use Rattle.cad_function_sources.specs.Sources.{piece_of};
ghost use Rattle.cad_labels.specs.Laws.{HasNoneInRow};
ghost use Rattle.cad_outcomes.specs.Outcomes.{Gives, no_value};
ghost use Rattle.cad_rows.specs.Views.{pure_row, pure_tree};
ghost use Rattle.cad_state.specs.Views.{CarriesOut, FindsAndCarriesOut};
ghost use Rattle.cad_syntax.specs.Types.{PureType, pure_type};
ghost use Rattle.cad_world.specs.State.{give, with_some};

use crate::apart::{enter, put_result, take_result};
use crate::pieces::{keep_before_all, move_into, postconditions, preconditions};
use cad_declarations::TypedBlock;
use cad_execution::{Callees, Flow, boxed, discard_boxed, exec_block};
use cad_function_sources::Piece;
use cad_making::leave;
use cad_operators::plain_tree;
use cad_outcomes::Stop;
use cad_rows::{Place, Tree};
use cad_state::RunState;
use cad_syntax::{Basic, CadType};
use cad_values::Value;
use std::alloc::Global;

/// Whether a type is Void.
fn is_void(declared: &CadType) -> bool
    ensures { result ≡ spec.is_void (pure_type declared.now) }
{
    match declared {
        CadType::Basic(basic) => matches!(basic, Basic::Void),
        _ => false,
    }
}

/// Whether a function that ends without a result gives Void.
fn gives_void(piece: Piece<'_>) -> bool
    ensures { result ≡ spec.is_void (piece_of piece.entry).function.result }
{
    piece.initializes || is_void(&piece.function.result)
}

/// The value of what gives none.
fn void_tree(alloc: Global) -> Tree
    ensures { pure_tree result ≡ containers.void_tree }
{
    plain_tree(alloc, Value::Void)
}

/// The same on the heap.
#[inline(never)]
fn void_value(alloc: Global) -> Result<Box<Tree>, Stop>
    ensures { Gives tree_in (give containers.void_tree) result }
{
    boxed(Ok(void_tree(alloc)))
}

/// What a function gives whose body ended so; IllTyped where it should have returned a value.
#[inline(never)]
pub fn value_of_flow(alloc: Global, void: bool, flow: Flow) -> Result<Box<Tree>, Stop>
    ensures { (type : PureType) → void ≡ spec.is_void type → Gives tree_in (spec.value_of_flow type (flow_of flow)) result }
{
    match flow {
        Flow::Returned(value) => Ok(value),
        Flow::Next => {
            if void {
                return void_value(alloc);
            }
            Err(Stop::IllTyped)
        }
        Flow::Broken => Err(Stop::IllTyped),
        Flow::Continued => Err(Stop::IllTyped),
    }
}

/// Whether a declaration has a body.
fn has_body(piece: Piece<'_>) -> bool
    ensures { result ≡ spec.has_body (piece_of piece.entry) }
{
    piece.function.body.is_some()
}

/// The first declaration that has a body.
fn first_running<'s>(others: &[Piece<'s>]) -> Option<Piece<'s>>
    ensures { maybe_piece result ≡ spec.running None (map piece_of others.now) }
{
    for piece in others {
        if has_body(*piece) {
            return Some(*piece);
        }
    }
    None
}

/// The declaration whose body runs: the own one, or the first default.
fn running<'s>(own: Option<Piece<'s>>, others: &[Piece<'s>]) -> Option<Piece<'s>>
    ensures { maybe_piece result ≡ spec.running (maybe_piece own.entry) (map piece_of others.now) }
{
    match own {
        Some(piece) => {
            if has_body(piece) {
                Some(piece)
            } else {
                first_running(others)
            }
        }
        None => first_running(others),
    }
}

/// A body runs, where there is one; IllTyped where there is none.
fn exec_body<C: Callees>(
    body: &Option<TypedBlock>,
    turns: u64,
    callees: &C,
    state: &mut RunState,
) -> Result<Flow, Stop>
    requires { C.is_ready callees.now }
    ensures { FindsAndCarriesOut flow_of (with_some (option_map block_of body.now) (exec_block (C.front callees.now) (C.calls callees.now) turns)) state.old state.new result }
{
    match body {
        Some(block) => exec_block(block, turns, callees, state),
        None => Err(Stop::IllTyped),
    }
}

/// How the body of a declaration ends.
fn run_flow<C: Callees>(
    piece: Piece<'_>,
    turns: u64,
    callees: &C,
    state: &mut RunState,
) -> Result<Flow, Stop>
    requires { C.is_ready callees.now }
    ensures { FindsAndCarriesOut flow_of (parts.body_flow (C.front callees.now) (C.calls callees.now) turns (piece_of piece.entry).within (piece_of piece.entry).function) state.old state.new result }
{
    match move_into(piece, state) {
        Ok(()) => exec_body(&piece.function.body, turns, callees, state),
        Err(stop) => Err(stop),
    }
}

/// What the body of a declaration gives.
fn run_body<C: Callees>(
    piece: Piece<'_>,
    turns: u64,
    callees: &C,
    state: &mut RunState,
) -> Result<Box<Tree>, Stop>
    requires { C.is_ready callees.now }
    ensures { FindsAndCarriesOut tree_in (spec.body_run (C.front callees.now) (C.calls callees.now) turns (piece_of piece.entry)) state.old state.new result }
{
    match run_flow(piece, turns, callees, state) {
        Ok(flow) => value_of_flow(*state.making.allocator(), gives_void(piece), flow),
        Err(stop) => Err(stop),
    }
}

/// The body that runs, where there is one.
#[inline(never)]
fn run_first<C: Callees>(
    own: Option<Piece<'_>>,
    others: &[Piece<'_>],
    turns: u64,
    callees: &C,
    state: &mut RunState,
) -> Result<Box<Tree>, Stop>
    requires { C.is_ready callees.now }
    ensures { FindsAndCarriesOut tree_in (with_some (spec.running (maybe_piece own.entry) (map piece_of others.now)) (spec.body_run (C.front callees.now) (C.calls callees.now) turns)) state.old state.new result }
{
    match running(own, others) {
        Some(piece) => run_body(piece, turns, callees, state),
        None => Err(Stop::IllTyped),
    }
}

/// Preconditions, and the values of `before`.
fn prepare<C: Callees>(
    own: Option<Piece<'_>>,
    others: &[Piece<'_>],
    callees: &C,
    state: &mut RunState,
) -> Result<(), Stop>
    requires { C.is_ready callees.now }
    ensures { FindsAndCarriesOut no_value (parts.prepared (C.front callees.now) (C.calls callees.now) (maybe_piece own.entry) (map piece_of others.now)) state.old state.new result }
{
    match preconditions(own, others, callees, state) {
        Ok(()) => keep_before_all(own, others, callees, state),
        Err(stop) => Err(stop),
    }
}

/// The same, and the body.
#[inline(never)]
fn run_prepared<C: Callees>(
    own: Option<Piece<'_>>,
    others: &[Piece<'_>],
    turns: u64,
    callees: &C,
    state: &mut RunState,
) -> Result<Box<Tree>, Stop>
    requires { C.is_ready callees.now }
    ensures { FindsAndCarriesOut tree_in (parts.given (C.front callees.now) (C.calls callees.now) turns (maybe_piece own.entry) (map piece_of others.now)) state.old state.new result }
{
    match prepare(own, others, callees, state) {
        Ok(()) => run_first(own, others, turns, callees, state),
        Err(stop) => Err(stop),
    }
}

/// The same, and the result is set aside.
fn run_aside<C: Callees>(
    own: Option<Piece<'_>>,
    others: &[Piece<'_>],
    turns: u64,
    callees: &C,
    state: &mut RunState,
) -> Result<(), Stop>
    requires { C.is_ready callees.now }
    ensures { FindsAndCarriesOut no_value (parts.set_aside (C.front callees.now) (C.calls callees.now) turns (maybe_piece own.entry) (map piece_of others.now)) state.old state.new result }
{
    match run_prepared(own, others, turns, callees, state) {
        Ok(value) => put_result(state, value),
        Err(stop) => Err(stop),
    }
}

/// The same, and postconditions.
#[inline(never)]
fn run_tested<C: Callees>(
    own: Option<Piece<'_>>,
    others: &[Piece<'_>],
    turns: u64,
    callees: &C,
    state: &mut RunState,
) -> Result<(), Stop>
    requires { C.is_ready callees.now }
    ensures { FindsAndCarriesOut no_value (parts.finished (C.front callees.now) (C.calls callees.now) turns (maybe_piece own.entry) (map piece_of others.now)) state.old state.new result }
{
    match run_aside(own, others, turns, callees, state) {
        Ok(()) => postconditions(own, others, callees, state),
        Err(stop) => Err(stop),
    }
}

/// Preconditions, values of `before`, the body, and postconditions.
fn run_conditioned<C: Callees>(
    own: Option<Piece<'_>>,
    others: &[Piece<'_>],
    turns: u64,
    callees: &C,
    state: &mut RunState,
) -> Result<Box<Tree>, Stop>
    requires { C.is_ready callees.now }
    ensures { FindsAndCarriesOut tree_in (spec.conditioned (C.front callees.now) (C.calls callees.now) turns (maybe_piece own.entry) (map piece_of others.now)) state.old state.new result }
{
    match run_tested(own, others, turns, callees, state) {
        Ok(()) => take_result(state),
        Err(stop) => Err(stop),
    }
}

/// A call ends, with its result.
#[inline(never)]
fn leave_with(value: Box<Tree>, state: &mut RunState) -> Result<Box<Tree>, Stop>
    ensures { CarriesOut tree_in (parts.left_with (tree_in value)) state.old state.new result }
{
    match leave(state) {
        Ok(()) => Ok(value),
        Err(stop) => {
            discard_boxed(value);
            Err(stop)
        }
    }
}

/// What runs over which node: the label of the node, and whether its fields are set.
#[derive(Clone, Copy, Debug, PartialEq, Eq)]
pub struct Own {
    pub label: Option<u64>,
    pub initializes: bool,
}

/// A call begins, and its function runs.
#[inline(never)]
fn run_entered<C: Callees>(
    own: Option<Piece<'_>>,
    others: &[Piece<'_>],
    node: Own,
    arguments: Vec<Place>,
    turns: u64,
    callees: &C,
    state: &mut RunState,
) -> Result<Box<Tree>, Stop>
    requires { C.is_ready callees.now }
    ensures { HasNoneInRow (pure_row arguments.items) → FindsAndCarriesOut tree_in (parts.begun (C.front callees.now) (C.calls callees.now) turns node.label node.initializes (maybe_piece own.entry) (map piece_of others.now) (pure_row arguments.items)) state.old state.new result }
{
    match enter(state, None, node.label, node.initializes, arguments) {
        Ok(()) => run_conditioned(own, others, turns, callees, state),
        Err(stop) => Err(stop),
    }
}

/// A function or an initializer runs in a call of its own, with arguments in order. Errors are those of its conditions and
/// its body, 124 where too many calls are in progress.
pub fn run<C: Callees>(
    own: Option<Piece<'_>>,
    others: &[Piece<'_>],
    node: Own,
    arguments: Vec<Place>,
    turns: u64,
    callees: &C,
    state: &mut RunState,
) -> Result<Box<Tree>, Stop>
    requires { C.is_ready callees.now }
    ensures { HasNoneInRow (pure_row arguments.items) → FindsAndCarriesOut tree_in (evaluation.run (C.front callees.now) (C.calls callees.now) turns node.label node.initializes (maybe_piece own.entry) (map piece_of others.now) (pure_row arguments.items)) state.old state.new result }
{
    match run_entered(own, others, node, arguments, turns, callees, state) {
        Ok(value) => leave_with(value, state),
        Err(stop) => Err(stop),
    }
}
