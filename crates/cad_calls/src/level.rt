// Calls by what is called, and the knot: what is called calls by the level below.
ghost use Rattle.std.specs.Prelude.{◌≡◌, [], Some, None, true, false, map, option_map};
ghost use Rattle.cad_access.specs.RunContracts.{run_of};
ghost use Rattle.cad_calls.specs.Pieces.{initializer_in, maybe_piece, own_of};
ghost use Rattle.cad_declarations.specs.Views.{member_body_of};
ghost use Rattle.cad_evaluation.specs.Adding as adding;
ghost use Rattle.cad_evaluation.specs.Bodies as spec;
ghost use Rattle.cad_evaluation.specs.Callees.{function, initializer, method};
ghost use Rattle.cad_evaluation.specs.Evaluation as evaluation;
ghost use Rattle.cad_execution.specs.Passed.{callee_of, tree_in};
ghost use Rattle.cad_function_sources.specs.Sources as view;
ghost use Rattle.cad_labels.specs.Laws.{HasNoneInRow};
ghost use Rattle.cad_rows.specs.Views.{pure_row};
ghost use Rattle.cad_state.specs.Views.{FindsAndCarriesOut};
ghost use Rattle.cad_world.specs.Declared as declared;

use crate::apart::{discard_own, discard_row, discard_shared, discard_sources, unbox};
use crate::events::call_event;
use crate::functions::{Own, run};
use crate::unlabelled::is_unnamed;
use cad_access::function_in;
use cad_declarations::{Checked, TypedMember};
use cad_discards::hold;
use cad_execution::{Callee, Callees, boxed};
use cad_function_sources::{
    Piece, Source, initializer_piece, interface_sources, piece_of, pieces_of, source_of,
};
use cad_installations::{FrontEnd, Initializers, add};
use cad_outcomes::Stop;
use cad_rows::{Place, Tree};
use cad_state::RunState;
use cad_syntax::{Address, Name, TypeId};

/// A function as its own type declares it.
fn own_piece<'s>(own: &'s Option<Source>, name: &Name) -> Option<Piece<'s>>
    ensures { maybe_piece result ≡ own_of name.now own.now }
{
    match own {
        Some(source) => piece_of(source, name),
        None => None,
    }
}

/// A function of a type runs, with what interfaces declare of it.
fn run_sources<C: Callees>(
    own: &Option<Source>,
    others: &[Source],
    name: &Name,
    label: u64,
    arguments: Vec<Place>,
    turns: u64,
    callees: &C,
    state: &mut RunState,
) -> Result<Box<Tree>, Stop>
    requires { C.is_ready callees.now }
    ensures { HasNoneInRow (pure_row arguments.items) → FindsAndCarriesOut tree_in (evaluation.run (C.front callees.now) (C.calls callees.now) turns (Some label) false (own_of name.now own.now) (view.pieces name.now others.now) (pure_row arguments.items)) state.old state.new result }
{
    match pieces_of(others, name, *state.making.allocator()) {
        Ok(pieces) => {
            let node = Own {
                label: Some(label),
                initializes: false,
            };
            run(
                own_piece(own, name),
                pieces.as_slice(),
                node,
                arguments,
                turns,
                callees,
                state,
            )
        }
        Err(_) => {
            discard_row(arguments);
            Err(Stop::Memory)
        }
    }
}

/// The same, by the interfaces of the type.
#[inline(never)]
fn run_method<C: Callees>(
    own: &Option<Source>,
    id: &TypeId,
    name: &Name,
    label: u64,
    arguments: Vec<Place>,
    turns: u64,
    callees: &C,
    state: &mut RunState,
) -> Result<Box<Tree>, Stop>
    requires { C.is_ready callees.now }
    ensures { HasNoneInRow (pure_row arguments.items) → FindsAndCarriesOut tree_in (evaluation.run (C.front callees.now) (C.calls callees.now) turns (Some label) false (own_of name.now own.now) (spec.inherited (run_of state.old) name.now id.now) (pure_row arguments.items)) state.old state.new result }
{
    match interface_sources(state, id) {
        Ok(others) => {
            let result = run_sources(
                own,
                others.as_slice(),
                name,
                label,
                arguments,
                turns,
                callees,
                state,
            );
            discard_sources(others);
            result
        }
        Err(_) => {
            discard_row(arguments);
            Err(Stop::Memory)
        }
    }
}

/// A function of a type is called.
#[inline(never)]
fn call_method<C: Callees>(
    id: &TypeId,
    name: &Name,
    label: u64,
    arguments: Vec<Place>,
    turns: u64,
    callees: &C,
    state: &mut RunState,
) -> Result<Box<Tree>, Stop>
    requires { C.is_ready callees.now }
    ensures { HasNoneInRow (pure_row arguments.items) → FindsAndCarriesOut tree_in (evaluation.called (C.front callees.now) (C.calls callees.now) turns (method id.now name.now label) (pure_row arguments.items)) state.old state.new result }
{
    match source_of(state, id) {
        Ok(own) => {
            let result = run_method(&own, id, name, label, arguments, turns, callees, state);
            discard_own(own);
            result
        }
        Err(_) => {
            discard_row(arguments);
            Err(Stop::Memory)
        }
    }
}

/// The written initializer of a type, as its source has it.
fn own_initializer<'s>(own: &'s Option<Source>) -> Option<Piece<'s>>
    ensures { maybe_piece result ≡ initializer_in own.now }
{
    match own {
        Some(source) => initializer_piece(source),
        None => None,
    }
}

/// The written initializer of a type runs.
fn run_initializer<C: Callees>(
    own: &Option<Source>,
    label: u64,
    arguments: Vec<Place>,
    turns: u64,
    callees: &C,
    state: &mut RunState,
) -> Result<Box<Tree>, Stop>
    requires { C.is_ready callees.now }
    ensures { HasNoneInRow (pure_row arguments.items) → FindsAndCarriesOut tree_in (evaluation.run (C.front callees.now) (C.calls callees.now) turns (Some label) true (initializer_in own.now) [] (pure_row arguments.items)) state.old state.new result }
{
    let node = Own {
        label: Some(label),
        initializes: true,
    };
    let initializer = own_initializer(own);
    run(initializer, &[], node, arguments, turns, callees, state)
}

/// The written initializer of a type is called.
#[inline(never)]
fn call_initializer<C: Callees>(
    id: &TypeId,
    label: u64,
    arguments: Vec<Place>,
    turns: u64,
    callees: &C,
    state: &mut RunState,
) -> Result<Box<Tree>, Stop>
    requires { C.is_ready callees.now }
    ensures { HasNoneInRow (pure_row arguments.items) → FindsAndCarriesOut tree_in (evaluation.called (C.front callees.now) (C.calls callees.now) turns (initializer id.now label) (pure_row arguments.items)) state.old state.new result }
{
    match source_of(state, id) {
        Ok(own) => {
            let result = run_initializer(&own, label, arguments, turns, callees, state);
            discard_own(own);
            result
        }
        Err(_) => {
            discard_row(arguments);
            Err(Stop::Memory)
        }
    }
}

/// The function outside contracts that has a name.
fn named_function<'s>(checked: &'s Checked, name: &Name) -> Option<&'s TypedMember>
    ensures { option_map (λ m. member_body_of m.now) result ≡ declared.function_in (map member_body_of checked.now.bodies.functions.items) name.now }
{
    function_in(checked.bodies.functions.as_slice(), name)
}

/// A function as it stands outside contracts.
#[inline(never)]
fn outside<'s>(checked: &'s Checked, name: &Name) -> Option<Piece<'s>>
    ensures { maybe_piece result ≡ evaluation.outside (declared.function_in (map member_body_of checked.now.bodies.functions.items) name.now) }
{
    match named_function(checked, name) {
        Some(member) => Some(Piece {
            within: None,
            function: &member.function,
            initializes: false,
        }),
        None => None,
    }
}

/// A function outside contracts runs.
fn run_function<C: Callees>(
    checked: &Checked,
    name: &Name,
    arguments: Vec<Place>,
    turns: u64,
    callees: &C,
    state: &mut RunState,
) -> Result<Box<Tree>, Stop>
    requires { C.is_ready callees.now }
    ensures { HasNoneInRow (pure_row arguments.items) → FindsAndCarriesOut tree_in (evaluation.run (C.front callees.now) (C.calls callees.now) turns None false (evaluation.outside (declared.function_in (map member_body_of checked.now.bodies.functions.items) name.now)) [] (pure_row arguments.items)) state.old state.new result }
{
    let node = Own {
        label: None,
        initializes: false,
    };
    let own = outside(checked, name);
    run(own, &[], node, arguments, turns, callees, state)
}

/// A function outside contracts is called.
#[inline(never)]
fn call_function<C: Callees>(
    name: &Name,
    arguments: Vec<Place>,
    turns: u64,
    callees: &C,
    state: &mut RunState,
) -> Result<Box<Tree>, Stop>
    requires { C.is_ready callees.now }
    ensures { HasNoneInRow (pure_row arguments.items) → FindsAndCarriesOut tree_in (evaluation.called (C.front callees.now) (C.calls callees.now) turns (function name.now) (pure_row arguments.items)) state.old state.new result }
{
    match hold(&state.checked) {
        Ok(checked) => {
            let result = run_function(&checked, name, arguments, turns, callees, state);
            discard_shared(checked);
            result
        }
        Err(_) => {
            discard_row(arguments);
            Err(Stop::Memory)
        }
    }
}

/// What is called runs, and calls by what it is given. Errors are those of what is called.
pub fn call_at<C: Callees>(
    callee: Callee<'_>,
    arguments: Vec<Place>,
    turns: u64,
    callees: &C,
    state: &mut RunState,
) -> Result<Box<Tree>, Stop>
    requires { C.is_ready callees.now }
    ensures { HasNoneInRow (pure_row arguments.items) → FindsAndCarriesOut tree_in (evaluation.called (C.front callees.now) (C.calls callees.now) turns (callee_of callee.entry) (pure_row arguments.items)) state.old state.new result }
{
    match callee {
        Callee::Method { of, name, label } => {
            call_method(of, name, label, arguments, turns, callees, state)
        }
        Callee::Function(name) => call_function(name, arguments, turns, callees, state),
        Callee::Initializer { of, label } => {
            call_initializer(of, label, arguments, turns, callees, state)
        }
        Callee::DestroyedEvent { of, label } => {
            discard_row(arguments);
            call_event(of, label, callees, state)
        }
    }
}

/// `contracts.add` at the account of an address. Errors are those of cad_installations.
#[inline(never)]
fn add_contract<E: FrontEnd, I: Initializers>(
    end: &E,
    by: &I,
    address: Address,
    arguments: Vec<Place>,
    state: &mut RunState,
) -> Result<Box<Tree>, Stop>
    requires { I.is_ready by.now }
    ensures { FindsAndCarriesOut tree_in (adding.add (E.front end.now) (I.calls by.now) (pure_row arguments.items) address) state.old state.new result }
{
    boxed(add(end, by, address, arguments, state))
}

/// Calls that are nested at most so deep, with at most so many turns of each loop.
#[derive(Clone, Copy, Drop)]
pub struct Level<'e, E, F> {
    pub fuel: u64,
    pub end: &'e E,
    pub run: F,
}

impl<
    E: FrontEnd,
    F: Fn(u64, &E, &mut RunState, Callee<'_>, Vec<Place>) -> Result<Box<Tree>, Stop>,
> Callees for Level<'_, E, F> {
    ghost use Rattle.cad_calls.specs.Levels.{Nests, level_keeps};
    ghost use Rattle.cad_evaluation.specs.Evaluation.{calls_to};

    ghost front = { λ l. E.front l.end.now };

    ghost calls = { λ l. calls_to (E.front l.end.now) l.fuel };

    ghost is_ready = { λ l. Nests E.front l.end l.fuel (F.pre l.run) (F.post l.run) };

    fn call(
        &self,
        state: &mut RunState,
        callee: Callee<'_>,
        arguments: Vec<Place>,
    ) -> Result<Box<Tree>, Stop> {
        (self.run)(self.fuel, self.end, state, callee, arguments)
    }

    fn add(
        &self,
        state: &mut RunState,
        address: Address,
        arguments: Vec<Place>,
    ) -> Result<Box<Tree>, Stop> {
        add_contract(self.end, self, address, arguments, state)
    }

    ghost keeps = { λ l. level_keeps (E.front l.end.now) l.fuel };
}

impl<
    E: FrontEnd,
    F: Fn(u64, &E, &mut RunState, Callee<'_>, Vec<Place>) -> Result<Box<Tree>, Stop>,
> Initializers for Level<'_, E, F> {
    ghost use Rattle.cad_calls.specs.Levels.{Nests};
    ghost use Rattle.cad_evaluation.specs.Evaluation.{calls_to};

    ghost calls = { λ l. calls_to (E.front l.end.now) l.fuel };

    ghost is_ready = { λ l. Nests E.front l.end l.fuel (F.pre l.run) (F.post l.run) };

    fn initialize(
        &self,
        state: &mut RunState,
        of: &TypeId,
        label: u64,
        arguments: Vec<Place>,
    ) -> Result<Tree, Stop> {
        let initializer = Callee::Initializer { of, label };
        unbox((self.run)(self.fuel, self.end, state, initializer, arguments))
    }
}

/// Calls, nested at most so deep: Limit beyond. Errors are those of what is called. No memory of arguments of which a node
/// has a label.
pub fn call_with<E: FrontEnd>(
    fuel: u64,
    end: &E,
    state: &mut RunState,
    callee: Callee<'_>,
    arguments: Vec<Place>,
) -> Result<Box<Tree>, Stop>
    ensures { FindsAndCarriesOut tree_in (evaluation.calls_to (E.front end.now) fuel (callee_of callee.entry) (pure_row arguments.items)) state.old state.new result }
{
    if fuel == 0 {
        discard_row(arguments);
        return Err(Stop::Limit);
    }
    if is_unnamed(arguments.as_slice()) {
        let level = Level {
            fuel: fuel - 1,
            end,
            run: call_with,
        };
        return call_at(callee, arguments, fuel - 1, &level, state);
    }
    discard_row(arguments);
    Err(Stop::Memory)
}
