// What is called: a parameter of evaluation.
ghost use Rattle.cad_evaluation.specs.Adding as adding;
ghost use Rattle.cad_evaluation.specs.Callees.{Calls, Front};
ghost use Rattle.cad_expression_leaves.specs.Views.{callee_of, tree_in};
ghost use Rattle.cad_labels.specs.Laws.{CalleesKeep};
ghost use Rattle.cad_rows.specs.Views.{pure_row};
ghost use Rattle.cad_state.specs.Views.{FindsAndCarriesOut};

use cad_outcomes::Stop;
use cad_rows::{Place, Tree, discard_row};
use cad_state::RunState;
use cad_syntax::{Address, Name, TypeId};

/// What is called.
#[derive(Clone, Copy)]
pub enum Callee<'a> {
    /// A function of the type, whose receiver is the node with the label.
    Method {
        of: &'a TypeId,
        name: &'a Name,
        label: u64,
    },
    /// A function outside contracts.
    Function(&'a Name),
    /// The written initializer of a type, for the node with the label, whose fields it sets.
    Initializer {
        of: &'a TypeId,
        label: u64,
    },
    /// The event that tells of the end of a resource, by its default arguments; the node with the label is `self`.
    DestroyedEvent {
        of: &'a TypeId,
        label: u64,
    },
}

/// What calls mean, and the front end by which contracts are added.
pub trait Callees {
    /// The front end.
    ghost front: { Self → Front };

    /// What each call does.
    ghost calls: { Self → Calls };

    /// What the code that calls rests on.
    ghost is_ready: { Self → Type 0 };

    /// Calls, with arguments in order. Errors are those of what is called.
    fn call(
        &self,
        state: &mut RunState,
        callee: Callee<'_>,
        arguments: Vec<Place>,
    ) -> Result<Box<Tree>, Stop>
        requires { is_ready self.now }
        ensures { FindsAndCarriesOut tree_in (calls self.now (callee_of callee.entry) (pure_row arguments.items)) state.old state.new result };

    /// Adds a contract to the account of an address: of a name and a code, on further arguments. Errors are 118 where the name is
    /// taken, 119 where the code is refused, 120 where it isn't one contract of that name, 125 and 113 of its arguments, and those
    /// of its initializer.
    fn add(
        &self,
        state: &mut RunState,
        address: Address,
        arguments: Vec<Place>,
    ) -> Result<Box<Tree>, Stop>
        requires { is_ready self.now }
        ensures { FindsAndCarriesOut tree_in (adding.add (front self.now) (calls self.now) (pure_row arguments.items) address) state.old state.new result };

    /// Results of calls over arguments without labels have none, and labels are kept apart.
    ghost keeps: { (it : Self) → CalleesKeep (calls it) };
}

/// Calls from the default arguments of an event: nothing is destroyed there, but by what they call.
pub struct Quiet<'c, C> {
    pub inner: &'c C,
}

impl<C: Callees> Callees for Quiet<'_, C> {
    ghost use Rattle.cad_evaluation.specs.Evaluation.{destroying_nothing};
    ghost use Rattle.cad_expression_leaves.specs.EventCalls.{destroying_nothing_keeps};

    ghost front = { λ it. C.front it.inner.now };

    ghost calls = { λ it. destroying_nothing (C.calls it.inner.now) };

    ghost is_ready = { λ it. C.is_ready it.inner.now };

    ghost keeps = { λ it. destroying_nothing_keeps (C.calls it.inner.now) (C.keeps it.inner.now) };

    fn call(
        &self,
        state: &mut RunState,
        callee: Callee<'_>,
        arguments: Vec<Place>,
    ) -> Result<Box<Tree>, Stop> {
        match callee {
            Callee::DestroyedEvent { of: _, label: _ } => {
                discard_row(arguments);
                Err(Stop::IllTyped)
            }
            Callee::Method { of, name, label } => {
                let method = Callee::Method { of, name, label };
                self.inner.call(state, method, arguments)
            }
            Callee::Function(name) => self.inner.call(state, Callee::Function(name), arguments),
            Callee::Initializer { of, label } => {
                let initializer = Callee::Initializer { of, label };
                self.inner.call(state, initializer, arguments)
            }
        }
    }

    fn add(
        &self,
        state: &mut RunState,
        address: Address,
        arguments: Vec<Place>,
    ) -> Result<Box<Tree>, Stop> {
        self.inner.add(state, address, arguments)
    }
}
