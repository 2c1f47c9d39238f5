// The state of a run.
use crate::hints::Hints;
use cad_declarations::Checked;
use cad_rows::Place;
use cad_syntax::{Address, Bytes, CadType, Name, Numbers, TypeId, TypeIds};
use cad_values::Value;
use std::rc::Rc;

/// A call in progress.
pub struct Call {
    /// The type whose code runs; none outside of types.
    pub within: Option<TypeId>,
    /// The label of the receiver, or of what the initializer makes.
    pub own: Option<u64>,
    /// Whether it is an initializer's call.
    pub initializes: bool,
    /// By their numbers, hidden ones among them.
    pub variables: Vec<Place>,
    /// The values of `before`, those of the conditions that come next first.
    pub before: Vec<Place>,
    /// The result while postconditions run: one place.
    pub result: Vec<Place>,
}

/// A contract where a program runs.
pub struct Contract {
    pub id: TypeId,
    pub code: Rc<Bytes>,
    pub checked: Rc<Checked>,
    /// One place.
    pub value: Vec<Place>,
    /// Whether its initializer runs: fields of its value may be unset then.
    pub is_running: bool,
}

/// The capability that is published under an identifier.
#[derive(Debug, Drop)]
pub struct Publication {
    pub identifier: Name,
    /// Its number in this account.
    pub number: u64,
    /// The type that it lends.
    pub lent: CadType,
}

/// The controller of a capability.
#[derive(Debug, Drop)]
pub struct Controller {
    pub number: u64,
    /// The type that may be borrowed.
    pub borrow: CadType,
    pub tag: Bytes,
    /// The identifier in storage.
    pub target: Name,
}

/// An account where a program runs.
pub struct Account {
    /// The identifiers in storage in their order.
    pub identifiers: Vec<Name>,
    /// The values under them, one in each place.
    pub stored: Vec<Place>,
    /// In the order of identifiers.
    pub published: Vec<Publication>,
    /// In the order of numbers.
    pub controllers: Vec<Controller>,
    pub next_controller: u64,
}

/// An account that a run knows, and its place among all, the first 0.
pub struct Known {
    pub index: u64,
    pub account: Account,
}

/// The accounts of a run.
pub enum Accounts {
    /// All, by their addresses, from 1 on.
    All(Vec<Account>),
    /// So many, of which it knows some: the others stay as they are.
    Part { count: u64, known: Vec<Known> },
}

/// A code that is to be added at an address, and of which the front end says nothing.
#[derive(Drop)]
pub struct Question {
    pub address: Address,
    pub code: Bytes,
}

/// A code of which a run asked and nothing was known, and the contracts of the run.
pub struct Unknown {
    pub contracts: Vec<Contract>,
    pub question: Question,
}

/// The state of a run.
pub struct RunState {
    /// The newest last.
    pub calls: Vec<Call>,
    /// What initializers make, the newest first; fields that aren't set are empty places.
    pub making: Vec<Place>,
    pub accounts: Accounts,
    /// Those that were added stand last.
    pub contracts: Vec<Contract>,
    /// What runs.
    pub checked: Rc<Checked>,
    /// In the order of emission.
    pub events: Vec<Value>,
    /// Identities of resources, in order.
    pub made: Numbers,
    pub destroyed: Numbers,
    /// Contracts that were added, in order.
    pub added: TypeIds,
    pub next_label: u64,
    pub next_identity: u64,
    pub units: u64,
    /// How many calls of functions and initializers are in progress.
    pub depth: u64,
    /// Where labels were found last. What they say is tried before it is believed.
    pub hints: Hints,
    /// The code for which the run stopped, where memory failed of it. It isn't a part of what the state is.
    pub asked: Option<Question>,
    /// The index of the account for which the run stopped, where memory failed of it. It isn't a part of what the state is.
    pub wanted: Option<u64>,
}
