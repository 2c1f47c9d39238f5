// Where a value stands.
use cad_state::discard_value;
use cad_syntax::{Num, TypeId};
use cad_values::Value;

/// Where a value stands in the state of a run. It isn't let go but by `discard_location`.
pub enum Location {
    /// A variable of the newest call.
    Variable(usize),
    /// The value of a contract.
    Contract(TypeId),
    /// The node with a label, without its optionals, which stays where it is.
    Receiver(u64),
    /// A field of a node: the label, and the place in its row.
    Part(u64, usize),
    /// An element of an array: the label, and the index.
    Element(u64, Num),
    /// What stands under a key of a dictionary: the label, and the key.
    Entry(u64, Value),
}

/// Lets a location go.
pub fn discard_location(location: Location) {
    match location {
        Location::Variable(_) => {}
        Location::Contract(id) => drop(id),
        Location::Receiver(_) => {}
        Location::Part(_, _) => {}
        Location::Element(_, _) => {}
        Location::Entry(_, key) => discard_value(key),
    }
}
