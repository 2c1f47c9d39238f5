// Values as nodes in rows of places.
use cad_keys::Keys;
use cad_syntax::{Authorization, CadType, Names, Numbers, TypeId};
use cad_values::Value;

/// What a node is, without its optionals and its parts.
#[derive(Debug, Drop)]
pub enum Shape {
    /// A value without parts; a reference among them doesn't name a node.
    Plain(Value),
    /// A reference to a node: its own authorization, the label, and how many of the node's optionals it sees.
    Link {
        authorization: Authorization,
        label: u64,
        sees: u64,
    },
    /// The type of the elements.
    Array(CadType),
    /// The types of the keys and of the values, and the keys in order.
    Dictionary {
        key: CadType,
        value: CadType,
        keys: Keys,
    },
    /// The type, the identity (0 of what is no resource), and the names of the fields in order.
    Composite {
        id: TypeId,
        identity: u64,
        fields: Names,
    },
}

/// A node without its labels: how many optionals it is in, its shape, and the row of its own places. Of a value in hand no
/// part has a label. It isn't let go but by `discard_tree`.
#[cycle(trees)]
pub struct Tree {
    pub optionals: u64,
    pub shape: Shape,
    pub parts: Vec<Place>,
}

/// A place of a row: empty, or with a node, whose labels stand in the order in which they were given. It isn't let go but by
/// `discard_place`.
#[cycle(trees)]
pub enum Place {
    Empty,
    Full(Numbers, Tree),
}
