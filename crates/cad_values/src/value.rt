// Values.
use cad_syntax::{Address, Authorization, CadType, Name, Num, Path, Text, TypeId};

/// A capability: the account that issued it, its number there, and the type that it lends.
#[derive(Debug, Drop, PartialEq, Eq)]
pub struct Cap {
    pub address: Address,
    pub id: u64,
    pub borrow: CadType,
}

/// What a reference leads to: the node with a label, what an account stores under an identifier, an account, or the
/// controller of a capability.
#[derive(Debug, Drop, PartialEq, Eq)]
pub enum Target {
    Node(u64),
    Stored { address: Address, path: Name },
    Account(Address),
    Controller { address: Address, id: u64 },
}

/// A reference: what it may do, the type of its target, and what it leads to. It has no bytes.
#[derive(Debug, Drop, PartialEq, Eq)]
pub struct Reference {
    pub authorization: Authorization,
    pub target: CadType,
    pub to: Target,
}

/// A value. Containers have their own types. A number is of any kind but `Address`; an address has a variant of its own.
#[cycle(values)]
#[derive(Debug, Drop, PartialEq, Eq)]
pub enum Value {
    Void,
    Nil,
    /// An optional with a content.
    Some(Box<Value>),
    Bool(bool),
    Number(Num),
    String(Text),
    /// A text of one extended grapheme cluster.
    Character(Text),
    Address(Address),
    Path(Path),
    /// A type as a value.
    Meta(CadType),
    Capability(Cap),
    Array {
        element: CadType,
        values: Vec<Value>,
    },
    /// The entries stand in the order in which their keys were put in.
    Dictionary {
        key: CadType,
        value: CadType,
        entries: Vec<DictionaryEntry>,
    },
    /// A struct, resource, event or enum. What isn't a resource has identity 0.
    Composite {
        id: TypeId,
        identity: u64,
        fields: Vec<CompositeField>,
    },
    Reference(Reference),
}

/// A key of a dictionary and what stands under it.
#[cycle(values)]
#[derive(Debug, Drop, PartialEq, Eq)]
pub struct DictionaryEntry {
    pub key: Value,
    pub value: Value,
}

/// A field of a composite.
#[cycle(values)]
#[derive(Debug, Drop, PartialEq, Eq)]
pub struct CompositeField {
    pub name: Name,
    pub value: Value,
}
