// What a member is used on, and what that is now.
use cad_rows::{Place, Shape, discard_shape};
use cad_syntax::Authorization;

/// What a member is used on: found by its label or through a reference, and looked at again.
pub enum Receiver {
    /// A node by its label, met by its owner or through a reference, and how many of its optionals are seen.
    Standing {
        rights: Option<Authorization>,
        label: u64,
        sees: u64,
    },
    /// What a reference leads to.
    Through(Shape),
    /// Nil, where a dictionary lacks a key; with its shape, which is lent as that of what it is now.
    Absent(Shape),
}

/// A receiver that was settled: what it is now is seen without a change of the state. What led to storage is a node by its label.
#[derive(Clone, Copy)]
pub enum Settled<'a> {
    /// A node by its label, met with these rights, and how many of its optionals are seen.
    Standing {
        rights: Option<&'a Authorization>,
        label: u64,
        sees: u64,
    },
    /// What a reference leads to.
    Through(&'a Shape),
    /// Nil, with its shape.
    Absent(&'a Shape),
}

/// What a receiver is now. An account, a part of it and a controller are the reference itself, and have no label.
#[derive(Clone, Copy)]
pub struct Spot<'a> {
    /// The authorization of the reference through which it is met; none of what is owned.
    pub rights: Option<&'a Authorization>,
    pub label: Option<u64>,
    /// How many optionals are seen.
    pub optionals: u64,
    pub shape: &'a Shape,
    pub parts: &'a [Place],
}

/// Lets rights go.
pub fn discard_rights(rights: Option<Authorization>) {
    match rights {
        Some(authorization) => discard_shape(Shape::Link {
            authorization,
            label: 0,
            sees: 0,
        }),
        None => {}
    }
}

/// Lets a receiver go.
pub fn discard_receiver(receiver: Receiver) {
    match receiver {
        Receiver::Standing {
            rights,
            label: _,
            sees: _,
        } => discard_rights(rights),
        Receiver::Through(shape) | Receiver::Absent(shape) => discard_shape(shape),
    }
}
