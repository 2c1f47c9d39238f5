// Where labels were found last.
ghost use Rattle.std.specs.Prelude.{◌≤◌, ◌<◌, ◌≡◌, ◌%◌, OnOk, vec_len};

use std::alloc::{AllocError, Global};

/// The row of a state in which a node stands.
#[derive(Clone, Copy, Debug, PartialEq, Eq)]
pub enum Root {
    /// Of the call with this number, the oldest 0.
    Variables(usize),
    Before(usize),
    Result(usize),
    Making,
    /// What the account of this index stores, the first 0.
    Stored(usize),
    /// The value of the contract with this number.
    Contract(usize),
}

/// The way to a node: the row, and the places down from there.
#[derive(Debug, Drop)]
pub struct Way {
    pub root: Root,
    pub down: Vec<usize>,
}

/// For each remainder of labels by 4,096 the way to the node that was found last by such a label. It is tried before it is
/// believed, so it may say anything.
#[derive(Debug, Drop)]
pub struct Hints {
    pub ways: Vec<Way>,
}

/// A way that leads to no node. It takes no memory.
fn no_way(alloc: Global) -> Way {
    Way {
        root: Root::Making,
        down: Vec::new(alloc),
    }
}

/// Where the way of a label stands.
pub fn hint_index(label: u64) -> usize
    ensures index { result ≡ label % 4096 }
    ensures bound { result < 4096 }
{
    (label % 4096) as usize
}

impl Hints {
    /// No hints yet. It takes no memory.
    pub fn new(alloc: Global) -> Hints {
        Hints {
            ways: Vec::new(alloc),
        }
    }

    /// Makes room for all ways, where there is none yet.
    fn make_room(&mut self) -> Result<(), AllocError>
        ensures { OnOk result (4096 ≤ vec_len self.new.ways) }
    {
        let alloc = *self.ways.allocator();
        while self.ways.len() < 4096 {
            self.ways.push(no_way(alloc))?;
        }
        Ok(())
    }

    /// Keeps the way to the node with a label.
    pub fn keep(&mut self, label: u64, way: Way) -> Result<(), AllocError> {
        self.make_room()?;
        let i = hint_index(label);
        self.ways[i] = way;
        Ok(())
    }
}
