// Over which accounts a command runs.
use cad_commands::Command;
use cad_syntax::{Address, Numbers};
use std::alloc::{AllocError, Global};

/// How many accounts a run knows at most that doesn't know all: each one that it lacks takes one run more.
const MOST_WANTED: usize = 16;

/// Over which accounts a command runs.
#[derive(Drop)]
pub struct Reach {
    /// Whether over all.
    pub is_whole: bool,
    /// Else over those with these indexes.
    pub wanted: Numbers,
}

// The accounts of these addresses; all where there are many.
fn reach_of(alloc: Global, addresses: &[Address]) -> Result<Reach, AllocError> {
    let mut wanted = Numbers::new(alloc);
    if addresses.len() > MOST_WANTED {
        return Ok(Reach {
            is_whole: true,
            wanted,
        });
    }
    for address in addresses {
        if address.0 != 0 {
            wanted.push(address.0 - 1)?;
        }
    }
    Ok(Reach {
        is_whole: false,
        wanted,
    })
}

/// Over which accounts a command runs first: over those of its signers; over all where there are many.
pub fn first_reach(alloc: Global, command: &Command) -> Result<Reach, AllocError> {
    match command {
        Command::Transaction { signers, .. } => reach_of(alloc, signers.as_slice()),
        _ => reach_of(alloc, &[]),
    }
}

/// One account more is known, by its index. Where there are many, all are.
pub fn reach_out(reach: &mut Reach, index: u64) -> Result<(), AllocError> {
    if reach.wanted.as_slice().len() >= MOST_WANTED {
        reach.is_whole = true;
        return Ok(());
    }
    reach.wanted.push(index)
}
