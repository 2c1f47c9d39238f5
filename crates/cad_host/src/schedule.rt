// Which calls of a kind fail.
ghost use Rattle.std.specs.Prelude.{◌≡◌, IfOk};
ghost use Rattle.cad_host.specs.Schedule.{fails_next, Counted};

use std::alloc::{AllocError, Global};

/// The numbers of the calls that fail, counted from 0, and how many calls there were.
#[derive(Drop)]
pub struct Schedule {
    failing: Vec<u64>,
    calls: u64,
}

impl Schedule {
    pub fn new(alloc: Global, failing: &[u64]) -> Result<Self, AllocError>
        ensures failing { IfOk result (λ s. s.failing.items ≡ failing.now) }
        ensures calls { IfOk result (λ s. s.calls ≡ 0) }
    {
        Ok(Schedule {
            failing: failing.to_vec(alloc)?,
            calls: 0,
        })
    }

    /// Counts a call, and answers whether it is to fail.
    pub fn count(&mut self) -> bool
        ensures fails { result ≡ fails_next self.old.failing.items self.old.calls }
        ensures counted { Counted self.old self.new }
    {
        let fails = self.failing.contains(&self.calls);
        self.calls = self.calls.saturating_add(1);
        fails
    }
}
