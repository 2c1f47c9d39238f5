// Which registers a store is opened with.
ghost use Rattle.std.specs.Prelude.{◌↔◌, IsTrue, IfOk};
ghost use Rattle.cad_accounts.specs.Registers.{Map};
ghost use Rattle.cad_store.specs.Stores.{held};

use crate::store::Store;
use std::alloc::{AllocError, Global};

/// Which registers a store may be opened with: what they stand for is the caller's to say.
pub trait Judge {
    /// These may.
    ghost accepts: { Self → Map → Type 0 };

    /// Whether the registers of a store that was read may. AllocError where memory runs out.
    fn is_good(&self, alloc: Global, store: &Store) -> Result<bool, AllocError>
        ensures { IfOk result (λ b. IsTrue b ↔ accepts self.now (held store.now)) };
}
