//! What an account stores: the calls of its storage.
#![tactic(auto)]

mod arguments;
mod borrows;
mod checks;
mod copies;
mod loads;
mod saves;
mod typed;
mod types;
mod units;

pub use borrows::borrow;
pub use checks::check;
pub use copies::copy;
pub use loads::load;
pub use saves::save;
pub use types::type_at;
