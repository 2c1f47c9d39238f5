//! What deployed contracts hold, and what is reached from them.
#![tactic(auto)]

mod contracts;
mod copies;
mod links;
mod own;

pub use contracts::{
    all_imported, closure, contract_id, find_contract_at, import_address, import_links, is_part,
    tables_in,
};
pub use copies::{push_copied_mappings, push_linked_types};
pub use links::{imported_links, parent_links, parents_of};
pub use own::{Own, own_contract};
