//! What written names, types, entitlements and accesses mean in a program.
#![tactic(auto)]

mod formed;
mod names;
mod resolve;
mod scope;
mod written;

pub use formed::{formed_type, is_formed, is_key_type, resolved_annotation};
pub use names::{Meaning, basic_type, built_in_as, inside, is_entitlement_name, is_spelled};
pub use resolve::{
    resolved_access, resolved_entitlement, resolved_entitlements, resolved_interface,
    resolved_mapping,
};
pub use scope::{Scope, contract_named, meaning, meaning_of, own_meaning};
pub use written::resolved_type;
