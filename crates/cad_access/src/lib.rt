//! What is declared where a program runs, own types of values, and which code may use a member, over the state of a run.
#![tactic(auto)]

mod access;
mod calls;
mod covered;
mod declared;
mod kinds;
pub mod laws;
mod mappings;
mod members;
mod own_types;
mod reading;
mod receivers;
mod shapes;

pub use access::{has_right, may_write, serves};
pub use calls::{made_label, newest, within};
pub use covered::is_covered;
pub use declared::{are_of_one_contract, bodies_of, contract_in, entry_of, function_in, is_within};
pub use kinds::{is_below, kinds_of_run};
pub use mappings::{declared_mapping, identity, is_identity, mapping_of};
pub use members::{composite_member, interfaces_of, own_member};
pub use own_types::{in_optionals, own_type, seen_type, shape_type};
pub use reading::{composite_in, field_names, field_type, may_give, right_given};
pub use receivers::is_reference;
pub use shapes::{is_reference_shape, leads_to_controller, solid_type};
