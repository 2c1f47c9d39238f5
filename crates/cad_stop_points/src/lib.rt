//! Where functions, composites and interfaces are refused.
#![tactic(auto)]

mod before;
mod body_rows;
mod composite_points;
mod expression_types;
mod names;
mod points;
mod right;
mod walk;

pub use before::NamesBefore;
pub use body_rows::{missing_in_body, missing_in_conditions};
pub use composite_points::{composite_stop, interface_stop, is_destroyed_event};
pub use names::{
    contract_member_name, declaration_name, import_names, is_new, names_of_contract, push_names,
    word,
};
pub use points::{event_stop, function_stop, init_stop};
pub use right::{
    access_is_there, annotation_is_there, entitlement_is_there, field_is_right, name_is_there,
    parameters_are_there,
};

// For the crates above alone: stops by the definitions that the code follows.
pub use points::{told_stop, unless_right};
