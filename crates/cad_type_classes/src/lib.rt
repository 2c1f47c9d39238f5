//! What forms ask of the types of their parts.
#![tactic(auto)]

mod classes;
mod forms;
mod numbers;
mod operands;
mod order;

pub use classes::{is_exportable, is_importable, is_storable};
pub use forms::{content, core_of, element_type, is_never_type, is_optional_type, optional_once};
pub use numbers::{
    is_address, is_integer_type, is_number_type, is_signed, is_signed_type, kind_of,
};
pub use operands::{is_copied, is_ordered, is_same_basic};
pub use order::{fits, is_below};
