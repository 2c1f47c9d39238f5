//! What is made and what ends: initializers, resources, events, variables, calls.
#![tactic(auto)]

mod before;
mod calls;
mod cases;
mod dying;
mod ending;
mod ends;
mod events;
mod fields;
pub mod laws;
mod linear;
mod making;
mod results;
mod rows;
mod told;

pub use before::{before_value, keep_before, pass_before};
pub use calls::{enter, leave, look_in, look_out, move_to};
pub use cases::{case, case_from};
pub use dying::{Dying, bury, lay_out};
pub use ending::{end_variables, let_go};
pub use events::{emit, event};
pub use fields::names_of_fields;
pub use linear::is_linear;
pub use making::{begin, draw_identity, finish};
pub use results::{put_result, result_value, take_result};
pub use told::is_told;

// For the crates above alone: a place without a value, by the definition that the code follows.
pub use making::unset_place;
