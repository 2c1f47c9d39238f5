//! What stands below the typing of statements: variables and scopes, numbers of statements, and what is asked of types.
#![tactic(auto)]

mod before;
mod counts;
mod discard;
mod elements;
mod locals;
mod operands;
mod surroundings;
mod typing;
mod variables;

pub use before::{befores_of_condition, behind_condition};
pub use counts::count_all;
// For the crates above, which let nothing with a type in it go in another way.
pub use discard::{discard_for_variables, discard_local, discard_locals, discard_maybe_local};
pub use elements::{ForVariables, for_variables, gone_over};
pub use locals::{
    copied, entries_of, entry_of, is_free, is_var_word, locals_from, next_local, push_copy,
    put_first,
};
pub use operands::{
    fit_each_other, is_test, is_void, may_be_cast, may_be_equal, may_be_switched, optional_of,
};
pub use surroundings::{after, first_inside, in_loop, in_switch, number_behind, opened, within};
pub use typing::Surroundings;
pub use variables::{is_move_sign, may_declare, may_exchange, new_variable, type_for};
