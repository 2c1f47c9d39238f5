//! What the elaborated trees of statements are made of: statements from their parts, and where a part is ill-typed.
#![tactic(auto)]

mod blocks;
mod branches;
mod loops;
mod simple;
mod switches;
mod typing;
mod variables;

pub use blocks::{Begun, begin, empty_block, ended, found, lone_block, single, take_in};
pub use branches::{bound_cast, bound_content, if_typed, test_scope, whole};
pub use loops::{for_over, for_scope, for_typed, while_typed};
pub use simple::nothing_returned;
pub use switches::switch_typed;
pub use typing::{ForTyping, StatementTyping, SwitchTyping, TestTyping};
pub use variables::{alone, beside_variable, declared, targeted};
// For the crates above, which let nothing with a tree in it go in another way.
pub use blocks::discard_begun;
pub use typing::{
    discard_for_typing, discard_judged_block, discard_judged_blocks, discard_judged_statement,
    discard_statement_typing, discard_switch_typing, discard_test_typing,
};
