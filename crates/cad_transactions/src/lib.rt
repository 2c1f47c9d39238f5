//! Transactions: their elaborated body, and where each part is ill-typed.
#![tactic(auto)]

mod transaction;

pub use transaction::transaction_rules;
// For the crates above alone: cad_bodies joins what typing makes of a transaction's parts.
pub use transaction::{
    Standing, TransactionLocals, TransactionTyping, discard_transaction_typing, transaction_body,
    transaction_locals, type_parts,
};

// What the crates above use of the ones below.
pub use cad_routines::{destroyed_event, type_function, type_initializer, type_top_function};
