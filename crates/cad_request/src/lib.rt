//! The fields of requests, read as JSON.
#![tactic(auto)]

mod field;

pub use field::text_at;
