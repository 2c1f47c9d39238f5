//! Operators and choices: their types and elaborated trees, by those of their parts.
#![tactic(auto)]

mod operators;

pub use operators::{
    arithmetic, bitwise, chosen, coalesced, compared, compared_with_nil, destroyed, forced,
    inverted, joined, literal_under_minus, negated_value, ordered, taken,
};
