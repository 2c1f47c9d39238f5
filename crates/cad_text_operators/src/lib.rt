//! What the built-in members of texts, characters and addresses, and those that make texts and bytes of numbers and types, make of
//! values, without the state of a run: each gives the action's value, or says why there is none.
#![tactic(auto)]

mod bytes;
mod hexadecimal;
mod number_texts;
mod slices;
mod texts;
mod type_texts;

pub use bytes::{bytes_in, bytes_tree};
pub use hexadecimal::{text_decoded, text_encoded, text_from_bytes};
pub use number_texts::{
    address_bytes, address_in, address_text, number_bytes, number_read, number_text,
};
pub use slices::text_slice;
pub use texts::{
    character_in, text_bytes, text_copy, text_in, text_joined, text_length, text_tree,
};
pub use type_texts::{identifier, type_in};
