//! Tests of names, numbers, texts, types, bytes of values, keys, and operators.
#![tactic(auto)]

#[cfg(test)]
mod auth_tests;
#[cfg(test)]
mod codec_rows;
#[cfg(test)]
mod codec_tests;
#[cfg(test)]
mod keys_tests;
#[cfg(test)]
mod num_tests;
#[cfg(test)]
mod number_codec_tests;
#[cfg(test)]
mod operators_tests;
#[cfg(test)]
mod syntax_tests;
#[cfg(test)]
mod telling;
#[cfg(test)]
mod text_tests;
#[cfg(test)]
mod types_tests;
#[cfg(test)]
mod wire_tests;
