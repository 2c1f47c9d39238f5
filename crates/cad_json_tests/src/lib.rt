//! Tests of values as JSON that no program has: the highest, and those of types that nobody declares.
#![tactic(auto)]

#[cfg(test)]
mod heights;
#[cfg(test)]
mod told;
#[cfg(test)]
mod told_rows;
