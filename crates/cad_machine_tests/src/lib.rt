//! Tests of the machine over accounts of which a run knows some.
#![tactic(auto)]

#[cfg(test)]
mod parts;
#[cfg(test)]
mod rows;
#[cfg(test)]
mod running;
#[cfg(test)]
mod session;
