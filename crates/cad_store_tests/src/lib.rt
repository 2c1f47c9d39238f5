//! Tests of hosts, tapes, registers and the store.
#![tactic(auto)]

#[cfg(test)]
mod accounts_tests;
#[cfg(test)]
mod asserts;
#[cfg(test)]
mod host_tests;
#[cfg(test)]
mod store_tests;
#[cfg(test)]
mod tape_tests;
