//! Tests of `serve` over hosts in memory: commands, replies, faults and crashes.
#![tactic(auto)]

#[cfg(test)]
mod account_tests;
#[cfg(test)]
mod contract_tests;
#[cfg(test)]
mod generating_tests;
#[cfg(test)]
mod running;
#[cfg(test)]
mod tests;
