//! Tests of parts of the checker that no program shows: how many types contracts declare, and the fields of what is not declared.
#![tactic(auto)]

#[cfg(test)]
mod pure;
#[cfg(test)]
mod tables;
#[cfg(test)]
mod telling;
