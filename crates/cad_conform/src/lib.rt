//! Whether the composites and interfaces of a program meet their interfaces.
#![tactic(auto)]

mod conform;
mod meets;

pub use conform::conforms;
