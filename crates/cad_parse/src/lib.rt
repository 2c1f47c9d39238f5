//! Reading of declarations and programs.
#![tactic(auto)]

mod access;
mod composite;
mod contract;
mod declaration;
mod function;
mod member;
mod program;
mod transaction;

pub use program::{one_program, one_refusal, parse_program};
