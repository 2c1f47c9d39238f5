// Checked programs, and those that accounts have.
use crate::body::Bodies;
use crate::tables::Tables;
use cad_grammar::Program;
use cad_syntax::{Address, Bytes, Name};
use std::rc::Rc;

/// A program that was accepted.
#[derive(Drop)]
pub struct Checked {
    pub program: Program,
    pub tables: Tables,
    pub bodies: Bodies,
}

/// A contract of an account.
#[derive(Drop)]
pub struct Installed {
    pub address: Address,
    pub name: Name,
    pub code: Rc<Bytes>,
    pub checked: Rc<Checked>,
}

/// The contracts of all accounts, in the order in which they were deployed.
#[derive(Drop)]
pub struct Deployed {
    pub contracts: Vec<Installed>,
}
