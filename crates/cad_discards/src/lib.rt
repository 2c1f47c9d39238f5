//! Programs that are held once more, and programs, their tables and deployed contracts that are let go: what that costs to prove
//! is paid here, once.
#![tactic(auto)]

ghost use Rattle.std.specs.Prelude.{◌≡◌, IfOk};

use cad_declarations::{Checked, Deployed, Installed, Tables};
use cad_grammar::Program;
use std::alloc::AllocError;
use std::rc::Rc;

/// A program that several hold is held once more.
pub fn hold(checked: &Rc<Checked>) -> Result<Rc<Checked>, AllocError>
    ensures { IfOk result (λ more. more.value ≡ checked.now.value) }
{
    checked.clone()
}

/// Lets the tree of a program go.
pub fn discard_program(program: Program) {
    drop(program)
}

/// Lets the tables of a program go.
pub fn discard_tables(tables: Tables) {
    drop(tables)
}

/// Lets a program go that was accepted.
pub fn discard_checked(checked: Checked) {
    drop(checked)
}

/// Lets a contract of an account go.
pub fn discard_installed(installed: Installed) {
    drop(installed)
}

/// Lets the contracts of all accounts go.
pub fn discard_deployed(deployed: Deployed) {
    drop(deployed)
}
