// Variables that are let go. Crates above call these in place of `drop`: the drop of a type is proved anew in each crate that
// drops it itself.
use crate::elements::ForVariables;
use cad_environment::Local;

/// Lets a variable go.
pub fn discard_local(v: Local) {
    drop(v)
}

/// Lets a variable go, where there is one.
pub fn discard_maybe_local(v: Option<Local>) {
    drop(v)
}

/// Lets variables go.
pub fn discard_locals(all: Vec<Local>) {
    drop(all)
}

/// Lets the variables of a `for` go.
pub fn discard_for_variables(variables: ForVariables) {
    drop(variables)
}
