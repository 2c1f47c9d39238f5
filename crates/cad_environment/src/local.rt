// Variables of bodies, and the scopes in which they stand.
ghost use Rattle.std.specs.Prelude.{◌≡◌, option_map, map, find};
ghost use Rattle.cad_declarations.specs.Names.{same_name};
ghost use Rattle.cad_typing.specs.Environments as spec;
ghost use Rattle.cad_environment.specs.Views.{local_of, scopes_of};

use cad_declarations::is_same_name;
use cad_syntax::{CadType, Name};

/// A variable of a body: its number is how many were in use when it was declared, hidden ones among them.
#[derive(Debug, Drop)]
pub struct Local {
    pub number: u32,
    pub name: Name,
    pub declared: CadType,
    /// Whether it may be assigned.
    pub is_var: bool,
}

/// The scopes in which an expression stands: the variables of the innermost one, and the scopes around it.
#[derive(Clone, Copy)]
pub enum Scopes<'a> {
    Empty,
    Inside(&'a [Local], &'a Scopes<'a>),
}

/// The first of these variables with this name.
pub fn find_local<'a>(locals: &'a [Local], name: &Name) -> Option<&'a Local>
    ensures { option_map (λ v. local_of v.now) result ≡ find (λ v. same_name v.name name.now) (map local_of locals.now) }
{
    for local in locals {
        if is_same_name(&local.name, name) {
            return Some(local);
        }
    }
    None
}

/// The variable of a name in the innermost scope that has it.
pub fn local_in<'a>(scopes: Scopes<'a>, name: &Name) -> Option<&'a Local>
    ensures { option_map (λ v. local_of v.now) result ≡ spec.local_in (scopes_of scopes.entry) name.now }
{
    match scopes {
        Scopes::Empty => None,
        Scopes::Inside(locals, outer) => match find_local(locals, name) {
            Some(local) => Some(local),
            None => local_in(*outer, name),
        },
    }
}
