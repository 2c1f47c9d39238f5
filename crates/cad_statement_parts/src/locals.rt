// Variables and their scopes.
ghost use Rattle.std.specs.Prelude.{◌≡◌, ◌∷◌, ◌++◌, [], IfOk, OnOk, false, map};
ghost use Rattle.std.specs.List.{list_any};
ghost use Rattle.cad_syntax.specs.Types.{pure_type};
ghost use Rattle.cad_declarations.specs.Names.{same_name};
ghost use Rattle.cad_declarations.specs.Views.{parameter_of, variable_of};
ghost use Rattle.cad_environment.specs.Views.{environment_of, local_of};
ghost use Rattle.cad_typing.specs.Locals as spec;

use cad_declarations::{Parameter, Variable, is_same_name};
use cad_environment::{Environment, Local, Scopes, more};
use cad_grammar::VariableKind;
use cad_syntax::{CadType, Name};
use std::alloc::{AllocError, Global};

/// Whether a variable is declared by `var`.
pub fn is_var_word(kind: VariableKind) -> bool
    ensures { result ≡ spec.is_var_word kind }
{
    match kind {
        VariableKind::Var => true,
        VariableKind::Let => false,
    }
}

/// The variable that is declared next, of a type. It fails where memory runs out alone.
pub fn next_local(
    env: Environment<'_>,
    kind: VariableKind,
    name: &Name,
    declared: &CadType,
) -> Result<Local, AllocError>
    ensures { IfOk result (λ v. local_of v ≡ spec.next_local (environment_of env.entry) kind name.now (pure_type declared.now)) }
{
    Ok(Local {
        number: env.in_use,
        name: name.clone()?,
        declared: declared.clone()?,
        is_var: is_var_word(kind),
    })
}

/// A variable in the elaborated tree. It fails where memory runs out alone.
pub fn entry_of(env: Environment<'_>, v: &Local) -> Result<Variable, AllocError>
    ensures { IfOk result (λ x. variable_of x ≡ spec.entry_of (environment_of env.entry) (local_of v.now)) }
{
    Ok(Variable {
        number: v.number,
        name: v.name.clone()?,
        declared: v.declared.clone()?,
        is_resource: env.is_resource(&v.declared),
    })
}

/// Variables in the elaborated tree. It fails where memory runs out alone.
pub fn entries_of(
    alloc: Global,
    env: Environment<'_>,
    locals: &[Local],
) -> Result<Vec<Variable>, AllocError>
    ensures { IfOk result (λ all. map variable_of all.items ≡ spec.entries_of (environment_of env.entry) (map local_of locals.now)) }
{
    let mut all = Vec::new(alloc);
    for v in locals {
        all.push(entry_of(env, v)?)?;
    }
    Ok(all)
}

/// A copy of a variable.
pub fn copied(v: &Local) -> Result<Local, AllocError>
    ensures { IfOk result (λ x. local_of x ≡ local_of v.now) }
{
    Ok(Local {
        number: v.number,
        name: v.name.clone()?,
        declared: v.declared.clone()?,
        is_var: v.is_var,
    })
}

/// Adds a copy of a variable.
pub fn push_copy(locals: &mut Vec<Local>, v: &Local) -> Result<(), AllocError>
    ensures { OnOk result (map local_of locals.new.items ≡ map local_of locals.old.items ++ local_of v.now ∷ []) }
{
    locals.push(copied(v)?)?;
    Ok(())
}

/// Puts a variable in front of others.
pub fn put_first(locals: &mut Vec<Local>, v: Local) -> Result<(), AllocError>
    ensures { OnOk result (map local_of locals.new.items ≡ local_of v ∷ map local_of locals.old.items) }
{
    locals.insert(0, v)?;
    Ok(())
}

/// Whether one of these variables has a name.
fn has_name(locals: &[Local], name: &Name) -> bool
    ensures { result ≡ list_any (λ v. same_name v.name name.now) (map local_of locals.now) }
{
    for v in locals {
        if is_same_name(&v.name, name) {
            return true;
        }
    }
    false
}

/// Whether no variable of the innermost scope has a name.
pub fn is_free(env: Environment<'_>, name: &Name) -> bool
    ensures { result ≡ spec.is_free (environment_of env.entry) name.now }
{
    match env.scopes {
        Scopes::Empty => true,
        Scopes::Inside(locals, _) => !has_name(locals, name),
    }
}

/// The variable of a parameter, which isn't assigned.
fn parameter_local(number: u32, parameter: &Parameter) -> Result<Local, AllocError>
    ensures { IfOk result (λ v. local_of v ≡ record { number = number; name = (parameter_of parameter.now).name; type = (parameter_of parameter.now).type; is_var = false }) }
{
    Ok(Local {
        number,
        name: parameter.name.clone()?,
        declared: parameter.declared.clone()?,
        is_var: false,
    })
}

/// The variables of parameters, with numbers from this one. It fails where memory or numbers run out alone.
pub fn locals_from(
    alloc: Global,
    number: u32,
    parameters: &[Parameter],
) -> Result<Vec<Local>, AllocError>
    ensures { IfOk result (λ all. map local_of all.items ≡ spec.locals_from number (map parameter_of parameters.now)) }
{
    let mut all = Vec::new(alloc);
    let mut next = number;
    for parameter in parameters {
        all.push(parameter_local(next, parameter)?)?;
        next = more(next, 1)?;
    }
    Ok(all)
}
