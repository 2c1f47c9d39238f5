// Heads of functions, and the variable of the result in postconditions.
ghost use Rattle.std.specs.Prelude.{◌≡◌, ◌+◌, IfOk, option_map};
ghost use Rattle.cad_syntax.specs.Types as types;
ghost use Rattle.cad_syntax.specs.Types.{pure_type};
ghost use Rattle.cad_syntax.specs.declared.types.Authorization.TheVariants as authorization;
ghost use Rattle.cad_types.specs.Classes.{is_void as is_void_type};
ghost use Rattle.cad_types.specs.Views.{declarations};
ghost use Rattle.cad_grammar.specs.Views.{function_of as tree_of};
ghost use Rattle.cad_declarations.specs.Entries as entries;
ghost use Rattle.cad_declarations.specs.Kinds.{kinds_of, scope_of as scope_in_tables};
ghost use Rattle.cad_declarations.specs.Views.{tables_of};
ghost use Rattle.cad_environment.specs.Views.{local_of};
ghost use Rattle.cad_scopes.specs.Views.{scope_of};
ghost use Rattle.cad_typing.specs.Functions as spec;
ghost use Rattle.cad_typing.specs.Types as classes;
ghost use Rattle.cad_heads.specs.Views.{routine_of};

use crate::head::{are_entries, are_parameters, is_result, result_entry, scope_in};
use crate::names::word;
use crate::routine::Routine;
use cad_declarations::{boxed_type, discard_type};
use cad_environment::{Known, Local, more};
use cad_grammar::Function;
use cad_scopes::{Scope, is_spelled};
use cad_syntax::{Authorization, Basic, CadType, Name};
use cad_type_classes::is_exportable;
use cad_types::{DeclaredTypes, is_resource};
use std::alloc::{AllocError, Global};

/// A length that is counted by a `u32`; want of memory where it is too great.
pub fn counted(length: usize) -> Result<u32, AllocError>
    ensures { IfOk result (λ n. n ≡ length) }
{
    match u32::try_from(length) {
        Ok(n) => Ok(n),
        Err(_) => Err(AllocError),
    }
}

/// Whether the types in a head are right, and no two parameters have one name. It fails where memory runs out alone.
pub fn head_is_right(
    alloc: Global,
    scope: Scope<'_>,
    routine: &Routine<'_>,
) -> Result<bool, AllocError>
    ensures { IfOk result (λ b. b ≡ spec.head_is_right (scope_of scope.entry) (routine_of routine.now)) }
{
    if !are_parameters(alloc, scope, routine.parameters)? {
        return Ok(false);
    }
    is_result(alloc, scope, routine.result)
}

/// A reference without authorization to what isn't nil of a type.
fn referred(t: &CadType, alloc: Global) -> Result<CadType, AllocError>
    ensures { IfOk result (λ r. pure_type r ≡ spec.referred (pure_type t.now)) }
{
    match t {
        CadType::Optional(content) => {
            let inner = referred(content, alloc)?;
            Ok(CadType::Optional(boxed_type(alloc, inner)?))
        }
        CadType::Basic(_) => reference_to(alloc, t),
        CadType::Array(_) => reference_to(alloc, t),
        CadType::Dictionary(_, _) => reference_to(alloc, t),
        CadType::Intersection(_) => reference_to(alloc, t),
        CadType::Declared(_) => reference_to(alloc, t),
        CadType::Reference(_, _) => reference_to(alloc, t),
        CadType::Capability => reference_to(alloc, t),
        CadType::CapabilityOf(_) => reference_to(alloc, t),
    }
}

fn reference_to(alloc: Global, t: &CadType) -> Result<CadType, AllocError>
    ensures { IfOk result (λ r. pure_type r ≡ types.reference authorization.Unauthorized (pure_type t.now)) }
{
    let target = boxed_type(alloc, t.clone()?)?;
    Ok(CadType::Reference(Authorization::Unauthorized, target))
}

/// The result in postconditions: of a resource a reference to it.
fn result_in_conditions(
    alloc: Global,
    types: &DeclaredTypes,
    t: &CadType,
) -> Result<CadType, AllocError>
    ensures { IfOk result (λ r. pure_type r ≡ spec.result_in_conditions (declarations types.now) (pure_type t.now)) }
{
    if is_resource(types, t) {
        referred(t, alloc)
    } else {
        t.clone()
    }
}

fn is_void(t: &CadType) -> bool
    ensures { result ≡ is_void_type (pure_type t.now) }
{
    matches!(t, CadType::Basic(Basic::Void))
}

/// The variable of the result; Void has none. It fails where memory runs out alone.
pub fn result_local(
    alloc: Global,
    types: &DeclaredTypes,
    number: u32,
    t: &CadType,
) -> Result<Option<Local>, AllocError>
    ensures { IfOk result (λ v. option_map local_of v ≡ spec.result_local (declarations types.now) number (pure_type t.now)) }
{
    if is_void(t) {
        return Ok(None);
    }
    let name = word(alloc, "result")?;
    let declared = result_in_conditions(alloc, types, t)?;
    Ok(Some(Local {
        number,
        name,
        declared,
        is_var: false,
    }))
}

/// The number behind a variable, where there is one. It fails where the number passes 32 bits alone.
pub fn number_behind(number: u32, v: &Option<Local>) -> Result<u32, AllocError>
    ensures { IfOk result (λ n. n ≡ spec.number_behind number (option_map local_of v.now)) }
{
    match v {
        Some(_) => more(number, 1),
        None => Ok(number),
    }
}

/// Whether what a function gives can be exported.
fn gives_exportable(
    alloc: Global,
    known: Known<'_>,
    function: &Function,
) -> Result<bool, AllocError>
    ensures { IfOk result (λ b. b ≡ classes.is_exportable (kinds_of (tables_of known.entry.tables.now)) (entries.result_entry (scope_in_tables (tables_of known.entry.tables.now)) (tree_of function.now).result)) }
{
    let result = result_entry(alloc, scope_in(known), function.result.as_ref())?;
    let exportable = is_exportable(alloc, known.declared(), &result);
    discard_type(result);
    exportable
}

/// Whether a function takes what can be imported and gives what can be exported. It fails where memory runs out alone.
pub fn is_entry(alloc: Global, known: Known<'_>, function: &Function) -> Result<bool, AllocError>
    ensures { IfOk result (λ b. b ≡ spec.is_entry (tables_of known.entry.tables.now) (tree_of function.now)) }
{
    if !are_entries(alloc, known, function.parameters.as_slice())? {
        return Ok(false);
    }
    gives_exportable(alloc, known, function)
}

/// Whether a name is `main`.
pub fn is_main(name: &Name) -> bool
    ensures { result ≡ spec.is_main name.now }
{
    is_spelled(name, "main")
}
