// What typing knows where an expression stands.
ghost use Rattle.std.specs.Prelude.{◌≡◌, ◌+◌, IfOk, option_map};
ghost use Rattle.cad_syntax.specs.Types.{pure_type};
ghost use Rattle.cad_types.specs.Classes.{has_sort};
ghost use Rattle.cad_types.specs.Declarations.{resource, found};
ghost use Rattle.cad_types.specs.Views.{declarations};
ghost use Rattle.cad_declarations.specs.Scopes as scopes;
ghost use Rattle.cad_declarations.specs.Views.{tables_of};
ghost use Rattle.cad_scopes.specs.Views as names;
ghost use Rattle.cad_typing.specs.Environments as spec;
ghost use Rattle.cad_environment.specs.Views.{local_of, part_of, environment_of};

use crate::known::Known;
use crate::local::{Local, Scopes, local_in};
use cad_declarations::{Tables, is_interface_sort, is_same_name};
use cad_scopes::Scope;
use cad_syntax::{CadType, Name, TypeId, TypeIds};
use cad_types::{DeclaredTypes, is_resource};
use std::alloc::{AllocError, Global};

/// The part of a function, initializer or transaction in which an expression stands.
#[derive(Clone, Copy)]
pub enum Part<'a> {
    /// The statements of a function.
    FunctionBody,
    /// Those of an initializer.
    InitializerBody,
    /// Those of `prepare`.
    PrepareBody,
    /// Those of `execute`.
    ExecuteBody,
    Precondition,
    /// With the result, where there is one.
    Postcondition(Option<&'a Local>),
    /// What stands under `before`.
    BeforeValue,
    /// A default argument of the event `ResourceDestroyed`.
    DefaultArgument,
}

/// What typing knows where an expression stands.
#[derive(Clone, Copy)]
pub struct Environment<'a> {
    pub known: Known<'a>,
    /// The innermost type in which the code stands: a composite, an interface or the contract.
    pub within: Option<&'a TypeId>,
    /// In a transaction its fields, which are variables.
    pub transaction_fields: Option<&'a [Local]>,
    pub part: Part<'a>,
    pub scopes: Scopes<'a>,
    /// How many variables are in use, hidden ones among them: the number of the next one.
    pub in_use: u32,
    /// How many `before` stand before this expression in the function's postconditions: the number of the next one.
    pub befores: u32,
}

impl<'a> Environment<'a> {
    /// What is declared.
    pub fn tables(self) -> &'a Tables
        ensures { tables_of result.now ≡ (environment_of self.entry).tables }
    {
        self.known.tables
    }

    /// The declared types.
    pub fn kinds(self) -> &'a DeclaredTypes
        ensures { declarations result.now ≡ spec.kinds (environment_of self.entry) }
    {
        self.known.declared()
    }

    /// What names are looked up in.
    pub fn scope(self) -> Scope<'a>
        ensures { names.scope_of result ≡ spec.scope (environment_of self.entry) }
    {
        let tables = self.known.tables;
        Scope {
            contract: tables.contract.as_ref(),
            imports: tables.imports.as_slice(),
            types: self.kinds(),
            entitlements: &tables.entitlements,
            mappings: &tables.mappings,
        }
    }

    /// Whether a type is a resource type.
    pub fn is_resource(self, t: &CadType) -> bool
        ensures { result ≡ resource (spec.kinds (environment_of self.entry)) (pure_type t.now) }
    {
        is_resource(self.kinds(), t)
    }
}

/// A number with another one added; want of memory where it is too great.
pub fn more(number: u32, by: u32) -> Result<u32, AllocError>
    ensures { IfOk result (λ n. n ≡ number + by) }
{
    number.checked_add(by).ok_or(AllocError)
}

/// The result of a function, if it has this name: it stands in a scope inside that of the parameters.
pub fn result_in<'a>(part: Part<'a>, name: &Name) -> Option<&'a Local>
    ensures { option_map (λ v. local_of v.now) result ≡ spec.result_in (part_of part.entry) name.now }
{
    match part {
        Part::Postcondition(Some(local)) => {
            if is_same_name(&local.name, name) {
                Some(local)
            } else {
                None
            }
        }
        _ => None,
    }
}

/// The variable of a name.
pub fn local_named<'a>(env: Environment<'a>, name: &Name) -> Option<&'a Local>
    ensures { option_map (λ v. local_of v.now) result ≡ spec.local_named (environment_of env.entry) name.now }
{
    match result_in(env.part, name) {
        Some(local) => Some(local),
        None => local_in(env.scopes, name),
    }
}

/// Whether a declared type is an interface.
pub fn is_interface(types: &DeclaredTypes, id: &TypeId) -> bool
    ensures { result ≡ has_sort scopes.is_interface_sort (found (declarations types.now) id.now) }
{
    match types.find(id) {
        Some(declared) => is_interface_sort(declared.sort),
        None => false,
    }
}

/// The type of `self`; an interface stands for all that have it.
pub fn type_of_self(
    alloc: Global,
    types: &DeclaredTypes,
    id: &TypeId,
) -> Result<CadType, AllocError>
    ensures { IfOk result (λ t. pure_type t ≡ spec.type_of_self (declarations types.now) id.now) }
{
    if is_interface(types, id) {
        let mut ids = TypeIds::new(alloc);
        ids.push(id.clone()?)?;
        Ok(CadType::Intersection(ids))
    } else {
        Ok(CadType::Declared(id.clone()?))
    }
}
