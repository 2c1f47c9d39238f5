// Written types.
ghost use Rattle.std.specs.Prelude.{◌≡◌, Some, IfOk, option_map, option_and_then, option_copied, map, []};
ghost use Rattle.cad_syntax.specs.Types.{pure_type};
ghost use Rattle.cad_grammar.specs.Views.{type_of, annotation_of};
ghost use Rattle.cad_syntax.specs.Types as types;
ghost use Rattle.cad_grammar.specs.Trees.{annotations_of};
ghost use Rattle.cad_declarations.specs.Scopes as spec;
ghost use Rattle.cad_scopes.specs.Views.{scope_of, meaning_view};

use crate::names::Meaning;
use crate::resolve::{each_interface, resolved_entitlements};
use crate::scope::{Scope, meaning};
use cad_declarations::is_interface_sort;
use cad_grammar::{Entitlements, TypeAnnotation, TypeExpr};
use cad_syntax::{Authorization, CadType, Name, TypeId, TypeIds};
use cad_types::Sort;
use std::alloc::{AllocError, Global};

/// How deep a written type may nest.
const DEEPEST: u32 = 128;

/// What a written type is; None where one of its names isn't there, or it nests more than 128 deep, as none does in a program
/// that is read. Whether it is rightly formed is another question.
pub fn resolved_type(
    alloc: Global,
    scope: Scope<'_>,
    written: &TypeExpr,
) -> Result<Option<CadType>, AllocError>
    ensures { IfOk result (λ t. option_map pure_type t ≡ spec.resolved_type (scope_of scope.entry) (type_of written.now)) }
{
    match written_type(written, alloc, scope)? {
        Some(found) => Ok(if_shallow(found)),
        None => Ok(None),
    }
}

fn if_shallow(found: CadType) -> Option<CadType>
    ensures { option_map pure_type result ≡ spec.if_shallow (pure_type found) }
{
    match found.nesting(DEEPEST) {
        Some(_) => Some(found),
        None => {
            drop(found);
            None
        }
    }
}

/// The type that is written, if each of its names is there.
#[cycle(types)]
fn written_type(
    written: &TypeExpr,
    alloc: Global,
    scope: Scope<'_>,
) -> Result<Option<CadType>, AllocError>
    ensures { IfOk result (λ t. option_map pure_type t ≡ spec.written_type (scope_of scope.entry) (type_of written.now)) }
{
    match written {
        TypeExpr::Named { name, arguments } => {
            let arguments = written_arguments(arguments.as_slice(), alloc, scope)?;
            named(alloc, scope, name.as_slice(), arguments)
        }
        TypeExpr::Reference {
            authorization,
            target,
        } => {
            let target = written_type(target, alloc, scope)?;
            referenced(alloc, scope, authorization.as_ref(), target)
        }
        TypeExpr::Array(element) => {
            let element = written_type(element, alloc, scope)?;
            array_of(alloc, element)
        }
        TypeExpr::Dictionary(key, value) => {
            let key = written_type(key, alloc, scope)?;
            let value = written_type(value, alloc, scope)?;
            dictionary_of(alloc, key, value)
        }
        TypeExpr::Intersection(all) => {
            let ids = each_interface(alloc, scope, all.as_slice())?;
            Ok(intersection_of(ids))
        }
        TypeExpr::Optional(content) => {
            let content = written_type(content, alloc, scope)?;
            optional_of(alloc, content)
        }
    }
}

fn array_of(alloc: Global, element: Option<CadType>) -> Result<Option<CadType>, AllocError>
    ensures { IfOk result (λ t. option_map pure_type t ≡ option_map types.array (option_map pure_type element)) }
{
    match element {
        Some(element) => Ok(Some(CadType::Array(Box::new(alloc, element)?))),
        None => Ok(None),
    }
}

fn optional_of(alloc: Global, content: Option<CadType>) -> Result<Option<CadType>, AllocError>
    ensures { IfOk result (λ t. option_map pure_type t ≡ option_map types.optional (option_map pure_type content)) }
{
    match content {
        Some(content) => Ok(Some(CadType::Optional(Box::new(alloc, content)?))),
        None => Ok(None),
    }
}

fn intersection_of(ids: Option<TypeIds>) -> Option<CadType>
    ensures { option_map pure_type result ≡ option_map types.intersection ids }
{
    match ids {
        Some(ids) => Some(CadType::Intersection(ids)),
        None => None,
    }
}

/// The type of dictionaries from keys to values of these types.
fn boxed_dictionary(alloc: Global, key: CadType, value: CadType) -> Result<CadType, AllocError>
    ensures { IfOk result (λ t. pure_type t ≡ types.dictionary (pure_type key) (pure_type value)) }
{
    match Box::new(alloc, key) {
        Ok(key) => {
            let value = Box::new(alloc, value)?;
            Ok(CadType::Dictionary(key, value))
        }
        Err(refused) => {
            drop(refused.value);
            drop(value);
            Err(AllocError)
        }
    }
}

fn dictionary_of(
    alloc: Global,
    key: Option<CadType>,
    value: Option<CadType>,
) -> Result<Option<CadType>, AllocError>
    ensures { IfOk result (λ t. option_map pure_type t ≡ spec.option_both types.dictionary (option_map pure_type key) (option_map pure_type value)) }
{
    match key {
        Some(key) => match value {
            Some(value) => Ok(Some(boxed_dictionary(alloc, key, value)?)),
            None => {
                drop(key);
                Ok(None)
            }
        },
        None => {
            drop(value);
            Ok(None)
        }
    }
}

/// `&T`, `auth(E) &T`
fn referenced(
    alloc: Global,
    scope: Scope<'_>,
    entitlements: Option<&Entitlements>,
    target: Option<CadType>,
) -> Result<Option<CadType>, AllocError>
    ensures { IfOk result (λ t. option_map pure_type t ≡ spec.option_both types.reference (spec.resolved_authorization (scope_of scope.entry) (option_copied entitlements.entry)) (option_map pure_type target)) }
{
    match resolved_authorization(alloc, scope, entitlements) {
        Ok(Some(authorization)) => reference_to(alloc, authorization, target),
        Ok(None) => {
            drop(target);
            Ok(None)
        }
        Err(error) => {
            drop(target);
            Err(error)
        }
    }
}

fn reference_to(
    alloc: Global,
    authorization: Authorization,
    target: Option<CadType>,
) -> Result<Option<CadType>, AllocError>
    ensures { IfOk result (λ t. option_map pure_type t ≡ option_map (types.reference authorization) (option_map pure_type target)) }
{
    match target {
        Some(target) => {
            let target = Box::new(alloc, target)?;
            Ok(Some(CadType::Reference(authorization, target)))
        }
        None => Ok(None),
    }
}

/// `T`, `A.T`, `Capability<T>`
fn named(
    alloc: Global,
    scope: Scope<'_>,
    names: &[Name],
    arguments: Option<Vec<CadType>>,
) -> Result<Option<CadType>, AllocError>
    ensures { IfOk result (λ t. option_map pure_type t ≡ option_and_then (spec.named_type (spec.meaning (scope_of scope.entry) names.now)) (option_map (λ v. map pure_type v.items) arguments)) }
{
    match arguments {
        Some(arguments) => match meaning(alloc, scope, names)? {
            Some(found) => named_type(alloc, found, arguments),
            None => Ok(None),
        },
        None => Ok(None),
    }
}

/// Type arguments.
#[cycle(types)]
#[tactic(auto, using(crate::proofs::Each::goes_on))]
fn written_arguments(
    arguments: &[TypeAnnotation],
    alloc: Global,
    scope: Scope<'_>,
) -> Result<Option<Vec<CadType>>, AllocError>
    ensures { IfOk result (λ all. option_map (λ v. map pure_type v.items) all ≡ spec.written_types (scope_of scope.entry) (annotations_of (map annotation_of arguments.now))) }
{
    let mut all = Vec::new(alloc);
    for argument in arguments {
        match written_type(&argument.written, alloc, scope)? {
            Some(found) => all.push(found)?,
            None => return Ok(None),
        }
    }
    Ok(Some(all))
}

/// The type that a name stands for, with its type arguments.
fn named_type(
    alloc: Global,
    found: Meaning,
    arguments: Vec<CadType>,
) -> Result<Option<CadType>, AllocError>
    ensures { IfOk result (λ t. option_map pure_type t ≡ spec.named_type (Some (meaning_view found)) (map pure_type arguments.items)) }
{
    match found {
        Meaning::Basic(basic) => Ok(Some(CadType::Basic(basic))),
        Meaning::Capability => Ok(Some(capability_type(alloc, arguments)?)),
        Meaning::Type(id, sort) => Ok(declared_type(id, sort)),
        _ => Ok(None),
    }
}

/// A declared type that isn't an interface.
fn declared_type(id: TypeId, sort: Sort) -> Option<CadType>
    ensures { option_map pure_type result ≡ spec.named_type (Some (spec.type_meaning id sort)) [] }
{
    if is_interface_sort(sort) {
        None
    } else {
        Some(CadType::Declared(id))
    }
}

/// `Capability`, or that of the first type argument.
fn capability_type(alloc: Global, arguments: Vec<CadType>) -> Result<CadType, AllocError>
    ensures { IfOk result (λ t. pure_type t ≡ spec.capability_type (map pure_type arguments.items)) }
{
    match arguments.into_iter().next() {
        Some(lent) => Ok(CadType::CapabilityOf(Box::new(alloc, lent)?)),
        None => Ok(CadType::Capability),
    }
}

fn resolved_authorization(
    alloc: Global,
    scope: Scope<'_>,
    entitlements: Option<&Entitlements>,
) -> Result<Option<Authorization>, AllocError>
    ensures { IfOk result (λ a. a ≡ spec.resolved_authorization (scope_of scope.entry) (option_copied entitlements.entry)) }
{
    match entitlements {
        Some(all) => resolved_entitlements(alloc, scope, all),
        None => Ok(Some(Authorization::Unauthorized)),
    }
}
