// Types of parameters and results, by the type on which a member stands and its type argument.
ghost use Rattle.std.specs.Prelude.{◌≡◌, IfOk, map};
ghost use Rattle.cad_syntax.specs.Types.{pure_type};
ghost use Rattle.cad_types.specs.Classes.{fields_in};
ghost use Rattle.cad_types.specs.Declarations.{found};
ghost use Rattle.cad_types.specs.Views.{declarations};
ghost use Rattle.cad_declarations.specs.Builtins as spec;
ghost use Rattle.cad_builtins.specs.Code.Forms as forms;

use cad_syntax::{Basic, CadType, Kind, TypeId};
use cad_types::DeclaredTypes;
use std::alloc::{AllocError, Global};

/// A type, by the type on which a member stands and its type argument.
#[derive(Clone, Copy)]
pub(crate) enum TypeForm {
    Plain(Basic),
    /// An array of bytes.
    Bytes,
    /// The type on which the member stands, its elements, keys, values, the type of its raw values, and what it lends.
    On,
    Element,
    Key,
    Value,
    Raw,
    Lent,
    /// The type argument.
    Argument,
    Capability,
}

/// The result of a member.
#[derive(Clone, Copy)]
pub(crate) enum ResultForm {
    Bare(TypeForm),
    Optional(TypeForm),
    ArrayOf(TypeForm),
    CapabilityOf(TypeForm),
    /// A reference that grants what the one grants through which the member is met.
    Granted(Basic),
    /// A reference that grants nothing, and an optional of it.
    Free(Basic),
    OptionalFree(Basic),
    /// What a contract may do with its account.
    OwnAccount,
}

/// A parameter with its label.
#[derive(Clone, Copy)]
pub(crate) struct ParameterRow {
    pub label: Option<&'static str>,
    pub form: TypeForm,
}

/// The parameters of a member.
#[derive(Clone, Copy)]
pub(crate) enum ParameterRows {
    NoRow,
    /// One that takes any number.
    AnyNumberRow,
    One(ParameterRow),
    Two(ParameterRow, ParameterRow),
}

/// The type that a form is.
pub(crate) fn type_by(
    alloc: Global,
    types: &DeclaredTypes,
    on: &CadType,
    argument: &CadType,
    form: TypeForm,
) -> Result<CadType, AllocError>
    ensures { IfOk result (λ t. pure_type t ≡ forms.type_by (declarations types.now) (pure_type on.now) (pure_type argument.now) form) }
{
    match form {
        TypeForm::Plain(basic) => Ok(CadType::Basic(basic)),
        TypeForm::Bytes => bytes_type(alloc),
        TypeForm::On => on.clone(),
        TypeForm::Element => element_of(on).clone(),
        TypeForm::Key => key_of(on).clone(),
        TypeForm::Value => value_of(on).clone(),
        TypeForm::Raw => raw_of(types, on),
        TypeForm::Lent => lent_by(on).clone(),
        TypeForm::Argument => argument.clone(),
        TypeForm::Capability => Ok(CadType::Capability),
    }
}

fn bytes_type(alloc: Global) -> Result<CadType, AllocError>
    ensures { IfOk result (λ t. pure_type t ≡ spec.bytes_type) }
{
    let byte = CadType::Basic(Basic::Number(Kind::UInt8));
    Ok(CadType::Array(Box::new(alloc, byte)?))
}

/// The elements of an array.
fn element_of(on: &CadType) -> &CadType
    ensures { pure_type result.now ≡ spec.element_of (pure_type on.now) }
{
    match on {
        CadType::Array(element) => element,
        _ => on,
    }
}

/// The keys of a dictionary.
fn key_of(on: &CadType) -> &CadType
    ensures { pure_type result.now ≡ spec.key_of (pure_type on.now) }
{
    match on {
        CadType::Dictionary(key, _) => key,
        _ => on,
    }
}

/// The values of a dictionary.
fn value_of(on: &CadType) -> &CadType
    ensures { pure_type result.now ≡ spec.value_of (pure_type on.now) }
{
    match on {
        CadType::Dictionary(_, value) => value,
        _ => on,
    }
}

/// What a capability lends.
fn lent_by(on: &CadType) -> &CadType
    ensures { pure_type result.now ≡ spec.lent_by (pure_type on.now) }
{
    match on {
        CadType::CapabilityOf(lent) => lent,
        _ => on,
    }
}

/// The type of the raw values of an enum.
fn raw_of(types: &DeclaredTypes, on: &CadType) -> Result<CadType, AllocError>
    ensures { IfOk result (λ t. pure_type t ≡ spec.raw_of (declarations types.now) (pure_type on.now)) }
{
    match on {
        CadType::Declared(id) => first_field(types, id),
        _ => on.clone(),
    }
}

/// The type of the first field of a declared type, or Int.
fn first_field(types: &DeclaredTypes, id: &TypeId) -> Result<CadType, AllocError>
    ensures { IfOk result (λ t. pure_type t ≡ spec.first_or spec.int_type (fields_in (found (declarations types.now) id.now))) }
{
    match types.find(id) {
        Some(declared) => first_or_int(declared.fields.as_slice()),
        None => Ok(CadType::Basic(Basic::Number(Kind::Int))),
    }
}

fn first_or_int(fields: &[CadType]) -> Result<CadType, AllocError>
    ensures { IfOk result (λ t. pure_type t ≡ spec.first_or spec.int_type (map pure_type fields.now)) }
{
    match fields {
        [first, _others @ ..] => first.clone(),
        [] => Ok(CadType::Basic(Basic::Number(Kind::Int))),
    }
}
