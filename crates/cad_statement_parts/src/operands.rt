// What statements ask of the types of their parts.
ghost use Rattle.std.specs.Prelude.{◌≡◌, ◌&&◌, IfOk};
ghost use Rattle.cad_syntax.specs.Types.{pure_type, optional};
ghost use Rattle.cad_types.specs.Classes as class;
ghost use Rattle.cad_types.specs.Optionals as optionals;
ghost use Rattle.cad_types.specs.Views.{declarations};
ghost use Rattle.cad_declarations.specs.Formed as formed;
ghost use Rattle.cad_environment.specs.Views.{environment_of};
ghost use Rattle.cad_typing.specs.Environments.{kinds};
ghost use Rattle.cad_typing.specs.Operators as spec;
ghost use Rattle.cad_typing.specs.References as reference_spec;
ghost use Rattle.cad_typing.specs.StatementForms as statement_spec;

use cad_builtins::is_comparable;
use cad_declarations::boxed_type;
use cad_environment::{Environment, is_granted};
use cad_syntax::{Basic, CadType};
use cad_type_classes::{core_of, fits, is_below, is_never_type, is_optional_type, is_same_basic};
use cad_types::{DeclaredTypes, is_resource};
use std::alloc::{AllocError, Global};

/// Whether a type is Bool or Never.
pub fn is_test(t: &CadType) -> bool
    ensures { result ≡ spec.is_test (pure_type t.now) }
{
    is_never_type(t) || is_same_basic(t, &CadType::Basic(Basic::Bool))
}

/// Whether `==` compares values of two types: one is below the other, and both have `==`.
pub fn may_be_equal(types: &DeclaredTypes, t: &CadType, u: &CadType) -> bool
    ensures { result ≡ spec.may_be_equal (declarations types.now) (pure_type t.now) (pure_type u.now) }
{
    (is_below(types, t, u) || is_below(types, u, t))
        && (is_comparable(types, t) && is_comparable(types, u))
}

/// Whether both hold, or neither does.
fn is_same_truth(a: bool, b: bool) -> bool
    ensures { result ≡ formed.same_truth a b }
{
    if a { b } else { !b }
}

/// Whether a cast between two types gains no entitlements.
fn keeps_rights(t: &CadType, u: &CadType) -> bool
    ensures { result ≡ reference_spec.keeps_rights (pure_type t.now) (pure_type u.now) }
{
    match t {
        CadType::Reference(grant, _) => match u {
            CadType::Reference(need, _) => is_granted(Some(grant), need),
            _ => true,
        },
        _ => true,
    }
}

/// Whether a value of one type may be cast to another: both are resource types, or neither is, and it gains no entitlements.
pub fn may_be_cast(types: &DeclaredTypes, t: &CadType, u: &CadType) -> bool
    ensures { result ≡ reference_spec.may_be_cast (declarations types.now) (pure_type t.now) (pure_type u.now) }
{
    is_same_truth(is_resource(types, t), is_resource(types, u))
        && keeps_rights(core_of(t), core_of(u))
}

/// Whether a value of a type may be switched on: `==` compares it, or it is an optional, and it is no resource.
pub fn may_be_switched(env: Environment<'_>, t: &CadType) -> bool
    ensures { result ≡ statement_spec.may_be_switched (environment_of env.entry) (pure_type t.now) }
{
    !env.is_resource(t) && (is_comparable(env.kinds(), t) || is_optional_type(t))
}

/// Whether what stands in each of two places fits the other.
pub fn fit_each_other(env: Environment<'_>, t: &CadType, u: &CadType) -> bool
    ensures { result ≡ (optionals.fits (kinds (environment_of env.entry)) (pure_type t.now) (pure_type u.now) && optionals.fits (kinds (environment_of env.entry)) (pure_type u.now) (pure_type t.now)) }
{
    fits(env.kinds(), t, u) && fits(env.kinds(), u, t)
}

/// Whether a type is Void.
pub fn is_void(t: &CadType) -> bool
    ensures { result ≡ class.is_void (pure_type t.now) }
{
    match t {
        CadType::Basic(basic) => matches!(basic, Basic::Void),
        _ => false,
    }
}

/// An optional of a type.
pub fn optional_of(alloc: Global, t: &CadType) -> Result<CadType, AllocError>
    ensures { IfOk result (λ made. pure_type made ≡ optional (pure_type t.now)) }
{
    Ok(CadType::Optional(boxed_type(alloc, t.clone()?)?))
}
