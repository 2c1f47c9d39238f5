// Types.
ghost use Rattle.std.specs.Prelude.{◌≡◌, ◌≤◌, ◌↔◌, IsTrue, IfOk, SomeIff};
ghost use Rattle.cad_syntax.specs.Types as spec;

use crate::items::Items;
use crate::kind::Kind;
use crate::type_id::{TypeId, TypeIds, same_ids};
use std::alloc::{AllocError, Global};

/// A type that has a name of its own in the language. `Meta` is the type of types.
#[derive(Clone, Copy, Debug, PartialEq, Eq)]
pub enum Basic {
    Number(Kind),
    Void,
    Never,
    Bool,
    Character,
    String,
    Path,
    StoragePath,
    PublicPath,
    Meta,
    AnyStruct,
    AnyResource,
    Account,
    AccountStorage,
    AccountContracts,
    AccountCapabilities,
    AccountStorageCapabilities,
    StorageCapabilityController,
}

/// What a reference may do: nothing beyond what is free, what all of these entitlements serve, or what any one of them,
/// it isn't known which, serves.
#[derive(Debug, Drop, PartialEq, Eq)]
pub enum Authorization {
    Unauthorized,
    All(TypeIds),
    Any(TypeIds),
}

impl Clone for Authorization {
    ghost is_clone = { λ a copy. copy ≡ a };

    fn clone(&self) -> Result<Authorization, AllocError> {
        match self {
            Authorization::Unauthorized => Ok(Authorization::Unauthorized),
            Authorization::All(ids) => Ok(Authorization::All(ids.clone()?)),
            Authorization::Any(ids) => Ok(Authorization::Any(ids.clone()?)),
        }
    }
}

impl Authorization {
    /// Whether the two are one authorization.
    pub fn same(&self, other: &Authorization) -> bool
        ensures { IsTrue result ↔ (self.now ≡ other.now) }
    {
        match self {
            Authorization::Unauthorized => match other {
                Authorization::Unauthorized => true,
                _ => false,
            },
            Authorization::All(a) => match other {
                Authorization::All(b) => same_ids(a, b),
                _ => false,
            },
            Authorization::Any(a) => match other {
                Authorization::Any(b) => same_ids(a, b),
                _ => false,
            },
        }
    }
}

/// A type. A dictionary has the type of its keys and that of its values, a reference what it may do and its target, a
/// capability the type that it lends, if that is known.
#[derive(Debug, Drop, PartialEq, Eq)]
pub enum CadType {
    Basic(Basic),
    Optional(Box<CadType>),
    Array(Box<CadType>),
    Dictionary(Box<CadType>, Box<CadType>),
    Intersection(TypeIds),
    Declared(TypeId),
    Reference(Authorization, Box<CadType>),
    Capability,
    CapabilityOf(Box<CadType>),
}

pub type Types = Items<CadType>;

impl Clone for CadType {
    ghost is_clone = { λ t copy. spec.pure_type copy ≡ spec.pure_type t };

    fn clone(&self) -> Result<CadType, AllocError> {
        match self {
            CadType::Basic(basic) => Ok(CadType::Basic(*basic)),
            CadType::Optional(content) => Ok(CadType::Optional(boxed(
                content.as_ref().clone()?,
                content,
            )?)),
            CadType::Array(element) => Ok(CadType::Array(boxed(
                element.as_ref().clone()?,
                element,
            )?)),
            CadType::Dictionary(key, value) => {
                let key_copy = boxed(key.as_ref().clone()?, key)?;
                let value_copy = boxed(value.as_ref().clone()?, value)?;
                Ok(CadType::Dictionary(key_copy, value_copy))
            }
            CadType::Intersection(ids) => Ok(CadType::Intersection(ids.clone()?)),
            CadType::Declared(id) => Ok(CadType::Declared(id.clone()?)),
            CadType::Reference(authorization, target) => {
                let target_copy = boxed(target.as_ref().clone()?, target)?;
                Ok(CadType::Reference(authorization.clone()?, target_copy))
            }
            CadType::Capability => Ok(CadType::Capability),
            CadType::CapabilityOf(lent) => Ok(CadType::CapabilityOf(boxed(
                lent.as_ref().clone()?,
                lent,
            )?)),
        }
    }
}

/// A box of a type, with the allocator of another one.
fn boxed(t: CadType, like: &Box<CadType>) -> Result<Box<CadType>, AllocError>
    ensures { IfOk result (λ b. b.value ≡ t) }
{
    Ok(Box::new(*Box::allocator(like), t)?)
}

impl CadType {
    /// Whether the two are one type.
    pub fn same(&self, other: &CadType) -> bool
        ensures { IsTrue result ↔ (spec.pure_type self.now ≡ spec.pure_type other.now) }
    {
        match self {
            CadType::Basic(a) => match other {
                CadType::Basic(b) => a == b,
                _ => false,
            },
            CadType::Optional(a) => match other {
                CadType::Optional(b) => a.same(b),
                _ => false,
            },
            CadType::Array(a) => match other {
                CadType::Array(b) => a.same(b),
                _ => false,
            },
            CadType::Dictionary(key, value) => match other {
                CadType::Dictionary(other_key, other_value) => key.same(other_key)
                    && value.same(other_value),
                _ => false,
            },
            CadType::Intersection(a) => match other {
                CadType::Intersection(b) => same_ids(a, b),
                _ => false,
            },
            CadType::Declared(a) => match other {
                CadType::Declared(b) => a.same(b),
                _ => false,
            },
            CadType::Reference(a, target) => match other {
                CadType::Reference(b, other_target) => a.same(b) && target.same(other_target),
                _ => false,
            },
            CadType::Capability => matches!(other, CadType::Capability),
            CadType::CapabilityOf(a) => match other {
                CadType::CapabilityOf(b) => a.same(b),
                _ => false,
            },
        }
    }

    /// How deep the type nests: its optionals, arrays, dictionaries, references and capabilities, one inside the other.
    /// None exactly where that is more than `most`, and no more of them are looked into.
    pub fn nesting(&self, most: u32) -> Option<u32>
        ensures { SomeIff result (spec.nesting (spec.pure_type self.now) ≤ most) (spec.nesting (spec.pure_type self.now)) }
    {
        match self {
            CadType::Optional(part)
            | CadType::Array(part)
            | CadType::Reference(_, part)
            | CadType::CapabilityOf(part) => Some(part.nesting(most.checked_sub(1)?)? + 1),
            CadType::Dictionary(key, value) => {
                let inner = most.checked_sub(1)?;
                let deepest = key.nesting(inner)?.max(value.nesting(inner)?);
                Some(deepest + 1)
            }
            CadType::Basic(_)
            | CadType::Intersection(_)
            | CadType::Declared(_)
            | CadType::Capability => Some(0),
        }
    }
}
