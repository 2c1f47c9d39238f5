// The results of built-in members.
ghost use Rattle.std.specs.Prelude.{◌≡◌, IfOk, List};
ghost use Rattle.cad_syntax.specs.Types.{PureType, pure_type};
ghost use Rattle.cad_syntax.specs.Types as types;
ghost use Rattle.cad_syntax.specs.declared.types.Authorization.TheVariants as rights;
ghost use Rattle.cad_syntax.specs.declared.types.Authorization.{Authorization as Rights};
ghost use Rattle.cad_types.specs.Declarations.{Declaration};
ghost use Rattle.cad_types.specs.Views.{declarations};
ghost use Rattle.cad_declarations.specs.Builtins as spec;
ghost use Rattle.cad_builtins.specs.Code.Forms as forms;

use crate::entitlements::built_in;
use crate::forms::{ResultForm, TypeForm, type_by};
use cad_syntax::{Authorization, Basic, CadType, Kind, TypeIds};
use cad_types::{Builtin, DeclaredTypes};
use std::alloc::{AllocError, Global};

/// The result of a built-in member, by what the reference grants through which it is met, the type on which it stands, and
/// its type argument. The parts of an account carry the account's authorization.
pub fn result_of(
    alloc: Global,
    types: &DeclaredTypes,
    grant: &Authorization,
    on: &CadType,
    argument: &CadType,
    member: Builtin,
) -> Result<CadType, AllocError>
    ensures { IfOk result (λ t. pure_type t ≡ spec.result_of (declarations types.now) grant.now (pure_type on.now) (pure_type argument.now) member) }
{
    result_by(alloc, types, grant, on, argument, result_form(member))
}

/// The form of the result of a built-in member.
fn result_form(member: Builtin) -> ResultForm
    ensures { (d : List Declaration) → (grant : Rights) → (on t : PureType) → forms.result_by d grant on t result ≡ spec.result_of d grant on t member }
{
    match member {
        Builtin::ArrayLength | Builtin::DictionaryLength | Builtin::StringLength =>
            ResultForm::Bare(TypeForm::Plain(Basic::Number(Kind::Int))),
        Builtin::ArrayContains
        | Builtin::DictionaryContainsKey
        | Builtin::IsInstance
        | Builtin::StorageCheck
        | Builtin::CapabilitiesExists
        | Builtin::CapabilityCheck => ResultForm::Bare(TypeForm::Plain(Basic::Bool)),
        Builtin::ArrayFirstIndex => ResultForm::Optional(TypeForm::Plain(Basic::Number(Kind::Int))),
        Builtin::ArrayConcat
        | Builtin::ArraySlice
        | Builtin::ArrayReverse
        | Builtin::SaturatingAdd
        | Builtin::SaturatingSubtract
        | Builtin::SaturatingMultiply
        | Builtin::SaturatingDivide => ResultForm::Bare(TypeForm::On),
        Builtin::ArrayRemove | Builtin::ArrayRemoveFirst | Builtin::ArrayRemoveLast =>
            ResultForm::Bare(TypeForm::Element),
        Builtin::DictionaryKeys => ResultForm::ArrayOf(TypeForm::Key),
        Builtin::DictionaryValues => ResultForm::ArrayOf(TypeForm::Value),
        Builtin::DictionaryInsert | Builtin::DictionaryRemove => ResultForm::Optional(
            TypeForm::Value,
        ),
        Builtin::StringUtf8
        | Builtin::StringDecodeHex
        | Builtin::NumberToBigEndianBytes
        | Builtin::AddressToBytes => ResultForm::Bare(TypeForm::Bytes),
        Builtin::StringConcat
        | Builtin::StringSlice
        | Builtin::StringEncodeHex
        | Builtin::CharacterToString
        | Builtin::NumberToString
        | Builtin::AddressToString
        | Builtin::TypeIdentifier
        | Builtin::ControllerTag => ResultForm::Bare(TypeForm::Plain(Basic::String)),
        Builtin::StringFromUtf8 => ResultForm::Optional(TypeForm::Plain(Basic::String)),
        Builtin::NumberConvert(kind) | Builtin::NumberMin(kind) | Builtin::NumberMax(kind) =>
            ResultForm::Bare(TypeForm::Plain(Basic::Number(kind))),
        Builtin::NumberFromString(kind) => ResultForm::Optional(TypeForm::Plain(Basic::Number(
            kind,
        ))),
        Builtin::GetType | Builtin::ControllerBorrowType | Builtin::MetaType => ResultForm::Bare(
            TypeForm::Plain(Basic::Meta),
        ),
        Builtin::EnumRawValue => ResultForm::Bare(TypeForm::Raw),
        Builtin::EnumFromRawValue => ResultForm::Optional(TypeForm::On),
        Builtin::AccountAddress | Builtin::CapabilityAddress => ResultForm::Bare(TypeForm::Plain(
            Basic::Number(Kind::Address),
        )),
        Builtin::AccountStorage => ResultForm::Granted(Basic::AccountStorage),
        Builtin::AccountContracts => ResultForm::Granted(Basic::AccountContracts),
        Builtin::AccountCapabilities => ResultForm::Granted(Basic::AccountCapabilities),
        Builtin::CapabilitiesStorage => ResultForm::Granted(Basic::AccountStorageCapabilities),
        Builtin::StorageLoad
        | Builtin::StorageCopy
        | Builtin::StorageBorrow
        | Builtin::CapabilitiesBorrow => ResultForm::Optional(TypeForm::Argument),
        Builtin::StorageType => ResultForm::Optional(TypeForm::Plain(Basic::Meta)),
        Builtin::CapabilitiesGet | Builtin::StorageCapabilitiesIssue => ResultForm::CapabilityOf(
            TypeForm::Argument,
        ),
        Builtin::CapabilitiesUnpublish => ResultForm::Optional(TypeForm::Capability),
        Builtin::StorageCapabilitiesGetController => ResultForm::OptionalFree(
            Basic::StorageCapabilityController,
        ),
        Builtin::ResourceOwner => ResultForm::OptionalFree(Basic::Account),
        Builtin::ControllerCapabilityId | Builtin::CapabilityId | Builtin::ResourceUuid =>
            ResultForm::Bare(TypeForm::Plain(Basic::Number(Kind::UInt64))),
        Builtin::ControllerTarget => ResultForm::Bare(TypeForm::Plain(Basic::StoragePath)),
        Builtin::CapabilityBorrow => ResultForm::Optional(TypeForm::Lent),
        Builtin::ContractAccount => ResultForm::OwnAccount,
        Builtin::Panic => ResultForm::Bare(TypeForm::Plain(Basic::Never)),
        Builtin::GetAccount => ResultForm::Free(Basic::Account),
        _ => ResultForm::Bare(TypeForm::Plain(Basic::Void)),
    }
}

/// The type of a result.
fn result_by(
    alloc: Global,
    types: &DeclaredTypes,
    grant: &Authorization,
    on: &CadType,
    argument: &CadType,
    form: ResultForm,
) -> Result<CadType, AllocError>
    ensures { IfOk result (λ t. pure_type t ≡ forms.result_by (declarations types.now) grant.now (pure_type on.now) (pure_type argument.now) form) }
{
    match form {
        ResultForm::Bare(form) => type_by(alloc, types, on, argument, form),
        ResultForm::Optional(form) => optional(alloc, type_by(alloc, types, on, argument, form)?),
        ResultForm::ArrayOf(form) => {
            let element = type_by(alloc, types, on, argument, form)?;
            Ok(CadType::Array(Box::new(alloc, element)?))
        }
        ResultForm::CapabilityOf(form) => {
            let lent = type_by(alloc, types, on, argument, form)?;
            Ok(CadType::CapabilityOf(Box::new(alloc, lent)?))
        }
        ResultForm::Granted(basic) => reference(alloc, grant.clone()?, basic),
        ResultForm::Free(basic) => reference(alloc, Authorization::Unauthorized, basic),
        ResultForm::OptionalFree(basic) => optional_free(alloc, basic),
        ResultForm::OwnAccount => own_account(alloc),
    }
}

fn optional(alloc: Global, content: CadType) -> Result<CadType, AllocError>
    ensures { IfOk result (λ t. pure_type t ≡ types.optional (pure_type content)) }
{
    Ok(CadType::Optional(Box::new(alloc, content)?))
}

fn reference(
    alloc: Global,
    authorization: Authorization,
    target: Basic,
) -> Result<CadType, AllocError>
    ensures { IfOk result (λ t. pure_type t ≡ types.reference authorization (types.basic target)) }
{
    let target = Box::new(alloc, CadType::Basic(target))?;
    Ok(CadType::Reference(authorization, target))
}

fn optional_free(alloc: Global, target: Basic) -> Result<CadType, AllocError>
    ensures { IfOk result (λ t. pure_type t ≡ types.optional (types.reference rights.Unauthorized (types.basic target))) }
{
    let free = reference(alloc, Authorization::Unauthorized, target)?;
    optional(alloc, free)
}

/// The type of the reference with which a contract meets its account: all that it may do there.
pub fn own_account(alloc: Global) -> Result<CadType, AllocError>
    ensures { IfOk result (λ t. pure_type t ≡ spec.own_account) }
{
    let mut all = TypeIds::new(alloc);
    all.push(built_in(alloc, "Storage")?)?;
    all.push(built_in(alloc, "Contracts")?)?;
    all.push(built_in(alloc, "Keys")?)?;
    all.push(built_in(alloc, "Inbox")?)?;
    all.push(built_in(alloc, "Capabilities")?)?;
    reference(alloc, Authorization::All(all), Basic::Account)
}
