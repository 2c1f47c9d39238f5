// What the members of accounts, storage, capabilities and controllers are used on, and what they do there.
ghost use Rattle.std.specs.Prelude.{◌≡◌};
ghost use Rattle.cad_services.specs.Code.Groups as spec;

use cad_syntax::Basic;
use cad_types::Builtin;

/// A member of storage that asks for a type.
#[derive(Clone, Copy, Debug, PartialEq, Eq)]
pub(crate) enum StoredMember {
    Load,
    Copy,
    Borrow,
    Check,
}

/// A member of storage.
#[derive(Clone, Copy, Debug, PartialEq, Eq)]
pub(crate) enum StorageMember {
    Save,
    /// The type of what is stored.
    TypeOf,
    Typed(StoredMember),
}

/// A member of capabilities that asks for a type.
#[derive(Clone, Copy, Debug, PartialEq, Eq)]
pub(crate) enum LentMember {
    Get,
    Borrow,
    Issue,
}

/// A member of the capabilities of an account, or of those of its storage.
#[derive(Clone, Copy, Debug, PartialEq, Eq)]
pub(crate) enum CapabilitiesMember {
    Exists,
    Publish,
    Unpublish,
    GetController,
    Typed(LentMember),
}

/// A member that asks for the address of an account.
#[derive(Clone, Copy, Debug, PartialEq, Eq)]
pub(crate) enum Held {
    Storage(StorageMember),
    Capabilities(CapabilitiesMember),
}

/// A member of a controller.
#[derive(Clone, Copy, Debug, PartialEq, Eq)]
pub(crate) enum ControllerMember {
    Number,
    BorrowType,
    Tag,
    SetTag,
    Target,
    Retarget,
    Delete,
}

/// A member of a capability.
#[derive(Clone, Copy, Debug, PartialEq, Eq)]
pub(crate) enum ValueMember {
    Number,
    Home,
    Borrow,
    Check,
}

/// A built-in member, by what it is used on.
#[derive(Clone, Copy, Debug, PartialEq, Eq)]
pub(crate) enum Group {
    /// What wants calls, and what is no service.
    Later,
    /// The address of an account.
    Address,
    /// A part of an account, or of a part of one.
    Part { whole: Basic, part: Basic },
    Held(Held),
    Controller(ControllerMember),
    Value(ValueMember),
}

/// The part of an account that a member of capabilities is used on.
fn part_of_capabilities(member: CapabilitiesMember) -> Basic
    ensures { result ≡ spec.part_of_capabilities member }
{
    match member {
        CapabilitiesMember::GetController | CapabilitiesMember::Typed(LentMember::Issue) => {
            Basic::AccountStorageCapabilities
        }
        _ => Basic::AccountCapabilities,
    }
}

/// The part of an account that a member is used on.
pub(crate) fn part_of(held: Held) -> Basic
    ensures { result ≡ spec.part_of held }
{
    match held {
        Held::Storage(_) => Basic::AccountStorage,
        Held::Capabilities(member) => part_of_capabilities(member),
    }
}

/// A part of an account.
fn of_account(part: Basic) -> Group
    ensures { result ≡ spec.of_account part }
{
    Group::Part {
        whole: Basic::Account,
        part,
    }
}

/// A member of storage that asks for a type, as what it is used on.
fn stored(member: StoredMember) -> Group
    ensures { result ≡ spec.stored member }
{
    Group::Held(Held::Storage(StorageMember::Typed(member)))
}

/// What a member of accounts or storage is used on.
fn account_group(builtin: Builtin) -> Group
    ensures { result ≡ spec.account_group builtin }
{
    match builtin {
        Builtin::AccountAddress => Group::Address,
        Builtin::AccountStorage => of_account(Basic::AccountStorage),
        Builtin::AccountContracts => of_account(Basic::AccountContracts),
        Builtin::AccountCapabilities => of_account(Basic::AccountCapabilities),
        Builtin::StorageSave => Group::Held(Held::Storage(StorageMember::Save)),
        Builtin::StorageLoad => stored(StoredMember::Load),
        Builtin::StorageCopy => stored(StoredMember::Copy),
        Builtin::StorageBorrow => stored(StoredMember::Borrow),
        Builtin::StorageCheck => stored(StoredMember::Check),
        Builtin::StorageType => Group::Held(Held::Storage(StorageMember::TypeOf)),
        _ => Group::Later,
    }
}

/// A member of capabilities, as what it is used on.
fn of_capabilities(member: CapabilitiesMember) -> Group
    ensures { result ≡ spec.of_capabilities member }
{
    Group::Held(Held::Capabilities(member))
}

/// What a member of the capabilities of an account is used on.
fn capabilities_group(builtin: Builtin) -> Group
    ensures { result ≡ spec.capabilities_group builtin }
{
    match builtin {
        Builtin::CapabilitiesGet => of_capabilities(CapabilitiesMember::Typed(LentMember::Get)),
        Builtin::CapabilitiesBorrow => of_capabilities(CapabilitiesMember::Typed(
            LentMember::Borrow,
        )),
        Builtin::CapabilitiesExists => of_capabilities(CapabilitiesMember::Exists),
        Builtin::CapabilitiesPublish => of_capabilities(CapabilitiesMember::Publish),
        Builtin::CapabilitiesUnpublish => of_capabilities(CapabilitiesMember::Unpublish),
        Builtin::CapabilitiesStorage => Group::Part {
            whole: Basic::AccountCapabilities,
            part: Basic::AccountStorageCapabilities,
        },
        Builtin::StorageCapabilitiesIssue => of_capabilities(CapabilitiesMember::Typed(
            LentMember::Issue,
        )),
        Builtin::StorageCapabilitiesGetController => of_capabilities(
            CapabilitiesMember::GetController,
        ),
        other => account_group(other),
    }
}

/// What a member of accounts, storage, capabilities or controllers is used on.
pub(crate) fn group_of(builtin: Builtin) -> Group
    ensures { result ≡ spec.group builtin }
{
    match builtin {
        Builtin::ControllerCapabilityId => Group::Controller(ControllerMember::Number),
        Builtin::ControllerBorrowType => Group::Controller(ControllerMember::BorrowType),
        Builtin::ControllerTag => Group::Controller(ControllerMember::Tag),
        Builtin::ControllerSetTag => Group::Controller(ControllerMember::SetTag),
        Builtin::ControllerTarget => Group::Controller(ControllerMember::Target),
        Builtin::ControllerRetarget => Group::Controller(ControllerMember::Retarget),
        Builtin::ControllerDelete => Group::Controller(ControllerMember::Delete),
        Builtin::CapabilityId => Group::Value(ValueMember::Number),
        Builtin::CapabilityAddress => Group::Value(ValueMember::Home),
        Builtin::CapabilityBorrow => Group::Value(ValueMember::Borrow),
        Builtin::CapabilityCheck => Group::Value(ValueMember::Check),
        other => capabilities_group(other),
    }
}
