// What is asked of type arguments.
ghost use Rattle.std.specs.Prelude.{◌≡◌};
ghost use Rattle.cad_declarations.specs.Builtins as spec;
ghost use Rattle.cad_builtins.specs.Views.{rule_of};

use cad_types::Builtin;

/// What is asked of the type argument of a built-in member.
#[derive(Clone, Copy, Debug, PartialEq, Eq)]
pub enum TypeRule {
    /// There is none.
    NoType,
    AnyType,
    /// It is storable, and where it isn't written it is the first argument's type.
    SavedType,
    StorableType,
    /// Storable, and no resource type.
    CopiedType,
    ReferenceType,
}

/// What is asked of the type argument of a built-in member.
pub fn type_rule(member: Builtin) -> TypeRule
    ensures { rule_of result ≡ spec.type_rule member }
{
    match member {
        Builtin::StorageSave => TypeRule::SavedType,
        Builtin::StorageLoad => TypeRule::StorableType,
        Builtin::StorageCopy => TypeRule::CopiedType,
        Builtin::StorageCheck | Builtin::MetaType => TypeRule::AnyType,
        Builtin::StorageBorrow
        | Builtin::CapabilitiesGet
        | Builtin::CapabilitiesBorrow
        | Builtin::StorageCapabilitiesIssue => TypeRule::ReferenceType,
        _ => TypeRule::NoType,
    }
}
