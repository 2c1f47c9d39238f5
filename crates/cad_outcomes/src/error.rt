// The errors by which programs fail.
ghost use Rattle.std.specs.Prelude.{◌≡◌};
ghost use Rattle.cad_outcomes.specs.Outcomes.{error_number};

/// Why a program failed.
#[derive(Clone, Copy, Debug, PartialEq, Eq)]
pub enum RunError {
    /// A number is above the greatest of its kind.
    Overflow,
    /// A number is below the least of its kind.
    Underflow,
    /// A number is divided by 0.
    DivisionByZero,
    /// An array has no element there.
    IndexOutOfBounds,
    /// A slice doesn't lie in what it is of.
    SliceOutOfBounds,
    /// Nil where a content is forced.
    ForceNil,
    /// A value isn't of the type to which it is cast.
    CastFailed,
    /// A condition of a function or transaction doesn't hold.
    Condition,
    /// The program panics.
    Panic,
    /// An assertion doesn't hold.
    Assertion,
    /// Something is stored under the path.
    PathOccupied,
    /// What is stored is of another type.
    StoredTypeMismatch,
    /// What a reference led to is gone.
    ReferenceInvalid,
    /// Storage has no value of the type under the path of a reference.
    DereferenceFailed,
    /// What would be overwritten isn't nil.
    ForceAssignOccupied,
    /// A capability is published under the path.
    PublishOccupied,
    /// The capability is another account's, or of number 0.
    PublishForeign,
    /// The account has a contract of this name.
    ContractExists,
    /// A phase refuses the code of a contract.
    ContractRejected,
    /// The code isn't one contract of this name.
    ContractName,
    /// The account has no contract of this name.
    ContractMissing,
    /// A text isn't an even number of hexadecimal digits.
    InvalidHex,
    /// A text, a container or a value is too large.
    TooLarge,
    /// Too many calls are in progress.
    CallDepth,
    /// The arguments don't fit the initializer of a contract.
    ContractArguments,
    /// A contract may not be updated so.
    UpdateRefused,
    /// There is no address for a new account.
    AccountsSpent,
    /// There is no identity for a new resource.
    IdentitiesSpent,
    /// A value isn't of the container's own type.
    ElementType,
    /// The accounts would be too large.
    StoreFull,
    /// A reply that is kept would be too long.
    ReplyTooLong,
    /// A field that isn't set yet is used.
    ContractUnset,
    /// A value that can't be stored stands in an account.
    NotStorable,
    /// A value has no form outside.
    NotExportable,
    /// There is no number for a new controller.
    ControllersSpent,
}

impl RunError {
    /// The number by which replies name it.
    pub fn number(self) -> u16
        ensures { result ≡ error_number self }
    {
        match self {
            RunError::Overflow => 101,
            RunError::Underflow => 102,
            RunError::DivisionByZero => 103,
            RunError::IndexOutOfBounds => 104,
            RunError::SliceOutOfBounds => 105,
            RunError::ForceNil => 106,
            RunError::CastFailed => 107,
            RunError::Condition => 108,
            RunError::Panic => 109,
            RunError::Assertion => 110,
            RunError::PathOccupied => 111,
            RunError::StoredTypeMismatch => 112,
            RunError::ReferenceInvalid => 113,
            RunError::DereferenceFailed => 114,
            RunError::ForceAssignOccupied => 115,
            RunError::PublishOccupied => 116,
            RunError::PublishForeign => 117,
            RunError::ContractExists => 118,
            RunError::ContractRejected => 119,
            RunError::ContractName => 120,
            RunError::ContractMissing => 121,
            RunError::InvalidHex => 122,
            RunError::TooLarge => 123,
            RunError::CallDepth => 124,
            RunError::ContractArguments => 125,
            RunError::UpdateRefused => 126,
            RunError::AccountsSpent => 127,
            RunError::IdentitiesSpent => 128,
            RunError::ElementType => 129,
            RunError::StoreFull => 130,
            RunError::ReplyTooLong => 131,
            RunError::ContractUnset => 132,
            RunError::NotStorable => 133,
            RunError::NotExportable => 134,
            RunError::ControllersSpent => 135,
        }
    }
}
