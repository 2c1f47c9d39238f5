// The parameters of built-in members.
ghost use Rattle.std.specs.Prelude.{◌≡◌, IfOk, List};
ghost use Rattle.cad_syntax.specs.Types.{PureType, pure_type};
ghost use Rattle.cad_types.specs.Declarations.{Declaration};
ghost use Rattle.cad_types.specs.Views.{declarations};
ghost use Rattle.cad_declarations.specs.Builtins as spec;
ghost use Rattle.cad_builtins.specs.Code.Forms as forms;
ghost use Rattle.cad_builtins.specs.Views.{builtin_parameter_of, builtin_parameters_of};

use crate::forms::{ParameterRow, ParameterRows, TypeForm, type_by};
use cad_syntax::{Basic, CadType, Kind, Text};
use cad_types::{Builtin, DeclaredTypes};
use std::alloc::{AllocError, Global};

// Rows by their labels and types.
const ON: ParameterRow = ParameterRow {
    label: None,
    form: TypeForm::On,
};

const ELEMENT: ParameterRow = ParameterRow {
    label: None,
    form: TypeForm::Element,
};

const OF_ELEMENT: ParameterRow = ParameterRow {
    label: Some("of"),
    form: TypeForm::Element,
};

const KEY: ParameterRow = ParameterRow {
    label: None,
    form: TypeForm::Key,
};

const KEY_KEY: ParameterRow = ParameterRow {
    label: Some("key"),
    form: TypeForm::Key,
};

const VALUE: ParameterRow = ParameterRow {
    label: None,
    form: TypeForm::Value,
};

const RAW_VALUE: ParameterRow = ParameterRow {
    label: Some("rawValue"),
    form: TypeForm::Raw,
};

const ARGUMENT: ParameterRow = ParameterRow {
    label: None,
    form: TypeForm::Argument,
};

const CAPABILITY: ParameterRow = ParameterRow {
    label: None,
    form: TypeForm::Capability,
};

const AT_INT: ParameterRow = ParameterRow {
    label: Some("at"),
    form: TypeForm::Plain(Basic::Number(Kind::Int)),
};

const FROM_INT: ParameterRow = ParameterRow {
    label: Some("from"),
    form: TypeForm::Plain(Basic::Number(Kind::Int)),
};

const UP_TO_INT: ParameterRow = ParameterRow {
    label: Some("upTo"),
    form: TypeForm::Plain(Basic::Number(Kind::Int)),
};

const BYTES: ParameterRow = ParameterRow {
    label: None,
    form: TypeForm::Bytes,
};

const CODE_BYTES: ParameterRow = ParameterRow {
    label: Some("code"),
    form: TypeForm::Bytes,
};

const STRING: ParameterRow = ParameterRow {
    label: None,
    form: TypeForm::Plain(Basic::String),
};

const NAME_STRING: ParameterRow = ParameterRow {
    label: Some("name"),
    form: TypeForm::Plain(Basic::String),
};

const MESSAGE_STRING: ParameterRow = ParameterRow {
    label: Some("message"),
    form: TypeForm::Plain(Basic::String),
};

const BOOL: ParameterRow = ParameterRow {
    label: None,
    form: TypeForm::Plain(Basic::Bool),
};

const META: ParameterRow = ParameterRow {
    label: None,
    form: TypeForm::Plain(Basic::Meta),
};

const ANY_STRUCT: ParameterRow = ParameterRow {
    label: None,
    form: TypeForm::Plain(Basic::AnyStruct),
};

const ADDRESS: ParameterRow = ParameterRow {
    label: None,
    form: TypeForm::Plain(Basic::Number(Kind::Address)),
};

const BY_CAPABILITY_ID: ParameterRow = ParameterRow {
    label: Some("byCapabilityID"),
    form: TypeForm::Plain(Basic::Number(Kind::UInt64)),
};

const STORAGE_PATH: ParameterRow = ParameterRow {
    label: None,
    form: TypeForm::Plain(Basic::StoragePath),
};

const TO_STORAGE_PATH: ParameterRow = ParameterRow {
    label: Some("to"),
    form: TypeForm::Plain(Basic::StoragePath),
};

const FROM_STORAGE_PATH: ParameterRow = ParameterRow {
    label: Some("from"),
    form: TypeForm::Plain(Basic::StoragePath),
};

const AT_STORAGE_PATH: ParameterRow = ParameterRow {
    label: Some("at"),
    form: TypeForm::Plain(Basic::StoragePath),
};

const PUBLIC_PATH: ParameterRow = ParameterRow {
    label: None,
    form: TypeForm::Plain(Basic::PublicPath),
};

const AT_PUBLIC_PATH: ParameterRow = ParameterRow {
    label: Some("at"),
    form: TypeForm::Plain(Basic::PublicPath),
};

/// What may stand for a parameter: what fits a type, or any number, which isn't an address.
#[derive(Debug, Drop)]
pub enum ParameterForm {
    Fits(CadType),
    AnyNumber,
}

/// A parameter. Without a label an argument has none either.
#[derive(Debug, Drop)]
pub struct BuiltinParameter {
    pub label: Option<Text>,
    pub form: ParameterForm,
}

/// The parameters of a built-in member: two at most.
#[derive(Debug, Drop)]
pub enum BuiltinParameters {
    Nothing,
    One(BuiltinParameter),
    Two(BuiltinParameter, BuiltinParameter),
}

/// The parameters of a built-in member that is called, by the type on which it stands (of a reference, its target; of a
/// member of a type, that type) and its type argument.
pub fn parameters_of(
    alloc: Global,
    types: &DeclaredTypes,
    on: &CadType,
    argument: &CadType,
    member: Builtin,
) -> Result<BuiltinParameters, AllocError>
    ensures { IfOk result (λ ps. builtin_parameters_of ps ≡ spec.parameters_of (declarations types.now) (pure_type on.now) (pure_type argument.now) member) }
{
    parameters_by(alloc, types, on, argument, parameter_rows(member))
}

/// The parameters of these rows.
fn parameters_by(
    alloc: Global,
    types: &DeclaredTypes,
    on: &CadType,
    argument: &CadType,
    rows: ParameterRows,
) -> Result<BuiltinParameters, AllocError>
    ensures { IfOk result (λ ps. builtin_parameters_of ps ≡ forms.parameters_by (declarations types.now) (pure_type on.now) (pure_type argument.now) rows) }
{
    match rows {
        ParameterRows::NoRow => Ok(BuiltinParameters::Nothing),
        ParameterRows::AnyNumberRow => Ok(BuiltinParameters::One(any_number())),
        ParameterRows::One(first) => {
            let first = parameter_by(alloc, types, on, argument, first)?;
            Ok(BuiltinParameters::One(first))
        }
        ParameterRows::Two(first, second) => {
            let first = parameter_by(alloc, types, on, argument, first)?;
            let second = parameter_by(alloc, types, on, argument, second)?;
            Ok(BuiltinParameters::Two(first, second))
        }
    }
}

fn any_number() -> BuiltinParameter
    ensures { builtin_parameter_of result ≡ spec.any_number_parameter }
{
    BuiltinParameter {
        label: None,
        form: ParameterForm::AnyNumber,
    }
}

fn parameter_by(
    alloc: Global,
    types: &DeclaredTypes,
    on: &CadType,
    argument: &CadType,
    row: ParameterRow,
) -> Result<BuiltinParameter, AllocError>
    ensures { IfOk result (λ p. builtin_parameter_of p ≡ forms.parameter_by (declarations types.now) (pure_type on.now) (pure_type argument.now) row) }
{
    let wanted = type_by(alloc, types, on, argument, row.form)?;
    Ok(BuiltinParameter {
        label: label_by(alloc, row.label)?,
        form: ParameterForm::Fits(wanted),
    })
}

fn label_by(alloc: Global, label: Option<&str>) -> Result<Option<Text>, AllocError>
    ensures { IfOk result (λ text. text ≡ forms.label_of label.entry) }
{
    match label {
        Some(text) => Ok(Some(Text::from_str(alloc, text)?)),
        None => Ok(None),
    }
}

/// The rows of the parameters of a built-in member.
fn parameter_rows(member: Builtin) -> ParameterRows
    ensures { (d : List Declaration) → (on t : PureType) → forms.parameters_by d on t result ≡ spec.parameters_of d on t member }
{
    match member {
        Builtin::ArrayContains | Builtin::ArrayAppend => ParameterRows::One(ELEMENT),
        Builtin::ArrayFirstIndex => ParameterRows::One(OF_ELEMENT),
        Builtin::ArrayConcat
        | Builtin::ArrayAppendAll
        | Builtin::SaturatingAdd
        | Builtin::SaturatingSubtract
        | Builtin::SaturatingMultiply
        | Builtin::SaturatingDivide => ParameterRows::One(ON),
        Builtin::ArraySlice | Builtin::StringSlice => ParameterRows::Two(FROM_INT, UP_TO_INT),
        Builtin::ArrayInsert => ParameterRows::Two(AT_INT, ELEMENT),
        Builtin::ArrayRemove => ParameterRows::One(AT_INT),
        Builtin::DictionaryContainsKey => ParameterRows::One(KEY),
        Builtin::DictionaryInsert => ParameterRows::Two(KEY_KEY, VALUE),
        Builtin::DictionaryRemove => ParameterRows::One(KEY_KEY),
        Builtin::StringConcat
        | Builtin::NumberFromString(_)
        | Builtin::ControllerSetTag
        | Builtin::Panic => ParameterRows::One(STRING),
        Builtin::StringEncodeHex | Builtin::StringFromUtf8 => ParameterRows::One(BYTES),
        Builtin::NumberConvert(_) => ParameterRows::AnyNumberRow,
        Builtin::IsInstance => ParameterRows::One(META),
        Builtin::EnumFromRawValue => ParameterRows::One(RAW_VALUE),
        Builtin::StorageSave => ParameterRows::Two(ARGUMENT, TO_STORAGE_PATH),
        Builtin::StorageLoad
        | Builtin::StorageCopy
        | Builtin::StorageBorrow
        | Builtin::StorageCheck => ParameterRows::One(FROM_STORAGE_PATH),
        Builtin::StorageType => ParameterRows::One(AT_STORAGE_PATH),
        Builtin::ContractsAdd | Builtin::ContractsUpdate => ParameterRows::Two(
            NAME_STRING,
            CODE_BYTES,
        ),
        Builtin::CapabilitiesGet
        | Builtin::CapabilitiesBorrow
        | Builtin::CapabilitiesExists
        | Builtin::CapabilitiesUnpublish => ParameterRows::One(PUBLIC_PATH),
        Builtin::CapabilitiesPublish => ParameterRows::Two(CAPABILITY, AT_PUBLIC_PATH),
        Builtin::StorageCapabilitiesIssue | Builtin::ControllerRetarget => ParameterRows::One(
            STORAGE_PATH,
        ),
        Builtin::StorageCapabilitiesGetController => ParameterRows::One(BY_CAPABILITY_ID),
        Builtin::Assert => ParameterRows::Two(BOOL, MESSAGE_STRING),
        Builtin::Log => ParameterRows::One(ANY_STRUCT),
        Builtin::GetAccount => ParameterRows::One(ADDRESS),
        _ => ParameterRows::NoRow,
    }
}
