// The forms of types and values, each with a byte of its own.
ghost use Rattle.std.specs.Prelude.{◌≡◌, slice_get};
ghost use Rattle.cad_codec.specs.Code.Types.{type_forms};
ghost use Rattle.cad_codec.specs.Code.Values.{value_forms};

/// The form of a type.
#[derive(Clone, Copy, Debug, PartialEq, Eq)]
pub enum TypeForm {
    Basic,
    Optional,
    Array,
    Dictionary,
    Declared,
    Intersection,
    Reference,
    CapabilityOf,
    Capability,
}

/// The form of a value.
#[derive(Clone, Copy, Debug, PartialEq, Eq)]
pub enum ValueForm {
    Void,
    Nil,
    Some,
    Bool,
    Number,
    String,
    Character,
    Address,
    Path,
    Meta,
    Capability,
    Array,
    Dictionary,
    Composite,
}

/// The form of types with this byte. None where there is none.
pub fn type_form(byte: u8) -> Option<TypeForm>
    ensures { result ≡ slice_get type_forms byte }
{
    Some(match byte {
        0 => TypeForm::Basic,
        1 => TypeForm::Optional,
        2 => TypeForm::Array,
        3 => TypeForm::Dictionary,
        4 => TypeForm::Declared,
        5 => TypeForm::Intersection,
        6 => TypeForm::Reference,
        7 => TypeForm::CapabilityOf,
        8 => TypeForm::Capability,
        _ => return None,
    })
}

/// The form of values with this byte. None where there is none.
pub fn value_form(byte: u8) -> Option<ValueForm>
    ensures { result ≡ slice_get value_forms byte }
{
    Some(match byte {
        0 => ValueForm::Void,
        1 => ValueForm::Nil,
        2 => ValueForm::Some,
        3 => ValueForm::Bool,
        4 => ValueForm::Number,
        5 => ValueForm::String,
        6 => ValueForm::Character,
        7 => ValueForm::Address,
        8 => ValueForm::Path,
        9 => ValueForm::Meta,
        10 => ValueForm::Capability,
        11 => ValueForm::Array,
        12 => ValueForm::Dictionary,
        13 => ValueForm::Composite,
        _ => return None,
    })
}
