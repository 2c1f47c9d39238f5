// The forms of values that are read, each with a word.
ghost use Rattle.std.specs.Prelude.{◌≡◌};
ghost use Rattle.cad_json_read.specs.Forms as spec;

use cad_syntax::Kind;

/// The form of a value.
#[derive(Clone, Copy, Debug, PartialEq, Eq)]
pub enum Form {
    String,
    Optional,
    Array,
    Struct,
    Bool,
    Address,
    Character,
    Dictionary,
    Path,
    Enum,
    Number(Kind),
}

/// The form with a word, but for those of numbers.
fn part_form(text: &str) -> Option<Form>
    ensures { result ≡ spec.found_in spec.part_forms text.now }
{
    if text == "String" {
        return Some(Form::String);
    }
    if text == "Optional" {
        return Some(Form::Optional);
    }
    if text == "Array" {
        return Some(Form::Array);
    }
    if text == "Struct" {
        return Some(Form::Struct);
    }
    if text == "Bool" {
        return Some(Form::Bool);
    }
    if text == "Address" {
        return Some(Form::Address);
    }
    if text == "Character" {
        return Some(Form::Character);
    }
    if text == "Dictionary" {
        return Some(Form::Dictionary);
    }
    if text == "Path" {
        return Some(Form::Path);
    }
    if text == "Enum" {
        return Some(Form::Enum);
    }
    None
}

/// The form of numbers with a sign with a word.
fn signed_form(text: &str) -> Option<Form>
    ensures { result ≡ spec.found_in spec.signed_forms text.now }
{
    if text == "Int" {
        return Some(Form::Number(Kind::Int));
    }
    if text == "Int8" {
        return Some(Form::Number(Kind::Int8));
    }
    if text == "Int16" {
        return Some(Form::Number(Kind::Int16));
    }
    if text == "Int32" {
        return Some(Form::Number(Kind::Int32));
    }
    if text == "Int64" {
        return Some(Form::Number(Kind::Int64));
    }
    if text == "Int128" {
        return Some(Form::Number(Kind::Int128));
    }
    if text == "Fix64" {
        return Some(Form::Number(Kind::Fix64));
    }
    None
}

/// The form of numbers without a sign with a word.
fn unsigned_form(text: &str) -> Option<Form>
    ensures { result ≡ spec.found_in spec.unsigned_forms text.now }
{
    if text == "UInt" {
        return Some(Form::Number(Kind::UInt));
    }
    if text == "UInt8" {
        return Some(Form::Number(Kind::UInt8));
    }
    if text == "UInt16" {
        return Some(Form::Number(Kind::UInt16));
    }
    if text == "UInt32" {
        return Some(Form::Number(Kind::UInt32));
    }
    if text == "UInt64" {
        return Some(Form::Number(Kind::UInt64));
    }
    if text == "UInt128" {
        return Some(Form::Number(Kind::UInt128));
    }
    if text == "UFix64" {
        return Some(Form::Number(Kind::UFix64));
    }
    if text == "Word8" {
        return Some(Form::Number(Kind::Word8));
    }
    if text == "Word16" {
        return Some(Form::Number(Kind::Word16));
    }
    if text == "Word32" {
        return Some(Form::Number(Kind::Word32));
    }
    if text == "Word64" {
        return Some(Form::Number(Kind::Word64));
    }
    if text == "Word128" {
        return Some(Form::Number(Kind::Word128));
    }
    None
}

/// The form with a word.
#[tactic(auto, unfolding(crate::specs::Forms::form_of))]
pub fn form_of(text: &str) -> Option<Form>
    ensures { result ≡ spec.form_of text.now }
{
    if let Some(form) = part_form(text) {
        return Some(form);
    }
    match signed_form(text) {
        Some(form) => Some(form),
        None => unsigned_form(text),
    }
}
