// Literals.
ghost use Rattle.std.specs.Prelude.{◌≡◌, ◌&&◌, nat_lt, refl, IfOk, option_map};
ghost use Rattle.cad_syntax.specs.Kinds as kinds;
ghost use Rattle.cad_syntax.specs.Types.{pure_type};
ghost use Rattle.cad_declarations.specs.Views.{term_of};
ghost use Rattle.cad_environment.specs.Views.{typing_of};
ghost use Rattle.cad_typing.specs.Literals as spec;

use cad_builtins::is_integer;
use cad_declarations::{Term, boxed_type};
use cad_environment::{Typing, typed};
use cad_syntax::{Address, Basic, CadType, Domain, Kind, Num, Path, Text};
use cad_text::length;
use cad_type_classes::{core_of, is_address, is_signed, kind_of};
use std::alloc::{AllocError, Global};

/// A whole literal: of the kind of integers that is expected, or of Address if it is hexadecimal; else of Int. None where it
/// is out of range.
pub fn whole_literal(
    expected: Option<&CadType>,
    magnitude: u128,
    is_hexadecimal: bool,
) -> Option<Typing>
    ensures { option_map typing_of result ≡ spec.whole_literal (option_map (λ t. pure_type t.now) expected.entry) magnitude is_hexadecimal }
{
    literal_of(
        whole_kind(is_hexadecimal, expected_kind(expected)),
        false,
        magnitude,
    )
}

/// A literal with a point, whose magnitude is scaled by 10^8: of Fix64 or UFix64, as is expected; else of UFix64. None where
/// it is out of range.
pub fn fixed_literal(expected: Option<&CadType>, magnitude: u128) -> Option<Typing>
    ensures { option_map typing_of result ≡ spec.fixed_literal (option_map (λ t. pure_type t.now) expected.entry) magnitude }
{
    literal_of(fixed_kind(false, expected_kind(expected)), false, magnitude)
}

/// A whole literal directly under `-`, with its sign. None where it is out of range, or its kind has no sign.
pub fn signed_whole(
    expected: Option<&CadType>,
    magnitude: u128,
    is_hexadecimal: bool,
) -> Option<Typing>
    ensures { option_map typing_of result ≡ spec.signed_whole (option_map (λ t. pure_type t.now) expected.entry) magnitude is_hexadecimal }
{
    signed_literal(
        whole_kind(is_hexadecimal, expected_kind(expected)),
        magnitude,
    )
}

/// A literal with a point directly under `-`, with its sign. None where it is out of range, or its kind has no sign.
pub fn signed_fixed(expected: Option<&CadType>, magnitude: u128) -> Option<Typing>
    ensures { option_map typing_of result ≡ spec.signed_fixed (option_map (λ t. pure_type t.now) expected.entry) magnitude }
{
    signed_literal(fixed_kind(true, expected_kind(expected)), magnitude)
}

/// The literal with its sign, where numbers of its kind have one.
fn signed_literal(kind: Kind, magnitude: u128) -> Option<Typing>
    ensures { option_map typing_of result ≡ spec.signed_literal kind magnitude }
{
    if is_signed(kind) {
        literal_of(kind, true, magnitude)
    } else {
        None
    }
}

/// The literal of a kind with a sign and a magnitude. None where it is out of range.
fn literal_of(kind: Kind, negative: bool, magnitude: u128) -> Option<Typing>
    ensures { option_map typing_of result ≡ spec.literal_of kind negative magnitude }
{
    let number = number_of(kind, negative, magnitude)?;
    typed(number_term(number), CadType::Basic(Basic::Number(kind)))
}

/// The number of a kind with this sign and magnitude, if it is in range; 0 has no sign.
fn number_of(kind: Kind, negative: bool, magnitude: u128) -> Option<Num>
    ensures { result ≡ spec.number_of kind negative magnitude }
{
    number_with(kind, sign_of(negative, magnitude), magnitude)
}

fn sign_of(negative: bool, magnitude: u128) -> bool
    ensures { result ≡ (negative && nat_lt 0 magnitude) }
{
    negative && 0 < magnitude
}

/// The number of a kind with this sign and magnitude, if they are kept so.
#[tactic(auto, using(crate::proofs::Numbers::kept_none))]
fn number_with(kind: Kind, negative: bool, magnitude: u128) -> Option<Num>
    ensures { result ≡ spec.number_if kind negative magnitude (kinds.is_kept kind negative magnitude) refl }
{
    if is_kept(kind, negative, magnitude) {
        Some(Num {
            kind,
            negative,
            magnitude,
        })
    } else {
        None
    }
}

/// Whether a number with this sign and magnitude is in range, and not a negative 0.
fn is_kept(kind: Kind, negative: bool, magnitude: u128) -> bool
    ensures { result ≡ kinds.is_kept kind negative magnitude }
{
    if negative {
        0 < magnitude && magnitude <= kind.depth()
    } else {
        magnitude <= kind.greatest()
    }
}

/// The term of a number; an address is none.
#[tactic(auto, using(crate::proofs::Numbers::address_fits))]
fn number_term(number: Num) -> Term
    ensures { term_of result ≡ spec.number_term number }
{
    if is_address(number.kind) {
        Term::Address(Address(number.magnitude as u64))
    } else {
        Term::Number(number)
    }
}

/// The kind of numbers that is expected, in whatever optionals.
fn expected_kind(expected: Option<&CadType>) -> Option<Kind>
    ensures { result ≡ spec.expected_kind (option_map (λ t. pure_type t.now) expected.entry) }
{
    match expected {
        Some(t) => kind_of(core_of(t)),
        None => None,
    }
}

/// The kind of integers that is expected, or Address of a hexadecimal literal; else Int.
fn whole_kind(is_hexadecimal: bool, kind: Option<Kind>) -> Kind
    ensures { result ≡ spec.whole_kind is_hexadecimal kind }
{
    match kind {
        Some(kind) => {
            if is_integer(kind) || (is_hexadecimal && is_address(kind)) {
                kind
            } else {
                Kind::Int
            }
        }
        None => Kind::Int,
    }
}

/// Fix64 or UFix64, as is expected; else UFix64, and under `-` Fix64.
fn fixed_kind(negative: bool, kind: Option<Kind>) -> Kind
    ensures { result ≡ spec.fixed_kind negative kind }
{
    match kind {
        Some(Kind::Fix64) => Kind::Fix64,
        Some(Kind::UFix64) => Kind::UFix64,
        _ => { if negative { Kind::Fix64 } else { Kind::UFix64 } }
    }
}

/// A Character where one is expected and the text is one, else a String.
pub fn text_literal(expected: Option<&CadType>, text: &Text) -> Result<Option<Typing>, AllocError>
    ensures { IfOk result (λ x. option_map typing_of x ≡ spec.text_literal (option_map (λ t. pure_type t.now) expected.entry) text.now) }
{
    let copy = text.clone()?;
    if expects_character(expected) && length(text.as_str()) == 1 {
        Ok(typed(Term::Character(copy), CadType::Basic(Basic::Character)))
    } else {
        Ok(typed(Term::String(copy), CadType::Basic(Basic::String)))
    }
}

fn expects_character(expected: Option<&CadType>) -> bool
    ensures { result ≡ spec.expects_character (option_map (λ t. pure_type t.now) expected.entry) }
{
    match expected {
        Some(t) => is_character_type(core_of(t)),
        None => false,
    }
}

fn is_character_type(t: &CadType) -> bool
    ensures { result ≡ spec.is_character_type (pure_type t.now) }
{
    match t {
        CadType::Basic(basic) => matches!(basic, Basic::Character),
        _ => false,
    }
}

/// `true` or `false`.
pub fn bool_literal(value: bool) -> Option<Typing>
    ensures { option_map typing_of result ≡ spec.bool_literal value }
{
    typed(Term::Bool(value), CadType::Basic(Basic::Bool))
}

/// `nil`, an optional of Never.
pub fn nil_literal(alloc: Global) -> Result<Option<Typing>, AllocError>
    ensures { IfOk result (λ x. option_map typing_of x ≡ spec.nil_literal) }
{
    let never = boxed_type(alloc, CadType::Basic(Basic::Never))?;
    Ok(typed(Term::Nil, CadType::Optional(never)))
}

/// A path, of the type of its domain.
pub fn path_literal(path: &Path) -> Result<Option<Typing>, AllocError>
    ensures { IfOk result (λ x. option_map typing_of x ≡ spec.path_literal path.now) }
{
    let domain = path.domain;
    Ok(typed(Term::Path(path.clone()?), path_type(domain)))
}

fn path_type(domain: Domain) -> CadType
    ensures { pure_type result ≡ spec.path_type domain }
{
    match domain {
        Domain::Storage => CadType::Basic(Basic::StoragePath),
        Domain::Public => CadType::Basic(Basic::PublicPath),
    }
}
