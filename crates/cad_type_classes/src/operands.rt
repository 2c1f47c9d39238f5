// What operators ask of the types of their operands.
ghost use Rattle.std.specs.Prelude.{◌≡◌};
ghost use Rattle.cad_syntax.specs.Types.{pure_type};
ghost use Rattle.cad_syntax.specs.Types as form;
ghost use Rattle.cad_types.specs.Basics as basics;
ghost use Rattle.cad_typing.specs.Types as spec;

use crate::numbers::is_address;
use cad_builtins::is_primitive_basic;
use cad_syntax::{Basic, CadType};

/// Whether two types are one basic type.
pub fn is_same_basic(t: &CadType, u: &CadType) -> bool
    ensures { result ≡ spec.is_same_basic (pure_type t.now) (pure_type u.now) }
{
    match t {
        CadType::Basic(first) => is_basic(u, *first),
        _ => false,
    }
}

/// Whether a type is this basic one.
fn is_basic(t: &CadType, basic: Basic) -> bool
    ensures { result ≡ spec.is_same_basic (form.basic basic) (pure_type t.now) }
{
    match t {
        CadType::Basic(other) => same_basic(basic, *other),
        _ => false,
    }
}

fn same_basic(t: Basic, u: Basic) -> bool
    ensures { result ≡ basics.same_basic t u }
{
    t == u
}

/// Whether `<` is there: numbers but addresses, Bool, Character and String.
pub fn is_ordered(t: &CadType) -> bool
    ensures { result ≡ spec.is_ordered (pure_type t.now) }
{
    match t {
        CadType::Basic(basic) => is_ordered_basic(*basic),
        _ => false,
    }
}

fn is_ordered_basic(basic: Basic) -> bool
    ensures { result ≡ spec.is_ordered_basic basic }
{
    match basic {
        Basic::Number(kind) => !is_address(kind),
        Basic::Bool | Basic::Character | Basic::String => true,
        _ => false,
    }
}

/// Whether `*` copies values of a type: a primitive, or an array or dictionary of primitives at any depth, without
/// optionals.
pub fn is_copied(t: &CadType) -> bool
    ensures { result ≡ spec.is_copied (pure_type t.now) }
{
    match t {
        CadType::Basic(basic) => is_primitive_basic(*basic),
        CadType::Array(element) => is_copied(element),
        CadType::Dictionary(key, value) => is_copied(key) && is_copied(value),
        _ => false,
    }
}
