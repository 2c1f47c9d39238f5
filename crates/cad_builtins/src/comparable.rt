// Which types `==` compares.
ghost use Rattle.std.specs.Prelude.{◌≡◌};
ghost use Rattle.cad_syntax.specs.Types.{pure_type};
ghost use Rattle.cad_types.specs.Classes.{has_sort};
ghost use Rattle.cad_types.specs.Declarations.{found};
ghost use Rattle.cad_types.specs.Views.{declarations};
ghost use Rattle.cad_declarations.specs.BuiltinNames as spec;
ghost use Rattle.cad_declarations.specs.Formed.{is_enum_sort};

use cad_syntax::{Basic, CadType, TypeId};
use cad_types::{DeclaredTypes, Sort};

/// Whether a basic type is a primitive: a number, an address, Bool, a text or a path.
pub fn is_primitive_basic(basic: Basic) -> bool
    ensures { result ≡ spec.is_primitive_basic basic }
{
    matches!(
        basic,
        Basic::Number(_)
            | Basic::Bool
            | Basic::Character
            | Basic::String
            | Basic::Path
            | Basic::StoragePath
            | Basic::PublicPath
    )
}

fn is_meta(basic: Basic) -> bool
    ensures { result ≡ spec.is_meta basic }
{
    matches!(basic, Basic::Meta)
}

/// Whether values of a type are compared by `==`: primitives, types and enums, and optionals, arrays and dictionaries of
/// these.
pub fn is_comparable(types: &DeclaredTypes, t: &CadType) -> bool
    ensures { result ≡ spec.is_comparable (declarations types.now) (pure_type t.now) }
{
    match t {
        CadType::Basic(basic) => is_primitive_basic(*basic) || is_meta(*basic),
        CadType::Optional(part) | CadType::Array(part) => is_comparable(types, part),
        CadType::Dictionary(key, value) => is_comparable(types, key) && is_comparable(types, value),
        CadType::Declared(id) => is_enum(types, id),
        _ => false,
    }
}

/// Whether an identifier is that of an enum.
pub(crate) fn is_enum(types: &DeclaredTypes, id: &TypeId) -> bool
    ensures { result ≡ has_sort is_enum_sort (found (declarations types.now) id.now) }
{
    match types.find(id) {
        Some(declared) => is_enum_sort_of(declared.sort),
        None => false,
    }
}

fn is_enum_sort_of(sort: Sort) -> bool
    ensures { result ≡ is_enum_sort sort }
{
    matches!(sort, Sort::Enum)
}
