// Type arguments.
ghost use Rattle.std.specs.Prelude.{◌≡◌, map, option_map};
ghost use Rattle.cad_services.specs.Code.Services as spec;
ghost use Rattle.cad_syntax.specs.Types.{pure_type};

use cad_syntax::CadType;

/// The one type argument.
pub(crate) fn one_type(types: &[CadType]) -> Option<&CadType>
    ensures { option_map (λ t. pure_type t.now) result ≡ spec.one_type (map (λ t. pure_type t) types.now) }
{
    match types {
        [only] => Some(only),
        _ => None,
    }
}
