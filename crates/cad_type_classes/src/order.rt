// Which types are below others, and which fit them.
ghost use Rattle.std.specs.Prelude.{◌≡◌};
ghost use Rattle.cad_syntax.specs.Types.{pure_type};
ghost use Rattle.cad_types.specs.Below as below;
ghost use Rattle.cad_types.specs.Optionals as optionals;
ghost use Rattle.cad_types.specs.Views.{declarations};

use cad_syntax::CadType;
use cad_types::laws::order_needs_no_steps_between;
use cad_types::{DeclaredTypes, is_subtype};

/// Whether one type is below another.
pub fn is_below(types: &DeclaredTypes, t: &CadType, u: &CadType) -> bool
    ensures { result ≡ below.below (declarations types.now) (pure_type t.now) (pure_type u.now) }
{
    order_needs_no_steps_between();
    is_subtype(types, t, u)
}

/// Whether one type fits another: it is below that one after the outer optionals which it lacks were taken off.
#[tactic(auto, using(crate::proofs::Optionals::depth_taken))]
pub fn fits(types: &DeclaredTypes, t: &CadType, u: &CadType) -> bool
    ensures { result ≡ optionals.fits (declarations types.now) (pure_type t.now) (pure_type u.now) }
{
    let beyond = taken(t, u);
    is_below(types, t, taken(beyond, u))
}

/// The second type without as many of its outer optionals as the first has, or without all.
fn taken<'a>(t: &CadType, u: &'a CadType) -> &'a CadType
    ensures { pure_type result.now ≡ optionals.taken (optionals.depth (pure_type t.now)) (pure_type u.now) }
{
    match t {
        CadType::Optional(part) => match u {
            CadType::Optional(other) => taken(part, other),
            _ => u,
        },
        _ => u,
    }
}
