// The type of what is read through a reference.
ghost use Rattle.std.specs.Prelude.{◌≡◌, IfOk};
ghost use Rattle.cad_syntax.specs.Types.{pure_type};
ghost use Rattle.cad_syntax.specs.Types as types;
ghost use Rattle.cad_types.specs.Optionals as spec;

use cad_declarations::boxed_type;
use cad_syntax::{Authorization, Basic, CadType};
use std::alloc::{AllocError, Global};

/// The type of what is read through a reference from a place of this type: of a composite, an intersection, AnyResource or a
/// container a reference with this authorization, in the same optionals; of anything else a copy.
pub fn read_through(
    alloc: Global,
    right: &Authorization,
    t: &CadType,
) -> Result<CadType, AllocError>
    ensures { IfOk result (λ made. pure_type made ≡ spec.reading right.now (pure_type t.now)) }
{
    match t {
        CadType::Optional(content) => {
            let content = read_through(alloc, right, content)?;
            Ok(CadType::Optional(boxed_type(alloc, content)?))
        }
        CadType::Array(_)
        | CadType::Dictionary(_, _)
        | CadType::Intersection(_)
        | CadType::Declared(_) => reference_to(alloc, right, t),
        CadType::Basic(basic) => reading_basic(alloc, right, *basic),
        CadType::Reference(_, _) | CadType::Capability | CadType::CapabilityOf(_) => t.clone(),
    }
}

fn reference_to(alloc: Global, right: &Authorization, t: &CadType) -> Result<CadType, AllocError>
    ensures { IfOk result (λ made. pure_type made ≡ types.reference right.now (pure_type t.now)) }
{
    let right = right.clone()?;
    let target = boxed_type(alloc, t.clone()?)?;
    Ok(CadType::Reference(right, target))
}

fn reading_basic(alloc: Global, right: &Authorization, basic: Basic) -> Result<CadType, AllocError>
    ensures { IfOk result (λ made. pure_type made ≡ spec.reading_basic right.now basic) }
{
    match basic {
        Basic::AnyResource => reference_to(alloc, right, &CadType::Basic(basic)),
        _ => Ok(CadType::Basic(basic)),
    }
}
