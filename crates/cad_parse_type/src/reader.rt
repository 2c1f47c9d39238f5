// The readers of types.
ghost use Rattle.std.specs.Prelude.{◌≡◌, suc, IfOk, option_map};
ghost use Rattle.cad_grammar.specs.Views.{type_of, annotation_of};
ghost use Rattle.cad_parse_type.specs.Code.Reading as spec;
ghost use Rattle.cad_parse_type.specs.Code.Views.{seen, seen_with, annotations_in};

use crate::spot::Spot;
use crate::types::{annotated, annotation_list, whole};
use cad_grammar::{TypeAnnotation, TypeExpr, TypePosition};
use std::alloc::{AllocError, Global};

// How deep the readers may call themselves from a spot on: once more than nestings may be opened.
#[tactic(auto, unfolding(crate::specs::Code::Views::seen))]
fn depth_at(spot: Spot<'_>) -> u64
    ensures { result ≡ suc (seen spot.entry).left }
{
    u64::from(spot.left) + 1
}

/// The longest type from a spot on, and the spot behind it; None where none begins.
#[tactic(auto, unfolding(crate::specs::Code::Reading::type_at))]
pub fn type_at(
    alloc: Global,
    position: TypePosition,
    spot: Spot<'_>,
) -> Result<Option<(TypeExpr, Spot<'_>)>, AllocError>
    ensures { IfOk result (λ o. option_map (seen_with type_of) o ≡ spec.type_at position (seen spot.entry)) }
{
    whole(alloc, depth_at(spot), position, spot)
}

/// The longest type annotation from a spot on, and the spot behind it; None where none begins.
#[tactic(auto, unfolding(crate::specs::Code::Reading::annotation_at))]
pub fn annotation_at(
    alloc: Global,
    position: TypePosition,
    spot: Spot<'_>,
) -> Result<Option<(TypeAnnotation, Spot<'_>)>, AllocError>
    ensures { IfOk result (λ o. option_map (seen_with annotation_of) o ≡ spec.annotation_at position (seen spot.entry)) }
{
    annotated(alloc, depth_at(spot), position, spot)
}

/// The type arguments behind a `<`, and the spot behind the `>`; None where there are none.
#[tactic(auto, unfolding(crate::specs::Code::Reading::arguments_at))]
pub fn arguments_at(
    alloc: Global,
    spot: Spot<'_>,
) -> Result<Option<(Vec<TypeAnnotation>, Spot<'_>)>, AllocError>
    ensures { IfOk result (λ o. option_map (seen_with annotations_in) o ≡ spec.arguments_at (seen spot.entry)) }
{
    annotation_list(alloc, depth_at(spot), spot)
}

/// The longest type annotation that stands by itself, and the spot behind it; None where none begins.
#[tactic(auto, unfolding(crate::specs::Code::Reading::annotation))]
pub fn annotation(
    alloc: Global,
    spot: Spot<'_>,
) -> Result<Option<(TypeAnnotation, Spot<'_>)>, AllocError>
    ensures { IfOk result (λ o. option_map (seen_with annotation_of) o ≡ spec.annotation (seen spot.entry)) }
{
    let Some((found, end)) = annotation_at(alloc, TypePosition::Anywhere, spot)? else {
        return Ok(None);
    };
    Ok(Some((found, spot.back(end))))
}
