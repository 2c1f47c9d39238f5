// What a value in a place is as a receiver.
ghost use Rattle.std.specs.Prelude.{◌≡◌};
ghost use Rattle.cad_world.specs.Receivers as spec;
ghost use Rattle.cad_rows.specs.Views.{pure_shape};

use crate::shapes::is_reference_shape;
use cad_rows::Shape;

/// Whether a value in this many optionals is a reference without any round it. As a receiver that is what it leads to; anything
/// else is the node itself.
#[tactic(auto, using(crate::proofs::Composites::no_reference))]
pub fn is_reference(depth: u64, shape: &Shape) -> bool
    ensures { result ≡ spec.is_reference_in depth (pure_shape shape.now) }
{
    if depth != 0 {
        return false;
    }
    is_reference_shape(shape)
}
