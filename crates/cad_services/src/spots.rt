// What a receiver is now, where it is a value without parts.
ghost use Rattle.std.specs.Prelude.{◌≡◌, option_map};
ghost use Rattle.cad_operators.specs.Leaves.{plain_in, plain_in_shape};
ghost use Rattle.cad_receivers.specs.Views.{spot_of};
ghost use Rattle.cad_rows.specs.Views.{pure_shape};
ghost use Rattle.cad_values.specs.Values.{pure_value};

use cad_receivers::Spot;
use cad_rows::Shape;
use cad_values::Value;

/// The value of a shape without parts.
fn plain_shape(shape: &Shape) -> Option<&Value>
    ensures { option_map (λ v. pure_value v.now) result ≡ plain_in_shape (pure_shape shape.now) }
{
    match shape {
        Shape::Plain(value) => Some(value),
        _ => None,
    }
}

/// The value that a spot without optionals is in place of parts.
pub(crate) fn value_at(spot: Spot<'_>) -> Option<&Value>
    ensures { option_map (λ v. pure_value v.now) result ≡ plain_in (spot_of spot.entry).tree }
{
    if spot.optionals != 0 {
        return None;
    }
    plain_shape(spot.shape)
}
