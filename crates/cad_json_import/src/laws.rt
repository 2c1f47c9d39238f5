// A JSON stands for one value at most.
ghost use Rattle.std.specs.Prelude.{◌≡◌};
ghost use Rattle.serde_json.specs.Data.{Data};
ghost use Rattle.cad_json.specs.Read.{JsonOf};
ghost use Rattle.cad_shapes.specs.Held.{shapes_of};
ghost use Rattle.cad_syntax.specs.Types.{PureType};
ghost use Rattle.cad_values.specs.Values.{PureValue};

use cad_shapes::DeclaredShapes;

/// Where a type is expected, a JSON stands for one value at most.
pub fn one_value(shapes: &DeclaredShapes)
    ensures { (want : PureType) (json : Data) (x y : PureValue) → JsonOf (shapes_of shapes.now) want x json → JsonOf (shapes_of shapes.now) want y json → x ≡ y }
{
    let _shapes = shapes;
}
