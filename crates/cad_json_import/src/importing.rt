// JSON to values.
ghost use Rattle.std.specs.Prelude.{◌≡◌, IfOk, IfSome, Some, option_map};
ghost use Rattle.serde_json.specs.View.{view};
ghost use Rattle.cad_json.specs.Read.{JsonOf};
ghost use Rattle.cad_shapes.specs.Held.{shapes_of};
ghost use Rattle.cad_syntax.specs.Types.{pure_type};
ghost use Rattle.cad_values.specs.Values.{PureValue, pure_value};

use cad_fits::fits;
use cad_json_read::read;
use cad_shapes::DeclaredShapes;
use cad_syntax::CadType;
use cad_types::is_importable;
use cad_values::Value;
use serde_json::Value as Json;
use std::alloc::{AllocError, Global};

/// The value that a JSON stands for as an argument of a type. None exactly where it stands for none: where arguments can't
/// have the type, off the form of a value, and where the value isn't of the type or is more than 256 high.
pub fn import(
    alloc: Global,
    shapes: &DeclaredShapes,
    want: &CadType,
    json: &Json,
) -> Result<Option<Value>, AllocError>
    // What is given is what the JSON stands for.
    ensures found { IfOk result (λ o. IfSome o (λ value. JsonOf (shapes_of shapes.now) (pure_type want.now) (pure_value value) (view json.now))) }
    // What the JSON stands for is given.
    ensures only { (x : PureValue) → JsonOf (shapes_of shapes.now) (pure_type want.now) x (view json.now) → IfOk result (λ o. option_map pure_value o ≡ Some x) }
{
    if !is_importable(shapes.types(), want) {
        return Ok(None);
    }
    let Some(value) = read(alloc, shapes, want, json)? else {
        return Ok(None);
    };
    match fits(alloc, shapes, &value, want) {
        Ok(true) => Ok(Some(value)),
        Ok(false) => {
            drop(value);
            Ok(None)
        }
        Err(error) => {
            drop(value);
            Err(error)
        }
    }
}
