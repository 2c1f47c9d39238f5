// What values are told as stands for them again.
ghost use Rattle.std.specs.Prelude.{◌≡◌, ◌≤◌, Some, IfOk, option_map};
ghost use Rattle.serde_json.specs.Data.{depth};
ghost use Rattle.serde_json.specs.Read.{max_depth};
ghost use Rattle.serde_json.specs.View.{view};
ghost use Rattle.serde_json.specs.Written.{compact_text};
ghost use Rattle.cad_json.specs.Read.{JsonOf};
ghost use Rattle.cad_json.specs.Told.{told};
ghost use Rattle.cad_json_laws.specs.Whole.{IsWhole};
ghost use Rattle.cad_shapes.specs.Held.{shapes_of};
ghost use Rattle.cad_syntax.specs.Types.{PureType, pure_type};
ghost use Rattle.cad_values.specs.Shapes.{declarations};
ghost use Rattle.cad_values.specs.Values.{PureValue, pure_value};

use cad_json_import::import;
use cad_shapes::DeclaredShapes;
use cad_syntax::CadType;
use cad_values::Value;
use serde_json::Value as Json;
use std::alloc::{AllocError, Global};

/// What a value is told as stands for it, where it is told in full.
pub fn told_stands(shapes: &DeclaredShapes)
    ensures { (want : PureType) (x : PureValue) → IsWhole (shapes_of shapes.now) want x → JsonOf (shapes_of shapes.now) want x (told (declarations (shapes_of shapes.now)) x) }
{
    let _shapes = shapes;
}

/// The value that a JSON stands for as an argument of a type: the one that was told as it, where that was told in full.
pub fn import_told(
    alloc: Global,
    shapes: &DeclaredShapes,
    want: &CadType,
    json: &Json,
) -> Result<Option<Value>, AllocError>
    ensures { (x : PureValue) → IsWhole (shapes_of shapes.now) (pure_type want.now) x → view json.now ≡ told (declarations (shapes_of shapes.now)) x → IfOk result (λ o. option_map pure_value o ≡ Some x) }
{
    import(alloc, shapes, want, json)
}

/// The value that a text stands for as an argument of a type, None where the text is no JSON or stands for none: the value
/// that `export` gave the text of, where that was told in full and its JSON nests as deep as texts that are read.
pub fn import_text(
    alloc: Global,
    shapes: &DeclaredShapes,
    want: &CadType,
    text: &str,
) -> Result<Option<Value>, AllocError>
    ensures { (x : PureValue) → IsWhole (shapes_of shapes.now) (pure_type want.now) x → depth (told (declarations (shapes_of shapes.now)) x) ≤ max_depth → text.now ≡ compact_text (told (declarations (shapes_of shapes.now)) x) → IfOk result (λ o. option_map pure_value o ≡ Some x) }
{
    match Json::from_str(alloc, text) {
        Ok(json) => import_told(alloc, shapes, want, &json),
        Err(error) => if error.is_memory() {
            Err(AllocError)
        } else {
            Ok(None)
        },
    }
}
