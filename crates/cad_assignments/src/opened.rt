// What is in an optional.
ghost use Rattle.std.specs.Prelude.{◌≡◌};
ghost use Rattle.cad_evaluation.specs.Changing as spec;
ghost use Rattle.cad_rows.specs.Carried.{is_nil, is_nil_shape};
ghost use Rattle.cad_rows.specs.Views.{pure_shape, pure_tree};
ghost use Rattle.cad_values.specs.Values.{pure_value};
ghost use Rattle.cad_assignments.specs.Code.Contents.{content_seen};

use cad_rows::{Shape, Tree, discard_tree};
use cad_values::Value;

/// What is in an optional: nothing, or its content; or the value is no optional. It isn't let go by its end.
pub(crate) enum Opened {
    Nothing,
    Content(Tree),
    NoOptional,
}

/// Whether a value in no optional is nil.
pub(crate) fn is_nil(shape: &Shape) -> bool
    ensures { result ≡ is_nil_shape (pure_shape shape.now) }
{
    match shape {
        Shape::Plain(value) => is_nil_value(value),
        _ => false,
    }
}

/// Whether a value is nil.
fn is_nil_value(value: &Value) -> bool
    ensures { result ≡ is_nil (pure_value value.now) }
{
    match value {
        Value::Nil => true,
        _ => false,
    }
}

/// The content of an optional. What has none is let go.
pub(crate) fn open_optional(tree: Tree) -> Opened
    ensures { content_seen result ≡ spec.content_of (pure_tree tree) }
{
    let mut own = tree;
    if own.optionals > 0 {
        own.optionals -= 1;
        return Opened::Content(own);
    }
    let nothing = is_nil(&own.shape);
    discard_tree(own);
    if nothing {
        Opened::Nothing
    } else {
        Opened::NoOptional
    }
}
