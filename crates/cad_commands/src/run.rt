// Runs of code.
ghost use Rattle.std.specs.Prelude.{◌≡◌, IfOk};
ghost use Rattle.serde_json.specs.View.{view};
ghost use Rattle.cad_commands.specs.Commands as spec;
ghost use Rattle.cad_commands.specs.Views.{run_result};

use crate::field::{arguments_of, limit_of};
use cad_request::text_at;
use cad_syntax::Text;
use serde_json::Value;
use std::alloc::{AllocError, Global};

/// The code, the arguments and the units of a run.
#[derive(Drop)]
pub(crate) struct Run {
    pub(crate) code: Text,
    pub(crate) arguments: Vec<Value>,
    pub(crate) limit: u64,
}

/// Whether a run may have so many units.
fn is_within(limit: u64) -> bool
    ensures { result ≡ spec.is_within limit }
{
    1 <= limit && limit <= 1_000_000
}

/// The run that a request asks for, or the number of the refusal: 22 where a field isn't there or isn't of its form, 28 where the
/// limit isn't from 1 to 1,000,000.
pub(crate) fn run_of(alloc: Global, request: Value) -> Result<Result<Run, u16>, AllocError>
    ensures { IfOk result (λ run. run_result run ≡ spec.bounded (spec.run_of (view request))) }
{
    let code = match text_at(&request, "code") {
        Some(code) => Text::from_str(alloc, code)?,
        None => return Ok(Err(22)),
    };
    let limit = match limit_of(&request) {
        Some(limit) => limit,
        None => return Ok(Err(22)),
    };
    let arguments = match arguments_of(alloc, request) {
        Some(arguments) => arguments,
        None => return Ok(Err(22)),
    };
    if !is_within(limit) {
        return Ok(Err(28));
    }
    Ok(Ok(Run {
        code,
        arguments,
        limit,
    }))
}
