// The arguments of a deployment.
ghost use Rattle.std.specs.Prelude.{◌≡◌, IfOk, map, option_map};
ghost use Rattle.serde_json.specs.View.{view};
ghost use Rattle.cad_contract_shapes.specs.Arguments.{argument_shapes, HasDistinctFields};
ghost use Rattle.cad_command_runs.specs.Passed.{initializer_types};
ghost use Rattle.cad_rows.specs.Views.{pure_row};
ghost use Rattle.cad_run_worlds.specs.Code.{IsRow};
ghost use Rattle.cad_state.specs.Views.{program_of};
ghost use Rattle.cad_syntax.specs.Types.{pure_type};

use cad_command_runs::initializer_parameters;
use cad_declarations::{Checked, Parameter};
use cad_rows::Place;
use cad_run_worlds::row_of;
use cad_syntax::{CadType, TypeId};
use serde_json::Value as Json;
use std::alloc::{AllocError, Global};

/// The types of parameters.
fn parameter_types(alloc: Global, parameters: &[Parameter]) -> Result<Vec<&CadType>, AllocError>
    ensures { IfOk result (λ types. map (λ t. pure_type t.now) types.items ≡ map (λ p. pure_type p.declared) parameters.now) }
{
    let mut types = Vec::new(alloc);
    for parameter in parameters {
        types.push(&parameter.declared)?;
    }
    Ok(types)
}

/// The values that JSON stands for as arguments for the initializer of a contract, in a row. None where there are more or fewer than its
/// parameters, or one stands for none.
pub(crate) fn initializer_row(
    alloc: Global,
    checked: &Checked,
    id: &TypeId,
    arguments: &[Json],
) -> Result<Option<Vec<Place>>, AllocError>
    ensures row { IfOk result (λ o. IsRow (argument_shapes (program_of checked.now).tables) (initializer_types id.now (program_of checked.now)) (map view arguments.now) (option_map (λ row. pure_row row.items) o)) }
    ensures distinct { IfOk result (λ o. HasDistinctFields (program_of checked.now).tables) }
{
    let types = parameter_types(alloc, initializer_parameters(checked, id))?;
    row_of(alloc, &checked.tables, types.as_slice(), arguments)
}
