// Arguments.
ghost use Rattle.std.specs.Prelude.{◌≡◌, IfOk, OnOk, map, option_map};
ghost use Rattle.serde_json.specs.View.{view};
ghost use Rattle.cad_contract_shapes.specs.Arguments.{argument_shapes, HasDistinctFields};
ghost use Rattle.cad_declarations.specs.Views.{tables_of, variable_of};
ghost use Rattle.cad_rows.specs.Views.{pure_row};
ghost use Rattle.cad_runs.specs.Commands.{types_of};
ghost use Rattle.cad_run_worlds.specs.Code.{Adds, AddsAll, IsRow};
ghost use Rattle.cad_shapes.specs.Held.{shapes_of};
ghost use Rattle.cad_syntax.specs.Types.{pure_type};
ghost use Rattle.cad_values.specs.Values.{pure_value};
ghost use Rattle.cad_world.specs.Rows.{add_last};
ghost use Rattle.cad_world.specs.Trees.{tree_of};

use cad_contract_shapes::shapes_of_tables;
use cad_declarations::{Tables, Variable};
use cad_json_import::import;
use cad_rows::{Place, add_last, discard_row};
use cad_shapes::DeclaredShapes;
use cad_state::discard_value;
use cad_syntax::CadType;
use cad_value_trees::tree_from_value;
use cad_values::Value;
use serde_json::Value as Json;
use std::alloc::{AllocError, Global};

/// Appends a value to a row, as a tree.
fn push_value(alloc: Global, value: Value, row: &mut Vec<Place>) -> Result<(), AllocError>
    ensures { OnOk result (pure_row row.new.items ≡ add_last (tree_of (pure_value value)) (pure_row row.old.items)) }
{
    let tree = tree_from_value(alloc, &value);
    discard_value(value);
    add_last(row, tree?)
}

/// Appends the value that a JSON stands for as an argument of a type. False where it stands for none.
fn push_argument(
    alloc: Global,
    shapes: &DeclaredShapes,
    want: &CadType,
    json: &Json,
    row: &mut Vec<Place>,
) -> Result<bool, AllocError>
    ensures { IfOk result (λ stands. Adds (shapes_of shapes.now) (pure_type want.now) (view json.now) (pure_row row.old.items) (pure_row row.new.items) stands) }
{
    match import(alloc, shapes, want, json)? {
        Some(value) => {
            push_value(alloc, value, row)?;
            Ok(true)
        }
        None => Ok(false),
    }
}

/// Appends the values that JSON stands for as arguments of types. False where there are more or fewer, or one stands for none.
fn push_arguments(
    alloc: Global,
    shapes: &DeclaredShapes,
    types: &[&CadType],
    arguments: &[Json],
    row: &mut Vec<Place>,
) -> Result<bool, AllocError>
    ensures { IfOk result (λ stand. AddsAll (shapes_of shapes.now) (map (λ t. pure_type t.now) types.now) (map view arguments.now) (pure_row row.old.items) (pure_row row.new.items) stand) }
{
    let mut left = arguments;
    for want in types {
        let [json, more @ ..] = left else {
            return Ok(false);
        };
        if !push_argument(alloc, shapes, want, json, row)? {
            return Ok(false);
        }
        left = more;
    }
    Ok(left.is_empty())
}

/// The values that JSON stands for as arguments of types, in a row, by shapes. None where there are more or fewer, or one stands for
/// none.
fn row_by(
    alloc: Global,
    shapes: &DeclaredShapes,
    types: &[&CadType],
    arguments: &[Json],
) -> Result<Option<Vec<Place>>, AllocError>
    ensures { IfOk result (λ o. IsRow (shapes_of shapes.now) (map (λ t. pure_type t.now) types.now) (map view arguments.now) (option_map (λ row. pure_row row.items) o)) }
{
    let mut row = Vec::<Place>::new(alloc);
    match push_arguments(alloc, shapes, types, arguments, &mut row) {
        Ok(true) => Ok(Some(row)),
        Ok(false) => {
            discard_row(row);
            Ok(None)
        }
        Err(error) => {
            discard_row(row);
            Err(error)
        }
    }
}

/// The values that JSON stands for as arguments of types, in a row, by what a program and all that it imports declare. None where there
/// are more or fewer, or one stands for none.
pub fn row_of(
    alloc: Global,
    tables: &Tables,
    types: &[&CadType],
    arguments: &[Json],
) -> Result<Option<Vec<Place>>, AllocError>
    ensures row { IfOk result (λ o. IsRow (argument_shapes (tables_of tables.now)) (map (λ t. pure_type t.now) types.now) (map view arguments.now) (option_map (λ row. pure_row row.items) o)) }
    ensures distinct { IfOk result (λ o. HasDistinctFields (tables_of tables.now)) }
{
    let shapes = shapes_of_tables(alloc, tables)?;
    row_by(alloc, &shapes, types, arguments)
}

/// The types of parameters.
fn parameter_types(alloc: Global, parameters: &[Variable]) -> Result<Vec<&CadType>, AllocError>
    ensures { IfOk result (λ types. map (λ t. pure_type t.now) types.items ≡ types_of (map variable_of parameters.now)) }
{
    let mut types = Vec::new(alloc);
    for parameter in parameters {
        types.push(&parameter.declared)?;
    }
    Ok(types)
}

/// The same for the parameters of a function or transaction.
pub fn row_for(
    alloc: Global,
    tables: &Tables,
    parameters: &[Variable],
    arguments: &[Json],
) -> Result<Option<Vec<Place>>, AllocError>
    ensures row { IfOk result (λ o. IsRow (argument_shapes (tables_of tables.now)) (types_of (map variable_of parameters.now)) (map view arguments.now) (option_map (λ row. pure_row row.items) o)) }
    ensures distinct { IfOk result (λ o. HasDistinctFields (tables_of tables.now)) }
{
    let types = parameter_types(alloc, parameters)?;
    row_of(alloc, tables, types.as_slice(), arguments)
}
