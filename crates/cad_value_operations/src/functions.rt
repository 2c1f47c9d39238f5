// Built-in functions, and members of types.
ghost use Rattle.std.specs.Prelude.{◌≡◌, map, option_map};
ghost use Rattle.cad_evaluation.specs.Arguments.{with_argument};
ghost use Rattle.cad_evaluation.specs.Builtins as spec;
ghost use Rattle.cad_evaluation.specs.Containers as containers;
ghost use Rattle.cad_evaluation.specs.Numbers as numbers;
ghost use Rattle.cad_evaluation.specs.Texts as texts;
ghost use Rattle.cad_outcomes.specs.Outcomes.{Gives};
ghost use Rattle.cad_rows.specs.Views.{pure_row, pure_tree};
ghost use Rattle.cad_state.specs.Views.{CarriesOut};
ghost use Rattle.cad_syntax.specs.Types.{pure_type};
ghost use Rattle.cad_types.specs.declared.builtin.Builtin.TheVariants as builtins;
ghost use Rattle.cad_value_operations.specs.Code.Members as code;
ghost use Rattle.cad_world.specs.State.{give};

use crate::arguments::argument;
use crate::charges::pay;
use crate::groups::{Called, called_of};
use crate::homes::any_account;
use cad_making::case_from;
use cad_operators::{converted, greatest, least, plain_tree, truth_in};
use cad_outcomes::{RunError, Stop};
use cad_rows::{Place, Tree, discard_row};
use cad_state::RunState;
use cad_syntax::{CadType, Kind, TypeId};
use cad_text_operators::{address_in, number_read, text_encoded, text_from_bytes};
use cad_types::Builtin;
use cad_values::Value;
use std::alloc::Global;

/// The digits of the bytes that the argument is.
fn encoded(alloc: Global, row: &[Place]) -> Result<Tree, Stop>
    ensures { Gives pure_tree (with_argument (pure_row row.now) texts.text_encoded) result }
{
    match argument(row, 0) {
        Some(tree) => text_encoded(alloc, tree),
        None => Err(Stop::IllTyped),
    }
}

/// The text of the bytes that the argument is.
fn read(alloc: Global, row: &[Place]) -> Result<Tree, Stop>
    ensures { Gives pure_tree (with_argument (pure_row row.now) texts.text_from_bytes) result }
{
    match argument(row, 0) {
        Some(tree) => text_from_bytes(alloc, tree),
        None => Err(Stop::IllTyped),
    }
}

/// The argument as a number of a kind.
fn conversion(alloc: Global, kind: Kind, row: &[Place]) -> Result<Tree, Stop>
    ensures { Gives pure_tree (with_argument (pure_row row.now) (numbers.converted kind)) result }
{
    match argument(row, 0) {
        Some(tree) => converted(alloc, kind, tree),
        None => Err(Stop::IllTyped),
    }
}

/// The number of a kind that the argument writes.
fn parsed(alloc: Global, kind: Kind, row: &[Place]) -> Result<Tree, Stop>
    ensures { Gives pure_tree (with_argument (pure_row row.now) (texts.number_read kind)) result }
{
    match argument(row, 0) {
        Some(tree) => number_read(alloc, kind, tree),
        None => Err(Stop::IllTyped),
    }
}

/// The declared type that a type is.
fn declared_in(t: &CadType) -> Option<&TypeId>
    ensures { option_map (λ id. id.now) result ≡ code.declared_in (pure_type t.now) }
{
    match t {
        CadType::Declared(id) => Some(id),
        _ => None,
    }
}

/// The declared type that the one type argument is.
fn enum_in(types: &[CadType]) -> Option<&TypeId>
    ensures { option_map (λ id. id.now) result ≡ code.enum_in (map (λ t. pure_type t) types.now) }
{
    match types {
        [only] => declared_in(only),
        _ => None,
    }
}

/// The case of an enum with the number that the argument is.
fn case_of(state: &RunState, id: &TypeId, row: &[Place]) -> Result<Tree, Stop>
    ensures { CarriesOut pure_tree (code.case_of id.now (pure_row row.now)) state.now state.now result }
{
    match argument(row, 0) {
        Some(tree) => case_from(state, id, tree),
        None => Err(Stop::IllTyped),
    }
}

/// The case of the enum that the one type argument is.
fn enum_case(state: &RunState, types: &[CadType], row: &[Place]) -> Result<Tree, Stop>
    ensures { CarriesOut pure_tree (spec.type_member builtins.EnumFromRawValue (map (λ t. pure_type t) types.now) (pure_row row.now)) state.now state.now result }
{
    match enum_in(types) {
        Some(id) => case_of(state, id, row),
        None => Err(Stop::IllTyped),
    }
}

/// A member of a type, without its charge; IllTyped of what is none.
fn call_member(
    state: &RunState,
    called: Called,
    types: &[CadType],
    row: &[Place],
) -> Result<Tree, Stop>
    ensures { CarriesOut pure_tree (code.call_member called (map (λ t. pure_type t) types.now) (pure_row row.now)) state.now state.now result }
{
    let alloc = *state.making.allocator();
    match called {
        Called::Encoded => encoded(alloc, row),
        Called::Read => read(alloc, row),
        Called::Converted(kind) => conversion(alloc, kind, row),
        Called::Parsed(kind) => parsed(alloc, kind, row),
        Called::Least(kind) => Ok(least(alloc, kind)),
        Called::Greatest(kind) => Ok(greatest(alloc, kind)),
        Called::Case => enum_case(state, types, row),
        _ => Err(Stop::IllTyped),
    }
}

/// A member of a type, with its charge.
fn paid_call(
    state: &mut RunState,
    called: Called,
    types: &[CadType],
    row: &[Place],
) -> Result<Tree, Stop>
    ensures { CarriesOut pure_tree (spec.paid_for 0 (code.call_member called (map (λ t. pure_type t) types.now) (pure_row row.now))) state.old state.new result }
{
    match call_member(state, called, types, row) {
        Ok(tree) => pay(state, 0, tree),
        Err(stop) => Err(stop),
    }
}

/// The value of what gives none.
fn void_tree(alloc: Global) -> Tree
    ensures { pure_tree result ≡ containers.void_tree }
{
    plain_tree(alloc, Value::Void)
}

/// Assertion where the argument is false.
fn asserted(alloc: Global, row: &[Place]) -> Result<Tree, Stop>
    ensures { Gives pure_tree (spec.asserted (pure_row row.now)) result }
{
    match argument(row, 0) {
        Some(tree) => match truth_in(tree) {
            Some(true) => Ok(void_tree(alloc)),
            Some(false) => Err(Stop::Failed(RunError::Assertion)),
            None => Err(Stop::IllTyped),
        },
        None => Err(Stop::IllTyped),
    }
}

/// A reference without rights to the account with the address that the argument is.
fn account_got(alloc: Global, row: &[Place]) -> Result<Tree, Stop>
    ensures { Gives pure_tree (spec.account_got (pure_row row.now)) result }
{
    match argument(row, 0) {
        Some(tree) => match address_in(tree) {
            Some(address) => Ok(any_account(alloc, address)),
            None => Err(Stop::IllTyped),
        },
        None => Err(Stop::IllTyped),
    }
}

/// A built-in function, or a member of a type.
fn function_of(
    state: &mut RunState,
    called: Called,
    types: &[CadType],
    row: &[Place],
) -> Result<Tree, Stop>
    ensures { CarriesOut pure_tree (code.by_called (map (λ t. pure_type t) types.now) (pure_row row.now) called) state.old state.new result }
{
    match called {
        Called::Panic => Err(Stop::Failed(RunError::Panic)),
        Called::Assert => asserted(*state.making.allocator(), row),
        Called::Log => Ok(void_tree(*state.making.allocator())),
        Called::Account => account_got(*state.making.allocator(), row),
        other => paid_call(state, other, types, row),
    }
}

/// What a built-in function or a member of a type gives, with its charge: Panic and Assertion of the functions of these names,
/// and the errors of the conversion or the text; IllTyped of what is neither, and of arguments that it isn't for.
pub fn function(
    state: &mut RunState,
    builtin: Builtin,
    types: &[CadType],
    arguments: Vec<Place>,
) -> Result<Tree, Stop>
    ensures { CarriesOut pure_tree (spec.function builtin (map (λ t. pure_type t) types.now) (pure_row arguments.items)) state.old state.new result }
{
    let given = function_of(state, called_of(builtin), types, arguments.as_slice());
    discard_row(arguments);
    given
}
