// What is read of dictionaries. Nothing of it touches the state.
ghost use Rattle.std.specs.Prelude.{◌≡◌, Ok, OnOk, length, map};
ghost use Rattle.cad_containers.specs.Code.Members.{dictionary_read};
ghost use Rattle.cad_evaluation.specs.Containers as spec;
ghost use Rattle.cad_evaluation.specs.Texts.{given_int};
ghost use Rattle.cad_outcomes.specs.Outcomes.{Gives};
ghost use Rattle.cad_rows.specs.Views.{pure_row, pure_tree};
ghost use Rattle.cad_syntax.specs.Types.{pure_type};
ghost use Rattle.cad_values.specs.Values.{pure_value};
ghost use Rattle.cad_evaluation.specs.Numbers.{bool_tree as truth_tree};
ghost use Rattle.cad_world.specs.Locations as locations;
ghost use Rattle.cad_world.specs.Rows as rows;
ghost use Rattle.cad_world.specs.State.{give};

use crate::copies::{array_copy, array_with};
use crate::parts::{Entries, argument_at};
use cad_operators::{bool_tree, count_tree};
use cad_outcomes::Stop;
use cad_rows::{Keys, Place, Tree, add_last, discard_row};
use cad_state::discard_value;
use cad_syntax::CadType;
use cad_types::Builtin;
use cad_value_trees::{tree_from_value, value_from_tree};
use cad_values::Value;
use std::alloc::{AllocError, Global};

/// How many keys there are, as an Int.
fn length(alloc: Global, keys: &Keys) -> Tree
    ensures { Gives pure_tree (given_int (length (map pure_value keys.now))) (Ok result) }
{
    count_tree(alloc, keys.len() as u64)
}

/// The trees of keys come behind a row.
fn push_keys(alloc: Global, keys: &[Value], row: &mut Vec<Place>) -> Result<(), AllocError>
    ensures { OnOk result (pure_row row.new.items ≡ rows.join (pure_row row.old.items) (spec.keys_row (map pure_value keys.now))) }
{
    for key in keys {
        let tree = tree_from_value(alloc, key)?;
        add_last(row, tree)?;
    }
    Ok(())
}

/// An array of the keys.
fn keys(alloc: Global, key: &CadType, keys: &Keys) -> Result<Tree, Stop>
    ensures { Gives pure_tree (spec.dictionary_keys (pure_type key.now) (map pure_value keys.now)) result }
{
    let mut row = Vec::new(alloc);
    match push_keys(alloc, keys.as_slice(), &mut row) {
        Ok(()) => match array_with(key, row) {
            Ok(tree) => Ok(tree),
            Err(_) => Err(Stop::Memory),
        },
        Err(_) => {
            discard_row(row);
            Err(Stop::Memory)
        }
    }
}

/// Whether a value is a key.
fn contains_key(alloc: Global, keys: &Keys, value: &Tree) -> Result<Tree, Stop>
    ensures { Gives pure_tree (spec.contains_key (map pure_value keys.now) (pure_tree value.now)) result }
{
    match value_from_tree(alloc, value) {
        Ok(key) => told_key(alloc, keys, key),
        Err(_) => Err(Stop::Memory),
    }
}

/// Whether there is a key.
fn told_key(alloc: Global, keys: &Keys, key: Value) -> Result<Tree, Stop>
    ensures { Gives pure_tree (give (truth_tree (spec.is_found (locations.key_position (pure_value key) (map pure_value keys.now))))) result }
{
    let position = keys.position(alloc, &key);
    discard_value(key);
    match position {
        Ok(Some(_)) => Ok(bool_tree(alloc, true)),
        Ok(None) => Ok(bool_tree(alloc, false)),
        Err(_) => Err(Stop::Memory),
    }
}

/// What is read of a dictionary, over the arguments: `length`, `keys`, `values` and `containsKey`. IllTyped of all other members,
/// and where an argument is lacking.
pub(crate) fn read_dictionary(
    alloc: Global,
    member: Builtin,
    dictionary: Entries<'_>,
    arguments: &[Place],
) -> Result<Tree, Stop>
    ensures { Gives pure_tree (dictionary_read member (pure_row arguments.now) (pure_type dictionary.entry.key.now) (pure_type dictionary.entry.value.now) (map pure_value dictionary.entry.keys.now) (pure_row dictionary.entry.parts.now)) result }
{
    match member {
        Builtin::DictionaryLength => Ok(length(alloc, dictionary.keys)),
        Builtin::DictionaryKeys => keys(alloc, dictionary.key, dictionary.keys),
        Builtin::DictionaryValues => array_copy(alloc, dictionary.value, dictionary.parts),
        Builtin::DictionaryContainsKey => match argument_at(arguments, 0) {
            Some(value) => contains_key(alloc, dictionary.keys, value),
            None => Err(Stop::IllTyped),
        },
        _ => Err(Stop::IllTyped),
    }
}
