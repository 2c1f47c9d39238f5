// Arguments: values, and paths into storage.
ghost use Rattle.std.specs.Prelude.{◌≡◌, option_and_then, option_map};
ghost use Rattle.cad_evaluation.specs.Arguments as spec;
ghost use Rattle.cad_rows.specs.Places.{slot_in};
ghost use Rattle.cad_rows.specs.Views.{pure_place, pure_row, pure_tree};
ghost use Rattle.cad_syntax.specs.declared.address.Domain.TheVariants as d;
ghost use Rattle.cad_values.specs.Values.{pure_value};
ghost use Rattle.cad_world.specs.Same.{same_domain};

use cad_operators::plain_value;
use cad_rows::{Place, Slot, Tree, discard_row, tree_at};
use cad_syntax::{Domain, Name, Numbers};
use cad_values::Value;
use std::mem::replace;

/// The argument at a place of the row.
fn argument(row: &[Place], i: usize) -> Option<&Tree>
    ensures { option_map (λ t. pure_tree t.now) result ≡ spec.argument i (pure_row row.now) }
{
    match tree_at(row, i) {
        Slot::Full(tree) => Some(tree),
        _ => None,
    }
}

/// Whether a domain is that of storage.
fn is_storage(domain: Domain) -> bool
    ensures { result ≡ same_domain domain d.Storage }
{
    match domain {
        Domain::Storage => true,
        Domain::Public => false,
    }
}

/// The identifier of a path into storage that a value is.
fn identifier_in_value(value: &Value) -> Option<&Name>
    ensures { option_map (λ n. n.now) result ≡ spec.identifier_in_value d.Storage (pure_value value.now) }
{
    match value {
        Value::Path(path) => {
            if is_storage(path.domain) {
                Some(&path.identifier)
            } else {
                None
            }
        }
        _ => None,
    }
}

/// The identifier of a path into storage that a tree is.
fn identifier_in(tree: &Tree) -> Option<&Name>
    ensures { option_map (λ n. n.now) result ≡ spec.identifier_in d.Storage (pure_tree tree.now) }
{
    match plain_value(tree) {
        Some(value) => identifier_in_value(value),
        None => None,
    }
}

/// The identifier of the path into storage that is the argument at a place.
pub(crate) fn identifier_at(row: &[Place], i: usize) -> Option<&Name>
    ensures { option_map (λ n. n.now) result ≡ option_and_then (spec.identifier_in d.Storage) (spec.argument i (pure_row row.now)) }
{
    match argument(row, i) {
        Some(tree) => identifier_in(tree),
        None => None,
    }
}

/// Lets labels go.
fn discard_labels(labels: Numbers) {
    drop(labels)
}

/// The node of a place that is taken apart.
fn node_of(place: Place) -> Option<Tree>
    ensures { option_map pure_tree result ≡ spec.in_slot (slot_in (pure_place place)) }
{
    match place {
        Place::Empty => None,
        Place::Full(labels, tree) => {
            discard_labels(labels);
            Some(tree)
        }
    }
}

/// The first argument; the others are let go.
#[tactic(auto, using(crate::proofs::ArgumentLaws::first_there, crate::proofs::ArgumentLaws::first_nowhere))]
pub(crate) fn take_first(row: Vec<Place>) -> Option<Tree>
    ensures { option_map pure_tree result ≡ spec.argument 0 (pure_row row.items) }
{
    let mut left = row;
    if 0 < left.len() {
        let place = replace(&mut left[0], Place::Empty);
        discard_row(left);
        return node_of(place);
    }
    discard_row(left);
    None
}
