// Arguments of built-in members: a row, one in each place.
ghost use Rattle.std.specs.Prelude.{◌≡◌, option_and_then, option_map};
ghost use Rattle.cad_capabilities.specs.Views as views;
ghost use Rattle.cad_evaluation.specs.Arguments as spec;
ghost use Rattle.cad_evaluation.specs.Capabilities.{capability_in, capability_in_value};
ghost use Rattle.cad_rows.specs.Views.{pure_row, pure_tree};
ghost use Rattle.cad_values.specs.Values.{pure_value};
ghost use Rattle.cad_world.specs.Same.{same_domain};

use cad_operators::plain_value;
use cad_rows::{Place, Slot, Tree, tree_at};
use cad_syntax::{Domain, Name};
use cad_values::{Cap, Value};

/// The argument at a place of the row.
pub(crate) fn argument(row: &[Place], i: usize) -> Option<&Tree>
    ensures { option_map (λ t. pure_tree t.now) result ≡ spec.argument i (pure_row row.now) }
{
    match tree_at(row, i) {
        Slot::Full(tree) => Some(tree),
        _ => None,
    }
}

/// Whether a domain is the other.
fn is_domain(domain: Domain, other: Domain) -> bool
    ensures { result ≡ same_domain domain other }
{
    match domain {
        Domain::Storage => matches!(other, Domain::Storage),
        Domain::Public => matches!(other, Domain::Public),
    }
}

/// The identifier of the path into a domain that a value is.
fn identifier_in_value(domain: Domain, value: &Value) -> Option<&Name>
    ensures { option_map (λ n. n.now) result ≡ spec.identifier_in_value domain (pure_value value.now) }
{
    match value {
        Value::Path(path) => {
            if is_domain(path.domain, domain) {
                Some(&path.identifier)
            } else {
                None
            }
        }
        _ => None,
    }
}

/// The identifier of the path into a domain that a tree is.
fn identifier_in(domain: Domain, tree: &Tree) -> Option<&Name>
    ensures { option_map (λ n. n.now) result ≡ spec.identifier_in domain (pure_tree tree.now) }
{
    match plain_value(tree) {
        Some(value) => identifier_in_value(domain, value),
        None => None,
    }
}

/// The identifier of the path into a domain that the argument at a place is.
pub(crate) fn identifier(domain: Domain, row: &[Place], i: usize) -> Option<&Name>
    ensures { option_map (λ n. n.now) result ≡ option_and_then (spec.identifier_in domain) (spec.argument i (pure_row row.now)) }
{
    match argument(row, i) {
        Some(tree) => identifier_in(domain, tree),
        None => None,
    }
}

/// The capability that a value is.
pub(crate) fn capability_in_value(value: &Value) -> Option<&Cap>
    ensures { option_map (λ c. views.capability_of c.now) result ≡ capability_in_value (pure_value value.now) }
{
    match value {
        Value::Capability(cap) => Some(cap),
        _ => None,
    }
}

/// The capability that a tree is.
fn capability_in(tree: &Tree) -> Option<&Cap>
    ensures { option_map (λ c. views.capability_of c.now) result ≡ capability_in (pure_tree tree.now) }
{
    match plain_value(tree) {
        Some(value) => capability_in_value(value),
        None => None,
    }
}

/// The capability that the argument at a place is.
pub(crate) fn capability(row: &[Place], i: usize) -> Option<&Cap>
    ensures { option_map (λ c. views.capability_of c.now) result ≡ option_and_then capability_in (spec.argument i (pure_row row.now)) }
{
    match argument(row, i) {
        Some(tree) => capability_in(tree),
        None => None,
    }
}
