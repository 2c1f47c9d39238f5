// When two values are the same, by a walk through both. It takes memory for NFC forms alone.
ghost use Rattle.std.specs.Prelude.{◌≡◌, ◌≢◌, true, length, map, Some, IfOk, IfSome};
ghost use Rattle.cad_evaluation.specs.Operators as spec;
ghost use Rattle.cad_operators.specs.Heads as heads;
ghost use Rattle.cad_rows.specs.Views.{pure_place, pure_row, pure_shape, pure_tree};
ghost use Rattle.cad_values.specs.Values.{pure_value};
ghost use Rattle.cad_world.specs.Same.{equal_elements};
ghost use Rattle.cad_world.specs.Trees.{keyed, values_in};

use crate::heads::{Head, are_full, nodes_tell};
use cad_keys::Keys;
use cad_rows::{Place, Shape, Tree};
use cad_values::Value;
use std::alloc::{AllocError, Global};

/// The keys of a dictionary; none of another node.
fn keys_of(shape: &Shape) -> &[Value]
    ensures { map pure_value result.now ≡ heads.keys_in (pure_shape shape.now) }
{
    match shape {
        Shape::Dictionary { keys, .. } => keys.as_slice(),
        _ => &[],
    }
}

/// The keys of a dictionary, to look among them; None of another node.
fn list_of(shape: &Shape) -> Option<&Keys>
    ensures { IfSome result (λ keys. map pure_value keys.now ≡ heads.keys_in (pure_shape shape.now)) }
{
    match shape {
        Shape::Dictionary { keys, .. } => Some(keys),
        _ => None,
    }
}

/// Whether there is a value for each key.
fn are_entries(keys: &[Value], row: &[Place]) -> bool
    ensures { result ≡ heads.are_entries (map pure_value keys.now) (map pure_place row.now) }
{
    keys.len() == row.len() && are_full(row)
}

/// Whether there is a value for each key of a list.
fn has_entries(keys: &Keys, row: &[Place]) -> bool
    ensures { result ≡ heads.are_entries (map pure_value keys.now) (map pure_place row.now) }
{
    keys.len() == row.len() && are_full(row)
}

/// Rows of other lengths aren't the same. Want of memory is told of a row with an empty place, as no value in hand has one.
fn differ(a: &[Place], b: &[Place]) -> Result<bool, AllocError>
    requires { length a.now ≢ length b.now }
    ensures { IfOk result (λ is. is ≡ equal_elements (values_in (pure_row a.now)) (values_in (pure_row b.now))) }
{
    if are_full(a) && are_full(b) {
        Ok(false)
    } else {
        Err(AllocError)
    }
}

/// Whether two values are the same: containers by what they hold whatever their types are, dictionaries whatever the order
/// of their keys is, cases of enums by their numbers, texts and characters by their NFC forms. Structs, resources, references
/// and capabilities are the same as nothing. Want of memory is told of nodes that no action makes too: a node without parts
/// whose value has some, and one with an empty place.
#[cycle(sames)]
pub fn same(alloc: Global, a: &Tree, b: &Tree) -> Result<bool, AllocError>
    ensures { IfOk result (λ is. is ≡ spec.same (pure_tree a.now) (pure_tree b.now)) }
{
    match nodes_tell(alloc, a, b) {
        Ok(Head::Told(is)) => Ok(is),
        Ok(Head::Elements) => same_elements(alloc, a.parts.as_slice(), b.parts.as_slice()),
        Ok(Head::Entries) => match list_of(&b.shape) {
            Some(b_keys) => same_entries(
                alloc,
                a.parts.as_slice(),
                keys_of(&a.shape),
                b.parts.as_slice(),
                b_keys,
            ),
            None => Err(AllocError),
        },
        Err(error) => Err(error),
    }
}

/// Whether what stands in two places is the same.
#[cycle(sames)]
fn same_place(alloc: Global, a: &Place, b: &Place) -> Result<bool, AllocError>
    ensures { IfOk result (λ is. Some is ≡ heads.same_place (pure_place a.now) (pure_place b.now)) }
{
    match a {
        Place::Empty => Err(AllocError),
        Place::Full(_, x) => match b {
            Place::Empty => Err(AllocError),
            Place::Full(_, y) => same(alloc, x, y),
        },
    }
}

/// Whether what stands in two rows is the same, one by one.
#[cycle(sames)]
fn same_elements(alloc: Global, a: &[Place], b: &[Place]) -> Result<bool, AllocError>
    ensures { IfOk result (λ is. is ≡ equal_elements (values_in (pure_row a.now)) (values_in (pure_row b.now))) }
{
    if a.len() != b.len() {
        return differ(a, b);
    }
    for i in 0..a.len() {
        if !same_place(alloc, &a[i], &b[i])? {
            return Ok(false);
        }
    }
    Ok(true)
}

/// Whether what stands in a place is what stands under the key.
#[cycle(sames)]
fn same_under(
    alloc: Global,
    a: &Place,
    key: &Value,
    b: &[Place],
    b_keys: &Keys,
) -> Result<bool, AllocError>
    requires { heads.are_entries (map pure_value b_keys.now) (map pure_place b.now) ≡ true }
    ensures { IfOk result (λ is. heads.Under is (pure_place a.now) (pure_value key.now) (keyed (map pure_value b_keys.now) (values_in (pure_row b.now)))) }
{
    match b_keys.position(alloc, key) {
        Ok(Some(j)) => same_place(alloc, a, &b[j]),
        Ok(None) => Ok(false),
        Err(error) => Err(error),
    }
}

/// Whether two dictionaries are the same.
#[cycle(sames)]
fn same_entries(
    alloc: Global,
    a: &[Place],
    a_keys: &[Value],
    b: &[Place],
    b_keys: &Keys,
) -> Result<bool, AllocError>
    ensures { IfOk result (λ is. is ≡ heads.equal_entries (map pure_value a_keys.now) (pure_row a.now) (map pure_value b_keys.now) (pure_row b.now)) }
{
    if !are_entries(a_keys, a) {
        return Err(AllocError);
    }
    if !has_entries(b_keys, b) {
        return Err(AllocError);
    }
    if a.len() != b.len() {
        return Ok(false);
    }
    for i in 0..a.len() {
        if !same_under(alloc, &a[i], &a_keys[i], b, b_keys)? {
            return Ok(false);
        }
    }
    Ok(true)
}
