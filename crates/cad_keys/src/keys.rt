// Lists of keys that are found by their hashes.
ghost use Rattle.std.specs.Prelude.{◌≡◌, ◌<◌, ◌≤◌, ◌++◌, [], ◌∷◌, length, take, drop, suc, map, Some, if◌then◌else◌, IfOk, IfSome, OnOk};
ghost use Rattle.cad_keys.specs.Code.Found.{Fits};
ghost use Rattle.cad_keys.specs.Code.Kept.{IsKept};
ghost use Rattle.cad_values.specs.Values.{pure_value};
ghost use Rattle.cad_world.specs.Locations.{key_position};

use crate::hashes::key_hash;
use crate::index::{Index, MOST};
use crate::same::same_key;
use cad_values::Value;
use std::alloc::{AllocError, Global};
use std::marker::Model;

/// As many keys as this have an index.
const MANY: usize = 16;

/// The keys of a dictionary, in order; contracts see them as a list. From 16 on they are found by an index.
#[derive(Debug, Drop)]
pub struct Keys {
    rows: Vec<Value>,
    index: Option<Box<Index>>,
}

impl Model for Keys {
    ghost use Rattle.std.specs.Prelude.{List};
    ghost use Rattle.std.specs.Coded.{coded_list};
    ghost use Rattle.cad_values.specs.declared.value.Value.{Value as Key};
    ghost use Rattle.cad_values.specs.contracts.value.Value as declared;
    ghost use Rattle.cad_keys.specs.Code.Kept.{IsKept};

    ghost Value = { List Key };

    ghost coded = { coded_list declared.the_row.coded };

    ghost view = { λ keys. keys.rows.items };

    ghost invariant = { λ keys. IsKept keys.index keys.rows.items };
}

impl Keys {
    /// No keys.
    pub fn new(alloc: Global) -> Keys
        ensures { result ≡ [] }
    {
        Keys {
            rows: Vec::new(alloc),
            index: None,
        }
    }

    /// These keys.
    pub fn from_vec(alloc: Global, rows: Vec<Value>) -> Result<Keys, AllocError>
        ensures { IfOk result (λ keys. keys ≡ rows.items) }
    {
        let index = index_of(alloc, rows.as_slice())?;
        Ok(Keys { rows, index })
    }

    /// All of them, in order.
    pub fn as_slice(&self) -> &[Value]
        ensures { result.now ≡ self.now }
    {
        self.rows.as_slice()
    }

    /// How many there are.
    pub fn len(&self) -> usize
        ensures { result ≡ length self.now }
    {
        self.rows.len()
    }

    /// Where a key stands: the first place of one that is the same.
    pub fn position(&self, alloc: Global, key: &Value) -> Result<Option<usize>, AllocError>
        ensures value { IfOk result (λ o. o ≡ key_position (pure_value key.now) (map pure_value self.now)) }
        ensures bound { IfOk result (λ o. IfSome o (λ i. i < length self.now)) }
    {
        let rows = self.rows.as_slice();
        match &self.index {
            Some(index) => walk(alloc, index, key, rows),
            None => look(alloc, key, rows),
        }
    }

    /// One key more, which comes last. Where memory fails, the key is let go, and the others stay.
    pub fn push(&mut self, key: Value) -> Result<(), AllocError>
        ensures { OnOk result (self.new ≡ self.old ++ key ∷ []) }
    {
        let alloc = *self.rows.allocator();
        let index = match grown(alloc, self.index.take(), self.rows.as_slice(), &key) {
            Ok(index) => index,
            Err(error) => {
                drop(key);
                return Err(error);
            }
        };
        self.rows.push(key)?;
        self.index = index;
        Ok(())
    }

    /// The key at a place goes, and the later ones move down.
    pub fn remove(&mut self, place: usize) -> Value
        requires { place < length self.old }
        ensures { self.new ≡ take place self.old ++ drop (suc place) self.old }
    {
        self.index = without(self.index.take(), self.rows.as_slice(), place);
        self.rows.remove(place)
    }
}

/// Where a key stands, by a look at one after another.
fn look(alloc: Global, key: &Value, rows: &[Value]) -> Result<Option<usize>, AllocError>
    ensures value { IfOk result (λ o. o ≡ key_position (pure_value key.now) (map pure_value rows.now)) }
    ensures bound { IfOk result (λ o. IfSome o (λ i. i < length rows.now)) }
{
    for i in 0..rows.len() {
        if same_key(alloc, key, &rows[i])? {
            return Ok(Some(i));
        }
    }
    Ok(None)
}

/// Where a key stands, by a walk through its bucket from the last place on.
fn walk(
    alloc: Global,
    index: &Index,
    key: &Value,
    rows: &[Value],
) -> Result<Option<usize>, AllocError>
    requires { Fits index.now rows.now }
    ensures value { IfOk result (λ o. o ≡ key_position (pure_value key.now) (map pure_value rows.now)) }
    ensures bound { IfOk result (λ o. IfSome o (λ i. i < length rows.now)) }
{
    let hash = key_hash(alloc, key)?;
    let mut next = index.last(hash);
    let mut found = None;
    while next > 0 {
        let place = next - 1;
        let equal = same_key(alloc, key, &rows[place])?;
        found = chosen(equal, place, found);
        next = index.before(place);
    }
    Ok(found)
}

/// A place where a test holds, and else what was found before.
fn chosen(is: bool, place: usize, found: Option<usize>) -> Option<usize>
    ensures { result ≡ (if is then Some place else found) }
{
    if is { Some(place) } else { found }
}

/// The index of keys; none of few keys.
fn index_of(alloc: Global, rows: &[Value]) -> Result<Option<Box<Index>>, AllocError>
    ensures { IfOk result (λ index. IsKept index rows.now) }
{
    if rows.len() < MANY || rows.len() > MOST {
        return Ok(None);
    }
    let index = filled(alloc, rows)?;
    Ok(Some(Box::new(alloc, index)?))
}

/// The index of some keys, with twice as many buckets.
fn filled(alloc: Global, rows: &[Value]) -> Result<Index, AllocError>
    requires some { 0 < length rows.now }
    requires room { length rows.now ≤ 2147483647 }
    ensures { IfOk result (λ index. Fits index rows.now) }
{
    let mut index = Index::new(alloc, 2 * rows.len())?;
    for row in rows {
        let hash = key_hash(alloc, row)?;
        index.push(hash)?;
    }
    Ok(index)
}

/// The index of keys and one more, from that of the keys; none where there is none, and where it has no room.
fn with_key(
    alloc: Global,
    index: Option<Box<Index>>,
    rows: &[Value],
    key: &Value,
) -> Result<Option<Box<Index>>, AllocError>
    requires { IsKept index rows.now }
    ensures { IfOk result (λ more. IsKept more (rows.now ++ key.now ∷ [])) }
{
    let Some(mut index) = index else {
        return Ok(None);
    };
    if !index.has_room() {
        return Ok(None);
    }
    let hash = key_hash(alloc, key)?;
    index.push(hash)?;
    Ok(Some(index))
}

/// The index of keys, made anew where there is none or where it has no room for one more.
fn ready(
    alloc: Global,
    index: Option<Box<Index>>,
    rows: &[Value],
) -> Result<Option<Box<Index>>, AllocError>
    requires { IsKept index rows.now }
    ensures { IfOk result (λ more. IsKept more rows.now) }
{
    match index {
        Some(index) => {
            if index.has_room() {
                return Ok(Some(index));
            }
            index_of(alloc, rows)
        }
        None => index_of(alloc, rows),
    }
}

/// The index of keys and one more, made anew where there is none or where it has no room.
fn grown(
    alloc: Global,
    index: Option<Box<Index>>,
    rows: &[Value],
    key: &Value,
) -> Result<Option<Box<Index>>, AllocError>
    requires { IsKept index rows.now }
    ensures { IfOk result (λ more. IsKept more (rows.now ++ key.now ∷ [])) }
{
    let made = ready(alloc, index, rows)?;
    with_key(alloc, made, rows, key)
}

/// The index of keys without the one at a place.
fn without(index: Option<Box<Index>>, rows: &[Value], place: usize) -> Option<Box<Index>>
    requires place { place < length rows.now }
    requires kept { IsKept index rows.now }
    ensures { IsKept result (take place rows.now ++ drop (suc place) rows.now) }
{
    let Some(mut index) = index else {
        return None;
    };
    index.remove(place);
    Some(index)
}
