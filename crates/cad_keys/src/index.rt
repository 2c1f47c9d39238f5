// Where keys stand by their hashes: numbers alone, in two lists.
ghost use Rattle.std.specs.Prelude.{◌≡◌, ◌≤◌, ◌<◌, ◌%◌, ◌^◌, ◌↔◌, ◌++◌, [], ◌∷◌, length, min, set, replicate, get_or, suc, vec_len, IsTrue, IfOk, OnOk};
ghost use Rattle.std.specs.List.{remove};
ghost use Rattle.cad_keys.specs.Code.Indices.{AreShifted, IsShifted};

use std::alloc::{AllocError, Global};

/// The most places of an index, so that their numbers fit.
pub(crate) const MOST: usize = 0x7FFF_FFFF;

/// Of each bucket of hashes the last place, and of each place the one before it in its bucket. Place `i` is written `i + 1`, and
/// none 0.
#[derive(Debug, Drop)]
pub(crate) struct Index {
    heads: Vec<u32>,
    links: Vec<u32>,
}

impl Index {
    /// An index of no places, with so many buckets.
    pub(crate) fn new(alloc: Global, buckets: usize) -> Result<Index, AllocError>
        ensures heads { IfOk result (λ index. index.heads.items ≡ replicate buckets 0) }
        ensures links { IfOk result (λ index. index.links.items ≡ []) }
    {
        let heads = vec![in alloc; 0u32; buckets]?;
        Ok(Index {
            heads,
            links: Vec::new(alloc),
        })
    }

    /// Whether there is room for one more place, with no more places than buckets.
    pub(crate) fn has_room(&self) -> bool
        ensures { IsTrue result ↔ (length self.now.links.items < min (length self.now.heads.items) 2147483647) }
    {
        self.links.len() < self.heads.len().min(MOST)
    }

    /// The last place of a hash's bucket.
    pub(crate) fn last(&self, hash: u64) -> usize
        requires { 0 < vec_len self.now.heads }
        ensures { result ≡ get_or self.now.heads.items (hash % length self.now.heads.items) 0 }
    {
        let bucket = (hash % self.heads.len() as u64) as usize;
        self.heads[bucket] as usize
    }

    /// The place before a place in its bucket.
    pub(crate) fn before(&self, place: usize) -> usize
        ensures { result ≡ get_or self.now.links.items place 0 }
    {
        match self.links.get(place) {
            Some(link) => *link as usize,
            None => 0,
        }
    }

    /// A hash more, which comes last.
    pub(crate) fn push(&mut self, hash: u64) -> Result<(), AllocError>
        requires buckets { 0 < vec_len self.old.heads }
        requires room { vec_len self.old.links < 2147483647 }
        ensures heads { OnOk result (self.new.heads.items ≡ set self.old.heads.items (hash % length self.old.heads.items) (suc (length self.old.links.items))) }
        ensures links { OnOk result (self.new.links.items ≡ self.old.links.items ++ get_or self.old.heads.items (hash % length self.old.heads.items) 0 ∷ []) }
    {
        let bucket = (hash % self.heads.len() as u64) as usize;
        let before = self.heads[bucket];
        self.links.push(before)?;
        self.heads[bucket] = self.links.len() as u32;
        Ok(())
    }

    /// A place goes, and the later ones move down.
    pub(crate) fn remove(&mut self, place: usize)
        requires { place < vec_len self.old.links }
        ensures heads { AreShifted place (get_or self.old.links.items place 0) self.old.heads.items self.new.heads.items }
        ensures links { AreShifted place (get_or self.old.links.items place 0) (remove self.old.links.items place) self.new.links.items }
    {
        let link = self.links.remove(place);
        shift_all(&mut self.heads, place, link);
        shift_all(&mut self.links, place, link);
    }
}

/// A number of an index behind the removal of a place.
fn shifted(number: u32, place: usize, link: u32) -> u32
    ensures { IsShifted place link number result }
{
    if number as usize <= place {
        number
    } else if number as usize - 1 == place {
        link
    } else {
        number - 1
    }
}

/// The numbers of an index behind the removal of a place.
fn shift_all(numbers: &mut Vec<u32>, place: usize, link: u32)
    ensures { AreShifted place link numbers.old.items numbers.new.items }
{
    for i in 0..numbers.len() {
        let number = numbers[i];
        numbers[i] = shifted(number, place, link);
    }
}
