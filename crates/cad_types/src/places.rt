// Where identifiers stand.
ghost use Rattle.std.specs.Prelude.{◌≡◌, IfOk, map};
ghost use Rattle.cad_types.specs.Places.{ArePlaces};

use cad_syntax::TypeId;
use std::alloc::{AllocError, Global};
use std::collections::HashMap;

/// The first place of each identifier of a list.
pub type Places = HashMap<TypeId, usize>;

/// The first place of each of these identifiers.
pub fn places_of(alloc: Global, ids: &[&TypeId]) -> Result<Places, AllocError>
    ensures { IfOk result (λ places. ArePlaces places (map (λ id. id.now) ids.now)) }
{
    let mut places = HashMap::new(alloc);
    let mut left = ids.len();
    while left > 0 {
        left -= 1;
        places.insert(ids[left].clone()?, left)?;
    }
    Ok(places)
}
