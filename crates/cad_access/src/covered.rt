// Whether what a mapping makes of an authorization covers a right.
ghost use Rattle.std.specs.Prelude.{◌≡◌, ◌&&◌, [], ◌∷◌};
ghost use Rattle.std.specs.List.{list_all, list_any};
ghost use Rattle.cad_syntax.specs.TypeIds.{same_id};
ghost use Rattle.cad_auth.specs.Grants.{sets};
ghost use Rattle.cad_auth.specs.Images.{targets};
ghost use Rattle.cad_auth.specs.Tests.{covers};
ghost use Rattle.cad_access.specs.Covered as spec;

use cad_auth::Mapping;
use cad_syntax::{Authorization, TypeId};
use std::slice;

/// Whether what a mapping makes of an authorization covers a right.
#[tactic(auto, using(crate::proofs::CoveredLaws::covered_is))]
pub fn is_covered(mapping: &Mapping, own: &Authorization, right: &Authorization) -> bool
    ensures { result ≡ covers (targets mapping.now own.now) (sets right.now) }
{
    makes(mapping, own, right)
}

/// Whether a mapping makes each entitlement of itself, and these are one.
fn maps_itself(mapping: &Mapping, to: &TypeId, from: &TypeId) -> bool
    ensures { result ≡ (mapping.now.identity && same_id from.now to.now) }
{
    mapping.identity && from.same(to)
}

/// Whether one of these pairs is of these two entitlements.
fn has_pair(pairs: &[(TypeId, TypeId)], to: &TypeId, from: &TypeId) -> bool
    ensures { result ≡ list_any (λ pair. same_id pair.0 from.now && same_id pair.1 to.now) pairs.now }
{
    pairs
        .iter()
        .any(|pair| pair.0.same(from) && pair.1.same(to))
}

/// Whether a mapping makes one entitlement of another.
fn maps_to(mapping: &Mapping, to: &TypeId, from: &TypeId) -> bool
    ensures { result ≡ spec.maps_to mapping.now to.now from.now }
{
    maps_itself(mapping, to, from) || has_pair(mapping.pairs.as_slice(), to, from)
}

/// Whether a mapping makes an entitlement of some member of a set.
fn makes_one(mapping: &Mapping, set: &[TypeId], to: &TypeId) -> bool
    ensures { result ≡ list_any (spec.maps_to mapping.now to.now) set.now }
{
    set.iter().any(|from| maps_to(mapping, to, from))
}

/// Whether a mapping makes each of these entitlements of some member of a set.
fn makes_all(mapping: &Mapping, set: &[TypeId], part: &[TypeId]) -> bool
    ensures { result ≡ spec.makes_all mapping.now set.now part.now }
{
    part.iter().all(|to| makes_one(mapping, set, to))
}

/// Whether a mapping makes one of these entitlements of some member of a set.
fn makes_any(mapping: &Mapping, set: &[TypeId], ids: &[TypeId]) -> bool
    ensures { result ≡ list_any (λ to. list_any (spec.maps_to mapping.now to) set.now) ids.now }
{
    ids.iter().any(|to| makes_one(mapping, set, to))
}

/// Whether a mapping makes of a set what is enough for a right.
#[tactic(auto, using(crate::proofs::CoveredLaws::some_of_all, crate::proofs::CoveredLaws::some_of_any))]
fn makes_some(mapping: &Mapping, right: &Authorization, set: &[TypeId]) -> bool
    ensures { result ≡ spec.makes_some mapping.now right.now set.now }
{
    match right {
        Authorization::Unauthorized => true,
        Authorization::All(ids) => makes_all(mapping, set, ids.as_slice()),
        Authorization::Any(ids) => match ids.as_slice() {
            [] => true,
            [_, ..] => makes_any(mapping, set, ids.as_slice()),
        },
    }
}

/// Whether a mapping makes of each of these entitlements alone what is enough for a right.
fn makes_of_each(mapping: &Mapping, right: &Authorization, ids: &[TypeId]) -> bool
    ensures { result ≡ list_all (λ from. spec.makes_some mapping.now right.now (from ∷ [])) ids.now }
{
    ids.iter()
        .all(|from| makes_some(mapping, right, slice::from_ref(from)))
}

/// Whether a mapping makes of each set of an authorization what is enough for a right.
#[tactic(auto, using(crate::proofs::CoveredLaws::each_of_all, crate::proofs::CoveredLaws::each_of_none, crate::proofs::CoveredLaws::each_of_no_choice, crate::proofs::CoveredLaws::each_of_any))]
fn makes(mapping: &Mapping, own: &Authorization, right: &Authorization) -> bool
    ensures { result ≡ spec.makes mapping.now own.now right.now }
{
    match own {
        Authorization::Unauthorized => makes_some(mapping, right, &[]),
        Authorization::All(ids) => makes_some(mapping, right, ids.as_slice()),
        Authorization::Any(ids) => match ids.as_slice() {
            [] => makes_some(mapping, right, &[]),
            [_, ..] => makes_of_each(mapping, right, ids.as_slice()),
        },
    }
}
