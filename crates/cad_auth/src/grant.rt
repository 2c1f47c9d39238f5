// Which authorization serves where another is needed.
ghost use Rattle.std.specs.Prelude.{◌≡◌, ◌↔◌, IsTrue};
ghost use Rattle.std.specs.List.{list_all, list_any};
ghost use Rattle.cad_syntax.specs.TypeIds.{has};
ghost use Rattle.cad_auth.specs.Grants.{Grants, single};
ghost use Rattle.cad_auth.specs.Images as images;
ghost use Rattle.cad_auth.specs.Code.Tests as spec;

use cad_syntax::{Authorization, TypeId, contains};
use std::slice;

/// Whether what a holder has serves where `need` is asked for: each set of entitlements that the holder may have contains
/// a set that is enough.
pub fn grants(holder: &Authorization, need: &Authorization) -> bool
    ensures { IsTrue result ↔ Grants holder.now need.now }
{
    may_serve(holder, need)
}

/// Whether `b` may stand where `a` is asked for.
pub fn weaker(a: &Authorization, b: &Authorization) -> bool
    ensures { IsTrue result ↔ Grants b.now a.now }
{
    grants(b, a)
}

fn may_serve(holder: &Authorization, need: &Authorization) -> bool
    ensures { result ≡ spec.grants holder.now need.now }
{
    match holder {
        Authorization::Unauthorized => is_enough(&[], need),
        Authorization::All(entitlements) => is_enough(entitlements.as_slice(), need),
        Authorization::Any(entitlements) => {
            if entitlements.is_empty() {
                is_enough(&[], need)
            } else {
                each_is_enough(entitlements.as_slice(), need)
            }
        }
    }
}

/// Whether each of these entitlements alone is enough.
fn each_is_enough(entitlements: &[TypeId], need: &Authorization) -> bool
    ensures { result ≡ list_all (λ entitlement. spec.is_enough (single entitlement) need.now) entitlements.now }
{
    entitlements.iter().all(|entitlement| is_enough(slice::from_ref(entitlement), need))
}

/// Whether a set of entitlements contains a set that is enough.
fn is_enough(set: &[TypeId], need: &Authorization) -> bool
    ensures { result ≡ spec.is_enough set.now need.now }
{
    match need {
        Authorization::Unauthorized => true,
        Authorization::All(entitlements) => includes(set, entitlements.as_slice()),
        Authorization::Any(entitlements) => {
            entitlements.is_empty() || has_some(set, entitlements.as_slice())
        }
    }
}

/// Whether each entitlement of `part` is one of `set`.
pub(crate) fn includes(set: &[TypeId], part: &[TypeId]) -> bool
    ensures { result ≡ images.includes set.now part.now }
{
    part.iter().all(|entitlement| contains(set, entitlement))
}

/// Whether some entitlement of `part` is one of `set`.
fn has_some(set: &[TypeId], part: &[TypeId]) -> bool
    ensures { result ≡ list_any (has set.now) part.now }
{
    part.iter().any(|entitlement| contains(set, entitlement))
}
