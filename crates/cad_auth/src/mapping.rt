// Images of authorizations under mappings of entitlements.
ghost use Rattle.std.specs.Prelude.{◌≡◌, ◌&&◌, ◌==◌, IfOk, OnOk, length, map as mapped, fold};
ghost use Rattle.std.specs.List.{list_all, list_any, flat_map};
ghost use Rattle.cad_auth.specs.Grants.{sets};
ghost use Rattle.cad_auth.specs.Images as spec;
ghost use Rattle.cad_auth.specs.Code.Tests as tests;

use crate::grant::includes;
use cad_syntax::{Authorization, Pairs, TypeId, TypeIds, contains};
use std::alloc::{AllocError, Global};
use std::slice;

/// A mapping of entitlements: whether each is mapped to itself, and pairs of an entitlement and a target.
#[derive(Debug, Drop, PartialEq, Eq)]
pub struct Mapping {
    pub identity: bool,
    pub pairs: Pairs,
}

/// The image of an authorization: each of its sets is replaced by the targets of its members, one of several equal sets is
/// kept, and each set that contains another of those kept is dropped. None exactly where more than one set is left and one
/// of them hasn't one member.
pub fn image(
    alloc: Global,
    map: &Mapping,
    a: &Authorization,
) -> Result<Option<Authorization>, AllocError>
    ensures { IfOk result (λ image. image ≡ spec.image map.now a.now) }
{
    let order = replaced(alloc, map, members(a))?;
    let sets = distinct_sets(alloc, map, a)?;
    let least = least(alloc, sets.as_slice())?;
    let image = read(alloc, least.as_slice(), order.as_slice())?;
    Ok(image)
}

/// The entitlements that an authorization names.
fn members(a: &Authorization) -> &[TypeId]
    ensures { result.now ≡ spec.members a.now }
{
    match a {
        Authorization::Unauthorized => &[],
        Authorization::All(entitlements) => entitlements.as_slice(),
        Authorization::Any(entitlements) => entitlements.as_slice(),
    }
}

/// The targets of a set's members, each once.
fn replaced(alloc: Global, map: &Mapping, set: &[TypeId]) -> Result<TypeIds, AllocError>
    ensures { IfOk result (λ targets. targets ≡ spec.replaced map.now set.now) }
{
    let mut targets = TypeIds::new(alloc);
    for entitlement in set {
        add_targets(&mut targets, map, entitlement)?;
    }
    Ok(targets)
}

/// Adds the targets of an entitlement, each once.
fn add_targets(targets: &mut TypeIds, map: &Mapping, entitlement: &TypeId) -> Result<(), AllocError>
    ensures { OnOk result (targets.new ≡ fold spec.with_once targets.old (spec.targets_of map.now entitlement.now)) }
{
    if map.identity {
        add_once(targets, entitlement)?;
    }
    for pair in map.pairs.as_slice() {
        if pair.0.same(entitlement) {
            add_once(targets, &pair.1)?;
        }
    }
    Ok(())
}

/// Adds an entitlement at the end, if it isn't there.
fn add_once(targets: &mut TypeIds, entitlement: &TypeId) -> Result<(), AllocError>
    ensures { OnOk result (targets.new ≡ spec.with_once targets.old entitlement.now) }
{
    if contains(targets.as_slice(), entitlement) {
        return Ok(());
    }
    targets.push(entitlement.clone()?)?;
    Ok(())
}

/// The sets that the mapping makes of those of an authorization, one of several equal ones.
fn distinct_sets(
    alloc: Global,
    map: &Mapping,
    a: &Authorization,
) -> Result<Vec<TypeIds>, AllocError>
    ensures { IfOk result (λ kept. kept.items ≡ spec.distinct (mapped (spec.replaced map.now) (sets a.now))) }
{
    if is_choice(a) {
        let kept = sets_alone(alloc, map, members(a))?;
        return Ok(kept);
    }
    let mut kept = Vec::new(alloc);
    kept.push(replaced(alloc, map, members(a))?)?;
    Ok(kept)
}

/// The sets of targets of each entitlement alone, one of several equal ones.
fn sets_alone(
    alloc: Global,
    map: &Mapping,
    entitlements: &[TypeId],
) -> Result<Vec<TypeIds>, AllocError>
    ensures { IfOk result (λ kept. kept.items ≡ spec.distinct (mapped (tests.alone map.now) entitlements.now)) }
{
    let mut kept = Vec::new(alloc);
    for entitlement in entitlements {
        let set = replaced(alloc, map, slice::from_ref(entitlement))?;
        add_set(&mut kept, set)?;
    }
    Ok(kept)
}

/// Whether the holder may have any one of several sets.
fn is_choice(a: &Authorization) -> bool
    ensures { result ≡ tests.is_choice a.now }
{
    match a {
        Authorization::Any(entitlements) => !entitlements.is_empty(),
        _ => false,
    }
}

/// Adds a set at the end, if no equal one is there.
fn add_set(kept: &mut Vec<TypeIds>, set: TypeIds) -> Result<(), AllocError>
    ensures { OnOk result (kept.new.items ≡ spec.with_set kept.old.items set) }
{
    if has_same(kept.as_slice(), set.as_slice()) {
        return Ok(());
    }
    kept.push(set)?;
    Ok(())
}

/// Whether one of these sets has the same members.
fn has_same(these: &[TypeIds], set: &[TypeId]) -> bool
    ensures { result ≡ list_any (spec.same_set set.now) these.now }
{
    these.iter().any(|other| includes(set, other.as_slice()) && includes(other.as_slice(), set))
}

/// The sets that contain no other of them.
fn least(alloc: Global, these: &[TypeIds]) -> Result<Vec<TypeIds>, AllocError>
    ensures { IfOk result (λ least. least.items ≡ spec.least these.now) }
{
    let mut least = Vec::new(alloc);
    for set in these {
        if is_least(these, set.as_slice()) {
            least.push(set.clone()?)?;
        }
    }
    Ok(least)
}

/// Whether none of these sets is a smaller part of this set.
fn is_least(these: &[TypeIds], set: &[TypeId]) -> bool
    ensures { result ≡ spec.is_least these.now set.now }
{
    these.iter().all(|other| !includes(set, other.as_slice()) || includes(other.as_slice(), set))
}

/// Reads sets as an authorization, with their members in an order.
fn read(
    alloc: Global,
    these: &[TypeIds],
    order: &[TypeId],
) -> Result<Option<Authorization>, AllocError>
    ensures { IfOk result (λ read. read ≡ spec.read these.now order.now) }
{
    let chosen = among(alloc, these, order)?;
    if these.len() == 1 {
        return Ok(Some(conjunction(chosen)));
    }
    if are_single(these) {
        return Ok(Some(Authorization::Any(chosen)));
    }
    Ok(None)
}

/// Whether each of these sets has one member.
fn are_single(these: &[TypeIds]) -> bool
    ensures { result ≡ list_all (λ set. length set == 1) these.now }
{
    these.iter().all(|set| set.len() == 1)
}

/// The entitlements of these sets, in an order.
fn among(alloc: Global, these: &[TypeIds], order: &[TypeId]) -> Result<TypeIds, AllocError>
    ensures { IfOk result (λ among. among ≡ spec.among these.now order.now) }
{
    let mut among = TypeIds::new(alloc);
    for entitlement in order {
        if some_has(these, entitlement) {
            among.push(entitlement.clone()?)?;
        }
    }
    Ok(among)
}

/// Whether one of these sets has the entitlement.
fn some_has(these: &[TypeIds], entitlement: &TypeId) -> bool
    ensures { result ≡ spec.is_named these.now entitlement.now }
{
    these
        .iter()
        .any(|set| contains(set.as_slice(), entitlement))
}

/// All of these entitlements.
fn conjunction(entitlements: TypeIds) -> Authorization
    ensures { result ≡ spec.conjunction entitlements }
{
    if entitlements.is_empty() {
        Authorization::Unauthorized
    } else {
        Authorization::All(entitlements)
    }
}
