// What is reached from identifiers by links between them.
ghost use Rattle.std.specs.Prelude.{◌≡◌, ◌++◌, map, reverse, slice_get, IfOk, OnOk};
ghost use Rattle.cad_types.specs.Places.{ArePlaces};
ghost use Rattle.cad_declarations.specs.Reached as spec;
ghost use Rattle.cad_declarations.specs.Code.Visits as visits;

use cad_syntax::{TypeId, TypeIds, contains};
use cad_types::{Places, places_of};
use std::alloc::{AllocError, Global};
use std::marker::Model;

/// An identifier, and those to which it leads.
#[derive(Debug, Drop)]
pub struct Link {
    pub id: TypeId,
    pub to: TypeIds,
}

/// Links, which are found by the identifiers from which they lead.
#[derive(Drop)]
pub struct Links {
    all: Vec<Link>,
    places: Places,
}

impl Model for Links {
    ghost use Rattle.std.specs.Prelude.{List, map};
    ghost use Rattle.cad_types.specs.Places.{ArePlaces};
    ghost use Rattle.cad_declarations.specs.declared.link.Link.{Link as Pair};

    ghost Value = { List Pair };

    ghost view = { λ links. links.all.items };

    ghost invariant = { λ links. ArePlaces links.places (map (λ link. link.id) links.all.items) };
}

impl Links {
    /// These links.
    pub fn new(alloc: Global, all: Vec<Link>) -> Result<Links, AllocError>
        ensures { IfOk result (λ links. links ≡ all.items) }
    {
        let places = placed(alloc, all.as_slice())?;
        Ok(Links { all, places })
    }

    /// Where the first link of an identifier leads.
    pub fn linked(&self, id: &TypeId) -> &[TypeId]
        ensures { result.now ≡ spec.linked self.now id.now }
    {
        match self.places.get(id) {
            Some(place) => targets_at(self.all.as_slice(), *place),
            None => &[],
        }
    }
}

/// Where the link at a place leads.
fn targets_at(links: &[Link], place: usize) -> &[TypeId]
    ensures { result.now ≡ visits.targets (slice_get links.now place) }
{
    match links.get(place) {
        Some(link) => link.to.as_slice(),
        None => &[],
    }
}

/// The first place of each identifier from which a link leads.
fn placed(alloc: Global, links: &[Link]) -> Result<Places, AllocError>
    ensures { IfOk result (λ places. ArePlaces places (map (λ link. link.id) links.now)) }
{
    let ids = identifiers(alloc, links)?;
    places_of(alloc, ids.as_slice())
}

/// The identifiers from which links lead.
fn identifiers(alloc: Global, links: &[Link]) -> Result<Vec<&TypeId>, AllocError>
    ensures { IfOk result (λ ids. map (λ id. id.now) ids.items ≡ map (λ link. link.id) links.now) }
{
    let mut ids = Vec::new(alloc);
    for link in links {
        ids.push(&link.id)?;
    }
    Ok(ids)
}

/// All that is reached from these identifiers, by depth: each before those to which it leads, later repeats dropped.
#[tactic(auto, using(crate::proofs::Visits::begins, crate::proofs::Visits::goes_on, crate::proofs::Visits::less, crate::proofs::Visits::ends))]
pub fn reached_from(alloc: Global, links: &Links, start: &[TypeId]) -> Result<TypeIds, AllocError>
    ensures { IfOk result (λ ids. ids ≡ spec.reached_from links.now start.now) }
{
    let mut seen = Vec::new(alloc);
    let mut ahead = Vec::new(alloc);
    push_reversed(&mut ahead, start)?;
    while let Some(id) = ahead.pop() {
        look_at(links, &mut seen, &mut ahead, id)?;
    }
    Ok(TypeIds::from_vec(seen))
}

/// All that is reached from those to which an identifier leads: of a type its interfaces, each before its parents.
pub fn linearised(alloc: Global, links: &Links, id: &TypeId) -> Result<TypeIds, AllocError>
    ensures { IfOk result (λ ids. ids ≡ spec.linearised links.now id.now) }
{
    reached_from(alloc, links, links.linked(id))
}

/// Takes in an identifier that wasn't seen, and puts those to which it leads in front of all that is ahead, which is at the
/// end.
fn look_at(
    links: &Links,
    seen: &mut Vec<TypeId>,
    ahead: &mut Vec<TypeId>,
    id: TypeId,
) -> Result<(), AllocError>
    ensures seen { OnOk result (seen.new.items ≡ visits.seen_after seen.old.items id) }
    ensures ahead { OnOk result (ahead.new.items ≡ ahead.old.items ++ reverse (visits.next_after links.now seen.old.items id)) }
{
    if contains(seen.as_slice(), &id) {
        return Ok(());
    }
    push_reversed(ahead, links.linked(&id))?;
    seen.push(id)?;
    Ok(())
}

/// Appends identifiers, the last first.
fn push_reversed(ids: &mut Vec<TypeId>, more: &[TypeId]) -> Result<(), AllocError>
    ensures { OnOk result (ids.new.items ≡ ids.old.items ++ reverse more.now) }
{
    for id in more.iter().rev() {
        ids.push(id.clone()?)?;
    }
    Ok(())
}
