// What is read of a field.
ghost use Rattle.std.specs.Prelude.{◌≡◌, Option, option_map};
ghost use Rattle.cad_declarations.specs.Views.{member_of};
ghost use Rattle.cad_rows.specs.Views.{pure_row, pure_tree};
ghost use Rattle.cad_state.specs.Views.{FindsAndCarriesOut};
ghost use Rattle.cad_syntax.specs.Types.{pure_type};
ghost use Rattle.cad_world.specs.Labels as labels;
ghost use Rattle.cad_world.specs.Locations.{part};
ghost use Rattle.cad_world.specs.Rows.{slot};
ghost use Rattle.cad_world.specs.State.{State};
ghost use Rattle.cad_evaluation.specs.Reading as spec;
ghost use Rattle.cad_selections.specs.Code.Readings.{Leaves, LeavesOver, FindsAndLeaves, linked, reading_of, read_as};
ghost use Rattle.cad_selections.specs.Code.Fields.{read_at, read_of_type, read_if_served, read_in_composite};
ghost use Rattle.cad_receivers.specs.Views.{at_spot, receiver_of, settled_of, spot_of};

use crate::readings::{Reading, copy_of, lends, read_out};
use cad_access::{
    composite_in, composite_member, field_names, field_type, may_give, right_given, serves,
};
use cad_declarations::{Member, MemberAccess, is_same_name};
use cad_locations::Location;
use cad_outcomes::{RunError, Stop};
use cad_receivers::{Receiver, Settled, Spot, look, optionals, settle_receiver};
use cad_rows::{Slot, Tree, tree_at};
use cad_state::RunState;
use cad_syntax::{Authorization, CadType, Name, TypeId};
use std::alloc::Global;

/// Where a name stands first among names.
pub fn position_of(name: &Name, names: &[Name]) -> Option<usize>
    ensures { result ≡ labels.position_of name.now names.now }
{
    for i in 0..names.len() {
        if is_same_name(&names[i], name) {
            return Some(i);
        }
    }
    None
}

/// A reference to what stands in a part, as what is read.
fn link_to_part(
    access: &MemberAccess,
    right: &Authorization,
    label: u64,
    i: usize,
    optionals: u64,
) -> Result<Reading, Stop>
    ensures { (s : State) → Leaves reading_of (linked (spec.right_given access.now right.now) (part label i) optionals) s result }
{
    match right_given(access, right) {
        Ok(authorization) => Ok(Reading::Link {
            authorization,
            location: Location::Part(label, i),
            optionals,
        }),
        Err(_) => Err(Stop::Memory),
    }
}

/// What is read of a part in which this value stands.
fn read_full(
    alloc: Global,
    is_lent: bool,
    access: &MemberAccess,
    right: &Authorization,
    label: u64,
    i: usize,
    tree: &Tree,
) -> Result<Reading, Stop>
    ensures { (s : State) → Leaves reading_of (read_as is_lent (spec.right_given access.now right.now) (part label i) (pure_tree tree.now)) s result }
{
    if is_lent {
        link_to_part(access, right, label, i, optionals(tree))
    } else {
        copy_of(alloc, tree)
    }
}

/// What is read of a part of a spot.
fn read_part(
    alloc: Global,
    spot: Spot<'_>,
    access: &MemberAccess,
    right: &Authorization,
    declared: &CadType,
    label: u64,
    i: usize,
) -> Result<Reading, Stop>
    ensures { (s : State) → Leaves reading_of (spec.read_part (spot_of spot.entry).rights (spec.right_given access.now right.now) (pure_type declared.now) (part label i) (slot i (spot_of spot.entry).tree.parts)) s result }
{
    match tree_at(spot.parts, i) {
        Slot::Full(tree) => {
            let is_lent = lends(spot.rights, declared, tree);
            read_full(alloc, is_lent, access, right, label, i, tree)
        }
        Slot::Free => Err(Stop::Failed(RunError::ContractUnset)),
        Slot::Out => Err(Stop::IllTyped),
    }
}

/// What is read of a field of a spot that has a place for it.
fn read_place(
    alloc: Global,
    spot: Spot<'_>,
    member: &Member,
    right: &Authorization,
    declared: &CadType,
    i: usize,
) -> Result<Reading, Stop>
    ensures { (s : State) → Leaves reading_of (read_at right.now (spot_of spot.entry) (member_of member.now) (pure_type declared.now) i) s result }
{
    match spot.label {
        Some(label) => read_part(alloc, spot, &member.access, right, declared, label, i),
        None => Err(Stop::IllTyped),
    }
}

/// What is read of a field of this declared type.
fn read_typed(
    alloc: Global,
    spot: Spot<'_>,
    member: &Member,
    right: &Authorization,
    declared: &CadType,
) -> Result<Reading, Stop>
    ensures { (s : State) → Leaves reading_of (read_of_type right.now (spot_of spot.entry) (member_of member.now) (pure_type declared.now)) s result }
{
    match position_of(&member.name, field_names(spot.shape)) {
        Some(i) => read_place(alloc, spot, member, right, declared, i),
        None => Err(Stop::IllTyped),
    }
}

/// What is read of a member of a spot.
fn read_member(
    alloc: Global,
    spot: Spot<'_>,
    member: &Member,
    right: &Authorization,
) -> Result<Reading, Stop>
    ensures { (s : State) → Leaves reading_of (spec.read_member right.now (spot_of spot.entry) (member_of member.now)) s result }
{
    match field_type(&member.kind) {
        Some(declared) => read_typed(alloc, spot, member, right, declared),
        None => Err(Stop::IllTyped),
    }
}

/// What is read of a member of a spot, if it is served.
fn read_served(
    state: &RunState,
    spot: Spot<'_>,
    id: &TypeId,
    member: &Member,
    right: &Authorization,
) -> Result<Reading, Stop>
    ensures { LeavesOver reading_of (read_if_served right.now (spot_of spot.entry) id.now (member_of member.now)) state.now result }
{
    let alloc = *state.making.allocator();
    if serves(state, id, member, spot.rights)
        && may_give(alloc, state, &member.access, spot.rights, right)
    {
        read_member(alloc, spot, member, right)
    } else {
        Err(Stop::IllTyped)
    }
}

/// What is read of a member of a composite.
fn read_in(
    state: &RunState,
    spot: Spot<'_>,
    id: &TypeId,
    name: &Name,
    right: &Authorization,
) -> Result<Reading, Stop>
    ensures { LeavesOver reading_of (read_in_composite name.now right.now (spot_of spot.entry) id.now) state.now result }
{
    match composite_member(state, name, id) {
        Some(member) => read_served(state, spot, id, member, right),
        None => Err(Stop::IllTyped),
    }
}

/// What is read of a field of a spot.
fn read_field(
    state: &RunState,
    spot: Spot<'_>,
    name: &Name,
    right: &Authorization,
) -> Result<Reading, Stop>
    ensures { LeavesOver reading_of (spec.read_field name.now right.now (spot_of spot.entry)) state.now result }
{
    match composite_in(spot.optionals, spot.shape) {
        Some(id) => read_in(state, spot, id, name, right),
        None => Err(Stop::IllTyped),
    }
}

/// What is read of a field of a receiver that was settled.
fn field_reading(
    state: &RunState,
    receiver: Settled<'_>,
    name: &Name,
    right: &Authorization,
) -> Result<Reading, Stop>
    ensures { FindsAndLeaves reading_of (at_spot (settled_of receiver.entry) (spec.read_field name.now right.now)) state.now result }
{
    match look(state, receiver) {
        Ok(spot) => read_field(state, spot, name, right),
        Err(stop) => Err(stop),
    }
}

/// A field of a receiver that was settled.
fn get_settled(
    state: &mut RunState,
    receiver: Settled<'_>,
    name: &Name,
    right: &Authorization,
) -> Result<Tree, Stop>
    ensures { FindsAndCarriesOut pure_tree (at_spot (settled_of receiver.entry) (spec.read_field name.now right.now)) state.old state.new result }
{
    match field_reading(state, receiver, name, right) {
        Ok(reading) => read_out(state, reading),
        Err(stop) => Err(stop),
    }
}

/// A field of what a receiver is now: of an owner a copy, through a reference a reference with this right where the field is of
/// a composite or container. ReferenceInvalid where the receiver is gone, ContractUnset where the field isn't set, IllTyped
/// where there is no such field, it isn't served or it has a resource in it.
pub fn get(
    state: &mut RunState,
    receiver: &Receiver,
    name: &Name,
    right: &Authorization,
) -> Result<Tree, Stop>
    ensures { FindsAndCarriesOut pure_tree (at_spot (receiver_of receiver.now) (spec.read_field name.now right.now)) state.old state.new result }
{
    match settle_receiver(state, receiver) {
        Ok(settled) => get_settled(state, settled, name, right),
        Err(stop) => Err(stop),
    }
}
