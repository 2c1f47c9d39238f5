// Fields as places.
ghost use Rattle.std.specs.Prelude.{◌≡◌, Bool, List, Option, Some, option_map};
ghost use Rattle.cad_declarations.specs.Views.{member_of};
ghost use Rattle.cad_evaluation.specs.Access as access;
ghost use Rattle.cad_evaluation.specs.Standing as spec;
ghost use Rattle.cad_locations.specs.Views.{location_of};
ghost use Rattle.cad_receivers.specs.Views.{at_spot, settled_of, spot_of};
ghost use Rattle.cad_rows.specs.Views.{pure_shape, pure_tree};
ghost use Rattle.cad_standing.specs.Code.Plans as plan;
ghost use Rattle.cad_standing.specs.Code.Plans.{Plans, PlansAnywhere};
ghost use Rattle.cad_standing.specs.Actions.{and_then};
ghost use Rattle.cad_standing.specs.Views.{standing_of};
ghost use Rattle.cad_state.specs.Views.{FindsAndCarriesOut, state_over};
ghost use Rattle.cad_world.specs.Labels as labels;
ghost use Rattle.cad_world.specs.Locations as locations;
ghost use Rattle.cad_world.specs.Receivers as receivers;
ghost use Rattle.cad_world.specs.Rows.{Row};
ghost use Rattle.cad_world.specs.State.{Account, ok};
ghost use Rattle.cad_syntax.specs.declared.types.Authorization.{Authorization};

use crate::leaves::{leads, optionals_left, shape};
use crate::standing::{Standing, discard_rights, standing_in};
use cad_access::laws::made_label_tells;
use cad_access::{composite_in, field_names, made_label, may_write, own_member, serves};
use cad_declarations::Member;
use cad_locations::{Location, discard_location, name, read, settle};
use cad_outcomes::Stop;
use cad_receivers::{Settled, Spot, look, settle_reference};
use cad_rows::{Shape, Tree, discard_tree, holds_label};
use cad_selections::position_of;
use cad_state::RunState;
use cad_syntax::{Authorization, Name, TypeId};

/// Whether two labels are of one node; the first has to be found before.
fn is_label_of(state: &RunState, label: u64, other: u64) -> Result<bool, Stop>
    ensures { FindsAndCarriesOut (λ b. b) (λ s. ok (labels.same_node s label other) s) state.now state.now result }
{
    match state.node(label) {
        Some(node) => Ok(holds_label(node.labels, other)),
        None => Err(Stop::Memory),
    }
}

/// Whether the node with a label, which was found before, is what the running initializer makes.
fn is_made(state: &RunState, label: u64) -> Result<bool, Stop>
    ensures { FindsAndCarriesOut (λ b. b) (λ s. ok (access.is_made_by s label (labels.newest s)) s) state.now state.now result }
{
    made_label_tells();
    match made_label(state) {
        Some(made) => is_label_of(state, label, made),
        None => Ok(false),
    }
}

/// Whether the running code may write a member of a node that was found before, or is served it.
fn may_meet(
    state: &RunState,
    writes: bool,
    id: &TypeId,
    member: &Member,
    label: u64,
    rights: Option<&Authorization>,
) -> Result<bool, Stop>
    ensures { FindsAndCarriesOut (λ b. b) (λ s. ok (spec.may_meet s writes id.now (member_of member.now) label (option_map (λ own. own.now) rights.entry)) s) state.now state.now result }
{
    if !writes {
        return Ok(serves(state, id, member, rights));
    }
    match is_made(state, label) {
        Ok(made) => Ok(may_write(state, id, &member.name, made)),
        Err(_) => Err(Stop::Memory),
    }
}

/// The place of a field of a node that was found before, where the running code may use it so.
fn field_in(
    state: &RunState,
    writes: bool,
    field: &Name,
    rights: Option<&Authorization>,
    id: &TypeId,
    label: u64,
    i: usize,
) -> Result<Standing, Stop>
    ensures { FindsAndCarriesOut standing_of (plan.field_in writes field.now (option_map (λ own. own.now) rights.entry) id.now label i) state.now state.now result }
{
    match own_member(state, field, id) {
        Some(member) => match may_meet(state, writes, id, member, label, rights) {
            Ok(may) => {
                if may {
                    Ok(standing_in(rights, Location::Part(label, i)))
                } else {
                    Err(Stop::IllTyped)
                }
            }
            Err(_) => Err(Stop::Memory),
        },
        None => Err(Stop::IllTyped),
    }
}

/// The place of a field of what a place is now, where the running code may use it so.
fn field_of_spot(
    state: &RunState,
    spot: Spot<'_>,
    writes: bool,
    field: &Name,
) -> Result<Standing, Stop>
    ensures { FindsAndCarriesOut standing_of (spec.field_of writes field.now (spot_of spot.entry)) state.now state.now result }
{
    match composite_in(spot.optionals, spot.shape) {
        Some(id) => match spot.label {
            Some(label) => match position_of(field, field_names(spot.shape)) {
                Some(i) => field_in(state, writes, field, spot.rights, id, label, i),
                None => Err(Stop::IllTyped),
            },
            None => Err(Stop::IllTyped),
        },
        None => Err(Stop::IllTyped),
    }
}

/// The place of a field of what a reference leads to that was settled.
fn field_of_receiver(
    state: &RunState,
    receiver: Settled<'_>,
    writes: bool,
    field: &Name,
) -> Result<Standing, Stop>
    ensures { FindsAndCarriesOut standing_of (at_spot (settled_of receiver.entry) (spec.field_of writes field.now)) state.now state.now result }
{
    match look(state, receiver) {
        Ok(spot) => field_of_spot(state, spot, writes, field),
        Err(stop) => Err(stop),
    }
}

/// The place of a field of what a reference of this shape leads to.
fn field_target(
    state: &mut RunState,
    shape: &Shape,
    writes: bool,
    field: &Name,
) -> Result<Standing, Stop>
    ensures { FindsAndCarriesOut standing_of (and_then (receivers.deref (pure_shape shape.now)) (spec.field_of writes field.now)) state.old state.new result }
{
    match settle_reference(state, shape) {
        Ok(settled) => field_of_receiver(state, settled, writes, field),
        Err(stop) => Err(stop),
    }
}

/// The place of a field of what a reference leads to.
fn field_led(
    state: &mut RunState,
    reference: &Tree,
    writes: bool,
    field: &Name,
) -> Result<Standing, Stop>
    ensures { FindsAndCarriesOut standing_of (and_then (spec.base_of (spec.led_by (pure_tree reference.now))) (spec.field_of writes field.now)) state.old state.new result }
{
    if !leads(reference) {
        return Err(Stop::IllTyped);
    }
    field_target(state, shape(reference), writes, field)
}

/// A field of a node: the type of the composite, and the place of the field in its row.
struct FieldPlace {
    id: TypeId,
    index: usize,
}

/// Lets the place of a field go.
fn discard_place(place: FieldPlace) {
    let FieldPlace { id, index: _ } = place;
    drop(id)
}

/// The field of a name of a value that is lent. IllTyped of what is no composite, and of one without such a field.
fn field_lent(optionals: u64, shape: &Shape, field: &Name) -> Result<FieldPlace, Stop>
    ensures { (writes : Bool) (rights : Option Authorization) (x : locations.Location) (parts : Row) → PlansAnywhere (λ f. plan.field_named writes field.now rights x f.id f.index) (and_then (spec.named_spot rights x (Some (record { optionals = optionals; shape = pure_shape shape.now; parts = parts }))) (spec.field_of writes field.now)) result }
{
    match composite_in(optionals, shape) {
        Some(id) => match position_of(field, field_names(shape)) {
            Some(index) => match id.clone() {
                Ok(own) => Ok(FieldPlace { id: own, index }),
                Err(_) => Err(Stop::Memory),
            },
            None => Err(Stop::IllTyped),
        },
        None => Err(Stop::IllTyped),
    }
}

/// The field of a name of what stands at a location that was settled, without so many optionals.
fn field_settled(
    state: &RunState,
    location: &Location,
    inside: u64,
    field: &Name,
) -> Result<FieldPlace, Stop>
    ensures { (writes : Bool) (rights : Option Authorization) → Plans (λ f. plan.field_named writes field.now rights (location_of location.now) f.id f.index) (and_then (spec.base_of (spec.here rights (location_of location.now) inside)) (spec.field_of writes field.now)) state.now result }
{
    match read(state, location) {
        Ok(Some(seen)) => field_lent(optionals_left(seen.optionals, inside), seen.shape, field),
        Ok(None) => Err(Stop::IllTyped),
        Err(stop) => Err(stop),
    }
}

/// A node that was just named is found, where it matters whether the running initializer makes it.
fn find_for(state: &mut RunState, writes: bool, label: u64) -> Result<(), Stop>
    ensures { (accounts : List Account) → state_over accounts state.new ≡ state_over accounts state.old }
{
    if !writes || made_label(state).is_none() {
        return Ok(());
    }
    match state.locate(label) {
        Ok(_) => Ok(()),
        Err(_) => Err(Stop::Memory),
    }
}

/// The place of a field of what stands at a location, which is named.
fn field_named(
    state: &mut RunState,
    writes: bool,
    field: &Name,
    rights: Option<&Authorization>,
    location: &Location,
    place: &FieldPlace,
) -> Result<Standing, Stop>
    ensures { FindsAndCarriesOut standing_of (plan.field_named writes field.now (option_map (λ own. own.now) rights.entry) (location_of location.now) place.now.id place.now.index) state.old state.new result }
{
    match name(state, location) {
        Ok(label) => match find_for(state, writes, label) {
            Ok(()) => field_in(state, writes, field, rights, &place.id, label, place.index),
            Err(_) => Err(Stop::Memory),
        },
        Err(stop) => Err(stop),
    }
}

/// Rights that are lent.
fn lent(rights: &Option<Authorization>) -> Option<&Authorization>
    ensures { option_map (λ own. own.now) result ≡ rights.now }
{
    match rights {
        Some(own) => Some(own),
        None => None,
    }
}

/// The place of a field of what stands at a location that was settled.
fn field_planned(
    state: &mut RunState,
    rights: &Option<Authorization>,
    location: &Location,
    inside: u64,
    writes: bool,
    field: &Name,
) -> Result<Standing, Stop>
    ensures { FindsAndCarriesOut standing_of (and_then (spec.base_of (spec.here rights.now (location_of location.now) inside)) (spec.field_of writes field.now)) state.old state.new result }
{
    match field_settled(state, location, inside, field) {
        Ok(place) => {
            let found = field_named(state, writes, field, lent(rights), location, &place);
            discard_place(place);
            found
        }
        Err(stop) => Err(stop),
    }
}

/// The place of a field of what stands at a location.
fn field_here(
    state: &mut RunState,
    rights: &Option<Authorization>,
    location: &Location,
    inside: u64,
    writes: bool,
    field: &Name,
) -> Result<Standing, Stop>
    ensures { FindsAndCarriesOut standing_of (and_then (spec.base_of (spec.here rights.now (location_of location.now) inside)) (spec.field_of writes field.now)) state.old state.new result }
{
    match settle(state, location) {
        Ok(()) => field_planned(state, rights, location, inside, writes, field),
        Err(stop) => Err(stop),
    }
}

/// The place of a field of what stands in a place, told whether it is written; nowhere, where an optional on the way to that
/// is nil. ReferenceInvalid and DereferenceFailed where a reference leads to nothing, ContractUnset where the place is a field
/// that isn't set; IllTyped where there is no such field, and where the running code may not use it so.
pub fn field_of(
    state: &mut RunState,
    place: Standing,
    writes: bool,
    field: &Name,
) -> Result<Standing, Stop>
    ensures { FindsAndCarriesOut standing_of (spec.onward (λ p. and_then (spec.base_of p) (spec.field_of writes field.now)) (standing_of place)) state.old state.new result }
{
    match place {
        Standing::Here {
            rights,
            location,
            inside,
        } => {
            let found = field_here(state, &rights, &location, inside, writes, field);
            discard_rights(rights);
            discard_location(location);
            found
        }
        Standing::LedBy(reference) => {
            let found = field_led(state, &reference, writes, field);
            discard_tree(reference);
            found
        }
        Standing::Nowhere => Ok(Standing::Nowhere),
    }
}
