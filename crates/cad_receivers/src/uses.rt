// Whether a member may be used, and what a call of a function needs of its receiver.
ghost use Rattle.std.specs.Prelude.{◌≡◌, false, Some, option_map, IfOk};
ghost use Rattle.cad_declarations.specs.Builtins.{needed as rights_needed};
ghost use Rattle.cad_declarations.specs.Views.{form_of, member_of};
ghost use Rattle.cad_outcomes.specs.Outcomes.{Gives, no_value};
ghost use Rattle.cad_rows.specs.Views.{pure_shape, pure_tree};
ghost use Rattle.cad_state.specs.Views.{CarriesOut, FindsAndCarriesOut};
ghost use Rattle.cad_world.specs.State.{done, give, guard, with_some};
ghost use Rattle.cad_evaluation.specs.Access.{has_right as is_enough};
ghost use Rattle.cad_evaluation.specs.Builtins.{may_use};
ghost use Rattle.cad_evaluation.specs.Numbers.{number_of};
ghost use Rattle.cad_evaluation.specs.Reading.{composite_id, identity_in, read_uuid, unsigned_64};
ghost use Rattle.cad_evaluation.specs.Uses as spec;
ghost use Rattle.cad_receivers.specs.Code.Calls.{callable_if_served, callable_in_composite};
ghost use Rattle.cad_receivers.specs.Uses.{aimed};
ghost use Rattle.cad_receivers.specs.Views.{at_spot, receiver_of, settled_of, spot_of};

use crate::looks::look;
use crate::receivers::{Receiver, Settled, Spot, discard_rights};
use crate::settle::settle_receiver;
use cad_access::{composite_in, composite_member, has_right, serves};
use cad_builtins::needed;
use cad_declarations::{Member, MemberKind};
use cad_operators::number_tree;
use cad_outcomes::Stop;
use cad_rows::{Shape, Tree};
use cad_state::RunState;
use cad_syntax::{Authorization, Kind, Name, Num, TypeId};
use cad_types::Builtin;
use std::alloc::{AllocError, Global};

/// Whether a member is a function.
fn is_function(kind: &MemberKind) -> bool
    ensures { result ≡ spec.is_function (form_of kind.now) }
{
    matches!(kind, MemberKind::Function { .. })
}

/// Whether a member is a function that is served: IllTyped where not.
fn check_member(
    state: &RunState,
    id: &TypeId,
    member: &Member,
    rights: Option<&Authorization>,
) -> Result<(), Stop>
    ensures { CarriesOut no_value (callable_if_served (option_map (λ own. own.now) rights.entry) id.now (member_of member.now)) state.now state.now result }
{
    if is_function(&member.kind) && serves(state, id, member, rights) {
        Ok(())
    } else {
        Err(Stop::IllTyped)
    }
}

/// Whether a composite has a function of this name that is served: IllTyped where not.
fn check_composite(
    state: &RunState,
    id: &TypeId,
    name: &Name,
    rights: Option<&Authorization>,
) -> Result<(), Stop>
    ensures { CarriesOut no_value (callable_in_composite (option_map (λ own. own.now) rights.entry) name.now id.now) state.now state.now result }
{
    match composite_member(state, name, id) {
        Some(member) => check_member(state, id, member, rights),
        None => Err(Stop::IllTyped),
    }
}

/// Whether a spot is a composite with a function of this name that is served: IllTyped where not.
fn check_spot(state: &RunState, spot: Spot<'_>, name: &Name) -> Result<(), Stop>
    ensures { CarriesOut no_value (spec.callable name.now (spot_of spot.entry)) state.now state.now result }
{
    match composite_in(spot.optionals, spot.shape) {
        Some(id) => check_composite(state, id, name, spot.rights),
        None => Err(Stop::IllTyped),
    }
}

/// The same of a receiver that was settled.
fn check_settled(state: &RunState, receiver: Settled<'_>, name: &Name) -> Result<(), Stop>
    ensures { FindsAndCarriesOut no_value (at_spot (settled_of receiver.entry) (spec.callable name.now)) state.now state.now result }
{
    match look(state, receiver) {
        Ok(spot) => check_spot(state, spot, name),
        Err(stop) => Err(stop),
    }
}

/// Whether a receiver is now a composite with a function of this name that the running code is served: IllTyped where not.
/// ReferenceInvalid where the receiver is gone.
pub fn check_callable(state: &mut RunState, receiver: &Receiver, name: &Name) -> Result<(), Stop>
    ensures { FindsAndCarriesOut no_value (at_spot (receiver_of receiver.now) (spec.callable name.now)) state.old state.new result }
{
    match settle_receiver(state, receiver) {
        Ok(settled) => check_settled(state, settled, name),
        Err(stop) => Err(stop),
    }
}

/// Whether these rights are enough for a built-in member.
fn are_enough(
    alloc: Global,
    rights: Option<&Authorization>,
    member: Builtin,
) -> Result<bool, AllocError>
    ensures { IfOk result (λ b. b ≡ is_enough (option_map (λ own. own.now) rights.entry) (rights_needed member)) }
{
    let need = needed(alloc, member)?;
    let are = has_right(rights, &need);
    discard_rights(Some(need));
    Ok(are)
}

/// Whether a spot is met with the rights that a built-in member needs: IllTyped where not.
fn check_rights(alloc: Global, spot: Spot<'_>, member: Builtin) -> Result<(), Stop>
    ensures { Gives no_value (guard (may_use member (spot_of spot.entry)) done) result }
{
    match are_enough(alloc, spot.rights, member) {
        Ok(true) => Ok(()),
        Ok(false) => Err(Stop::IllTyped),
        Err(_) => Err(Stop::Memory),
    }
}

/// The same of a receiver that was settled.
fn check_rights_settled(
    state: &RunState,
    receiver: Settled<'_>,
    member: Builtin,
) -> Result<(), Stop>
    ensures { FindsAndCarriesOut no_value (at_spot (settled_of receiver.entry) (λ first. guard (may_use member first) done)) state.now state.now result }
{
    match look(state, receiver) {
        Ok(spot) => check_rights(*state.making.allocator(), spot, member),
        Err(stop) => Err(stop),
    }
}

/// Whether a receiver is met with the rights that a built-in member needs: IllTyped where not. ReferenceInvalid where the
/// receiver is gone.
pub fn check_use(state: &mut RunState, receiver: &Receiver, member: Builtin) -> Result<(), Stop>
    ensures { FindsAndCarriesOut no_value (at_spot (receiver_of receiver.now) (λ first. guard (may_use member first) done)) state.old state.new result }
{
    match settle_receiver(state, receiver) {
        Ok(settled) => check_rights_settled(state, settled, member),
        Err(stop) => Err(stop),
    }
}

/// The composite that a spot is, with its label.
fn aim_at(id: &TypeId, label: u64) -> Result<(TypeId, u64), Stop>
    ensures { Gives aimed (give (id.now, label)) result }
{
    match id.clone() {
        Ok(id) => Ok((id, label)),
        Err(_) => Err(Stop::Memory),
    }
}

/// The composite that a spot is, and its label: IllTyped where it is none.
fn aim_spot(spot: Spot<'_>) -> Result<(TypeId, u64), Stop>
    ensures { Gives aimed (with_some (composite_id (spot_of spot.entry).tree) (λ id. with_some (spot_of spot.entry).label (λ l. give (id, l)))) result }
{
    match composite_in(spot.optionals, spot.shape) {
        Some(id) => match spot.label {
            Some(label) => aim_at(id, label),
            None => Err(Stop::IllTyped),
        },
        None => Err(Stop::IllTyped),
    }
}

/// The same of a receiver that was settled.
fn aim_settled(state: &RunState, receiver: Settled<'_>) -> Result<(TypeId, u64), Stop>
    ensures { FindsAndCarriesOut aimed (at_spot (settled_of receiver.entry) (λ spot. with_some (composite_id spot.tree) (λ id. with_some spot.label (λ l. give (id, l))))) state.now state.now result }
{
    match look(state, receiver) {
        Ok(spot) => aim_spot(spot),
        Err(stop) => Err(stop),
    }
}

/// The composite that a receiver is now, and its label: IllTyped where it is none. ReferenceInvalid where the receiver is gone.
pub fn aim(state: &mut RunState, receiver: &Receiver) -> Result<(TypeId, u64), Stop>
    ensures { FindsAndCarriesOut aimed (at_spot (receiver_of receiver.now) (λ spot. with_some (composite_id spot.tree) (λ id. with_some spot.label (λ l. give (id, l))))) state.old state.new result }
{
    match settle_receiver(state, receiver) {
        Ok(settled) => aim_settled(state, settled),
        Err(stop) => Err(stop),
    }
}

/// The identity of a composite without optionals.
fn identity_of(optionals: u64, shape: &Shape) -> Option<u64>
    ensures { result ≡ identity_in optionals (pure_shape shape.now) }
{
    if optionals != 0 {
        return None;
    }
    match shape {
        Shape::Composite { identity, .. } => Some(*identity),
        _ => None,
    }
}

/// The number of an identity.
fn unsigned_number(n: u64) -> Num
    ensures { number_of Kind.UInt64 false n ≡ Some result }
{
    Num {
        kind: Kind::UInt64,
        negative: false,
        magnitude: u128::from(n),
    }
}

/// An identity as a value.
fn unsigned_tree(alloc: Global, n: u64) -> Tree
    ensures { unsigned_64 n ≡ Some (pure_tree result) }
{
    number_tree(alloc, unsigned_number(n))
}

/// The identity of a spot: IllTyped where it is no composite.
fn uuid_of_spot(alloc: Global, spot: Spot<'_>) -> Result<Tree, Stop>
    ensures { Gives pure_tree (read_uuid (spot_of spot.entry)) result }
{
    match identity_of(spot.optionals, spot.shape) {
        Some(identity) => Ok(unsigned_tree(alloc, identity)),
        None => Err(Stop::IllTyped),
    }
}

/// The identity of the resource that a receiver is now, which was settled, as its `uuid`: IllTyped where it is no composite.
pub fn uuid(state: &RunState, receiver: Settled<'_>) -> Result<Tree, Stop>
    ensures { FindsAndCarriesOut pure_tree (at_spot (settled_of receiver.entry) read_uuid) state.now state.now result }
{
    match look(state, receiver) {
        Ok(spot) => uuid_of_spot(*state.making.allocator(), spot),
        Err(stop) => Err(stop),
    }
}
