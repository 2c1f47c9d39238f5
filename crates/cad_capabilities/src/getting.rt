// What is got of what accounts publish.
ghost use Rattle.std.specs.Prelude.{◌≡◌, List, IfOk, Some};
ghost use Rattle.cad_capabilities.specs.Code as code;
ghost use Rattle.cad_capabilities.specs.Views.{capability_of};
ghost use Rattle.cad_evaluation.specs.Capabilities as spec;
ghost use Rattle.cad_rows.specs.Views.{pure_row, pure_tree};
ghost use Rattle.cad_state.specs.Views.{CarriesOut, FindsAndCarriesOut, publication_of, state_over};
ghost use Rattle.cad_syntax.specs.Types.{pure_type};
ghost use Rattle.cad_types.specs.Below.{below};
ghost use Rattle.cad_values.specs.Shapes.{is_reference_type};
ghost use Rattle.cad_world.specs.Declared.{declarations};
ghost use Rattle.cad_world.specs.State.{Account};

use crate::arguments::identifier;
use crate::lending::lend;
use crate::publishing::is_published;
use crate::trees::{capability_from, capability_tree};
use cad_access::has_right;
use cad_casts::is_instance;
use cad_operators::bool_tree;
use cad_outcomes::Stop;
use cad_rows::{Place, Tree};
use cad_run_accounts::published;
use cad_state::{Publication, RunState};
use cad_syntax::{Address, CadType, Domain, Name};
use cad_values::Cap;
use std::alloc::AllocError;

/// Whether a type is a reference's.
pub(crate) fn is_reference(t: &CadType) -> bool
    ensures { result ≡ is_reference_type (pure_type t.now) }
{
    matches!(t, CadType::Reference(_, _))
}

/// Whether something is published under an identifier, as a value.
fn exists_under(state: &RunState, address: Address, name: &Name) -> Result<Tree, Stop>
    ensures { CarriesOut pure_tree (code.exists_under address name.now) state.now state.now result }
{
    match is_published(state, address, name) {
        Ok(there) => Ok(bool_tree(*state.making.allocator(), there)),
        Err(_) => Err(Stop::Memory),
    }
}

/// Whether something is published under the public path that is the argument. IllTyped where it isn't that.
pub fn exists(state: &RunState, row: &[Place], address: Address) -> Result<Tree, Stop>
    ensures { CarriesOut pure_tree (spec.exists (pure_row row.now) address) state.now state.now result }
{
    match identifier(Domain::Public, row, 0) {
        Some(name) => exists_under(state, address, name),
        None => Err(Stop::IllTyped),
    }
}

/// Whether the authorization of the one reference type grants that of the other.
pub(crate) fn grants_type(own: &CadType, wanted: &CadType) -> bool
    ensures { result ≡ spec.grants_type (pure_type own.now) (pure_type wanted.now) }
{
    match own {
        CadType::Reference(own, _) => match wanted {
            CadType::Reference(need, _) => has_right(Some(own), need),
            _ => false,
        },
        _ => false,
    }
}

/// Whether a type is below another where the program runs.
fn is_below(state: &RunState, t: &CadType, u: &CadType) -> Result<bool, AllocError>
    ensures { IfOk result (λ is. (accounts : List Account) → is ≡ below (declarations (state_over accounts state.now)) (pure_type t.now) (pure_type u.now)) }
{
    match is_instance(state, t, u) {
        Ok(is) => Ok(is),
        Err(_) => Err(AllocError),
    }
}

/// Whether one of two types is below the other.
fn is_one_below(state: &RunState, t: &CadType, u: &CadType) -> Result<bool, AllocError>
    ensures { IfOk result (λ is. (accounts : List Account) → is ≡ code.is_one_below (declarations (state_over accounts state.now)) (pure_type t.now) (pure_type u.now)) }
{
    match is_below(state, t, u) {
        Ok(true) => Ok(true),
        Ok(false) => is_below(state, u, t),
        Err(error) => Err(error),
    }
}

/// Whether the target of one of two reference types is below that of the other.
fn targets_meet(state: &RunState, own: &CadType, wanted: &CadType) -> Result<bool, AllocError>
    ensures { IfOk result (λ is. (accounts : List Account) → is ≡ spec.targets_meet (declarations (state_over accounts state.now)) (pure_type own.now) (pure_type wanted.now)) }
{
    match own {
        CadType::Reference(_, t) => match wanted {
            CadType::Reference(_, u) => is_one_below(state, t, u),
            _ => Ok(false),
        },
        _ => Ok(false),
    }
}

/// The number of what is published, where it grants what is asked for and the targets meet; else 0.
fn number_granted(
    state: &RunState,
    publication: &Publication,
    wanted: &CadType,
) -> Result<u64, AllocError>
    ensures { IfOk result (λ n. (accounts : List Account) → n ≡ spec.number_as (declarations (state_over accounts state.now)) (pure_type wanted.now) (Some (publication_of publication.now))) }
{
    if !grants_type(&publication.lent, wanted) {
        return Ok(0);
    }
    match targets_meet(state, &publication.lent, wanted) {
        Ok(true) => Ok(publication.number),
        Ok(false) => Ok(0),
        Err(error) => Err(error),
    }
}

/// The number that a capability of a type gets of what is published under an identifier.
fn number_under(
    state: &RunState,
    address: Address,
    wanted: &CadType,
    name: &Name,
) -> Result<u64, AllocError>
    ensures { IfOk result (λ n. (accounts : List Account) → n ≡ spec.number_as (declarations (state_over accounts state.now)) (pure_type wanted.now) (spec.published_at (state_over accounts state.now) address name.now)) }
{
    match published(state, address, name) {
        Ok(Some(publication)) => number_granted(state, publication, wanted),
        Ok(None) => Ok(0),
        Err(error) => Err(error),
    }
}

/// A capability of the type that is asked for, by what is published under an identifier.
fn got(state: &RunState, address: Address, wanted: &CadType, name: &Name) -> Result<Cap, AllocError>
    ensures { IfOk result (λ cap. (accounts : List Account) → capability_of cap ≡ spec.got (state_over accounts state.now) address (pure_type wanted.now) name.now) }
{
    match number_under(state, address, wanted, name) {
        Ok(number) => capability_from(address, number, wanted),
        Err(error) => Err(error),
    }
}

/// The same as a value.
fn get_under(
    state: &RunState,
    address: Address,
    wanted: &CadType,
    name: &Name,
) -> Result<Tree, Stop>
    ensures { CarriesOut pure_tree (code.got_under address (pure_type wanted.now) name.now) state.now state.now result }
{
    match got(state, address, wanted, name) {
        Ok(cap) => Ok(capability_tree(*state.making.allocator(), cap)),
        Err(_) => Err(Stop::Memory),
    }
}

/// A capability of a type, by what is published under the public path that is the argument: of number 0 where that doesn't grant
/// it, or nothing is published. IllTyped where the type is no reference's, or the argument isn't that.
pub fn get(
    state: &RunState,
    wanted: &CadType,
    row: &[Place],
    address: Address,
) -> Result<Tree, Stop>
    ensures { CarriesOut pure_tree (spec.get (pure_type wanted.now) (pure_row row.now) address) state.now state.now result }
{
    if !is_reference(wanted) {
        return Err(Stop::IllTyped);
    }
    match identifier(Domain::Public, row, 0) {
        Some(name) => get_under(state, address, wanted, name),
        None => Err(Stop::IllTyped),
    }
}

/// What the capability lends that `get` gives.
fn borrow_under(
    state: &mut RunState,
    address: Address,
    wanted: &CadType,
    name: &Name,
) -> Result<Tree, Stop>
    ensures { FindsAndCarriesOut pure_tree (code.borrowed_under address (pure_type wanted.now) name.now) state.old state.new result }
{
    match got(state, address, wanted, name) {
        Ok(cap) => lend(state, &cap),
        Err(_) => Err(Stop::Memory),
    }
}

/// What the capability lends that `get` gives. Failed with ReferenceInvalid where what is stored there is a reference to what is
/// gone.
pub fn borrow_published(
    state: &mut RunState,
    wanted: &CadType,
    row: &[Place],
    address: Address,
) -> Result<Tree, Stop>
    ensures { FindsAndCarriesOut pure_tree (spec.borrow_published (pure_type wanted.now) (pure_row row.now) address) state.old state.new result }
{
    if !is_reference(wanted) {
        return Err(Stop::IllTyped);
    }
    match identifier(Domain::Public, row, 0) {
        Some(name) => borrow_under(state, address, wanted, name),
        None => Err(Stop::IllTyped),
    }
}
