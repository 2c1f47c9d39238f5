// The declarations of a function that take part in a call.
ghost use Rattle.std.specs.Prelude.{◌≡◌, ◌++◌, ◌∷◌, [], find, Some, None, is_some, IfOk, MatchOption, OnOk, map, option_map, option_to_list, filter_map};
ghost use Rattle.cad_access.specs.RunContracts.{bodies_among, contracts_of, run_of};
ghost use Rattle.cad_function_sources.specs.Sources as view;
ghost use Rattle.cad_function_sources.specs.Sources.{bodies_in};
ghost use Rattle.cad_declarations.specs.Views.{destroyed_of, type_body_of};
ghost use Rattle.cad_evaluation.specs.Bodies as spec;
ghost use Rattle.cad_evaluation.specs.Evaluation.{destroyed_body, making};
ghost use Rattle.cad_evaluation.specs.Making.{initializer_of};
ghost use Rattle.cad_syntax.specs.TypeIds.{same_id};
ghost use Rattle.cad_syntax.specs.declared.text.Name.{Name};
ghost use Rattle.cad_world.specs.Declared as declared;

use cad_access::{function_in, interfaces_of};
use cad_declarations::{Checked, DestroyedEvent, TypedFunction, TypedType};
use cad_discards::hold;
use cad_state::{Contract, RunState, discard_shared};
use cad_syntax::{Name, TypeId};
use std::alloc::{AllocError, Global};
use std::rc::Rc;

/// A type that declares a function, and the program that has its bodies. It isn't let go but by `discard_source`.
pub struct Source {
    pub id: TypeId,
    pub checked: Rc<Checked>,
}

/// A function as one type declares it; within no type where it stands outside of types.
#[derive(Clone, Copy)]
pub struct Piece<'s> {
    pub within: Option<&'s TypeId>,
    pub function: &'s TypedFunction,
    /// Whether it is an initializer, which has no result.
    pub initializes: bool,
}

/// Lets a source go.
pub fn discard_source(source: Source) {
    let Source { id, checked } = source;
    drop(id);
    discard_shared(checked)
}

/// Lets the source of a type go, where there is one.
pub fn discard_own(own: Option<Source>) {
    match own {
        Some(source) => discard_source(source),
        None => {}
    }
}

/// Lets sources go.
pub fn discard_sources(sources: Vec<Source>) {
    let mut left = sources;
    while let Some(source) = left.pop() {
        discard_source(source);
    }
    left.destroy_empty()
}

/// The bodies of an identifier among these.
fn find_bodies<'s>(all: &'s [TypedType], id: &TypeId) -> Option<&'s TypedType>
    ensures { option_map (λ b. type_body_of b.now) result ≡ find (λ b. same_id b.id id.now) (map type_body_of all.now) }
{
    for bodies in all {
        if bodies.id.same(id) {
            return Some(bodies);
        }
    }
    None
}

/// The program of the contract that has the bodies of a type, held once more.
fn program_of(contracts: &[Contract], id: &TypeId) -> Result<Option<Rc<Checked>>, AllocError>
    ensures { IfOk result (λ o. MatchOption o (bodies_among (contracts_of contracts.now) id.now ≡ None) (λ x. view.found_in x.value id.now ≡ bodies_among (contracts_of contracts.now) id.now)) }
{
    for contract in contracts {
        if has_bodies(&contract.checked, id) {
            return Ok(Some(hold(&contract.checked)?));
        }
    }
    Ok(None)
}

/// Whether a program has the bodies of a type.
fn has_bodies(checked: &Checked, id: &TypeId) -> bool
    ensures { result ≡ is_some (view.found_in checked.now id.now) }
{
    find_bodies(checked.bodies.types.as_slice(), id).is_some()
}

/// The bodies of a type where they stand in the state, with their program held; None where there are none.
pub fn source_of(state: &RunState, id: &TypeId) -> Result<Option<Source>, AllocError>
    ensures { IfOk result (λ o. MatchOption o (declared.bodies_of (run_of state.now) id.now ≡ None) (λ x. (x.id ≡ id.now) × (bodies_in x ≡ declared.bodies_of (run_of state.now) id.now))) }
{
    match program_of(state.contracts.as_slice(), id)? {
        Some(checked) => match id.clone() {
            Ok(id) => Ok(Some(Source { id, checked })),
            Err(error) => {
                discard_shared(checked);
                Err(error)
            }
        },
        None => Ok(None),
    }
}

/// Adds the source of a type that has bodies.
fn add_source(all: &mut Vec<Source>, state: &RunState, id: &TypeId) -> Result<(), AllocError>
    ensures { OnOk result ((name : Name) → view.pieces name all.new.items ≡ view.pieces name all.old.items ++ option_to_list (spec.own_piece (run_of state.now) name id.now)) }
{
    match source_of(state, id)? {
        Some(source) => match all.push(source) {
            Ok(()) => Ok(()),
            Err(refused) => {
                discard_source(refused.value);
                Err(AllocError)
            }
        },
        None => Ok(()),
    }
}

/// Adds the sources of the interfaces of a type, in their order.
fn add_interfaces(all: &mut Vec<Source>, state: &RunState, id: &TypeId) -> Result<(), AllocError>
    ensures { OnOk result ((name : Name) → view.pieces name all.new.items ≡ view.pieces name all.old.items ++ spec.inherited (run_of state.now) name id.now) }
{
    for interface in interfaces_of(state, id) {
        add_source(all, state, interface)?;
    }
    Ok(())
}

/// The sources of the interfaces of a type, in their order.
pub fn interface_sources(state: &RunState, id: &TypeId) -> Result<Vec<Source>, AllocError>
    ensures { IfOk result (λ all. (name : Name) → view.pieces name all.items ≡ spec.inherited (run_of state.now) name id.now) }
{
    let mut all = Vec::new(*state.making.allocator());
    match add_interfaces(&mut all, state, id) {
        Ok(()) => Ok(all),
        Err(error) => {
            discard_sources(all);
            Err(error)
        }
    }
}

/// A function as a source declares it.
pub fn piece_of<'s>(source: &'s Source, name: &Name) -> Option<Piece<'s>>
    ensures { option_map view.piece_of result ≡ spec.piece_in source.now.id name.now (bodies_in source.now) }
{
    let bodies = find_bodies(source.checked.bodies.types.as_slice(), &source.id)?;
    let member = function_in(bodies.functions.as_slice(), name)?;
    Some(Piece {
        within: Some(&source.id),
        function: &member.function,
        initializes: false,
    })
}

/// The written initializer of the type of a source; None where there is none.
pub fn initializer_piece<'s>(source: &'s Source) -> Option<Piece<'s>>
    ensures { option_map view.piece_of result ≡ making source.now.id (initializer_of (bodies_in source.now)) }
{
    let bodies = find_bodies(source.checked.bodies.types.as_slice(), &source.id)?;
    match &bodies.initializer {
        Some(function) => Some(Piece {
            within: Some(&source.id),
            function,
            initializes: true,
        }),
        None => None,
    }
}

/// The event that tells of the end of a resource of the type of a source; None where there is none.
pub fn destroyed_event<'s>(source: &'s Source) -> Option<&'s DestroyedEvent>
    ensures { option_map (λ d. destroyed_of d.now) result ≡ destroyed_body (bodies_in source.now) }
{
    let bodies = find_bodies(source.checked.bodies.types.as_slice(), &source.id)?;
    bodies.destroyed.as_ref()
}

/// A function as each source declares it that does.
pub fn pieces_of<'s>(
    all: &'s [Source],
    name: &Name,
    alloc: Global,
) -> Result<Vec<Piece<'s>>, AllocError>
    ensures { IfOk result (λ pieces. map view.piece_of pieces.items ≡ view.pieces name.now all.now) }
{
    let mut pieces = Vec::new(alloc);
    for source in all {
        match piece_of(source, name) {
            Some(piece) => pieces.push(piece)?,
            None => {}
        }
    }
    Ok(pieces)
}
