// Whether a World is sound.
ghost use Rattle.std.specs.Prelude.{◌≡◌, ◌↔◌, ◌≤◌, All, IsTrue, IfOk, IfSome, length, map};
ghost use Rattle.cad_rows.specs.Views.{pure_place, pure_row, pure_tree, taken};
ghost use Rattle.cad_shapes.specs.Held.{shapes_of};
ghost use Rattle.cad_state.specs.Views.{account_of, controller_of, publication_of};
ghost use Rattle.cad_values.specs.Fits as of;
ghost use Rattle.cad_values.specs.Types as types;
ghost use Rattle.cad_values.specs.Values.{pure_value};
ghost use Rattle.cad_world.specs.Fits.{FitsItself, Lasts};
ghost use Rattle.cad_world.specs.Orders as orders;
ghost use Rattle.cad_world.specs.Sound as spec;
ghost use Rattle.cad_world.specs.Sound.{most_accounts};
ghost use Rattle.cad_world.specs.Shapes as known;
ghost use Rattle.cad_world.specs.Trees.{value_of};
ghost use Rattle.cad_world_checks.specs.Checks as checks;
ghost use Rattle.cad_worlds.specs.Standing.{IsSoundButCode, world_of};

use crate::contracts::are_sound_contracts;
use crate::identities::{are_own, has_identities};
use crate::of_values::{is_of_value, plain_value};
use cad_declarations::discard_type;
use cad_fits::{fits, is_storable};
use cad_rows::{Place, Tree};
use cad_shapes::{DeclaredShapes, is_reference_type, is_type};
use cad_state::{Account, Controller, Publication, discard_value};
use cad_syntax::{Name, Numbers};
use cad_value_trees::value_from_tree;
use cad_values::{Value, height, type_of_value};
use cad_worlds::World;
use std::alloc::{AllocError, Global};

const MOST_ACCOUNTS: usize = 1_000_000;

const MOST_HIGH: u64 = 256;

const MOST_BYTES: usize = 1_048_576;

// ---- order

/// Whether an identifier stands before another, by its bytes.
fn is_before(a: &Name, b: &Name) -> bool
    ensures { result ≡ orders.name_before a.now b.now }
{
    a.0.as_bytes().cmp(b.0.as_bytes()).is_lt()
}

/// Whether identifiers stand in order, each once.
fn names_rise(names: &[Name]) -> bool
    ensures { result ≡ orders.rises orders.name_before names.now }
{
    for i in 1..names.len() {
        if !is_before(&names[i - 1], &names[i]) {
            return false;
        }
    }
    true
}

/// Whether a publication stands before another.
fn is_published_before(a: &Publication, b: &Publication) -> bool
    ensures { result ≡ orders.publication_before (publication_of a.now) (publication_of b.now) }
{
    is_before(&a.identifier, &b.identifier)
}

/// Whether publications stand in the order of their identifiers, each once.
fn publications_rise(published: &[Publication]) -> bool
    ensures { result ≡ orders.rises orders.publication_before (map publication_of published.now) }
{
    for i in 1..published.len() {
        if !is_published_before(&published[i - 1], &published[i]) {
            return false;
        }
    }
    true
}

/// Whether a controller stands before another.
fn is_controller_before(a: &Controller, b: &Controller) -> bool
    ensures { result ≡ orders.controller_before (controller_of a.now) (controller_of b.now) }
{
    a.number < b.number
}

/// Whether controllers stand in the order of their numbers, each once.
fn controllers_rise(controllers: &[Controller]) -> bool
    ensures { result ≡ orders.rises orders.controller_before (map controller_of controllers.now) }
{
    for i in 1..controllers.len() {
        if !is_controller_before(&controllers[i - 1], &controllers[i]) {
            return false;
        }
    }
    true
}

// ---- what is stored

/// Whether a value can be stored, and isn't too high.
pub(crate) fn can_last(value: &Value) -> bool
    ensures { IsTrue result ↔ checks.CanLast (pure_value value.now) }
{
    if !is_storable(value) {
        return false;
    }
    height(value) <= MOST_HIGH
}

/// Whether all in a value is as its own type says.
fn fits_itself(alloc: Global, shapes: &DeclaredShapes, value: &Value) -> Result<bool, AllocError>
    ensures { IfOk result (λ b. IsTrue b ↔ of.Fits (shapes_of shapes.now) (pure_value value.now) (types.type_of_value (pure_value value.now))) }
{
    let own = type_of_value(alloc, value)?;
    let fit = fits(alloc, shapes, value, &own);
    discard_type(own);
    fit
}

/// Whether a value can stand in an account between commands.
fn is_kept_value(alloc: Global, shapes: &DeclaredShapes, value: &Value) -> Result<bool, AllocError>
    ensures { IfOk result (λ b. IsTrue b ↔ checks.LastsAs (shapes_of shapes.now) (pure_value value.now)) }
{
    if !can_last(value) {
        return Ok(false);
    }
    fits_itself(alloc, shapes, value)
}

/// Whether a tree is that of a value whose resources have identities.
pub(crate) fn can_stand(shapes: &DeclaredShapes, tree: &Tree) -> bool
    ensures { IsTrue result ↔ checks.CanStand (shapes_of shapes.now) (pure_tree tree.now) }
{
    if !is_of_value(tree) {
        return false;
    }
    has_identities(tree, shapes)
}

/// Whether the value of a tree can stand in an account between commands. It is made anew where it has parts.
fn is_kept_content(alloc: Global, shapes: &DeclaredShapes, tree: &Tree) -> Result<bool, AllocError>
    ensures { IfOk result (λ b. IsTrue b ↔ checks.LastsAs (shapes_of shapes.now) (value_of (pure_tree tree.now))) }
{
    if let Some(value) = plain_value(tree) {
        return is_kept_value(alloc, shapes, value);
    }
    let value = value_from_tree(alloc, tree)?;
    let kept = is_kept_value(alloc, shapes, &value);
    discard_value(value);
    kept
}

/// Whether a tree is a value that can stand in an account between commands.
fn is_kept_tree(alloc: Global, shapes: &DeclaredShapes, tree: &Tree) -> Result<bool, AllocError>
    ensures { IfOk result (λ b. IsTrue b ↔ (FitsItself (shapes_of shapes.now) (pure_tree tree.now) × Lasts (shapes_of shapes.now) (pure_tree tree.now))) }
{
    if !can_stand(shapes, tree) {
        return Ok(false);
    }
    is_kept_content(alloc, shapes, tree)
}

/// Whether a tree without labels is a value that can stand in an account.
fn is_kept_node(
    alloc: Global,
    shapes: &DeclaredShapes,
    name: &Name,
    labels: &Numbers,
    tree: &Tree,
) -> Result<bool, AllocError>
    ensures { IfOk result (λ b. IsTrue b ↔ checks.IsKept (shapes_of shapes.now) name.now (taken labels.now (pure_tree tree.now))) }
{
    let _text = name.0.as_str();
    if !labels.is_empty() {
        return Ok(false);
    }
    is_kept_tree(alloc, shapes, tree)
}

/// Whether a value that can stand in an account stands in a place, without labels.
fn is_kept_place(
    alloc: Global,
    shapes: &DeclaredShapes,
    name: &Name,
    place: &Place,
) -> Result<bool, AllocError>
    ensures { IfOk result (λ b. IsTrue b ↔ checks.IsKept (shapes_of shapes.now) name.now (pure_place place.now)) }
{
    match place {
        Place::Empty => Ok(false),
        Place::Full(labels, tree) => is_kept_node(alloc, shapes, name, labels, tree),
    }
}

/// Whether there are as many identifiers as places.
fn are_as_many(names: &[Name], places: &[Place]) -> bool
    ensures { IsTrue result ↔ (length names.now ≡ length places.now) }
{
    names.len() == places.len()
}

/// Whether there is a value for each identifier, of its own type.
fn are_stored(
    alloc: Global,
    shapes: &DeclaredShapes,
    names: &[Name],
    places: &[Place],
) -> Result<bool, AllocError>
    ensures { IfOk result (λ b. IsTrue b ↔ spec.AreStored (shapes_of shapes.now) names.now (pure_row places.now)) }
{
    if !are_as_many(names, places) {
        return Ok(false);
    }
    for i in 0..places.len() {
        if !is_kept_place(alloc, shapes, &names[i], &places[i])? {
            return Ok(false);
        }
    }
    Ok(true)
}

// ---- publications and controllers

/// Whether a publication is of a capability of the account's own.
fn is_sound_publication(shapes: &DeclaredShapes, publication: &Publication) -> bool
    ensures { IsTrue result ↔ spec.SoundPublication (shapes_of shapes.now) (publication_of publication.now) }
{
    let _text = publication.identifier.0.as_str();
    let number = publication.number;
    if number < 1 {
        return false;
    }
    if !is_reference_type(&publication.lent) {
        return false;
    }
    is_type(shapes, &publication.lent)
}

/// Whether all publications are.
fn are_sound_publications(shapes: &DeclaredShapes, published: &[Publication]) -> bool
    ensures { IsTrue result ↔ All (spec.SoundPublication (shapes_of shapes.now)) (map publication_of published.now) }
{
    for publication in published {
        if !is_sound_publication(shapes, publication) {
            return false;
        }
    }
    true
}

/// Whether publications are sound, each before the next.
fn is_sound_published(shapes: &DeclaredShapes, published: &[Publication]) -> bool
    ensures { IsTrue result ↔ checks.SoundPublished (shapes_of shapes.now) (map publication_of published.now) }
{
    if !publications_rise(published) {
        return false;
    }
    are_sound_publications(shapes, published)
}

/// Whether a tag is a text that isn't too long.
fn is_tag(tag: &[u8]) -> bool
    ensures { IsTrue result ↔ checks.IsTag tag.now }
{
    if tag.len() > MOST_BYTES {
        return false;
    }
    match std::str::from_utf8(tag) {
        Ok(_) => true,
        Err(_) => false,
    }
}

/// Whether a controller is sound where this is the number of the next one.
fn is_sound_controller(shapes: &DeclaredShapes, next: u64, controller: &Controller) -> bool
    ensures { IsTrue result ↔ spec.SoundController (shapes_of shapes.now) next (controller_of controller.now) }
{
    let _text = controller.target.0.as_str();
    let number = controller.number;
    if number < 1 {
        return false;
    }
    if number >= next {
        return false;
    }
    if !is_reference_type(&controller.borrow) {
        return false;
    }
    if !is_type(shapes, &controller.borrow) {
        return false;
    }
    is_tag(controller.tag.as_slice())
}

/// Whether all controllers are.
fn are_sound_controllers(shapes: &DeclaredShapes, next: u64, controllers: &[Controller]) -> bool
    ensures { IsTrue result ↔ All (spec.SoundController (shapes_of shapes.now) next) (map controller_of controllers.now) }
{
    for controller in controllers {
        if !is_sound_controller(shapes, next, controller) {
            return false;
        }
    }
    true
}

/// Whether controllers are sound, each before the next.
fn is_sound_controlled(shapes: &DeclaredShapes, next: u64, controllers: &[Controller]) -> bool
    ensures { IsTrue result ↔ checks.SoundControlled (shapes_of shapes.now) next (map controller_of controllers.now) }
{
    if !controllers_rise(controllers) {
        return false;
    }
    are_sound_controllers(shapes, next, controllers)
}

// ---- all

/// Whether an account is sound.
pub(crate) fn is_sound_account(
    alloc: Global,
    shapes: &DeclaredShapes,
    account: &Account,
) -> Result<bool, AllocError>
    ensures { IfOk result (λ b. IsTrue b ↔ spec.SoundAccount (shapes_of shapes.now) (account_of account.now)) }
{
    let next = account.next_controller;
    if next < 1 {
        return Ok(false);
    }
    let names = account.identifiers.as_slice();
    if !names_rise(names) {
        return Ok(false);
    }
    let published = account.published.as_slice();
    if !is_sound_published(shapes, published) {
        return Ok(false);
    }
    let controllers = account.controllers.as_slice();
    if !is_sound_controlled(shapes, next, controllers) {
        return Ok(false);
    }
    let places = account.stored.as_slice();
    are_stored(alloc, shapes, names, places)
}

/// Whether all accounts are.
fn are_sound_accounts(
    alloc: Global,
    shapes: &DeclaredShapes,
    accounts: &[Account],
) -> Result<bool, AllocError>
    ensures { IfOk result (λ b. IsTrue b ↔ All (spec.SoundAccount (shapes_of shapes.now)) (map account_of accounts.now)) }
{
    for account in accounts {
        if !is_sound_account(alloc, shapes, account)? {
            return Ok(false);
        }
    }
    Ok(true)
}

/// Whether there may be so many accounts.
pub(crate) fn are_few(count: usize) -> bool
    ensures { IsTrue result ↔ (count ≤ most_accounts) }
{
    count <= MOST_ACCOUNTS
}

/// Whether this identity can be the next one over so many accounts: over none it is the first.
pub(crate) fn can_be_next(count: usize, identity: u64) -> bool
    ensures { IsTrue result ↔ checks.IsFirst count identity }
{
    if count != 0 {
        return true;
    }
    identity == 1
}

/// Whether a World is sound, whatever programs the codes of its contracts are: judged by what these programs declare.
pub fn is_sound(alloc: Global, shapes: &DeclaredShapes, world: &World) -> Result<bool, AllocError>
    requires { shapes_of shapes.now ≡ known.shapes (world_of world.now).contracts }
    ensures { IfOk result (λ b. IsTrue b ↔ IsSoundButCode (world_of world.now)) }
{
    let accounts = world.accounts.as_slice();
    let contracts = world.contracts.as_slice();
    let count = accounts.len();
    let identity = world.next_identity;
    if !are_few(count) {
        return Ok(false);
    }
    if identity < 1 {
        return Ok(false);
    }
    if !can_be_next(count, identity) {
        return Ok(false);
    }
    let contracts_sound = are_sound_contracts(alloc, shapes, count, contracts)?;
    if !contracts_sound {
        return Ok(false);
    }
    let accounts_sound = are_sound_accounts(alloc, shapes, accounts)?;
    if !accounts_sound {
        return Ok(false);
    }
    are_own(alloc, identity, accounts, contracts)
}
