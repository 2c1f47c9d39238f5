// Worlds, as a store holds them.
ghost use Rattle.std.specs.Prelude.{◌≡◌, true, map, IfOk, IfSome, IfNone};
ghost use Rattle.cad_accounts.specs.Registers.{at, are_rising};
ghost use Rattle.cad_run_worlds.specs.Worlds.{run_world};
ghost use Rattle.cad_store.specs.Stores.{held};
ghost use Rattle.cad_world.specs.Registers.{registers};
ghost use Rattle.cad_world.specs.State as definition;
ghost use Rattle.cad_worlds.specs.Standing.{Becomes, StandsFor, coding, register_of, world_of};
ghost use Rattle.cad_serve_parts.specs.Code.Worlds.{AreSound, LeadsOn};

use crate::parts::{part_changes_to, part_in};
use crate::reach::Reach;
use cad_accounts::{Changes, Row};
use cad_run_worlds::{RunWorld, Unfinished, of_part, of_world};
use cad_state::Accounts;
use cad_store::{Judge, Store};
use cad_world_reading::{Programs, discard_kept, known_world, nothing_kept, one_world, read_world};
use cad_worlds::{RowList, World, WorldPart, changes, discard_world, registers_of};
use std::alloc::{AllocError, Global};

// The World that a store holds; None where its registers stand for none. The codes of its contracts are checked.
fn read(alloc: Global, store: &Store) -> Result<Option<World>, AllocError>
    ensures found { IfOk result (λ o. IfSome o (λ world. StandsFor (held store.now) (world_of world))) }
    ensures none { IfOk result (λ o. IfNone o (AreSound (held store.now) → ⊥)) }
{
    let mut programs = nothing_kept(alloc);
    let world = read_world(alloc, &mut programs, RowList::of_blocks(store.blocks()));
    discard_kept(programs);
    world
}

/// A store is opened where its registers stand for a World.
#[derive(Clone, Copy, Drop)]
pub struct Worlds;

impl Judge for Worlds {
    ghost accepts = { λ _. AreSound };

    fn is_good(&self, alloc: Global, store: &Store) -> Result<bool, AllocError> {
        match read(alloc, store)? {
            Some(world) => {
                discard_world(world);
                Ok(true)
            }
            None => Ok(false),
        }
    }
}

/// The World that a store holds. The code of a contract is checked where its program isn't kept; then it is.
pub fn world_in(alloc: Global, programs: &mut Programs, store: &Store) -> Result<World, AllocError>
    requires { AreSound (held store.now) }
    ensures { IfOk result (λ world. StandsFor (held store.now) (world_of world)) }
{
    known_world(alloc, programs, store.blocks())
}

// The same for a run.
fn all_in(alloc: Global, programs: &mut Programs, store: &Store) -> Result<RunWorld, AllocError>
    requires { AreSound (held store.now) }
    ensures { IfOk result (λ world. (w : definition.World) → StandsFor (held store.now) w → run_world w.accounts world ≡ w) }
{
    one_world();
    let world = world_in(alloc, programs, store)?;
    Ok(of_world(world))
}

/// What a store tells of its World to a run that knows some accounts, or all.
pub fn world_for(
    alloc: Global,
    programs: &mut Programs,
    store: &Store,
    reach: &Reach,
) -> Result<RunWorld, AllocError>
    requires { AreSound (held store.now) }
    ensures { IfOk result (λ world. (w : definition.World) → StandsFor (held store.now) w → run_world w.accounts world ≡ w) }
{
    if reach.is_whole {
        return all_in(alloc, programs, store);
    }
    let part = part_in(alloc, programs, store, reach.wanted.as_slice())?;
    Ok(of_part(part))
}

// The registers of a World, which is let go.
fn written(alloc: Global, world: World) -> Result<Vec<Row>, AllocError>
    ensures { IfOk result (λ rows. map register_of rows.items ≡ registers coding (world_of world)) }
{
    let rows = registers_of(alloc, &world);
    discard_world(world);
    rows
}

// The registers of what a run left. AllocError where they stand for no sound World.
fn rows_of(alloc: Global, programs: &mut Programs, world: World) -> Result<Vec<Row>, AllocError>
    ensures rising { IfOk result (λ rows. are_rising rows.items ≡ true) }
    ensures becomes { IfOk result (λ rows. (u : definition.World) × StandsFor (at rows.items) u × Becomes (world_of world) u) }
{
    let rows = written(alloc, world)?;
    match read_world(alloc, programs, RowList::of_rows(rows.as_slice()))? {
        Some(sound) => {
            discard_world(sound);
            Ok(rows)
        }
        None => Err(AllocError),
    }
}

/// What leads from a store's registers to those of what a run left. AllocError too where these stand for no sound World: no run
/// is known to leave such registers, but where a value has bytes that another has too.
pub fn changes_to(
    alloc: Global,
    programs: &mut Programs,
    store: &Store,
    world: World,
) -> Result<Changes, AllocError>
    ensures { IfOk result (λ changes. LeadsOn (held store.now) (world_of world) changes) }
{
    let rows = rows_of(alloc, programs, world)?;
    changes(alloc, store.blocks(), rows)
}

/// The same of a run that knew all accounts, or some.
pub fn run_changes_to(
    alloc: Global,
    programs: &mut Programs,
    store: &Store,
    world: RunWorld,
) -> Result<Changes, Unfinished>
    ensures { IfOk result (λ changes. (w : definition.World) → StandsFor (held store.now) w → LeadsOn (held store.now) (run_world w.accounts world) changes) }
{
    let RunWorld {
        accounts,
        contracts,
        next_identity,
    } = world;
    match accounts {
        Accounts::All(accounts) => {
            let all = World {
                accounts,
                contracts,
                next_identity,
            };
            let changes = changes_to(alloc, programs, store, all)?;
            Ok(changes)
        }
        Accounts::Part { count, known } => {
            let part = WorldPart {
                count,
                known,
                contracts,
                next_identity,
            };
            part_changes_to(alloc, programs, store, part)
        }
    }
}
