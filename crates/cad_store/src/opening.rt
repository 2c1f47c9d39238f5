// Opening a store.
ghost use Rattle.std.specs.Prelude.{◌≡◌, ◌⊎◌, ◌≤◌, ◌^◌, IfOk, Err, None};
ghost use Rattle.cad_host.specs.declared.host.Tape.TheVariants.{Pick};
ghost use Rattle.cad_host.specs.Disk.{reads, Looks, FailsLook, Ran};
ghost use Rattle.cad_host.specs.Faults.{IsCaused};
ghost use Rattle.cad_tape.specs.Reading.{chosen, tape_reading};
ghost use Rattle.cad_accounts.specs.Registers.{Map};
ghost use Rattle.cad_store.specs.Stops.{BlamesDisk};
ghost use Rattle.cad_store.specs.Opening.{in_use, Opens, IsOpening};
ghost use Rattle.cad_store.specs.Code.Opening.{ReadsStore, SyncsBoth};
ghost use Rattle.cad_store.specs.Stores.{DiskHolds, held, room_of, IsAt, IsOn};
ghost use Rattle.cad_store.specs.Code.Opening.{place_behind};

use crate::judging::Judge;
use crate::place::Place;
use crate::stops::OpenStop;
use crate::store::Store;
use cad_accounts::fold_records;
use cad_host::{Failed, Host, Tape};
use cad_tape::scan;
use std::alloc::Global;

fn chosen_by(bytes: &[u8]) -> Tape
    ensures { result ≡ chosen bytes.now }
{
    match bytes {
        [first, ..] if *first % 2 == 1 => Tape::A,
        _ => Tape::B,
    }
}

// Where the next record goes, where the tape in use has this length and its records end there.
fn next_place(tape: Tape, length: u64, ending: u64) -> Place
    ensures { result ≡ place_behind tape length ending }
{
    match (length, tape) {
        (0, Tape::A) => Place::Onto(Tape::B),
        (0, _) => Place::Onto(Tape::A),
        _ => Place::Behind(tape, ending),
    }
}

// The tape in use.
fn tape_in_use<H: Host>(host: &mut H) -> Result<Tape, Failed>
    ensures is { IfOk result (λ tape. H.tells → tape ≡ in_use (H.trace host.old)) }
    ensures cause { IsCaused result (H.disk_faults host.old) (H.disk_faults host.new) }
    ensures story { H.tells → Looks Tape.Pick result (H.trace host.old) (H.trace host.new) }
    ensures stays { H.tells → H.left host.new ≡ H.left host.old }
    ensures input { H.input_faults host.new ≡ H.input_faults host.old }
    ensures output { H.output_faults host.new ≡ H.output_faults host.old }
{
    let mut first = [0u8; 1];
    let count = host.read(Tape::Pick, 0, &mut first)?;
    Ok(chosen_by(&first[..count]))
}

// A store of what the tape in use reads, whatever it is.
fn read_store<H: Host>(
    alloc: Global,
    host: &mut H,
    tape: Tape,
    room: u64,
) -> Result<Store, OpenStop>
    requires { H.tells → tape ≡ in_use (H.trace host.old) }
    ensures holds { IfOk result (λ store. H.tells → DiskHolds (reads (H.trace host.old)) (held store)) }
    ensures place { IfOk result (λ store. H.tells → IsAt (H.trace host.old) store.place) }
    ensures room { IfOk result (λ store. room_of store ≡ room) }
    ensures bad { H.tells → result ≡ Err OpenStop.BadStore
        → tape_reading (reads (H.trace host.old) (in_use (H.trace host.old))) ≡ None }
    ensures cause { BlamesDisk result (H.disk_faults host.old) (H.disk_faults host.new) }
    ensures story { H.tells → ReadsStore result (H.trace host.old) (H.trace host.new) }
    ensures stays { H.tells → H.left host.new ≡ H.left host.old }
    ensures input { H.input_faults host.new ≡ H.input_faults host.old }
    ensures output { H.output_faults host.new ≡ H.output_faults host.old }
{
    let length = host.length(tape)?;
    let read = scan(alloc, host, tape)?;
    let place = next_place(tape, length, read.ending);
    let registers = fold_records(alloc, read.records)?;
    Ok(Store {
        registers,
        place,
        room,
        alloc,
    })
}

// Syncs `pick`, and then this tape.
fn sync_both<H: Host>(host: &mut H, tape: Tape) -> Result<(), Failed>
    ensures cause { IsCaused result (H.disk_faults host.old) (H.disk_faults host.new) }
    ensures story { H.tells → SyncsBoth tape result (H.trace host.old) (H.trace host.new) }
    ensures stays { H.tells → H.left host.new ≡ H.left host.old }
    ensures input { H.input_faults host.new ≡ H.input_faults host.old }
    ensures output { H.output_faults host.new ≡ H.output_faults host.old }
{
    host.sync(Tape::Pick)?;
    host.sync(tape)
}

/// Opens the store on three tapes. An odd first byte of `pick` chooses tape a, another or none tape b; the records of the
/// chosen tape, one after another, are the registers. `room` is how many bytes a record of all registers may have, with the
/// gate behind it, after any commit. It writes nothing, and syncs what it read, since an earlier run may have ended between a
/// write and its sync: then nothing is pending on it. Failed only where the disk failed; BadStore where the tape's bytes
/// aren't those of records, or the judge doesn't accept the registers. Memory where memory runs out, or where there
/// would be 2^32 registers or more.
pub fn open<H: Host, J: Judge>(
    alloc: Global,
    host: &mut H,
    judge: &J,
    room: u64,
) -> Result<Store, OpenStop>
    requires { room ≤ 2 ^ 30 }
    ensures accepted { IfOk result (λ store. J.accepts judge.now (held store)) }
    ensures on { IfOk result (λ store. H.tells → IsOn (H.trace host.new) store) }
    ensures holds { IfOk result (λ store. H.tells → DiskHolds (reads (H.trace host.old)) (held store)) }
    ensures room { IfOk result (λ store. room_of store ≡ room) }
    ensures bad { H.tells → result ≡ Err OpenStop.BadStore
        → (m : Map) → DiskHolds (reads (H.trace host.old)) m → J.accepts judge.now m → ⊥ }
    ensures cause { BlamesDisk result (H.disk_faults host.old) (H.disk_faults host.new) }
    ensures story { H.tells → Opens result (H.trace host.old) (H.trace host.new) }
    // What isn't accepted is read, and no more.
    ensures looked { H.tells → ((m : Map) → DiskHolds (reads (H.trace host.old)) m → J.accepts judge.now m → ⊥)
        → FailsLook Pick (H.trace host.old) (H.trace host.new) ⊎ FailsLook (in_use (H.trace host.old)) (H.trace host.old) (H.trace host.new) }
    // A crash at any moment leaves what one might have left when it began.
    ensures moments { H.tells → Ran (H.trace host.old) (H.trace host.new) (IsOpening (H.trace host.old)) }
    ensures stays { H.tells → H.left host.new ≡ H.left host.old }
    ensures input { H.input_faults host.new ≡ H.input_faults host.old }
    ensures output { H.output_faults host.new ≡ H.output_faults host.old }
{
    let tape = tape_in_use(host)?;
    let store = read_store(alloc, host, tape, room)?;
    if !judge.is_good(alloc, &store)? {
        return Err(OpenStop::BadStore);
    }
    sync_both(host, tape)?;
    Ok(store)
}
