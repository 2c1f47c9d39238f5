// Writing a commit to the tapes.
ghost use Rattle.std.specs.Prelude.{◌≡◌, ◌-◌, ◌≤◌, ◌++◌, [], ◌∷◌, List, ℕ, length, All, OnOk, OnErr, IfOk};
ghost use Rattle.cad_host.specs.Disk.{Ran, output};
ghost use Rattle.cad_host.specs.Faults.{IsCaused};
ghost use Rattle.cad_wire.specs.declared.entry.Entry.{Entry};
ghost use Rattle.cad_wire.specs.Body.{body_bytes, Fits};
ghost use Rattle.cad_tape.specs.Framing.{framed};
ghost use Rattle.cad_tape.specs.Reading.{stored, Leaves, IsQuiet};
ghost use Rattle.cad_accounts.specs.Registers.{at, applied};
ghost use Rattle.cad_accounts.specs.Room.{rows_of, HasRoom};
ghost use Rattle.cad_store.specs.Stores.{held, room_of, IsAt, IsOn, IsOut, Keeps, recorded, BreaksRecord};

use crate::place::Place;
use crate::store::{Commit, Store};
use cad_accounts::{Changes, MapRegisters};
use cad_host::{Failed, Host};
use cad_tape::{append, checkpoint};

// Writes a record at its place, and answers the place of the next.
fn write_record<H: Host>(host: &mut H, place: Place, bytes: &[u8]) -> Result<Place, Failed>
    requires place { H.tells → IsAt (H.trace host.old) place }
    requires form { (body : List ℕ) × (bytes.now ≡ 1 ∷ framed body) }
    ensures moments { H.tells → IsQuiet (H.trace host.old) → (body : List ℕ) → bytes.now ≡ 1 ∷ framed body →
        Ran (H.trace host.old) (H.trace host.new)
        (Leaves (H.trace host.old) (stored (H.trace host.old)) (stored (H.trace host.old) ++ body ∷ [])) }
    ensures ok { IfOk result (λ next. H.tells → (body : List ℕ) → bytes.now ≡ 1 ∷ framed body →
        IsAt (H.trace host.new) next × (stored (H.trace host.new) ≡ stored (H.trace host.old) ++ body ∷ [])) }
    ensures quiet { OnOk result (H.tells → IsQuiet (H.trace host.old) → IsQuiet (H.trace host.new)) }
    ensures order { OnOk result (H.tells → (body : List ℕ) → bytes.now ≡ 1 ∷ framed body →
        H.trace host.new ≡ recorded body (H.trace host.old)) }
    ensures breaks { OnErr result (H.tells → (body : List ℕ) → bytes.now ≡ 1 ∷ framed body → BreaksRecord body (H.trace host.old) (H.trace host.new)) }
    ensures says { H.tells → output (H.trace host.new) ≡ output (H.trace host.old) }
    ensures cause { IsCaused result (H.disk_faults host.old) (H.disk_faults host.new) }
    ensures stays { H.tells → H.left host.new ≡ H.left host.old }
    ensures input { H.input_faults host.new ≡ H.input_faults host.old }
    ensures output { H.output_faults host.new ≡ H.output_faults host.old }
{
    match place {
        Place::Behind(tape, at) => {
            let next = append(host, tape, at, &bytes[1..])?;
            Ok(Place::Behind(tape, next))
        }
        Place::Onto(tape) => {
            let next = checkpoint(host, tape, bytes)?;
            Ok(Place::Behind(tape, next))
        }
    }
}

// Changes registers, for which there is room.
fn change_all(registers: &mut MapRegisters, changes: Changes)
    requires room { HasRoom changes registers.old }
    requires fit { All Fits changes }
    ensures { (key : List ℕ) → at (rows_of registers.new) key ≡ applied changes (at (rows_of registers.old)) key }
{
    for change in changes.into_vec() {
        registers.change(change);
    }
}

impl Store {
    /// Writes a commit behind the records of the tape in use; or as the first record of the other tape, where the tape in use
    /// is empty, which then is in use: four disk calls. It takes no memory. Failed only where the disk failed.
    pub fn commit<H: Host>(&mut self, host: &mut H, commit: Commit) -> Result<(), Failed>
        requires out { (changes : List Entry) × IsOut self.old commit changes }
        requires on { H.tells → IsOn (H.trace host.old) self.old }

        // A crash at any moment leaves the registers from before, or the changed ones.
        ensures moments { H.tells → (changes : List Entry) → IsOut self.old commit changes →
            Ran (H.trace host.old) (H.trace host.new)
            (Keeps (H.trace host.old) (held self.old) (applied changes (held self.old))) }

        // At Ok they are on the disk, and in memory.
        ensures ok { OnOk result ((changes : List Entry) → IsOut self.old commit changes →
            ((key : List ℕ) → held self.new key ≡ applied changes (held self.old) key)) }
        ensures on { OnOk result (H.tells → IsOn (H.trace host.new) self.new) }
        ensures order { OnOk result (H.tells → (changes : List Entry) → IsOut self.old commit changes →
            H.trace host.new ≡ recorded (body_bytes changes) (H.trace host.old)) }
        ensures breaks { OnErr result (H.tells → (changes : List Entry) → IsOut self.old commit changes →
            BreaksRecord (body_bytes changes) (H.trace host.old) (H.trace host.new)) }

        ensures says { H.tells → output (H.trace host.new) ≡ output (H.trace host.old) }
        ensures err { OnErr result (self.new ≡ self.old) }
        ensures room { room_of self.new ≡ room_of self.old }
        ensures cause { IsCaused result (H.disk_faults host.old) (H.disk_faults host.new) }
        ensures stays { H.tells → H.left host.new ≡ H.left host.old }
        ensures input { H.input_faults host.new ≡ H.input_faults host.old }
        ensures output { H.output_faults host.new ≡ H.output_faults host.old }
    {
        let Commit { changes, bytes } = commit;
        let next = write_record(host, self.place, bytes.as_slice())?;
        self.place = next;
        change_all(&mut self.registers, changes);
        Ok(())
    }
}
