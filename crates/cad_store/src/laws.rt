// What tapes hold.
ghost use Rattle.std.specs.Prelude.{◌≡◌, List, ℕ};
ghost use Rattle.cad_host.specs.declared.host.Tape.{Tape};
ghost use Rattle.cad_host.specs.Disk.{Event, reads, IsDisk};
ghost use Rattle.cad_tape.specs.Reading.{IsQuiet};
ghost use Rattle.cad_accounts.specs.Registers.{Map};
ghost use Rattle.cad_store.specs.Stores.{DiskHolds};

/// Tapes hold one map.
pub fn one_map_a_disk()
    ensures { (disk : Tape → List ℕ) (m n : Map) → DiskHolds disk m → DiskHolds disk n → (key : List ℕ) → m key ≡ n key }
{}

/// Where nothing is pending, a crash leaves the map that the tapes read.
pub fn quiet_images()
    ensures { (m : List Event) (disk : Tape → List ℕ) (map : Map) → IsQuiet m → IsDisk m disk
        → DiskHolds (reads m) map → DiskHolds disk map }
{}
