// The interface to the outside.
ghost use Rattle.std.specs.Prelude.{◌≡◌, ◌≤◌, ◌<◌, ◌^◌, ◌-◌, ◌++◌, min, List, ℕ, length, take, drop, IfOk, OnOk};
ghost use Rattle.cad_host.specs.Disk.{Event, reads, Takes, Puts, Looks, Writes, Syncs};
ghost use Rattle.cad_host.specs.Crash.{IsSettled};
ghost use Rattle.cad_host.specs.Faults.{IsCaused};
ghost use Rattle.cad_host.specs.Input.{Taking};

/// Two tapes for records, and one for the byte that picks one of them.
#[derive(Clone, Copy, Debug, PartialEq, Eq)]
pub enum Tape {
    A,
    B,
    Pick,
}

/// A call failed. The count of faults of its kind rose.
#[derive(Clone, Copy, Debug, PartialEq, Eq)]
pub struct Failed;

/// An input, an output and three tapes. Each count of faults begins at 0, rises with each failure of its kind and with nothing
/// else, and stays at 2^64-1 once it is there.
pub trait Host {
    /// Whether it tells its contents: `Unit {0}` where it does, and `⊥` where it doesn't, as over files.
    ghost tells: { Type 0 };

    /// What it did, the newest first. A call that failed is told too, but for some that found no memory.
    ghost trace: { Self → List Event };

    /// The input that is left.
    ghost left: { Self → List ℕ };

    /// How often its input has failed.
    ghost input_faults: { Self → ℕ };

    /// How often its output has failed.
    ghost output_faults: { Self → ℕ };

    /// How often its disk has failed.
    ghost disk_faults: { Self → ℕ };

    /// Gives the next bytes of the input, at most the buffer's length. 0 for a buffer that isn't empty is the end of the
    /// input. Failed where the input failed; it then took nothing.
    fn take(&mut self, into: &mut [u8]) -> Result<usize, Failed>
        ensures count { IfOk result (λ n. n ≤ length into.old) }
        ensures bytes { tells → Taking result (left self.old) (left self.new) into.old into.new }
        ensures story { tells → Takes result into.new (trace self.old) (trace self.new) }
        ensures cause { IsCaused result (input_faults self.old) (input_faults self.new) }
        ensures output { output_faults self.new ≡ output_faults self.old }
        ensures disk { disk_faults self.new ≡ disk_faults self.old };

    /// Appends all bytes to the output. Failed where the output failed; a prefix of the bytes was then appended.
    fn put(&mut self, bytes: &[u8]) -> Result<(), Failed>
        ensures story { tells → Puts bytes.now result (trace self.old) (trace self.new) }
        ensures stays { tells → left self.new ≡ left self.old }
        ensures cause { IsCaused result (output_faults self.old) (output_faults self.new) }
        ensures input { input_faults self.new ≡ input_faults self.old }
        ensures disk { disk_faults self.new ≡ disk_faults self.old };

    /// The number of bytes that the tape reads. Failed where the disk failed.
    fn length(&mut self, tape: Tape) -> Result<u64, Failed>
        ensures is { IfOk result (λ n. tells → n ≡ length (reads (trace self.old) tape)) }
        ensures story { tells → Looks tape result (trace self.old) (trace self.new) }
        ensures stays { tells → left self.new ≡ left self.old }
        ensures cause { IsCaused result (disk_faults self.old) (disk_faults self.new) }
        ensures input { input_faults self.new ≡ input_faults self.old }
        ensures output { output_faults self.new ≡ output_faults self.old };

    /// Gives the bytes from `at` to the end of the tape or of the buffer, whichever comes first. 0 for a buffer that isn't
    /// empty is the tape's end. Failed where the disk failed.
    fn read(&mut self, tape: Tape, at: u64, into: &mut [u8]) -> Result<usize, Failed>
        ensures count { IfOk result (λ n. n ≤ length into.old) }
        ensures is { IfOk result (λ n. tells → n ≡ min (length into.old) (length (reads (trace self.old) tape) - at)) }
        ensures bytes { IfOk result (λ n. tells → into.new ≡ take n (drop at (reads (trace self.old) tape)) ++ drop n into.old) }
        ensures story { tells → Looks tape result (trace self.old) (trace self.new) }
        ensures stays { tells → left self.new ≡ left self.old }
        ensures cause { IsCaused result (disk_faults self.old) (disk_faults self.new) }
        ensures input { input_faults self.new ≡ input_faults self.old }
        ensures output { output_faults self.new ≡ output_faults self.old };

    /// Puts the bytes at `at`, over what is there and past the end. Failed where the disk failed; the range may then hold
    /// any bytes.
    fn write(&mut self, tape: Tape, at: u64, bytes: &[u8]) -> Result<(), Failed>
        requires { tells → at ≤ length (reads (trace self.old) tape) }
        ensures story { tells → Writes tape at bytes.now result (trace self.old) (trace self.new) }
        ensures fits { OnOk result (tells → length (reads (trace self.new) tape) < 2 ^ 64) }
        ensures stays { tells → left self.new ≡ left self.old }
        ensures cause { IsCaused result (disk_faults self.old) (disk_faults self.new) }
        ensures input { input_faults self.new ≡ input_faults self.old }
        ensures output { output_faults self.new ≡ output_faults self.old };

    /// What was written to the tape stays, whatever comes. Failed where the disk failed.
    fn sync(&mut self, tape: Tape) -> Result<(), Failed>
        ensures story { tells → Syncs tape result (trace self.old) (trace self.new) }
        ensures stays { tells → left self.new ≡ left self.old }
        ensures cause { IsCaused result (disk_faults self.old) (disk_faults self.new) }
        ensures input { input_faults self.new ≡ input_faults self.old }
        ensures output { output_faults self.new ≡ output_faults self.old };

    /// No tape is shorter than at its last sync.
    ghost settled: { (it : Self) → tells → IsSettled (trace it) };
}
