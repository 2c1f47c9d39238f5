// What holds of each trace.
ghost use Rattle.std.specs.Prelude.{◌≡◌, ◌⊎◌, ◌≤◌, List, ℕ, length, take, ◌∷◌, []};
ghost use Rattle.cad_host.specs.Disk.{Event, state, reads, wrote, synced, broke, filled, put, took, IsImage, IsDisk, IsClean, output, BreaksWrite, BreaksSync, BreaksPut, FailsTake, FailsLook};
ghost use Rattle.cad_host.specs.Crash.{IsSettled, IsFilledImage};
ghost use Rattle.cad_host.specs.declared.host.Tape.{Tape};

use crate::Host;

/// What a crash may leave while a write is under way, it may leave after it: any front of the bytes may be written, none
/// of them included. So the moments between the calls are all.
pub fn inside_a_write<H: Host>(host: &H)
    ensures { H.tells → (t : Tape) (at k : ℕ) (bytes : List ℕ) (disk : Tape → List ℕ) → at ≤ length (reads (H.trace host.now) t)
        → IsDisk (wrote t at (take k bytes) ∷ H.trace host.now) disk → IsDisk (wrote t at bytes ∷ H.trace host.now) disk }
{}

/// A write that failed leaves no more than one that ended, and a sync that failed no more than what was before it.
pub fn after_a_failure()
    ensures write { (m : List Event) (t : Tape) (at : ℕ) (bytes now : List ℕ) (disk : Tape → List ℕ) → IsImage (state t (wrote t at bytes ∷ m)) now
        → IsDisk (broke t at (length bytes) now ∷ m) disk → IsDisk (wrote t at bytes ∷ m) disk }
    ensures sync { (m : List Event) (t : Tape) (now : List ℕ) (disk : Tape → List ℕ) → IsImage (state t m) now → IsDisk (broke t 0 0 now ∷ m) disk → IsDisk m disk }
{}

/// Output, takes and looks leave the tapes, and disk calls leave the output, whether they end or fail.
pub fn each_leaves_the_other()
    ensures put { (bytes : List ℕ) (old new : List Event) (t : Tape) → (new ≡ put bytes ∷ old) ⊎ BreaksPut bytes old new → state t new ≡ state t old }
    ensures write { (t : Tape) (at : ℕ) (bytes : List ℕ) (old new : List Event) → (new ≡ wrote t at bytes ∷ old) ⊎ BreaksWrite t at bytes old new → output new ≡ output old }
    ensures sync { (t : Tape) (old new : List Event) → (new ≡ synced t ∷ old) ⊎ BreaksSync t old new → output new ≡ output old }
    ensures take { (bytes : List ℕ) (old new : List Event) (t : Tape) → (new ≡ took bytes ∷ old) ⊎ FailsTake old new → state t new ≡ state t old }
    ensures look { (u : Tape) (old new : List Event) (t : Tape) → FailsLook u old new → (state t new ≡ state t old) × (output new ≡ output old) }
{}

/// No tape is shorter than at its last sync: at first, after each call that ended or failed, and when a tape is filled.
pub fn no_shorter_than_synced()
    ensures none { IsSettled [] }
    ensures put { (bytes : List ℕ) (old new : List Event) → (new ≡ put bytes ∷ old) ⊎ BreaksPut bytes old new → IsSettled old → IsSettled new }
    ensures write { (t : Tape) (at : ℕ) (bytes : List ℕ) (old new : List Event) → (new ≡ wrote t at bytes ∷ old) ⊎ BreaksWrite t at bytes old new → IsSettled old → IsSettled new }
    ensures sync { (t : Tape) (old new : List Event) → (new ≡ synced t ∷ old) ⊎ BreaksSync t old new → IsSettled old → IsSettled new }
    ensures take { (bytes : List ℕ) (old new : List Event) → (new ≡ took bytes ∷ old) ⊎ FailsTake old new → IsSettled old → IsSettled new }
    ensures look { (t : Tape) (old new : List Event) → FailsLook t old new → IsSettled old → IsSettled new }
    ensures fill { (t : Tape) (bytes : List ℕ) (old : List Event) → IsSettled old → IsSettled (filled t bytes ∷ old) }
{}

/// What reads is itself an image, and so is the one in which each byte that may be anything is the same.
pub fn reading_is_an_image<H: Host>(host: &H)
    ensures reads { H.tells → IsDisk (H.trace host.now) (reads (H.trace host.now)) }
    ensures filled { H.tells → (fill : ℕ) (disk : Tape → List ℕ) → ((t : Tape) → IsFilledImage fill (state t (H.trace host.now)) (disk t)) → IsDisk (H.trace host.now) disk }
{}

/// With nothing pending, as after a sync, each image is what reads; and each was one before the sync.
pub fn after_a_sync()
    ensures clean { (m : List Event) (t : Tape) → IsClean (state t (synced t ∷ m)) }
    ensures fewer { (m : List Event) (t : Tape) (disk : Tape → List ℕ) → IsSettled m → IsDisk (synced t ∷ m) disk → IsDisk m disk }
    ensures only { (m : List Event) (t : Tape) (c : List ℕ) → IsClean (state t m) → IsImage (state t m) c → c ≡ reads m t }
{}
