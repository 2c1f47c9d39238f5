// The laws of reading a tape, and where a run can begin.
ghost use Rattle.std.specs.Prelude.{◌≡◌, ◌≢◌, ◌<◌, ◌^◌, ◌++◌, [], ◌∷◌, List, ℕ, false, length, map, All, Some};
ghost use Rattle.cad_host.specs.declared.host.Tape.{Tape};
ghost use Rattle.cad_host.specs.declared.host.Tape.TheVariants.{A, B, Pick};
ghost use Rattle.cad_host.specs.Disk.{Event, wrote, filled, reads, same_tape, Ran};
ghost use Rattle.cad_wire.specs.declared.entry.Entry.{Entry};
ghost use Rattle.cad_wire.specs.Body.{body_bytes, IsRecord};
ghost use Rattle.cad_wire.specs.Fields.{AreBytes};
ghost use Rattle.cad_tape.specs.Framing.{spelled, framed, Ends};
ghost use Rattle.cad_tape.specs.Reading.{tape_reading, chosen, stored, pick_of, IsPlaced, IsFree, Leaves};

/// Records are read back from their bytes, whatever follows the closed gate behind them, and from no other bytes.
pub fn records_both_ways()
    ensures again { (records : List (List Entry)) (gate : ℕ) (rest : List ℕ) → All IsRecord records
        → length (spelled (map body_bytes records)) < 2 ^ 64 → gate ≢ 1
        → tape_reading (spelled (map body_bytes records) ++ gate ∷ rest) ≡ Some records }
    ensures found { (bytes : List ℕ) (records : List (List Entry)) → AreBytes bytes → 0 < length bytes
        → tape_reading bytes ≡ Some records
        → All IsRecord records × Ends bytes (map body_bytes records) (length (spelled (map body_bytes records))) }
{}

/// A run can begin behind the records of the tape in use, or onto the other tape.
pub fn opens()
    ensures placed { (m : List Event) (at : ℕ) → Ends (reads m (chosen (reads m Pick))) (stored m) at
        → length (reads m (chosen (reads m Pick))) < 2 ^ 64 → IsPlaced m (chosen (reads m Pick)) at }
    ensures free { (m : List Event) (onto : Tape) → length (reads m (chosen (reads m Pick))) ≡ 0
        → same_tape onto (chosen (reads m Pick)) ≡ false → same_tape onto Pick ≡ false
        → IsFree m onto × (stored m ≡ []) }
    ensures switches { (m : List Event) (tape onto : Tape) (at : ℕ) → IsPlaced m tape at
        → same_tape onto tape ≡ false → same_tape onto Pick ≡ false → IsFree m onto }
{}

/// The order of the calls matters: over tapes of which b is in use and has no record, a run in which a gate is opened before
/// its record is synced doesn't leave the records from before or with the new one, whatever it did later; nor does one in
/// which `pick` is written before the other tape is synced. Of the write that wasn't synced one byte may be there: an open
/// gate with nothing behind it.
pub fn order_matters()
    ensures gate { (later : List Event) → Ran (filled B (0 ∷ []) ∷ [])
        (later ++ wrote B 0 (1 ∷ []) ∷ wrote B 1 (framed []) ∷ filled B (0 ∷ []) ∷ [])
        (Leaves (filled B (0 ∷ []) ∷ []) [] ([] ∷ [])) → ⊥ }
    ensures pick { (later : List Event) → Ran (filled B (0 ∷ []) ∷ [])
        (later ++ wrote Pick 0 (pick_of A ∷ []) ∷ wrote A 0 (1 ∷ framed []) ∷ filled B (0 ∷ []) ∷ [])
        (Leaves (filled B (0 ∷ []) ∷ []) [] ([] ∷ [])) → ⊥ }
{}
