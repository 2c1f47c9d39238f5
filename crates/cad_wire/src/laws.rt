// The laws of the fields, of a record's body, and of reading them.
ghost use Rattle.std.specs.Prelude.{◌≡◌, ◌<◌, ◌^◌, ◌++◌, [], ◌∷◌, List, ℕ, length, Some};
ghost use Rattle.cad_wire.specs.Fields.{AreBytes, byte_at, number_at, length_at, bytes_at, number_field, length_field, bytes_field};
ghost use Rattle.cad_wire.specs.Body.{IsRecord, body_bytes};
ghost use Rattle.cad_wire.specs.Reading.{entries_of};
ghost use Rattle.cad_wire.specs.declared.entry.Entry.{Entry};

/// What is written is read back, whatever follows.
pub fn fields_again()
    ensures byte { (b : ℕ) (rest : List ℕ) → byte_at (b ∷ rest) ≡ Some (b, rest) }
    ensures number { (n : ℕ) (rest : List ℕ) → n < 2 ^ 64 → number_at (number_field n ++ rest) ≡ Some (n, rest) }
    ensures length { (n : ℕ) (rest : List ℕ) → n < 2 ^ 32 → length_at (length_field n ++ rest) ≡ Some (n, rest) }
    ensures bytes { (bytes rest : List ℕ) → length bytes < 2 ^ 32
        → bytes_at (bytes_field bytes ++ rest) ≡ Some (bytes, rest) }
{}

/// What is read is so spelled. So no two spellings have one value.
pub fn fields_found()
    ensures byte { (all rest : List ℕ) (b : ℕ) → AreBytes all → byte_at all ≡ Some (b, rest) → all ≡ b ∷ rest }
    ensures number { (all rest : List ℕ) (n : ℕ) → AreBytes all → number_at all ≡ Some (n, rest)
        → (n < 2 ^ 64) × (all ≡ number_field n ++ rest) }
    ensures length { (all rest : List ℕ) (n : ℕ) → AreBytes all → length_at all ≡ Some (n, rest)
        → (n < 2 ^ 32) × (all ≡ length_field n ++ rest) }
    ensures bytes { (all rest bytes : List ℕ) → AreBytes all → bytes_at all ≡ Some (bytes, rest)
        → (length bytes < 2 ^ 32) × (all ≡ bytes_field bytes ++ rest) }
{}

/// The entries of a record are read from their body, and from no other bytes.
pub fn body_both_ways()
    ensures again { (entries : List Entry) → IsRecord entries → entries_of (body_bytes entries) ≡ Some entries }
    ensures found { (all : List ℕ) (entries : List Entry) → AreBytes all → entries_of all ≡ Some entries
        → IsRecord entries × (all ≡ body_bytes entries) }
{}
