// The numbers of which generated transfers are made.
ghost use Rattle.std.specs.Prelude.{◌≡◌};
ghost use Rattle.cad_generation.specs.Numbers as spec;

/// The number behind one, modulo 2^64.
pub fn next_number(x: u64) -> u64
    ensures { result ≡ spec.next_number x }
{
    x.wrapping_mul(6364136223846793005)
        .wrapping_add(1442695040888963407)
}
