// Counts of faults.
ghost use Rattle.std.specs.Prelude.{◌≤◌};
ghost use Rattle.cad_host.specs.Faults.{Rose};

use crate::Failed;

/// Counts a fault. A count at its end stays there.
pub fn fault(count: &mut u64) -> Failed
    ensures grows { count.old ≤ count.new }
    ensures rose { Rose count.old count.new }
{
    *count = count.saturating_add(1);
    Failed
}
