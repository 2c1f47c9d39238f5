// Laws of front ends that are right.
ghost use Rattle.cad_fronts.specs.Laws.{OneVerdict};

use cad_bounds::{joins_extend_the_first, joins_extend_the_second};
use cad_loading::{no_stop_of_accepted, one_acceptance, one_loading};

/// Two front ends that are right never say different things of a code.
pub fn one_verdict()
    ensures { OneVerdict }
{
    one_loading();
    one_acceptance();
    no_stop_of_accepted();
    joins_extend_the_first();
    joins_extend_the_second();
}
