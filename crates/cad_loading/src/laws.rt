// Laws of contracts that were deployed one after another.
ghost use Rattle.cad_loading.specs.Laws.{OneLoading};

use cad_check::one_acceptance;
use cad_table_laws::imports_are_enough;

/// Codes are loaded to one program each.
pub fn one_loading()
    ensures { OneLoading }
{
    one_acceptance();
    imports_are_enough();
}
