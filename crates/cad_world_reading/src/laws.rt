// The law of Worlds as registers.
ghost use Rattle.cad_world_reading.specs.Laws.{OneWorld};

use cad_loading::one_loading;

/// One map of registers stands for one World.
pub fn one_world()
    ensures { OneWorld }
{
    one_loading();
}
