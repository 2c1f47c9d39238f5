// Laws of what is told.
ghost use Rattle.cad_standing.specs.Laws.{CastsFirst};

/// `if let` over a cast is what is made of the place, and then a block.
pub fn casts_come_first()
    ensures { CastsFirst }
{}
