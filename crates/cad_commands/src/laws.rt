// Laws of commands.
ghost use Rattle.cad_commands.specs.Bounds.{LimitsAreBounded};

/// Whatever a line asks for takes from 1 to 1,000,000 units, if any.
pub fn limits_are_bounded()
    ensures { LimitsAreBounded }
{}
