// Laws of what is told.
ghost use Rattle.cad_access.specs.Calls.{MadeIsThat};

/// Whether a node is what the running initializer makes is whether its label is one of the node that `made_label` names.
pub fn made_label_tells()
    ensures { MadeIsThat }
{}
