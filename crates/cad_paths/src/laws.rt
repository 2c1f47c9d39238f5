// Laws of paths.
ghost use Rattle.cad_paths.specs.WholePaths.{LivesAreOnPaths};

/// Each life of a variable is that of some whole path of the body, and each whole path's lives are lives.
pub fn lives_are_those_of_whole_paths()
    ensures { LivesAreOnPaths }
{}
