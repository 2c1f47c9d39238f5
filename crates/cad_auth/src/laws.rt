// Laws of the definitions, which hold of every authorization.
ghost use Rattle.cad_auth.specs.Grants.{GrantsReflexive, GrantsTransitive, GrantsStronger};
ghost use Rattle.cad_auth.specs.Images.{ImageStronger, ImageIsLeast, TargetsCover};
ghost use Rattle.cad_auth.specs.Tests.{CoversTells, GrantsTells};

/// Each authorization grants itself.
pub fn grants_is_reflexive()
    ensures { GrantsReflexive }
{}

/// What is granted by what is granted is granted.
pub fn grants_is_transitive()
    ensures { GrantsTransitive }
{}

/// What is granted to a weaker authorization is granted to a stronger one.
pub fn stronger_grants_more()
    ensures { GrantsStronger }
{}

/// The image of a stronger authorization is stronger, where both have one.
pub fn images_keep_order()
    ensures { ImageStronger }
{}

/// The sets of an image and the targets of the authorization's sets cover each other, no set of it includes another, each
/// member stands there once, and the members stand in the order of the targets.
pub fn images_are_least()
    ensures { ImageIsLeast }
{}

/// An authorization that grants another has targets that cover the other's image.
pub fn targets_cover()
    ensures { TargetsCover }
{}

/// The test whether sets cover others tells it.
pub fn cover_tests_tell()
    ensures { CoversTells }
{}

/// The test whether an authorization grants another tells it.
pub fn grant_tests_tell()
    ensures { GrantsTells }
{}
