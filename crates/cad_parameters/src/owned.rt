// Owners.
ghost use Rattle.std.specs.Prelude.{◌≡◌};
ghost use Rattle.cad_typing.specs.Fields as spec;

use cad_syntax::Authorization;

/// Whether a value is met as its owner, and not through a reference.
pub fn is_owned(grant: &Option<Authorization>) -> bool
    ensures { result ≡ spec.is_owned grant.now }
{
    match grant {
        Some(_) => false,
        None => true,
    }
}
