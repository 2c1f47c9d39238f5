// A walk over the statements of a body, which ends at the first that names a type that isn't there.
ghost use Rattle.std.specs.Prelude.{◌≡◌};
ghost use Rattle.cad_stop_points.specs.Code.Walks as spec;
ghost use Rattle.cad_stop_points.specs.declared.walk.Walk.TheVariants.{Passed};

/// How far a walk has come: it has ended at a statement, or the next statement has this number. Numbers over 2^64-1 are told
/// as 2^64-1.
#[derive(Clone, Copy)]
pub(crate) enum Walk {
    Missing(u64),
    Passed(u64),
}

/// The walk behind the next statement, by whether its types are there.
pub(crate) fn stepped(is_there: bool, walk: Walk) -> Walk
    ensures { result ≡ spec.stepped is_there walk }
{
    match walk {
        Walk::Missing(at) => Walk::Missing(at),
        Walk::Passed(at) => passed(is_there, at),
    }
}

fn passed(is_there: bool, at: u64) -> Walk
    ensures { result ≡ spec.stepped is_there (Passed at) }
{
    if is_there {
        Walk::Passed(at.saturating_add(1))
    } else {
        Walk::Missing(at)
    }
}

/// The statement at which a walk has ended.
pub(crate) fn missing(walk: Walk) -> Option<u64>
    ensures { result ≡ spec.missing walk }
{
    match walk {
        Walk::Missing(at) => Some(at),
        Walk::Passed(_) => None,
    }
}
