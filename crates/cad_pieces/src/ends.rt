// How the paths of a body leave it, but by calls that never end.
ghost use Rattle.std.specs.Prelude.{◌≡◌, ◌&&◌, ◌||◌, true, false};
ghost use Rattle.cad_pieces.specs.Code.Ends as spec;
ghost use Rattle.cad_pieces.specs.Code.Comes as statements;

/// Whether some path comes to the end, and whether some leaves by `break`, `continue` and `return`.
#[derive(Clone, Copy)]
pub struct Ends {
    pub next: bool,
    pub broken: bool,
    pub continued: bool,
    pub returned: bool,
}

/// All paths come to the end, or leave in no way.
pub(crate) fn coming(comes: bool) -> Ends
    ensures { result ≡ spec.coming comes }
{
    Ends {
        next: comes,
        broken: false,
        continued: false,
        returned: false,
    }
}

/// A `break`.
pub(crate) fn breaking() -> Ends
    ensures { result ≡ spec.ends false true false false }
{
    Ends {
        next: false,
        broken: true,
        continued: false,
        returned: false,
    }
}

/// A `continue`.
pub(crate) fn continuing() -> Ends
    ensures { result ≡ spec.ends false false true false }
{
    Ends {
        next: false,
        broken: false,
        continued: true,
        returned: false,
    }
}

/// A `return`, behind its value.
pub(crate) fn returning(comes: bool) -> Ends
    ensures { result ≡ statements.return_ends comes }
{
    Ends {
        next: false,
        broken: false,
        continued: false,
        returned: comes,
    }
}

/// One body, and then another.
pub(crate) fn behind(a: Ends, b: Ends) -> Ends
    ensures { result ≡ spec.behind a b }
{
    Ends {
        next: both(a.next, b.next),
        broken: either(a.broken, both(a.next, b.broken)),
        continued: either(a.continued, both(a.next, b.continued)),
        returned: either(a.returned, both(a.next, b.returned)),
    }
}

/// One body or another.
pub(crate) fn beside(a: Ends, b: Ends) -> Ends
    ensures { result ≡ spec.beside a b }
{
    Ends {
        next: either(a.next, b.next),
        broken: either(a.broken, b.broken),
        continued: either(a.continued, b.continued),
        returned: either(a.returned, b.returned),
    }
}

/// A body behind a test.
pub(crate) fn tested(comes: bool, a: Ends) -> Ends
    ensures { result ≡ statements.tested comes a }
{
    behind(coming(comes), a)
}

/// A body any number of times, also none.
fn turning(a: Ends) -> Ends
    ensures { result ≡ spec.turning a }
{
    Ends {
        next: true,
        broken: a.broken,
        continued: a.continued,
        returned: a.returned,
    }
}

/// A `break` goes on behind the body.
fn broken_off(a: Ends) -> Ends
    ensures { result ≡ spec.broken_off a }
{
    Ends {
        next: either(a.next, a.broken),
        broken: false,
        continued: a.continued,
        returned: a.returned,
    }
}

/// A `continue` goes on behind the body.
fn continued_on(a: Ends) -> Ends
    ensures { result ≡ spec.continued_on a }
{
    Ends {
        next: either(a.next, a.continued),
        broken: a.broken,
        continued: false,
        returned: a.returned,
    }
}

/// The test, and the body any number of times.
pub(crate) fn while_ends(comes: bool, a: Ends) -> Ends
    ensures { result ≡ statements.while_ends comes a }
{
    let turn = behind(continued_on(a), coming(comes));
    broken_off(tested(comes, turning(turn)))
}

/// An array, and the body for each of its elements.
pub(crate) fn for_ends(comes: bool, a: Ends) -> Ends
    ensures { result ≡ statements.for_ends comes a }
{
    tested(comes, broken_off(turning(continued_on(a))))
}

/// A value, and what is done by cases.
pub(crate) fn switch_ends(comes: bool, a: Ends) -> Ends
    ensures { result ≡ statements.switch_ends comes a }
{
    tested(comes, broken_off(a))
}

/// Whether both are true.
pub(crate) fn both(a: bool, b: bool) -> bool
    ensures { result ≡ (a && b) }
{
    if a { b } else { false }
}

/// Whether one of the two is true.
pub(crate) fn either(a: bool, b: bool) -> bool
    ensures { result ≡ (a || b) }
{
    if a { true } else { b }
}
