// Names in order, and where one stands among them.
ghost use Rattle.std.specs.Prelude.{◌≡◌, ◌<◌, ◌≤◌, IfSome, length};
ghost use Rattle.cad_evaluation.specs.Storage as storage;
ghost use Rattle.cad_world.specs.Labels as spec;
ghost use Rattle.cad_world.specs.Orders.{name_before};

use cad_declarations::is_same_name;
use cad_syntax::Name;

/// Whether a name comes before another, by its bytes.
pub(crate) fn is_name_before(a: &Name, b: &Name) -> bool
    ensures { result ≡ name_before a.now b.now }
{
    a.0.as_bytes().cmp(b.0.as_bytes()).is_lt()
}

/// Where a name stands among others.
pub(crate) fn position_of(names: &[Name], name: &Name) -> Option<usize>
    ensures value { result ≡ spec.position_of name.now names.now }
    ensures bound { IfSome result (λ i. i < length names.now) }
{
    for i in 0..names.len() {
        if is_same_name(&names[i], name) {
            return Some(i);
        }
    }
    None
}

/// How many names stand before one that comes to them.
pub(crate) fn place_for(names: &[Name], name: &Name) -> usize
    ensures value { result ≡ storage.place_for name.now names.now }
    ensures bound { result ≤ length names.now }
{
    for i in 0..names.len() {
        if !is_name_before(&names[i], name) {
            return i;
        }
    }
    names.len()
}
