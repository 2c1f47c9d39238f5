// Numbers.
ghost use Rattle.std.specs.Prelude.{◌≡◌, ◌==◌, ◌&&◌, not, true, IsTrue, IsSome, IfSome, ◌↔◌};
ghost use Rattle.cad_syntax.specs.Kinds.{in_range, is_kept};

use crate::kind::Kind;

/// A number: its kind, whether it is below 0, and its magnitude; of a fixed-point kind scaled by 10^8. It is in its
/// kind's range, and 0 isn't negative.
#[derive(Clone, Copy, Debug, PartialEq, Eq)]
pub struct Num {
    pub kind: Kind,
    pub negative: bool,
    pub magnitude: u128,
    pub ghost kept: { is_kept kind negative magnitude ≡ true },
}

impl Num {
    /// The number with this sign and magnitude. None exactly where it is out of the kind's range. Negative zero is zero.
    pub fn new(kind: Kind, negative: bool, magnitude: u128) -> Option<Num>
        ensures some { IsSome result ↔ (in_range kind negative magnitude ≡ true) }
        ensures kind { IfSome result (λ n. n.kind ≡ kind) }
        ensures negative { IfSome result (λ n. n.negative ≡ (negative && not (magnitude == 0))) }
        ensures magnitude { IfSome result (λ n. n.magnitude ≡ magnitude) }
    {
        if negative && magnitude > 0 {
            if magnitude > kind.depth() {
                return None;
            }
            return Some(Num {
                kind,
                negative: true,
                magnitude,
            });
        }
        if magnitude > kind.greatest() {
            return None;
        }
        Some(Num {
            kind,
            negative: false,
            magnitude,
        })
    }
}
