// Accounts that a run knows, by their indices.
ghost use Rattle.std.specs.Prelude.{◌≡◌, ◌<◌, IfSome, length, option_map};
ghost use Rattle.cad_state.specs.Ways as ways;

use crate::state::{Account, Known};

/// The account of an index, if it is known.
pub fn known_account(known: &[Known], index: u64) -> Option<&Account>
    ensures { option_map (λ a. a.now) result ≡ ways.code_in known.now index }
{
    for one in known {
        if one.index == index {
            return Some(&one.account);
        }
    }
    None
}

/// Where the account of an index stands among those that are known.
pub fn known_place(known: &[Known], index: u64) -> Option<usize>
    ensures value { result ≡ ways.place_in known.now index }
    ensures bound { IfSome result (λ n. n < length known.now) }
{
    for n in 0..known.len() {
        if known[n].index == index {
            return Some(n);
        }
    }
    None
}
