// Which registers are read of a World of which some accounts are wanted.
ghost use Rattle.std.specs.Prelude.{◌≡◌};
ghost use Rattle.cad_world_registers.specs.Code.Selection as spec;
ghost use Rattle.cad_worlds.specs.Code.Passing as passing;

use crate::saying::{CONTROLLER, NEXT, PUBLISHED, STORED};
use cad_accounts::Row;

/// Whether registers of a kind are of one account each.
fn is_of_account(kind: u8) -> bool
    ensures { result ≡ passing.is_of_account kind }
{
    kind == NEXT || kind == STORED || kind == PUBLISHED || kind == CONTROLLER
}

/// The address at the front of what stands behind the kind in a key.
fn address_in(place: &[u8]) -> Option<u64>
    ensures { result ≡ spec.address_in place.now }
{
    let Some((front, _)) = place.split_first_chunk::<8>() else {
        return None;
    };
    Some(u64::from_be_bytes(*front))
}

/// Whether the account of an address is wanted.
fn is_address_wanted(wanted: &[u64], address: u64) -> bool
    ensures { result ≡ spec.is_address_wanted wanted.now address }
{
    if address == 0 {
        return false;
    }
    wanted.contains(&(address - 1))
}

/// Whether a register is read: where it is of no account, or of one that is wanted.
pub(crate) fn is_selected(wanted: &[u64], row: &Row) -> bool
    ensures { result ≡ spec.is_selected wanted.now row.now.key.0 }
{
    let [kind, place @ ..] = row.key.0.as_slice() else {
        return true;
    };
    if !is_of_account(*kind) {
        return true;
    }
    match address_in(place) {
        Some(address) => is_address_wanted(wanted, address),
        None => true,
    }
}
