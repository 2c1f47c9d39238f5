// Between which addresses rows are, by their first and last keys.
ghost use Rattle.std.specs.Prelude.{◌≡◌};
ghost use Rattle.cad_worlds.specs.Code.Passing as spec;

use crate::keys::front_number;
use cad_accounts::{Block, Row};

/// Keys of one kind, which are of no address before the one nor behind the other, where they have addresses.
#[derive(Clone, Copy)]
pub(crate) struct Span {
    pub kind: u8,
    pub least: u64,
    pub most: u64,
}

/// The key of the first row.
fn first_key(rows: &[Row]) -> &[u8]
    ensures { result.now ≡ spec.first_key rows.now }
{
    match rows {
        [first, ..] => first.key.0.as_slice(),
        [] => &[],
    }
}

/// The key of the last row.
fn last_key(rows: &[Row]) -> &[u8]
    ensures { result.now ≡ spec.last_key rows.now }
{
    match rows {
        [.., last] => last.key.0.as_slice(),
        [] => &[],
    }
}

/// Of two keys of one kind that have addresses.
fn span_between(first: &[u8], last: &[u8]) -> Option<Span>
    ensures { result ≡ spec.span_between first.now last.now }
{
    let [kind, front @ ..] = first else {
        return None;
    };
    let [other, back @ ..] = last else {
        return None;
    };
    if *kind != *other {
        return None;
    }
    let least = front_number(front)?;
    let most = front_number(back)?;
    Some(Span {
        kind: *kind,
        least,
        most,
    })
}

/// Of rows in byte order of their keys, by the first and the last. None where these aren't of one kind, or of no address.
pub(crate) fn span_of(rows: &[Row]) -> Option<Span>
    ensures { result ≡ spec.span_of rows.now }
{
    match rows {
        [] => None,
        [first, ..] => span_between(first.key.0.as_slice(), last_key(rows)),
    }
}

/// The key of the last row of the last block.
fn last_in(blocks: &[Block]) -> &[u8]
    ensures { result.now ≡ spec.last_in blocks.now }
{
    match blocks {
        [.., last] => last_key(last.rows()),
        [] => &[],
    }
}

/// Of blocks of rows in that order, by the first row of the first block and the last row of the last. None also where one of these
/// blocks has no rows.
pub(crate) fn span_in(blocks: &[Block]) -> Option<Span>
    ensures { result ≡ spec.span_in blocks.now }
{
    match blocks {
        [] => None,
        [first, ..] => span_between(first_key(first.rows()), last_in(blocks)),
    }
}

/// Whether the address of the account at an index is between two.
pub(crate) fn is_between(index: u64, least: u64, most: u64) -> bool
    ensures { result ≡ spec.is_between least most index }
{
    index < most && least <= index + 1
}
