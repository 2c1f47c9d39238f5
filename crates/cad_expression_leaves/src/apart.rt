// How values are let go behind what is called. None of these is inlined, so that a form holds no room on the stack for them while
// its parts are evaluated.
use cad_members::Pair;
use cad_receivers::Receiver;
use cad_rows::Place;

/// Lets a row of values go.
#[inline(never)]
pub fn discard_row(row: Vec<Place>) {
    cad_rows::discard_row(row)
}

/// Lets pairs of keys and values go.
#[inline(never)]
pub fn discard_pairs(pairs: Vec<Pair>) {
    cad_members::discard_pairs(pairs)
}

/// Lets a receiver go.
#[inline(never)]
pub fn discard_receiver(receiver: Receiver) {
    cad_receivers::discard_receiver(receiver)
}
