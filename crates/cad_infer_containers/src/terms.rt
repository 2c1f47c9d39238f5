// The terms of elements and entries, and those that are let go.
ghost use Rattle.std.specs.Prelude.{◌≡◌, ◌++◌, ◌∷◌, [], IfOk, OnOk, map};
ghost use Rattle.cad_declarations.specs.Views.{term_of, pair_of};
ghost use Rattle.cad_environment.specs.Views.{typing_of};
ghost use Rattle.cad_typing.specs.Containers as spec;
ghost use Rattle.cad_infer_containers.specs.Views.{typings_of};

use cad_declarations::{Term, TermEntry, discard_entries, discard_term};
use cad_environment::{Typing, discard_typing};
use cad_infer_terms::into_term;
use cad_typed_rows::{discard_terms, push_term};
use std::alloc::{AllocError, Global};
use std::vec::IntoIter;

/// Lets elements go, from the last one on.
pub fn discard_typings(all: Vec<Typing>) {
    let mut left = all;
    while let Some(x) = left.pop() {
        discard_typing(x);
    }
    left.destroy_empty()
}

/// Lets keys and values go, from the last ones on.
pub fn discard_pairs(all: Vec<(Typing, Typing)>) {
    let mut left = all;
    while let Some(pair) = left.pop() {
        discard_pair(pair);
    }
    left.destroy_empty()
}

/// Lets a key and a value go.
pub(crate) fn discard_pair(pair: (Typing, Typing)) {
    let (key, value) = pair;
    discard_typing(key);
    discard_typing(value)
}

/// Lets the elements go that are left.
fn discard_left(all: IntoIter<Typing, Global>) {
    let mut left = all;
    while let Some(x) = left.next() {
        discard_typing(x);
    }
    left.destroy_empty()
}

/// Lets the keys and values go that are left.
fn discard_left_pairs(all: IntoIter<(Typing, Typing), Global>) {
    let mut left = all;
    while let Some(pair) = left.next() {
        discard_pair(pair);
    }
    left.destroy_empty()
}

/// Adds a key and a value.
fn push_entry(all: &mut Vec<TermEntry>, x: TermEntry) -> Result<(), AllocError>
    ensures { OnOk result (map pair_of all.new.items ≡ map pair_of all.old.items ++ pair_of x ∷ []) }
{
    match all.push(x) {
        Ok(()) => Ok(()),
        Err(refused) => {
            let TermEntry { key, value } = refused.value;
            discard_term(key);
            discard_term(value);
            Err(AllocError)
        }
    }
}

/// The terms of elements.
pub(crate) fn terms_of(alloc: Global, xs: Vec<Typing>) -> Result<Vec<Term>, AllocError>
    ensures { IfOk result (λ ts. map term_of ts.items ≡ map (λ x. x.term) (map typing_of xs.items)) }
{
    let mut terms = Vec::new(alloc);
    let mut left = xs.into_iter();
    while let Some(x) = left.next() {
        if let Err(error) = push_term(&mut terms, into_term(x)) {
            discard_terms(terms);
            discard_left(left);
            return Err(error);
        }
    }
    left.destroy_empty();
    Ok(terms)
}

/// The terms of keys and values.
pub(crate) fn entries_of(
    alloc: Global,
    pairs: Vec<(Typing, Typing)>,
) -> Result<Vec<TermEntry>, AllocError>
    ensures { IfOk result (λ es. map pair_of es.items ≡ map spec.pair_term (map typings_of pairs.items)) }
{
    let mut entries = Vec::new(alloc);
    let mut left = pairs.into_iter();
    while let Some(pair) = left.next() {
        if let Err(error) = push_entry(&mut entries, entry_of(pair)) {
            discard_entries(entries);
            discard_left_pairs(left);
            return Err(error);
        }
    }
    left.destroy_empty();
    Ok(entries)
}

/// The terms of a key and its value.
fn entry_of(pair: (Typing, Typing)) -> TermEntry
    ensures { pair_of result ≡ spec.pair_term (typings_of pair) }
{
    let (key, value) = pair;
    TermEntry {
        key: into_term(key),
        value: into_term(value),
    }
}
