// Rows in which no node has a label. Each walk goes as deep as the tree is high.
ghost use Rattle.std.specs.Prelude.{◌≡◌, ◌∷◌, []};
ghost use Rattle.cad_calls.specs.Unnamed as spec;
ghost use Rattle.cad_rows.specs.Views.{as_row, pure_place, pure_row, pure_tree};

use cad_rows::{Place, Tree};
use cad_syntax::Numbers;

/// Whether there is no label.
fn is_none(labels: &Numbers) -> bool
    ensures { result ≡ spec.none labels.now }
{
    labels.len() == 0
}

#[tactic(auto, using(crate::proofs::Unnamed::unnamed_alone))]
#[cycle(names)]
fn place_is_unnamed(place: &Place) -> bool
    ensures { result ≡ spec.unnamed (as_row (pure_place place.now ∷ [])) }
{
    match place {
        Place::Empty => true,
        Place::Full(labels, tree) => is_none(labels) && parts_are_unnamed(tree),
    }
}

#[cycle(names)]
fn parts_are_unnamed(tree: &Tree) -> bool
    ensures { result ≡ spec.unnamed (pure_tree tree.now).parts }
{
    is_unnamed(tree.parts.as_slice())
}

/// Whether no node in a row has a label.
#[tactic(auto, using(crate::proofs::Unnamed::unnamed_before))]
#[cycle(names)]
pub fn is_unnamed(row: &[Place]) -> bool
    ensures { result ≡ spec.unnamed (pure_row row.now) }
{
    for place in row {
        if !place_is_unnamed(place) {
            return false;
        }
    }
    true
}
