// Labels that are taken away.
ghost use Rattle.std.specs.Prelude.{◌≡◌};
ghost use Rattle.cad_world.specs.Rows as spec;
ghost use Rattle.cad_rows.specs.Views.{pure_row, pure_tree, pure_place};
ghost use Rattle.cad_rows.specs.Places.{bare_place};

use crate::tree::{Place, Tree};
use cad_syntax::Numbers;

/// Takes the labels of all nodes in a tree away, at any depth.
#[cycle(strips)]
pub fn strip(tree: &mut Tree)
    ensures { pure_tree tree.new ≡ spec.bare_tree (pure_tree tree.old) }
{
    strip_row(&mut tree.parts)
}

/// Takes the labels of all nodes in a row away, at any depth.
#[tactic(auto, using(crate::proofs::Stripped::bare_turn, crate::proofs::Stripped::bare_all))]
#[cycle(strips)]
pub fn strip_row(row: &mut Vec<Place>)
    ensures { pure_row row.new.items ≡ spec.bare (pure_row row.old.items) }
{
    for i in 0..row.len() {
        strip_place(&mut row[i]);
    }
}

/// Takes the labels of a place's node away, and those inside.
#[cycle(strips)]
fn strip_place(place: &mut Place)
    ensures { pure_place place.new ≡ bare_place (pure_place place.old) }
{
    match place {
        Place::Empty => {}
        Place::Full(labels, tree) => {
            let alloc = *tree.parts.allocator();
            *labels = Numbers::new(alloc);
            strip(tree)
        }
    }
}
