// What trees are made of.
ghost use Rattle.std.specs.Prelude.{◌≡◌};
ghost use Rattle.cad_rows.specs.Views.{pure_shape, pure_tree};

use cad_rows::{Shape, Tree};

/// How many optionals a tree is in.
pub fn optionals(tree: &Tree) -> u64
    ensures { result ≡ (pure_tree tree.now).optionals }
{
    tree.optionals
}

/// The shape of a tree.
pub fn shape(tree: &Tree) -> &Shape
    ensures { pure_shape result.now ≡ (pure_tree tree.now).shape }
{
    &tree.shape
}
