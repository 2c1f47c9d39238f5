// Values in one optional more, and references as trees.
ghost use Rattle.std.specs.Prelude.{◌≡◌, IfOk};
ghost use Rattle.cad_rows.specs.Views.{pure_tree};
ghost use Rattle.cad_world.specs.Rows.{link, stop};
ghost use Rattle.cad_world.specs.Trees as spec;

use cad_rows::{Shape, Tree, discard_tree};
use cad_syntax::Authorization;
use std::alloc::{AllocError, Global};

/// A value in one optional more. What is in 2^64 optionals has no room in memory.
pub(crate) fn wrap(tree: Tree) -> Result<Tree, AllocError>
    ensures { IfOk result (λ t. pure_tree t ≡ spec.wrapped (pure_tree tree)) }
{
    let mut all = tree;
    match all.optionals.checked_add(1) {
        Some(more) => {
            all.optionals = more;
            Ok(all)
        }
        None => {
            discard_tree(all);
            Err(AllocError)
        }
    }
}

/// A reference to the node with a label, in so many optionals.
pub(crate) fn link_tree(
    alloc: Global,
    authorization: Authorization,
    label: u64,
    optionals: u64,
) -> Tree
    ensures { pure_tree result ≡ (record { optionals = optionals; shape = link authorization label 0; parts = stop }) }
{
    Tree {
        optionals,
        shape: Shape::Link {
            authorization,
            label,
            sees: 0,
        },
        parts: Vec::new(alloc),
    }
}
