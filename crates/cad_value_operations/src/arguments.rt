// Arguments of built-in members: a row, one in each place.
ghost use Rattle.std.specs.Prelude.{◌≡◌, option_map};
ghost use Rattle.cad_evaluation.specs.Arguments as spec;
ghost use Rattle.cad_rows.specs.Views.{pure_row, pure_tree};

use cad_rows::{Place, Slot, Tree, tree_at};

/// The argument at a place of the row.
pub(crate) fn argument(row: &[Place], i: usize) -> Option<&Tree>
    ensures { option_map (λ t. pure_tree t.now) result ≡ spec.argument i (pure_row row.now) }
{
    match tree_at(row, i) {
        Slot::Full(tree) => Some(tree),
        _ => None,
    }
}
