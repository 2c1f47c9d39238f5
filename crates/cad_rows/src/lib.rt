//! The values of a run as nested trees: nodes in rows of places, as the definition of a run has them. A function that goes
//! down a tree goes as deep as the tree is high: at most 256 levels, and what references build.
#![tactic(auto)]

mod access;
mod bare;
mod copies;
mod discard;
mod exchange;
mod found;
pub mod laws;
mod owned;
mod size;
mod transfer;
mod tree;

pub use access::{Slot, add_last, clear, count_places, cut, is_full, name_in, put, tree_at, wedge};
pub use bare::{strip, strip_row};
pub use cad_keys::Keys;
pub use copies::{
    array_value, composite_value, copy_row, copy_shape, copy_tree, copy_value, copy_values,
    dictionary_value, entry_of, field_of, some_value,
};
pub use discard::{discard_keys, discard_place, discard_row, discard_shape, discard_tree};
pub use exchange::swap_node;
pub use found::{Node, holds_label, node_at, node_in, way_to};
pub use owned::{add_identities, add_row_identities, owns, row_owns};
pub use size::{row_height, row_weight, tree_height, tree_weight};
pub use transfer::{come_to, round};
pub use tree::{Place, Shape, Tree};
