// Trees and rows that are let go. Crates above call these: what they forget doesn't compile.
use crate::tree::{Place, Shape, Tree};
use cad_keys::Keys;
use cad_syntax::Numbers;

/// Lets a shape go.
pub fn discard_shape(shape: Shape) {
    drop(shape)
}

/// Lets keys go.
pub fn discard_keys(keys: Keys) {
    drop(keys)
}

/// Lets labels go.
pub(crate) fn discard_labels(labels: Numbers) {
    drop(labels)
}

/// Lets a tree go, from its last part on. It goes as deep as the tree is high.
#[cycle(discards)]
pub fn discard_tree(tree: Tree) {
    let mut left = tree;
    while let Some(part) = left.parts.pop() {
        discard_place(part);
    }
    let Tree {
        optionals: _,
        shape,
        parts,
    } = left;
    discard_shape(shape);
    parts.destroy_empty()
}

/// Lets a place go.
#[cycle(discards)]
pub fn discard_place(place: Place) {
    match place {
        Place::Empty => {}
        Place::Full(labels, tree) => {
            discard_labels(labels);
            discard_tree(tree)
        }
    }
}

/// Lets a row go, from its last place on.
pub fn discard_row(row: Vec<Place>) {
    let mut left = row;
    while let Some(place) = left.pop() {
        discard_place(place);
    }
    left.destroy_empty()
}
