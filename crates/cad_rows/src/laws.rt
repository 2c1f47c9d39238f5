//! Laws of labels and ways. Their functions do nothing.
ghost use Rattle.cad_rows.specs.Laws.{IsTheNode};

/// A node that has a label which stands once in a row at most is the one that is found and changed by the label.
pub fn a_node_with_the_label_is_the_node()
    ensures { IsTheNode }
{}
