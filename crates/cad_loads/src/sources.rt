// Contracts as they are kept.
use cad_syntax::{Bytes, TypeId};
use std::rc::Rc;

/// A contract as it is kept: its address and name, and its code.
#[derive(Drop)]
pub struct Source {
    pub id: TypeId,
    pub code: Rc<Bytes>,
}
