// What accounts store so far.
use cad_syntax::Num;
use std::convert::Infallible;

/// What accounts store so far.
#[derive(Debug, Drop, PartialEq, Eq)]
pub enum Value {
    /// A number of any kind but `Address`.
    Number(Num),
    /// No value is of this sort: room for those to come.
    Other(Infallible),
}
