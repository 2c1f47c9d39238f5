//! The values that all crates speak of: texts, lists, kinds of numbers, numbers and keywords.
#![tactic(auto)]

mod address;
mod items;
mod keyword;
mod kind;
pub mod laws;
mod names;
mod num;
mod text;
mod type_id;
mod types;

pub use address::{Address, Addresses, Domain, Numbers, Path};
pub use items::{Bytes, Items, Names};
pub use keyword::Keyword;
pub use kind::Kind;
pub use names::is_name;
pub use num::Num;
pub use text::{Name, Text};
pub use type_id::{Pairs, TypeId, TypeIds, contains, same_ids};
pub use types::{Authorization, Basic, CadType, Types};
