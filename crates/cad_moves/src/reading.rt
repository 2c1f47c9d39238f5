// Whose letters are asked for.
use cad_paths::FieldRule;

/// Whose letters are asked for.
#[derive(Drop)]
pub enum Reading {
    /// Those of variables of resource type.
    Resources,
    /// Those of the fields of `self`, which an initializer sets.
    FieldsOfSelf(Vec<FieldRule>),
    /// Those of a transaction's fields, which are its first variables.
    FieldsOfTransaction(Vec<FieldRule>),
}
