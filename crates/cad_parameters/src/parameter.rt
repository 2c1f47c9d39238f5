// Parameters of what is called.
use cad_syntax::{CadType, Text};

/// What an argument may be.
#[derive(Debug, Drop)]
pub enum Takes {
    /// What fits a type.
    Fitting(CadType),
    AnyNumber,
    AnyStorable,
    /// Anything that is no resource.
    AnyPlain,
}

/// A parameter. Without a label an argument has none either.
#[derive(Debug, Drop)]
pub struct Parameter {
    pub label: Option<Text>,
    pub takes: Takes,
}

/// Lets parameters go. Crates above call it in place of `drop`, so that the drop of their types is proved here alone.
pub fn discard_parameters(parameters: Vec<Parameter>) {
    drop(parameters)
}

/// How many arguments there are.
#[derive(Clone, Copy, Debug, PartialEq, Eq)]
pub enum Count {
    /// As many as parameters.
    Exactly,
    /// The last may be absent.
    LastOptional,
    /// More may follow that are no resources, with any labels.
    MoreFollow,
}
