// What paths spell, and where.
use cad_syntax::Name;

/// What is done with a variable, or with a field that is being set.
#[derive(Clone, Copy)]
pub enum Letter {
    /// The variable is looked at, and stays.
    Use,
    /// Its value is replaced in place.
    Fill,
    /// It is moved or destroyed.
    Spend,
    /// It is nil from here on.
    Empty,
    /// The field must have been set.
    Need,
    /// The field must not have been set.
    Fresh,
    /// The field is set.
    Set,
}

/// How a path leaves a body: at its end, by `break`, by `continue`, by `return`, or by a call that never ends.
#[derive(Clone, Copy)]
pub enum Way {
    Next,
    Broken,
    Continued,
    Returned,
    Never,
}

/// A part of a body, in source order. A function or an initializer is one part. Of a transaction `Declaration` has its fields.
#[derive(Clone, Copy)]
pub enum BodyPart {
    Whole,
    Declaration,
    Prepare,
    Pre,
    Execute,
    Post,
}

/// A statement or condition by its number in its part. The number of statements and conditions stands for the part's end.
#[derive(Clone, Copy)]
pub struct Position {
    pub part: BodyPart,
    pub at: u64,
}

/// How a resource variable is misused.
#[derive(Clone, Copy)]
pub enum MoveKind {
    UsedAfterMove,
    Lost,
}

/// A field that an initializer or `prepare` sets, and whether it may be set but once: a `let` field, or one of resource type.
#[derive(Drop)]
pub struct FieldRule {
    pub name: Name,
    pub is_once: bool,
}

/// A field by its number among the fields of what sets it, and whether it may be set but once.
#[derive(Clone, Copy)]
pub struct NumberedField {
    pub number: u64,
    pub is_once: bool,
}
