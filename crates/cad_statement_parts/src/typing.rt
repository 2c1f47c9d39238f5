// Where statements stand.
use cad_environment::Environment;
use cad_syntax::CadType;

/// Where a statement stands.
#[derive(Clone, Copy)]
pub struct Surroundings<'a> {
    pub env: Environment<'a>,
    /// What the function gives back.
    pub result: &'a CadType,
    pub may_break: bool,
    pub may_continue: bool,
}
