// What typing answers.
ghost use Rattle.std.specs.Prelude.{◌≡◌, option_map};
ghost use Rattle.cad_syntax.specs.Types.{pure_type};
ghost use Rattle.cad_declarations.specs.Views.{term_of};
ghost use Rattle.cad_typing.specs.Environments as spec;
ghost use Rattle.cad_environment.specs.Views.{typing_of};

use cad_declarations::{Term, discard_term, discard_type};
use cad_syntax::CadType;

/// How deep the type of a form may nest.
const DEEPEST: u32 = 128;

/// Whether a variable of resource type leaves its place where an expression stands.
#[derive(Clone, Copy, Debug, PartialEq, Eq)]
pub enum Position {
    /// Its value stays.
    Ordinary,
    /// After the sign of a move, and under `<-` and `destroy`.
    Moved,
}

/// An elaborated expression and its type.
#[derive(Drop)]
pub struct Typing {
    pub term: Term,
    pub declared: CadType,
}

/// Lets an elaborated expression go.
pub fn discard_typing(typing: Typing) {
    discard_term(typing.term);
    discard_type(typing.declared)
}

/// A form with its type; None where that nests more than 128 deep.
pub fn typed(term: Term, declared: CadType) -> Option<Typing>
    ensures { option_map typing_of result ≡ spec.typed (term_of term) (pure_type declared) }
{
    match declared.nesting(DEEPEST) {
        Some(_) => Some(Typing { term, declared }),
        None => {
            discard_term(term);
            discard_type(declared);
            None
        }
    }
}
