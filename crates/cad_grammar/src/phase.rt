// The phases that refuse a program, and where its reading stops.
ghost use Rattle.std.specs.Prelude.{◌≡◌};

use std::alloc::AllocError;

/// The first phase that refuses a program.
#[derive(Clone, Copy, Debug, PartialEq, Eq)]
pub enum Phase {
    /// It has no tokens.
    Lex,
    /// Its tokens spell no program.
    Parse,
    /// A name stands for nothing, or for two things.
    Resolve,
    /// An expression or a statement has no type.
    Types,
    /// A type lacks what its interfaces ask for.
    Conformance,
    /// A resource is lost, or used after its move.
    Moves,
    /// A view function changes something.
    Purity,
    /// An initializer leaves a field unset.
    Initialisation,
}

/// Why nothing was read.
#[derive(Debug, Drop)]
pub enum ParseStop {
    /// This phase refuses the text or the tokens, at this byte.
    At { phase: Phase, at: usize },
    /// Memory ran out.
    Memory,
}

impl From<AllocError> for ParseStop {
    ghost use Rattle.cad_grammar.specs.declared.phase.ParseStop.TheVariants.{Memory};

    ghost from_gives = { λ _ e. e ≡ Memory };

    fn from(_error: AllocError) -> ParseStop {
        ParseStop::Memory
    }
}
