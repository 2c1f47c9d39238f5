// Programs.
ghost use Rattle.std.specs.Prelude.{◌≡◌, List, ℕ, IfOk};
ghost use Rattle.cad_grammar.specs.declared.token.Token.{Token};
ghost use Rattle.cad_grammar.specs.Trees.{ProgramTree};
ghost use Rattle.cad_grammar.specs.Views.{program_of};
ghost use Rattle.cad_grammar.specs.ProgramGrammar.{Spells};
ghost use Rattle.cad_grammar.specs.declared.phase.Phase.{Phase};
ghost use Rattle.cad_grammar.specs.declared.phase.Phase.TheVariants as Phase;
ghost use Rattle.cad_parse.specs.Program.{Parses, EndsAt, Refuses};

use crate::declaration::program;
use cad_grammar::{ParseStop, Phase, Program, Token};
use cad_lex::{LexStop, lex, one_lexing, one_stop};
use cad_parse_type::Spot;
use std::alloc::Global;

// The program that tokens spell.
fn tokens_program(alloc: Global, tokens: &[Token]) -> Result<Program, ParseStop>
    ensures found { IfOk result (λ program. Spells tokens.now (program_of program)) }
    ensures stops { (phase : Phase) (n : ℕ) → result ≡ Err (ParseStop.At phase n) → (phase ≡ Phase.Parse) × ((tree : ProgramTree) → Spells tokens.now tree → ⊥) × EndsAt tokens.now n }
{
    let start = Spot {
        left: 128,
        after_name: false,
        tokens,
    };
    let (found, end) = match program(alloc, start) {
        Ok(found) => found,
        Err(_) => return Err(ParseStop::Memory),
    };
    match end.tokens.split_first() {
        None => Ok(found),
        Some((token, _)) => Err(ParseStop::At {
            phase: Phase::Parse,
            at: token.start,
        }),
    }
}

/// The program that a text is. `At` tells the phase that stops and the place: that of the lexer, or the start of the token
/// that follows the longest prefix of the tokens that is itself a program.
pub fn parse_program(alloc: Global, bytes: &[u8]) -> Result<Program, ParseStop>
    ensures found { IfOk result (λ program. Parses bytes.now (program_of program)) }
    ensures accepted { IfOk result (λ program. (phase : Phase) (n : ℕ) → Refuses bytes.now phase n → ⊥) }
    ensures stops { (phase : Phase) (n : ℕ) → result ≡ Err (ParseStop.At phase n) → Refuses bytes.now phase n }
{
    one_lexing();
    one_stop();
    match lex(alloc, bytes) {
        Ok(tokens) => tokens_program(alloc, tokens.as_slice()),
        Err(LexStop::At(at)) => Err(ParseStop::At {
            phase: Phase::Lex,
            at,
        }),
        Err(LexStop::Memory) => Err(ParseStop::Memory),
    }
}

/// A text is one program at most.
pub fn one_program()
    ensures spelled { (tokens : List Token) (a b : ProgramTree) → Spells tokens a → Spells tokens b → a ≡ b }
    ensures parsed { (text : List ℕ) (a b : ProgramTree) → Parses text a → Parses text b → a ≡ b }
{
    one_lexing();
}

/// A text that is no program is refused by one phase and at one place.
pub fn one_refusal()
    ensures { (text : List ℕ) (phase other : Phase) (m n : ℕ) → Refuses text phase m → Refuses text other n → (phase ≡ other) × (m ≡ n) }
{
    one_lexing();
    one_stop();
}
