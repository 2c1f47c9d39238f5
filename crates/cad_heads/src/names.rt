// Names of declarations, and whether names are new.
ghost use Rattle.std.specs.Prelude.{◌≡◌, [], ◌∷◌, IfOk, not, map};
ghost use Rattle.cad_declarations.specs.Names.{has_name};
ghost use Rattle.cad_declarations.specs.Points as spec;

use cad_declarations::is_same_name;
use cad_syntax::{Name, Names, Text};
use std::alloc::{AllocError, Global};

/// A word that begins a part of a program, as a name. It fails where memory runs out alone.
pub fn word(alloc: Global, text: &str) -> Result<Name, AllocError>
    ensures { IfOk result (λ n. n ≡ spec.word text.now) }
{
    Ok(Name(Text::from_str(alloc, text)?))
}

/// Names that are this word alone. It fails where memory runs out alone.
pub fn one_word(alloc: Global, text: &str) -> Result<Names, AllocError>
    ensures { IfOk result (λ all. all ≡ spec.word text.now ∷ []) }
{
    let mut all = Names::new(alloc);
    all.push(word(alloc, text)?)?;
    Ok(all)
}

/// Names that are this one alone. It fails where memory runs out alone.
pub fn one_name(alloc: Global, name: &Name) -> Result<Names, AllocError>
    ensures { IfOk result (λ all. all ≡ name.now ∷ []) }
{
    let mut all = Names::new(alloc);
    all.push(name.clone()?)?;
    Ok(all)
}

/// A name behind those of the declaration in which it stands. It fails where memory runs out alone.
pub fn below(names: &Names, name: &Name) -> Result<Names, AllocError>
    ensures { IfOk result (λ all. all ≡ spec.below names.now name.now) }
{
    let mut all = names.clone()?;
    all.push(name.clone()?)?;
    Ok(all)
}

/// The names of the initializer of a type. It fails where memory runs out alone.
pub fn of_initializer(alloc: Global, names: &Names) -> Result<Names, AllocError>
    ensures { IfOk result (λ all. all ≡ spec.below names.now spec.init_name) }
{
    let mut all = names.clone()?;
    all.push(word(alloc, "init")?)?;
    Ok(all)
}

/// Whether a name is one of these.
fn is_among(names: &[&Name], name: &Name) -> bool
    ensures { result ≡ has_name (map (λ n. n.now) names.now) name.now }
{
    for other in names {
        if is_same_name(other, name) {
            return true;
        }
    }
    false
}

/// Whether no two of these names are one.
pub(crate) fn are_new(alloc: Global, names: &[&Name]) -> Result<bool, AllocError>
    ensures { IfOk result (λ b. b ≡ spec.are_new [] (map (λ n. n.now) names.now)) }
{
    let mut before = Vec::new(alloc);
    for name in names {
        if is_among(before.as_slice(), name) {
            return Ok(false);
        }
        before.push(*name)?;
    }
    Ok(true)
}
