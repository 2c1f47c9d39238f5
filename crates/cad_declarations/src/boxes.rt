// Parts of trees on the heap. Crates above call these in place of `Box::new`, which lets the part go where memory fails: its
// drop is proved here alone.
ghost use Rattle.std.specs.Prelude.{◌≡◌, IfOk};

use crate::term::{Place, Term, Use};
use cad_syntax::CadType;
use std::alloc::{AllocError, Global};

/// A type that is a part of another.
pub fn boxed_type(alloc: Global, declared: CadType) -> Result<Box<CadType>, AllocError>
    ensures { IfOk result (λ b. b.value ≡ declared) }
{
    Ok(Box::new(alloc, declared)?)
}

/// An expression that is a part of a tree.
pub fn boxed_term(alloc: Global, term: Term) -> Result<Box<Term>, AllocError>
    ensures { IfOk result (λ b. b.value ≡ term) }
{
    Ok(Box::new(alloc, term)?)
}

/// Two expressions that are parts of a tree.
pub fn boxed_terms(
    alloc: Global,
    left: Term,
    right: Term,
) -> Result<(Box<Term>, Box<Term>), AllocError>
    ensures left { IfOk result (λ both. both.0.value ≡ left) }
    ensures right { IfOk result (λ both. both.1.value ≡ right) }
{
    let left = match boxed_term(alloc, left) {
        Ok(left) => left,
        Err(error) => {
            drop(right);
            return Err(error);
        }
    };
    match boxed_term(alloc, right) {
        Ok(right) => Ok((left, right)),
        Err(error) => {
            drop(left);
            Err(error)
        }
    }
}

/// A place that is a part of a tree.
pub fn boxed_place(alloc: Global, place: Place) -> Result<Box<Place>, AllocError>
    ensures { IfOk result (λ b. b.value ≡ place) }
{
    Ok(Box::new(alloc, place)?)
}

/// A use that is a part of a tree.
pub fn boxed_use(alloc: Global, usage: Use) -> Result<Box<Use>, AllocError>
    ensures { IfOk result (λ b. b.value ≡ usage) }
{
    Ok(Box::new(alloc, usage)?)
}
