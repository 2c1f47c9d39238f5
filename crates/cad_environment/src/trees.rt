// Places and forms of expressions.
ghost use Rattle.std.specs.Prelude.{◌≡◌, IfOk};
ghost use Rattle.cad_syntax.specs.Types.{pure_type};
ghost use Rattle.cad_declarations.specs.Typed as tree;
ghost use Rattle.cad_declarations.specs.Views.{place_of, term_of};

use cad_declarations::{Place, Term, boxed_place, boxed_term, boxed_terms, discard_type};
use cad_syntax::{CadType, TypeId};
use std::alloc::{AllocError, Global};

/// A variable of the body.
pub fn variable_place(number: u32) -> Place
    ensures { place_of result ≡ tree.variable number }
{
    Place::Variable(number)
}

/// The receiver of the function, or what the initializer makes.
pub fn self_place() -> Place
    ensures { place_of result ≡ tree.self }
{
    Place::Self_
}

/// The value of a contract.
pub fn contract_place(id: TypeId) -> Place
    ensures { place_of result ≡ tree.contract id }
{
    Place::Contract(id)
}

/// What a reference names.
pub fn target_place(alloc: Global, term: Term) -> Result<Place, AllocError>
    ensures { IfOk result (λ p. place_of p ≡ tree.target (term_of term)) }
{
    Ok(Place::Target(boxed_term(alloc, term)?))
}

/// The value of a place, which stays.
pub fn copy_term(alloc: Global, place: Place) -> Result<Term, AllocError>
    ensures { IfOk result (λ x. term_of x ≡ tree.copy (place_of place)) }
{
    Ok(Term::Copy(boxed_place(alloc, place)?))
}

/// The value of a place, which leaves it.
pub fn take_term(alloc: Global, place: Place) -> Result<Term, AllocError>
    ensures { IfOk result (λ x. term_of x ≡ tree.take (place_of place)) }
{
    Ok(Term::Take(boxed_place(alloc, place)?))
}

/// A hidden variable holds a value while the body is evaluated.
pub fn hold_term(
    alloc: Global,
    number: u32,
    declared: CadType,
    value: Term,
    body: Term,
) -> Result<Term, AllocError>
    ensures { IfOk result (λ x. term_of x ≡ tree.hold number (pure_type declared) (term_of value) (term_of body)) }
{
    match boxed_terms(alloc, value, body) {
        Ok((value, body)) => Ok(Term::Hold {
            number,
            declared,
            value,
            body,
        }),
        Err(error) => {
            discard_type(declared);
            Err(error)
        }
    }
}
