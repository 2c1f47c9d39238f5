// Forms with their types, made of their parts.
ghost use Rattle.std.specs.Prelude.{◌≡◌, IfOk, map, option_map};
ghost use Rattle.cad_syntax.specs.Types.{pure_type};
ghost use Rattle.cad_declarations.specs.Typed as tree;
ghost use Rattle.cad_declarations.specs.Views.{place_of, term_of, pair_of};
ghost use Rattle.cad_environment.specs.Views.{typing_of};
ghost use Rattle.cad_typing.specs.Environments as spec;
ghost use Rattle.cad_typing.specs.Types as types;

use cad_declarations::{
    Place, Term, TermEntry, boxed_place, boxed_term, boxed_terms, discard_boxed_term, discard_term,
    discard_type,
};
use cad_environment::{Typing, typed};
use cad_grammar::{BinaryOperator, CastKind, UnaryOperator};
use cad_syntax::{Authorization, Basic, CadType};
use std::alloc::{AllocError, Global};

/// The term of an elaborated expression.
pub fn into_term(x: Typing) -> Term
    ensures { result ≡ x.term }
{
    let Typing { term, declared } = x;
    discard_type(declared);
    term
}

/// An operator before one operand.
fn unary_term(alloc: Global, operator: UnaryOperator, x: Term) -> Result<Term, AllocError>
    ensures { IfOk result (λ t. term_of t ≡ tree.unary operator (term_of x)) }
{
    Ok(Term::Unary(operator, boxed_term(alloc, x)?))
}

/// The same, with its type.
pub fn unary_typed(
    alloc: Global,
    operator: UnaryOperator,
    x: Term,
    declared: CadType,
) -> Result<Option<Typing>, AllocError>
    ensures { IfOk result (λ o. option_map typing_of o ≡ spec.typed (tree.unary operator (term_of x)) (pure_type declared)) }
{
    match unary_term(alloc, operator, x) {
        Ok(term) => Ok(typed(term, declared)),
        Err(error) => {
            discard_type(declared);
            Err(error)
        }
    }
}

/// An operator between two operands.
fn binary_term(
    alloc: Global,
    operator: BinaryOperator,
    x: Term,
    y: Term,
) -> Result<Term, AllocError>
    ensures { IfOk result (λ t. term_of t ≡ tree.binary operator (term_of x) (term_of y)) }
{
    let (x, y) = boxed_terms(alloc, x, y)?;
    Ok(binary_of(operator, x, y))
}

/// The same, of operands that stand in memory.
fn binary_of(operator: BinaryOperator, x: Box<Term>, y: Box<Term>) -> Term
    ensures { term_of result ≡ tree.binary operator (term_of x.value) (term_of y.value) }
{
    Term::Binary(operator, x, y)
}

/// An operator between two operands, of the left one's type.
pub fn of_left_type(
    alloc: Global,
    operator: BinaryOperator,
    x: Typing,
    y: Typing,
) -> Result<Option<Typing>, AllocError>
    ensures { IfOk result (λ o. option_map typing_of o ≡ spec.typed (tree.binary operator (typing_of x).term (typing_of y).term) (typing_of x).type) }
{
    let Typing { term, declared } = x;
    match binary_term(alloc, operator, term, into_term(y)) {
        Ok(whole) => Ok(typed(whole, declared)),
        Err(error) => {
            discard_type(declared);
            Err(error)
        }
    }
}

/// An operator between two operands, of type Bool.
pub fn of_bool(
    alloc: Global,
    operator: BinaryOperator,
    x: Typing,
    y: Typing,
) -> Result<Option<Typing>, AllocError>
    ensures { IfOk result (λ o. option_map typing_of o ≡ spec.typed (tree.binary operator (typing_of x).term (typing_of y).term) types.bool) }
{
    let whole = binary_term(alloc, operator, into_term(x), into_term(y))?;
    Ok(typed(whole, CadType::Basic(Basic::Bool)))
}

/// `destroy x`
fn destroy_term(alloc: Global, x: Term) -> Result<Term, AllocError>
    ensures { IfOk result (λ t. term_of t ≡ tree.destroy (term_of x)) }
{
    Ok(Term::Destroy(boxed_term(alloc, x)?))
}

/// The same, with its type.
pub fn destroy_typed(alloc: Global, x: Term) -> Result<Option<Typing>, AllocError>
    ensures { IfOk result (λ o. option_map typing_of o ≡ spec.typed (tree.destroy (term_of x)) types.void) }
{
    let term = destroy_term(alloc, x)?;
    Ok(typed(term, CadType::Basic(Basic::Void)))
}

/// `x!`
fn force_term(alloc: Global, x: Term) -> Result<Term, AllocError>
    ensures { IfOk result (λ t. term_of t ≡ tree.force (term_of x)) }
{
    Ok(Term::Force(boxed_term(alloc, x)?))
}

/// The same, with its type.
pub fn force_typed(alloc: Global, x: Term, declared: CadType) -> Result<Option<Typing>, AllocError>
    ensures { IfOk result (λ o. option_map typing_of o ≡ spec.typed (tree.force (term_of x)) (pure_type declared)) }
{
    match force_term(alloc, x) {
        Ok(term) => Ok(typed(term, declared)),
        Err(error) => {
            discard_type(declared);
            Err(error)
        }
    }
}

/// A cast to a type.
fn cast_term(alloc: Global, kind: CastKind, x: Term, t: CadType) -> Result<Term, AllocError>
    ensures { IfOk result (λ made. term_of made ≡ tree.cast kind (term_of x) (pure_type t)) }
{
    match boxed_term(alloc, x) {
        Ok(x) => Ok(Term::Cast(kind, x, t)),
        Err(error) => {
            discard_type(t);
            Err(error)
        }
    }
}

/// The same, with the type of the form.
pub fn cast_typed(
    alloc: Global,
    kind: CastKind,
    x: Term,
    t: CadType,
    declared: CadType,
) -> Result<Option<Typing>, AllocError>
    ensures { IfOk result (λ o. option_map typing_of o ≡ spec.typed (tree.cast kind (term_of x) (pure_type t)) (pure_type declared)) }
{
    match cast_term(alloc, kind, x, t) {
        Ok(term) => Ok(typed(term, declared)),
        Err(error) => {
            discard_type(declared);
            Err(error)
        }
    }
}

/// `x ?? y`
fn coalesce_term(
    alloc: Global,
    x: Term,
    y: Term,
    takes_off: bool,
    declared: CadType,
) -> Result<Term, AllocError>
    ensures { IfOk result (λ t. term_of t ≡ tree.coalesce (term_of x) (term_of y) takes_off (pure_type declared)) }
{
    match boxed_terms(alloc, x, y) {
        Ok((x, y)) => Ok(coalesce_of(x, y, takes_off, declared)),
        Err(error) => {
            discard_type(declared);
            Err(error)
        }
    }
}

/// The same, of operands that stand in memory.
fn coalesce_of(left: Box<Term>, right: Box<Term>, takes_off: bool, declared: CadType) -> Term
    ensures { term_of result ≡ tree.coalesce (term_of left.value) (term_of right.value) takes_off (pure_type declared) }
{
    Term::Coalesce {
        left,
        right,
        takes_off,
        declared,
    }
}

/// The same, with its type.
pub fn coalesce_typed(
    alloc: Global,
    x: Term,
    y: Term,
    takes_off: bool,
    declared: CadType,
) -> Result<Option<Typing>, AllocError>
    ensures { IfOk result (λ o. option_map typing_of o ≡ spec.typed (tree.coalesce (term_of x) (term_of y) takes_off (pure_type declared)) (pure_type declared)) }
{
    match declared.clone() {
        Ok(copy) => coalesce_as(alloc, x, y, takes_off, copy, declared),
        Err(error) => {
            discard_term(x);
            discard_term(y);
            discard_type(declared);
            Err(error)
        }
    }
}

/// `x ?? y`, with a type.
fn coalesce_as(
    alloc: Global,
    x: Term,
    y: Term,
    takes_off: bool,
    t: CadType,
    declared: CadType,
) -> Result<Option<Typing>, AllocError>
    ensures { IfOk result (λ o. option_map typing_of o ≡ spec.typed (tree.coalesce (term_of x) (term_of y) takes_off (pure_type t)) (pure_type declared)) }
{
    match coalesce_term(alloc, x, y, takes_off, t) {
        Ok(term) => Ok(typed(term, declared)),
        Err(error) => {
            discard_type(declared);
            Err(error)
        }
    }
}

/// `test ? x : y`
fn conditional_term(alloc: Global, test: Term, x: Term, y: Term) -> Result<Term, AllocError>
    ensures { IfOk result (λ t. term_of t ≡ tree.conditional (term_of test) (term_of x) (term_of y)) }
{
    match boxed_terms(alloc, x, y) {
        Ok((x, y)) => before_parts(alloc, test, x, y),
        Err(error) => {
            discard_term(test);
            Err(error)
        }
    }
}

/// The choice, of a test and of parts that stand in memory.
fn before_parts(alloc: Global, test: Term, x: Box<Term>, y: Box<Term>) -> Result<Term, AllocError>
    ensures { IfOk result (λ t. term_of t ≡ tree.conditional (term_of test) (term_of x.value) (term_of y.value)) }
{
    match boxed_term(alloc, test) {
        Ok(test) => Ok(conditional_of(test, x, y)),
        Err(error) => {
            discard_boxed_term(x);
            discard_boxed_term(y);
            Err(error)
        }
    }
}

/// The choice, of parts that stand in memory.
fn conditional_of(test: Box<Term>, x: Box<Term>, y: Box<Term>) -> Term
    ensures { term_of result ≡ tree.conditional (term_of test.value) (term_of x.value) (term_of y.value) }
{
    Term::Conditional(test, x, y)
}

/// The same, with its type.
pub fn conditional_typed(
    alloc: Global,
    test: Term,
    x: Term,
    y: Term,
    declared: CadType,
) -> Result<Option<Typing>, AllocError>
    ensures { IfOk result (λ o. option_map typing_of o ≡ spec.typed (tree.conditional (term_of test) (term_of x) (term_of y)) (pure_type declared)) }
{
    match conditional_term(alloc, test, x, y) {
        Ok(term) => Ok(typed(term, declared)),
        Err(error) => {
            discard_type(declared);
            Err(error)
        }
    }
}

/// The test of a place beside nil.
pub fn nil_term(alloc: Global, place: Place, is_negated: bool) -> Result<Term, AllocError>
    ensures { IfOk result (λ t. term_of t ≡ tree.is_nil (place_of place) is_negated) }
{
    let place = boxed_place(alloc, place)?;
    Ok(Term::IsNil { place, is_negated })
}

/// A reference to a place.
pub fn borrow_term(
    alloc: Global,
    place: Place,
    authorization: Authorization,
    target: CadType,
    takes_off: bool,
    gives_optional: bool,
) -> Result<Term, AllocError>
    ensures { IfOk result (λ t. term_of t ≡ tree.borrow (place_of place) authorization (pure_type target) takes_off gives_optional) }
{
    match boxed_place(alloc, place) {
        Ok(place) => Ok(Term::Borrow {
            place,
            authorization,
            target,
            takes_off,
            gives_optional,
        }),
        Err(error) => {
            discard_type(target);
            Err(error)
        }
    }
}

/// An array of these elements.
pub fn array_term(element: CadType, items: Vec<Term>) -> Term
    ensures { term_of result ≡ tree.array (pure_type element) (tree.terms_of (map term_of items.items)) }
{
    Term::Array { element, items }
}

/// A dictionary of these keys and values.
pub fn dictionary_term(key: CadType, value: CadType, entries: Vec<TermEntry>) -> Term
    ensures { term_of result ≡ tree.dictionary (pure_type key) (pure_type value) (tree.entries_of (map pair_of entries.items)) }
{
    Term::Dictionary {
        key,
        value,
        entries,
    }
}
