// Which expressions come to their end.
ghost use Rattle.std.specs.Prelude.{◌≡◌, [], ◌∷◌, map};
ghost use Rattle.cad_syntax.specs.Types.{pure_type};
ghost use Rattle.cad_declarations.specs.Typed as tree;
ghost use Rattle.cad_declarations.specs.Views.{place_of, use_of, term_of, argument_of, pair_of};
ghost use Rattle.cad_paths.specs.Letters as letters;
ghost use Rattle.cad_pieces.specs.Code.Comes as spec;

use cad_declarations::{Argument, Place, Term, TermEntry, Use};
use cad_grammar::BinaryOperator;
use cad_syntax::{Basic, CadType};
use cad_types::Builtin;

/// Whether some path comes to the end of a place's parts.
#[cycle(comes)]
pub(crate) fn place_comes(place: &Place) -> bool
    ensures { result ≡ spec.place_comes (place_of place.now) }
{
    match place {
        Place::Variable(_) => true,
        Place::Self_ => true,
        Place::Contract(_) => true,
        Place::Target(value) => term_comes(value),
        Place::Field { base, .. } => place_comes(base),
        Place::Element { base, index, .. } => place_comes(base) && term_comes(index),
        Place::Content { base, .. } => place_comes(base),
    }
}

/// Whether some path comes to the end of a use's arguments.
#[cycle(comes)]
fn use_comes(member: &Use) -> bool
    ensures { result ≡ spec.use_comes (use_of member.now) }
{
    match member {
        Use::Field { .. } => true,
        Use::Method { arguments, .. } => arguments_come(arguments),
        Use::BuiltinField(_) => true,
        Use::BuiltinCall { arguments, .. } => arguments_come(arguments),
    }
}

/// Whether some path comes to the end of an expression: a call of type `Never` has no end.
#[cycle(comes)]
pub(crate) fn term_comes(term: &Term) -> bool
    ensures { result ≡ spec.term_comes (term_of term.now) }
{
    match term {
        Term::Number(_) => true,
        Term::Address(_) => true,
        Term::Bool(_) => true,
        Term::Nil => true,
        Term::String(_) => true,
        Term::Character(_) => true,
        Term::Path(_) => true,
        Term::Meta(_) => true,
        Term::Case(_, _) => true,
        Term::Copy(place) => place_comes(place),
        Term::Take(place) => place_comes(place),
        Term::Array { items, .. } => terms_come(items),
        Term::Dictionary { entries, .. } => entries_come(entries),
        Term::Construct(_, arguments) => arguments_come(arguments),
        Term::Create(_, arguments) => arguments_come(arguments),
        Term::Call {
            is_never,
            arguments,
            ..
        } => arguments_come(arguments) && !*is_never,
        Term::Builtin {
            member,
            types,
            arguments,
        } => arguments_come(arguments) && !is_never_builtin(*member, types),
        Term::On(place, member) => {
            place_comes(place) && (use_comes(member) && !ends_path(member))
        }
        Term::Chain { base, .. } => place_comes(base),
        Term::Index { base, index, .. } => place_comes(base) && term_comes(index),
        Term::Hold { value, body, .. } => term_comes(value) && term_comes(body),
        Term::Destroy(value) => term_comes(value),
        Term::Borrow { place, .. } => place_comes(place),
        Term::Unary(_, value) => term_comes(value),
        Term::Force(value) => term_comes(value),
        Term::Cast(_, value, _) => term_comes(value),
        Term::Binary(operator, a, b) => { term_comes(a) && (is_short(*operator) || term_comes(b)) }
        Term::Coalesce { left, .. } => term_comes(left),
        Term::IsNil { place, .. } => place_comes(place),
        Term::Conditional(test, a, b) => term_comes(test) && (term_comes(a) || term_comes(b)),
        Term::Before(_) => true,
    }
}

/// Whether some path comes to the end of expressions, one behind the other.
#[cycle(comes)]
fn terms_come(all: &[Term]) -> bool
    ensures { result ≡ spec.terms_come (tree.terms_of (map term_of all.now)) }
{
    for term in all {
        if !term_comes(term) {
            return false;
        }
    }
    true
}

/// Whether some path comes to the end of arguments, one behind the other.
#[cycle(comes)]
pub(crate) fn arguments_come(all: &[Argument]) -> bool
    ensures { result ≡ spec.arguments_come (tree.arguments_of (map argument_of all.now)) }
{
    for argument in all {
        if !argument_comes(argument) {
            return false;
        }
    }
    true
}

/// Whether some path comes to the end of keys and values, one behind the other.
#[cycle(comes)]
fn entries_come(all: &[TermEntry]) -> bool
    ensures { result ≡ spec.entries_come (tree.entries_of (map pair_of all.now)) }
{
    for entry in all {
        if !key_comes(entry) {
            return false;
        }
        if !value_comes(entry) {
            return false;
        }
    }
    true
}

/// Whether some path comes to the end of an argument.
#[cycle(comes)]
fn argument_comes(argument: &Argument) -> bool
    ensures { result ≡ spec.term_comes (argument_of argument.now).value }
{
    term_comes(&argument.value)
}

/// Whether some path comes to the end of an entry's key.
#[cycle(comes)]
fn key_comes(entry: &TermEntry) -> bool
    ensures { result ≡ spec.term_comes (pair_of entry.now).key }
{
    term_comes(&entry.key)
}

/// Whether some path comes to the end of an entry's value.
#[cycle(comes)]
fn value_comes(entry: &TermEntry) -> bool
    ensures { result ≡ spec.term_comes (pair_of entry.now).value }
{
    term_comes(&entry.value)
}

/// Whether a use is a call whose type is `Never`.
fn ends_path(member: &Use) -> bool
    ensures { result ≡ letters.ends_path (use_of member.now) }
{
    match member {
        Use::Field { .. } => false,
        Use::Method { is_never, .. } => *is_never,
        Use::BuiltinField(_) => false,
        Use::BuiltinCall { member, types, .. } => is_never_builtin(*member, types),
    }
}

/// Whether a built-in call has the type `Never`.
fn is_never_builtin(member: Builtin, types: &[CadType]) -> bool
    ensures { result ≡ letters.is_never_builtin member (map pure_type types.now) }
{
    match member {
        Builtin::Panic => true,
        _ => takes_element(member) && are_never(types),
    }
}

/// Whether a built-in function takes an element out of an array.
fn takes_element(member: Builtin) -> bool
    ensures { result ≡ letters.takes_element member }
{
    matches!(
        member,
        Builtin::ArrayRemove | Builtin::ArrayRemoveFirst | Builtin::ArrayRemoveLast
    )
}

/// Whether types are `Never` alone.
fn are_never(types: &[CadType]) -> bool
    ensures { result ≡ letters.are_never (map pure_type types.now) }
{
    let [t, more @ ..] = types else {
        return false;
    };
    match more {
        [] => is_never(t),
        [_second, _others @ ..] => false,
    }
}

/// Whether a type is `Never`.
fn is_never(t: &CadType) -> bool
    ensures { result ≡ letters.are_never (pure_type t.now ∷ []) }
{
    matches!(t, CadType::Basic(Basic::Never))
}

/// Whether an operator evaluates its right side only where it needs it.
fn is_short(operator: BinaryOperator) -> bool
    ensures { result ≡ letters.is_short operator }
{
    matches!(operator, BinaryOperator::And | BinaryOperator::Or)
}
