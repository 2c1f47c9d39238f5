// Expressions that make only view calls, and destroy nothing.
ghost use Rattle.std.specs.Prelude.{◌≡◌, ◌&&◌, map};
ghost use Rattle.cad_declarations.specs.Typed as tree;
ghost use Rattle.cad_declarations.specs.Views.{argument_of, pair_of, place_of, tables_of, term_of, use_of};
ghost use Rattle.cad_paths.specs.Purity as spec;

use crate::tables::makes_by_view;
use cad_declarations::{Argument, Place, Tables, Term, TermEntry, Use};
use cad_types::Builtin;

/// Whether a built-in call is no view call.
fn is_changing(member: Builtin) -> bool
    ensures { result ≡ spec.is_changing member }
{
    matches!(
        member,
        Builtin::ArrayAppend
            | Builtin::ArrayAppendAll
            | Builtin::ArrayInsert
            | Builtin::ArrayRemove
            | Builtin::ArrayRemoveFirst
            | Builtin::ArrayRemoveLast
            | Builtin::DictionaryInsert
            | Builtin::DictionaryRemove
            | Builtin::StorageSave
            | Builtin::StorageLoad
            | Builtin::ContractsAdd
            | Builtin::ContractsUpdate
            | Builtin::CapabilitiesPublish
            | Builtin::CapabilitiesUnpublish
            | Builtin::StorageCapabilitiesIssue
            | Builtin::ControllerSetTag
            | Builtin::ControllerRetarget
            | Builtin::ControllerDelete
    )
}

/// Whether what is evaluated of a place is pure.
#[cycle(terms)]
pub(crate) fn is_pure_place(tables: &Tables, place: &Place) -> bool
    ensures { result ≡ spec.is_pure_place (tables_of tables.now) (place_of place.now) }
{
    match place {
        Place::Variable(_) | Place::Self_ | Place::Contract(_) => true,
        Place::Target(value) => is_pure(tables, value),
        Place::Field { base, .. } | Place::Content { base, .. } => is_pure_place(tables, base),
        Place::Element { base, index, .. } => is_pure_place(tables, base) && is_pure(tables, index),
    }
}

/// Whether a use reads, or is a view call of pure arguments.
#[cycle(terms)]
fn is_pure_use(tables: &Tables, member: &Use) -> bool
    ensures { result ≡ spec.is_pure_use (tables_of tables.now) (use_of member.now) }
{
    match member {
        Use::Field { .. } | Use::BuiltinField(_) => true,
        Use::Method {
            is_view,
            arguments,
            ..
        } => is_pure_call(tables, *is_view, arguments),
        Use::BuiltinCall {
            member,
            arguments,
            ..
        } => is_pure_call(tables, !is_changing(*member), arguments),
    }
}

/// Whether a call is one that may be made, of pure arguments.
#[cycle(terms)]
fn is_pure_call(tables: &Tables, may_be_made: bool, arguments: &[Argument]) -> bool
    ensures { result ≡ (may_be_made && spec.are_pure_arguments (tables_of tables.now) (tree.arguments_of (map argument_of arguments.now))) }
{
    may_be_made && are_pure_arguments(tables, arguments)
}

/// Whether an expression makes only view calls, and destroys nothing.
#[cycle(terms)]
pub(crate) fn is_pure(tables: &Tables, term: &Term) -> bool
    ensures { result ≡ spec.is_pure (tables_of tables.now) (term_of term.now) }
{
    match term {
        Term::Number(_)
        | Term::Address(_)
        | Term::Bool(_)
        | Term::Nil
        | Term::String(_)
        | Term::Character(_)
        | Term::Path(_)
        | Term::Meta(_)
        | Term::Case(_, _)
        | Term::Before(_) => true,
        Term::Copy(place)
        | Term::Take(place)
        | Term::Borrow { place, .. }
        | Term::IsNil { place, .. } => is_pure_place(tables, place),
        Term::Array { items, .. } => are_pure(tables, items),
        Term::Dictionary { entries, .. } => are_pure_entries(tables, entries),
        Term::Construct(id, arguments) | Term::Create(id, arguments) => {
            is_pure_call(tables, makes_by_view(tables, id), arguments)
        }
        Term::Call {
            is_view,
            arguments,
            ..
        } => is_pure_call(tables, *is_view, arguments),
        Term::Builtin {
            member,
            arguments,
            ..
        } => is_pure_call(tables, !is_changing(*member), arguments),
        Term::On(base, member) | Term::Chain { base, member, .. } => is_pure_place(tables, base)
            && is_pure_use(tables, member),
        Term::Index { base, index, .. } => is_pure_place(tables, base) && is_pure(tables, index),
        Term::Destroy(_) => false,
        Term::Unary(_, value) | Term::Force(value) | Term::Cast(_, value, _) => is_pure(
            tables, value,
        ),
        Term::Hold { value, body, .. } => is_pure(tables, value) && is_pure(tables, body),
        Term::Binary(_, a, b) => is_pure(tables, a) && is_pure(tables, b),
        Term::Coalesce { left, right, .. } => is_pure(tables, left) && is_pure(tables, right),
        Term::Conditional(test, a, b) => is_pure(tables, test)
            && (is_pure(tables, a) && is_pure(tables, b)),
    }
}

/// Whether all of these expressions are pure.
#[cycle(terms)]
fn are_pure(tables: &Tables, all: &[Term]) -> bool
    ensures { result ≡ spec.are_pure (tables_of tables.now) (tree.terms_of (map term_of all.now)) }
{
    for term in all {
        if !is_pure(tables, term) {
            return false;
        }
    }
    true
}

/// Whether the values of all of these arguments are pure.
#[cycle(terms)]
pub(crate) fn are_pure_arguments(tables: &Tables, all: &[Argument]) -> bool
    ensures { result ≡ spec.are_pure_arguments (tables_of tables.now) (tree.arguments_of (map argument_of all.now)) }
{
    for argument in all {
        if !is_pure_argument(tables, argument) {
            return false;
        }
    }
    true
}

/// Whether all of these keys and values are pure.
#[cycle(terms)]
fn are_pure_entries(tables: &Tables, all: &[TermEntry]) -> bool
    ensures { result ≡ spec.are_pure_entries (tables_of tables.now) (tree.entries_of (map pair_of all.now)) }
{
    for entry in all {
        if !is_pure_key(tables, entry) {
            return false;
        }
        if !is_pure_value(tables, entry) {
            return false;
        }
    }
    true
}

#[cycle(terms)]
fn is_pure_argument(tables: &Tables, argument: &Argument) -> bool
    ensures { result ≡ spec.is_pure (tables_of tables.now) (argument_of argument.now).value }
{
    is_pure(tables, &argument.value)
}

#[cycle(terms)]
fn is_pure_key(tables: &Tables, entry: &TermEntry) -> bool
    ensures { result ≡ spec.is_pure (tables_of tables.now) (pair_of entry.now).key }
{
    is_pure(tables, &entry.key)
}

#[cycle(terms)]
fn is_pure_value(tables: &Tables, entry: &TermEntry) -> bool
    ensures { result ≡ spec.is_pure (tables_of tables.now) (pair_of entry.now).value }
{
    is_pure(tables, &entry.value)
}
