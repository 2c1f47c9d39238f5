// The value of an expression: a table of its forms, each of which is a function by itself.
ghost use Rattle.cad_declarations.specs.Views.{term_of};
ghost use Rattle.cad_expression_leaves.specs.Code.Steps as steps;
ghost use Rattle.cad_expression_leaves.specs.Views.{tree_in};
ghost use Rattle.cad_state.specs.Views.{FindsAndCarriesOut};

use crate::place_forms::{
    borrow_form, chain_form, copy_form, index_form, nil_form, take_form, use_form,
};
use crate::row_forms::{
    array_form, builtin_form, call_form, construct_form, create_form, dictionary_form,
};
use crate::value_forms::{
    binary_form, cast_form, coalesce_form, conditional_form, destroy_form, force_form, hold_form,
    unary_form,
};
use cad_declarations::Term;
use cad_expression_leaves::{Evaluator, call_type, literal};
use cad_outcomes::Stop;
use cad_rows::Tree;
use cad_state::RunState;

/// The value of an expression.
pub(crate) fn evaluate<E: Evaluator>(
    term: &Term,
    evaluator: &E,
    state: &mut RunState,
) -> Result<Box<Tree>, Stop>
    requires { E.is_ready evaluator.now }
    ensures { FindsAndCarriesOut tree_in (steps.evaluated (E.front evaluator.now) (E.calls evaluator.now) (term_of term.now)) state.old state.new result }
{
    match term {
        Term::Number(_)
        | Term::Address(_)
        | Term::Bool(_)
        | Term::Nil
        | Term::String(_)
        | Term::Character(_)
        | Term::Path(_)
        | Term::Case(_, _)
        | Term::Before(_) => literal(term, state),
        Term::Meta(declared) => call_type(state, declared),
        Term::Copy(place) => copy_form(place, evaluator, state),
        Term::Take(place) => take_form(place, evaluator, state),
        Term::IsNil { place, is_negated } => nil_form(place, *is_negated, evaluator, state),
        Term::Borrow {
            place,
            authorization,
            target: _,
            takes_off,
            gives_optional,
        } => borrow_form(
            place,
            authorization,
            *takes_off,
            *gives_optional,
            evaluator,
            state,
        ),
        Term::Array { element, items } => array_form(element, items.as_slice(), evaluator, state),
        Term::Dictionary {
            key,
            value,
            entries,
        } => dictionary_form(key, value, entries.as_slice(), evaluator, state),
        Term::Construct(id, all) => construct_form(id, all.as_slice(), evaluator, state),
        Term::Create(id, all) => create_form(id, all.as_slice(), evaluator, state),
        Term::Call {
            function,
            is_view: _,
            is_never: _,
            arguments,
        } => call_form(function, arguments.as_slice(), evaluator, state),
        Term::Builtin {
            member,
            types,
            arguments,
        } => builtin_form(
            *member,
            types.as_slice(),
            arguments.as_slice(),
            evaluator,
            state,
        ),
        Term::On(base, member) => use_form(base, member, evaluator, state),
        Term::Chain {
            base,
            member,
            wraps,
        } => chain_form(base, member, *wraps, evaluator, state),
        Term::Index { base, of: _, index } => index_form(base, index, evaluator, state),
        Term::Hold {
            number,
            declared: _,
            value,
            body,
        } => hold_form(*number, value, body, evaluator, state),
        Term::Destroy(a) => destroy_form(a, evaluator, state),
        Term::Unary(operator, a) => unary_form(*operator, a, evaluator, state),
        Term::Force(a) => force_form(a, evaluator, state),
        Term::Cast(kind, a, declared) => cast_form(*kind, a, declared, evaluator, state),
        Term::Binary(operator, a, b) => binary_form(*operator, a, b, evaluator, state),
        Term::Coalesce {
            left,
            right,
            takes_off,
            declared,
        } => coalesce_form(left, right, *takes_off, declared, evaluator, state),
        Term::Conditional(a, b, c) => conditional_form(a, b, c, evaluator, state),
    }
}
