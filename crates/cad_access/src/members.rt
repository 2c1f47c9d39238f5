// The declared members of types where a program runs.
ghost use Rattle.std.specs.Prelude.{◌≡◌, Some, option_map};
ghost use Rattle.cad_declarations.specs.Views.{form_of, member_of};
ghost use Rattle.cad_evaluation.specs.Access as spec;
ghost use Rattle.cad_access.specs.Members.{is_variable_form};
ghost use Rattle.cad_access.specs.RunContracts.{run_of};

use crate::declared::entry_of;
use cad_declarations::{Member, MemberKind, find_member};
use cad_grammar::VariableKind;
use cad_state::RunState;
use cad_syntax::{Name, TypeId};

/// The interfaces that a type has, each before its own parents.
pub fn interfaces_of<'a>(state: &'a RunState, id: &TypeId) -> &'a [TypeId]
    ensures { result.now ≡ spec.interfaces_of (run_of state.now) id.now }
{
    match entry_of(state, id) {
        Some(entry) => entry.interfaces.as_slice(),
        None => &[],
    }
}

/// What a type declares itself under a name.
pub fn own_member<'a>(state: &'a RunState, name: &Name, id: &TypeId) -> Option<&'a Member>
    ensures { option_map (λ m. member_of m.now) result ≡ spec.own_member (run_of state.now) name.now id.now }
{
    match entry_of(state, id) {
        Some(entry) => find_member(entry.members.as_slice(), name),
        None => None,
    }
}

/// Whether a member is a function with a body.
fn has_body(kind: &MemberKind) -> bool
    ensures { result ≡ spec.has_body (form_of kind.now) }
{
    match kind {
        MemberKind::Field { .. } => false,
        MemberKind::Function { has_body, .. } => *has_body,
    }
}

/// The member, if it is a function with a body.
fn if_default(member: &Member) -> Option<&Member>
    ensures { option_map (λ m. member_of m.now) result ≡ spec.default_in (Some (member_of member.now)) }
{
    if has_body(&member.kind) {
        Some(member)
    } else {
        None
    }
}

/// The function of a name that an interface has with a body.
fn default_of<'a>(state: &'a RunState, name: &Name, id: &TypeId) -> Option<&'a Member>
    ensures { option_map (λ m. member_of m.now) result ≡ spec.default_in (spec.own_member (run_of state.now) name.now id.now) }
{
    match own_member(state, name, id) {
        Some(member) => if_default(member),
        None => None,
    }
}

/// The first body of a function of a name in these interfaces.
fn first_default<'a>(state: &'a RunState, name: &Name, ids: &[TypeId]) -> Option<&'a Member>
    ensures { option_map (λ m. member_of m.now) result ≡ spec.first_default (run_of state.now) name.now ids.now }
{
    for id in ids {
        if let Some(member) = default_of(state, name, id) {
            return Some(member);
        }
    }
    None
}

/// The member of a composite: what it declares itself, or the first body in its interfaces.
pub fn composite_member<'a>(state: &'a RunState, name: &Name, id: &TypeId) -> Option<&'a Member>
    ensures { option_map (λ m. member_of m.now) result ≡ spec.member_of (run_of state.now) name.now id.now }
{
    if let Some(member) = own_member(state, name, id) {
        return Some(member);
    }
    first_default(state, name, interfaces_of(state, id))
}

/// Whether a type declares a member of a name itself.
pub(crate) fn declares(state: &RunState, name: &Name, id: &TypeId) -> bool
    ensures { result ≡ spec.is_there (spec.own_member (run_of state.now) name.now id.now) }
{
    match own_member(state, name, id) {
        Some(_) => true,
        None => false,
    }
}

/// Whether a member is a field declared as `var`.
fn is_variable(kind: &MemberKind) -> bool
    ensures { result ≡ is_variable_form (form_of kind.now) }
{
    match kind {
        MemberKind::Field {
            kind: Some(kind),
            ..
        } => is_var(*kind),
        _ => false,
    }
}

/// Whether a field of this kind is written once it is set.
fn is_var(kind: VariableKind) -> bool
    ensures { result ≡ spec.is_variable (Some kind) }
{
    matches!(kind, VariableKind::Var)
}

/// Whether a type declares a field of a name as `var` itself.
pub(crate) fn declares_variable(state: &RunState, name: &Name, id: &TypeId) -> bool
    ensures { result ≡ spec.form_is_variable (spec.own_member (run_of state.now) name.now id.now) }
{
    match own_member(state, name, id) {
        Some(member) => is_variable(&member.kind),
        None => false,
    }
}
