// Which code may use a member.
ghost use Rattle.std.specs.Prelude.{◌≡◌, ◌&&◌, ◌||◌, option_map};
ghost use Rattle.std.specs.List.{list_any};
ghost use Rattle.cad_auth.specs.Tests as tests;
ghost use Rattle.cad_declarations.specs.Views.{member_of};
ghost use Rattle.cad_world.specs.Declared as declared;
ghost use Rattle.cad_evaluation.specs.Access as spec;
ghost use Rattle.cad_access.specs.Reaches.{reaches, near};
ghost use Rattle.cad_access.specs.RunContracts.{run_of};

use crate::calls::within;
use crate::declared::{are_of_one_contract, is_within};
use crate::members::{declares, declares_variable, interfaces_of};
use cad_auth::grants;
use cad_auth::laws::grant_tests_tell;
use cad_declarations::{Member, MemberAccess};
use cad_state::RunState;
use cad_syntax::{Authorization, Name, TypeId};

/// How far from a type code may stand that is served a member of it.
#[derive(Clone, Copy, Debug, PartialEq, Eq)]
enum Reach {
    /// In the type.
    Type,
    /// In its contract.
    Contract,
    /// In its account.
    Account,
}

/// Whether code stands so far from a type.
fn reaches(reach: Reach, id: &TypeId, code: &TypeId) -> bool
    ensures { result ≡ reaches reach id.now code.now }
{
    match reach {
        Reach::Type => is_within(id, code),
        Reach::Contract => are_of_one_contract(id, code),
        Reach::Account => id.address.0 == code.address.0,
    }
}

/// Whether code stands so far from a type that declares a member of the name.
fn is_holder(state: &RunState, reach: Reach, name: &Name, id: &TypeId, code: &TypeId) -> bool
    ensures { result ≡ (spec.is_there (spec.own_member (run_of state.now) name.now id.now) && reaches reach id.now code.now) }
{
    declares(state, name, id) && reaches(reach, id, code)
}

/// Whether code stands so far from one of these types that declares a member of the name.
fn some_is_holder(
    state: &RunState,
    reach: Reach,
    name: &Name,
    ids: &[TypeId],
    code: &TypeId,
) -> bool
    ensures { result ≡ list_any (λ i. spec.is_there (spec.own_member (run_of state.now) name.now i) && reaches reach i code.now) ids.now }
{
    ids.iter().any(|i| is_holder(state, reach, name, i, code))
}

/// Whether code stands so far from a type, or from an interface of it that declares a member of the name.
#[tactic(auto, using(crate::proofs::Holders::any_holder))]
fn stands_near(state: &RunState, reach: Reach, name: &Name, id: &TypeId, code: &TypeId) -> bool
    ensures { result ≡ list_any (λ holder. reaches reach holder code.now) (spec.holders (run_of state.now) name.now id.now) }
{
    reaches(reach, id, code) || some_is_holder(state, reach, name, interfaces_of(state, id), code)
}

/// Whether the running code stands so far from a type, or from an interface of it that declares a member of the name.
fn is_near(state: &RunState, reach: Reach, name: &Name, id: &TypeId) -> bool
    ensures { result ≡ near reach (spec.holders (run_of state.now) name.now id.now) (spec.within (run_of state.now)) }
{
    match within(state) {
        Some(code) => stands_near(state, reach, name, id, code),
        None => false,
    }
}

/// Whether code stands in a type that declares a field of the name as `var`.
fn is_writer(state: &RunState, name: &Name, id: &TypeId, code: &TypeId) -> bool
    ensures { result ≡ (spec.form_is_variable (spec.own_member (run_of state.now) name.now id.now) && declared.is_within id.now code.now) }
{
    declares_variable(state, name, id) && is_within(id, code)
}

/// Whether code stands in one of these types that declares a field of the name as `var`.
fn some_is_writer(state: &RunState, name: &Name, ids: &[TypeId], code: &TypeId) -> bool
    ensures { result ≡ list_any (λ i. spec.form_is_variable (spec.own_member (run_of state.now) name.now i) && declared.is_within i code.now) ids.now }
{
    ids.iter().any(|i| is_writer(state, name, i, code))
}

/// Whether code stands in a type, or in an interface of it, that declares a field of the name as `var`.
#[tactic(auto, using(crate::proofs::Holders::any_writer))]
fn stands_in_writer(state: &RunState, name: &Name, id: &TypeId, code: &TypeId) -> bool
    ensures { result ≡ list_any (λ holder. declared.is_within holder code.now) (spec.writers (run_of state.now) name.now id.now) }
{
    is_writer(state, name, id, code) || some_is_writer(state, name, interfaces_of(state, id), code)
}

/// Whether what is met with these rights has a right; an owner has every right.
pub fn has_right(rights: Option<&Authorization>, need: &Authorization) -> bool
    ensures { result ≡ spec.has_right (option_map (λ own. own.now) rights.entry) need.now }
{
    match rights {
        None => true,
        Some(own) => is_granted(own, need),
    }
}

/// Whether an authorization serves where another is needed.
fn is_granted(own: &Authorization, need: &Authorization) -> bool
    ensures { result ≡ tests.grants own.now need.now }
{
    grant_tests_tell();
    grants(own, need)
}

/// Whether the running code, which meets a type with these rights, is served a member of it.
pub fn serves(
    state: &RunState,
    id: &TypeId,
    member: &Member,
    rights: Option<&Authorization>,
) -> bool
    ensures { result ≡ spec.serves (run_of state.now) id.now (member_of member.now) (option_map (λ own. own.now) rights.entry) }
{
    match &member.access {
        MemberAccess::All | MemberAccess::Mapped(_) => true,
        MemberAccess::Entitled(need) => has_right(rights, need),
        MemberAccess::Own => is_near(state, Reach::Type, &member.name, id),
        MemberAccess::Contract => is_near(state, Reach::Contract, &member.name, id),
        MemberAccess::Account => is_near(state, Reach::Account, &member.name, id),
    }
}

/// Whether the running code may write a field; told whether the node is what the running initializer makes, as
/// `made_label` has it.
pub fn may_write(state: &RunState, id: &TypeId, name: &Name, is_made: bool) -> bool
    ensures { result ≡ (spec.stands_in (spec.writers (run_of state.now) name.now id.now) (spec.within (run_of state.now)) || is_made) }
{
    if is_made {
        return true;
    }
    match within(state) {
        Some(code) => stands_in_writer(state, name, id, code),
        None => false,
    }
}
