// Where a member is served, and where it is written.
ghost use Rattle.std.specs.Prelude.{◌≡◌, ◌==◌, [], ◌∷◌, codes, IfOk, Some, option_copied, option_map, take, map};
ghost use Rattle.std.specs.Cmp.Lexicographic.{pointwise};
ghost use Rattle.std.specs.List.{list_any};
ghost use Rattle.cad_syntax.specs.TypeIds.{same_id};
ghost use Rattle.cad_syntax.specs.Types.{pure_type};
ghost use Rattle.cad_syntax.specs.declared.text.Name.{Name};
ghost use Rattle.cad_auth.specs.Tests as tests;
ghost use Rattle.cad_declarations.specs.Names.{identity_mapping};
ghost use Rattle.cad_declarations.specs.Views.{member_of, place_of};
ghost use Rattle.cad_typing.specs.Access as spec;
ghost use Rattle.cad_environment.specs.Views.{environment_of, receiver_of, part_of};

use crate::base::Receiver;
use crate::environment::{Environment, Part};
use cad_auth::{Mapping, grants, image};
use cad_declarations::{Member, MemberAccess, Place, is_same_name};
use cad_grammar::VariableKind;
use cad_scopes::is_spelled;
use cad_syntax::{Authorization, CadType, Name, Pairs, TypeId};
use std::alloc::{AllocError, Global};

/// Whether names begin with these.
pub fn is_front(front: &[Name], names: &[Name]) -> bool
    ensures { result ≡ spec.is_front front.now names.now }
{
    let mut rest = names;
    for name in front {
        let [first, more @ ..] = rest else {
            return false;
        };
        if !is_same_name(name, first) {
            return false;
        }
        rest = more;
    }
    true
}

/// Whether a type is this one, or is declared inside it.
pub fn is_inside(outer: &TypeId, id: &TypeId) -> bool
    ensures { result ≡ spec.is_inside outer.now id.now }
{
    outer.address.0 == id.address.0 && is_front(outer.names.as_slice(), id.names.as_slice())
}

/// Whether a type is declared in this contract.
pub fn is_in_contract(id: &TypeId, contract: &TypeId) -> bool
    ensures { result ≡ same_id (spec.contract_of id.now) contract.now }
{
    id.address.0 == contract.address.0 && is_first(id.names.as_slice(), contract.names.as_slice())
}

/// Whether the first of these names is all of the others.
fn is_first(names: &[Name], others: &[Name]) -> bool
    ensures { result ≡ pointwise (λ (m n : Name). pointwise ◌==◌ m.0 n.0) (take 1 names.now) others.now }
{
    match names {
        [] => others.is_empty(),
        [first, _more @ ..] => match others {
            [only] => is_same_name(first, only),
            _ => false,
        },
    }
}

/// Whether the code stands in a type.
pub fn stands_in(env: Environment<'_>, owner: &TypeId) -> bool
    ensures { result ≡ spec.stands_in (environment_of env.entry) owner.now }
{
    match env.within {
        Some(id) => is_inside(owner, id),
        None => false,
    }
}

/// Whether the code stands in the contract of a type.
pub fn stands_in_contract(env: Environment<'_>, owner: &TypeId) -> bool
    ensures { result ≡ spec.stands_in_contract (environment_of env.entry) owner.now }
{
    match &env.known.tables.contract {
        Some(contract) => is_in_contract(owner, contract),
        None => false,
    }
}

/// Whether the code stands in a contract of the account of a type.
pub fn stands_in_account(env: Environment<'_>, owner: &TypeId) -> bool
    ensures { result ≡ spec.stands_in_account (environment_of env.entry) owner.now }
{
    match &env.known.tables.contract {
        Some(contract) => contract.address.0 == owner.address.0,
        None => false,
    }
}

/// Whether the code stands in one of the types whose member it is.
fn stands_in_owner(env: Environment<'_>, t: &CadType, member: &Member) -> bool
    ensures { result ≡ list_any (spec.stands_in (environment_of env.entry)) (spec.owners (pure_type t.now) (member_of member.now)) }
{
    match t {
        CadType::Declared(id) => stands_in(env, id) || stands_in(env, &member.declared_by),
        _ => stands_in(env, &member.declared_by),
    }
}

/// Whether the code stands in the contract of one of the types whose member it is.
fn stands_in_owner_contract(env: Environment<'_>, t: &CadType, member: &Member) -> bool
    ensures { result ≡ list_any (spec.stands_in_contract (environment_of env.entry)) (spec.owners (pure_type t.now) (member_of member.now)) }
{
    match t {
        CadType::Declared(id) => {
            stands_in_contract(env, id) || stands_in_contract(env, &member.declared_by)
        }
        _ => stands_in_contract(env, &member.declared_by),
    }
}

/// Whether the code stands in the account of one of the types whose member it is.
fn stands_in_owner_account(env: Environment<'_>, t: &CadType, member: &Member) -> bool
    ensures { result ≡ list_any (spec.stands_in_account (environment_of env.entry)) (spec.owners (pure_type t.now) (member_of member.now)) }
{
    match t {
        CadType::Declared(id) => {
            stands_in_account(env, id) || stands_in_account(env, &member.declared_by)
        }
        _ => stands_in_account(env, &member.declared_by),
    }
}

/// Whether an access asks for no more than this grants; an owned value has all rights.
pub fn is_granted(grant: Option<&Authorization>, need: &Authorization) -> bool
    ensures { result ≡ spec.is_granted (option_copied grant.entry) need.now }
{
    match grant {
        None => true,
        Some(grant) => is_served(grant, need),
    }
}

/// Whether what a holder has serves where another is asked for.
fn is_served(holder: &Authorization, need: &Authorization) -> bool
    ensures { result ≡ tests.grants holder.now need.now }
{
    grants(holder, need)
}

/// Whether an identifier is that of the built-in mapping.
fn is_identity(id: &TypeId) -> bool
    ensures { result ≡ same_id id.now identity_mapping }
{
    id.address.0 == 0 && is_only(id.names.as_slice(), "Identity")
}

/// Whether this text is the only one of these names.
fn is_only(names: &[Name], text: &str) -> bool
    ensures { result ≡ pointwise (λ (m n : Name). pointwise ◌==◌ m.0 n.0) names.now (record { 0 = text.now } ∷ []) }
{
    match names {
        [only] => is_spelled(only, text),
        _ => false,
    }
}

/// The image of an authorization under the mapping of an identifier.
pub fn mapped(
    alloc: Global,
    env: Environment<'_>,
    mapping: &TypeId,
    grant: &Authorization,
) -> Result<Option<Authorization>, AllocError>
    ensures { IfOk result (λ a. a ≡ spec.image_of (environment_of env.entry) mapping.now (Some grant.now)) }
{
    if is_identity(mapping) {
        let identity = Mapping {
            identity: true,
            pairs: Pairs::new(alloc),
        };
        return image(alloc, &identity, grant);
    }
    match env.known.tables.mappings.find(mapping) {
        Some(found) => image(alloc, &found.mapping, grant),
        None => Ok(None),
    }
}

/// What a mapping makes of the rights through which a member is met.
pub fn image_of(
    alloc: Global,
    env: Environment<'_>,
    mapping: &TypeId,
    grant: Option<&Authorization>,
) -> Result<Option<Authorization>, AllocError>
    ensures { IfOk result (λ a. a ≡ spec.image_of (environment_of env.entry) mapping.now (option_copied grant.entry)) }
{
    match grant {
        None => Ok(Some(Authorization::Unauthorized)),
        Some(grant) => mapped(alloc, env, mapping, grant),
    }
}

/// No rights, if the member is served.
fn if_served(is_served: bool) -> Option<Authorization>
    ensures { result ≡ spec.if_served is_served }
{
    if is_served {
        Some(Authorization::Unauthorized)
    } else {
        None
    }
}

/// What a reference may do that is read from a member, if the member is served: with a mapping what the mapping makes of the
/// rights through which the member is met, else nothing. None where it isn't served.
pub fn rights(
    alloc: Global,
    env: Environment<'_>,
    receiver: &Receiver,
    member: &Member,
) -> Result<Option<Authorization>, AllocError>
    ensures { IfOk result (λ a. a ≡ spec.rights (environment_of env.entry) (receiver_of receiver.now) (member_of member.now)) }
{
    rights_by(
        alloc,
        env,
        &receiver.declared,
        receiver.grant.as_ref(),
        member,
    )
}

/// The same by the type of the receiver, and what grants it.
pub fn rights_by(
    alloc: Global,
    env: Environment<'_>,
    t: &CadType,
    grant: Option<&Authorization>,
    member: &Member,
) -> Result<Option<Authorization>, AllocError>
    ensures { IfOk result (λ a. a ≡ spec.rights_by (environment_of env.entry) (option_copied grant.entry) (spec.owners (pure_type t.now) (member_of member.now)) member.now.access) }
{
    match &member.access {
        MemberAccess::All => Ok(Some(Authorization::Unauthorized)),
        MemberAccess::Own => Ok(if_served(stands_in_owner(env, t, member))),
        MemberAccess::Contract => Ok(if_served(stands_in_owner_contract(env, t, member))),
        MemberAccess::Account => Ok(if_served(stands_in_owner_account(env, t, member))),
        MemberAccess::Entitled(need) => Ok(if_served(is_granted(grant, need))),
        MemberAccess::Mapped(mapping) => image_of(alloc, env, mapping, grant),
    }
}

/// Whether it is the body of an initializer.
pub fn is_initializer(part: Part<'_>) -> bool
    ensures { result ≡ spec.is_initializer (part_of part.entry) }
{
    matches!(part, Part::InitializerBody)
}

/// Whether a place is `self`.
pub fn is_own_place(place: &Place) -> bool
    ensures { result ≡ spec.is_own_place (place_of place.now) }
{
    matches!(place, Place::Self_)
}

/// Whether a receiver is `self` in an initializer.
pub fn is_being_made(env: Environment<'_>, receiver: &Receiver) -> bool
    ensures { result ≡ spec.is_being_made (environment_of env.entry) (receiver_of receiver.now) }
{
    is_initializer(env.part) && is_own_place(&receiver.place)
}

/// Whether a field may be written: a `var` inside the type whose field it is, a `let` as a field of `self` in the
/// initializer, and an interface's field with neither word nowhere.
pub fn may_write(
    env: Environment<'_>,
    receiver: &Receiver,
    member: &Member,
    word: Option<VariableKind>,
) -> bool
    ensures { result ≡ spec.may_write (environment_of env.entry) (receiver_of receiver.now) (member_of member.now) word }
{
    match word {
        Some(VariableKind::Var) => stands_in_owner(env, &receiver.declared, member),
        Some(VariableKind::Let) => is_being_made(env, receiver),
        None => false,
    }
}
