// What stands before `.`, `?.` and `[`.
ghost use Rattle.std.specs.Prelude.{◌≡◌, IfOk, Some, option_map};
ghost use Rattle.cad_syntax.specs.Types.{pure_type};
ghost use Rattle.cad_declarations.specs.Views.{place_of, term_of};
ghost use Rattle.cad_typing.specs.Receivers as spec;
ghost use Rattle.cad_environment.specs.Views.{environment_of, typing_of, hidden_of, receiver_of, base_of};

use crate::environment::{Environment, more};
use crate::trees::{contract_place, hold_term, target_place, variable_place};
use crate::typing::{Typing, discard_typing};
use cad_declarations::{Place, Term, discard_place, discard_term, discard_type};
use cad_syntax::{Authorization, CadType, TypeId};
use std::alloc::{AllocError, Global};

/// A hidden variable with this number, and its value.
#[derive(Drop)]
pub struct Hidden {
    pub number: u32,
    pub declared: CadType,
    pub value: Term,
}

/// What members and elements are taken of. It isn't copied.
#[derive(Drop)]
pub struct Receiver {
    /// The hidden variable that holds what the place is a part of, where that is no place of the program.
    pub hidden: Option<Hidden>,
    pub place: Place,
    /// The type of the value there.
    pub declared: CadType,
    /// What the reference grants through which it is met; none where it is owned.
    pub grant: Option<Authorization>,
}

/// A value or place, a contract, a type, or a transaction.
#[derive(Drop)]
pub enum Base {
    Value(Receiver),
    /// A contract by its name.
    Contract(TypeId),
    /// A type by its name.
    TypeName(CadType),
    /// `self` in a transaction.
    Transaction,
    /// What a chain gives that doesn't meet nil: a field of the content of an optional, and whether it is wrapped in an
    /// optional.
    Chained(Receiver, bool),
}

/// Lets a hidden variable go, where there is one.
pub fn discard_hidden(hidden: Option<Hidden>) {
    match hidden {
        Some(hidden) => {
            discard_type(hidden.declared);
            discard_term(hidden.value)
        }
        None => {}
    }
}

/// Lets a receiver go.
pub fn discard_receiver(receiver: Receiver) {
    discard_hidden(receiver.hidden);
    discard_place(receiver.place);
    discard_type(receiver.declared)
}

/// Lets go what stands before `.`.
pub fn discard_base(base: Base) {
    match base {
        Base::Value(receiver) => discard_receiver(receiver),
        Base::Contract(id) => drop(id),
        Base::TypeName(declared) => discard_type(declared),
        Base::Transaction => {}
        Base::Chained(receiver, _) => discard_receiver(receiver),
    }
}

/// A form whose parts are taken of a hidden variable.
pub fn closed(alloc: Global, hidden: Option<Hidden>, term: Term) -> Result<Term, AllocError>
    ensures { IfOk result (λ x. term_of x ≡ spec.closed (option_map hidden_of hidden) (term_of term)) }
{
    match hidden {
        None => Ok(term),
        Some(hidden) => hold_term(alloc, hidden.number, hidden.declared, hidden.value, term),
    }
}

/// What a reference names.
pub fn through(
    alloc: Global,
    term: Term,
    grant: Authorization,
    declared: CadType,
) -> Result<Receiver, AllocError>
    ensures { IfOk result (λ r. receiver_of r ≡ spec.through (term_of term) grant (pure_type declared)) }
{
    match target_place(alloc, term) {
        Ok(place) => Ok(Receiver {
            hidden: None,
            place,
            declared,
            grant: Some(grant),
        }),
        Err(error) => {
            discard_type(declared);
            Err(error)
        }
    }
}

/// A place that is met as its owner.
pub fn owned(hidden: Option<Hidden>, place: Place, declared: CadType) -> Receiver
    ensures { receiver_of result ≡ spec.owned (option_map hidden_of hidden) (place_of place) (pure_type declared) }
{
    Receiver {
        hidden,
        place,
        declared,
        grant: None,
    }
}

/// A place of a type, and the term that reads it. Of a reference, what it names.
pub fn receiver_at(
    alloc: Global,
    hidden: Option<Hidden>,
    place: Place,
    term: Term,
    declared: CadType,
) -> Result<Receiver, AllocError>
    ensures { IfOk result (λ r. receiver_of r ≡ spec.receiver_at (option_map hidden_of hidden) (place_of place) (term_of term) (pure_type declared)) }
{
    match declared {
        CadType::Reference(grant, target) => {
            discard_place(place);
            match closed(alloc, hidden, term) {
                Ok(term) => through(alloc, term, grant, Box::into_inner(target)),
                Err(error) => {
                    discard_type(Box::into_inner(target));
                    Err(error)
                }
            }
        }
        declared => {
            discard_term(term);
            Ok(owned(hidden, place, declared))
        }
    }
}

/// What a reference names; any other value is held in a hidden variable with this number.
pub fn held_at(
    alloc: Global,
    number: u32,
    term: Term,
    declared: CadType,
) -> Result<Receiver, AllocError>
    ensures { IfOk result (λ r. receiver_of r ≡ spec.held_at number (term_of term) (pure_type declared)) }
{
    match declared {
        CadType::Reference(grant, target) => through(alloc, term, grant, Box::into_inner(target)),
        declared => match declared.clone() {
            Ok(copied) => {
                let hidden = Hidden {
                    number,
                    declared: copied,
                    value: term,
                };
                Ok(owned(Some(hidden), variable_place(number), declared))
            }
            Err(error) => {
                discard_term(term);
                discard_type(declared);
                Err(error)
            }
        },
    }
}

/// A value that is no place; one of resource type is no receiver.
pub fn held(alloc: Global, env: Environment<'_>, x: Typing) -> Result<Option<Base>, AllocError>
    ensures { IfOk result (λ b. option_map base_of b ≡ spec.held (environment_of env.entry) (typing_of x)) }
{
    if env.is_resource(&x.declared) {
        discard_typing(x);
        return Ok(None);
    }
    let receiver = held_at(alloc, env.in_use, x.term, x.declared)?;
    Ok(Some(Base::Value(receiver)))
}

/// The value of a contract.
pub fn of_contract(id: TypeId) -> Result<Receiver, AllocError>
    ensures { IfOk result (λ r. receiver_of r ≡ spec.of_contract id) }
{
    let declared = CadType::Declared(id.clone()?);
    Ok(owned(None, contract_place(id), declared))
}

/// The value or place, or the contract, that stands there; None for a type, a transaction and a chain.
pub fn receiver_in(base: Base) -> Result<Option<Receiver>, AllocError>
    ensures { IfOk result (λ r. option_map receiver_of r ≡ spec.receiver_in (base_of base)) }
{
    match base {
        Base::Value(receiver) => Ok(Some(receiver)),
        Base::Contract(id) => Ok(Some(of_contract(id)?)),
        Base::TypeName(declared) => {
            discard_type(declared);
            Ok(None)
        }
        Base::Transaction => Ok(None),
        Base::Chained(receiver, _) => {
            discard_receiver(receiver);
            Ok(None)
        }
    }
}

/// One more variable is in use while a hidden one holds the receiver.
pub fn beside<'a>(
    hidden: &Option<Hidden>,
    env: Environment<'a>,
) -> Result<Environment<'a>, AllocError>
    ensures { IfOk result (λ e. environment_of e ≡ spec.beside (option_map hidden_of hidden.now) (environment_of env.entry)) }
{
    match hidden {
        None => Ok(env),
        Some(_) => {
            let in_use = more(env.in_use, 1)?;
            Ok(Environment { in_use, ..env })
        }
    }
}
