// The contract that a program is.
ghost use Rattle.std.specs.Prelude.{◌≡◌, map, option_map, IfOk};
ghost use Rattle.cad_grammar.specs.Views.{contract_of, decl_of, program_of};
ghost use Rattle.cad_declarations.specs.Own as spec;
ghost use Rattle.cad_contracts.specs.Views.{own_of};

use crate::contracts::contract_id;
use cad_grammar::{Contract, ContractMember, Decl, Program};
use cad_syntax::{Address, TypeId};
use std::alloc::{AllocError, Global};

/// The contract that a program is, with its members.
#[derive(Drop)]
pub struct Own<'a> {
    pub id: TypeId,
    pub members: &'a [ContractMember],
}

/// The first contract of these declarations.
fn first_contract(declarations: &[Decl]) -> Option<&Contract>
    ensures { option_map (λ c. contract_of c.now) result ≡ spec.first_contract (map decl_of declarations.now) }
{
    for declaration in declarations {
        if let Decl::Contract(contract) = declaration {
            return Some(contract);
        }
    }
    None
}

/// A contract at a place.
fn contract_at<'a>(
    alloc: Global,
    place: Address,
    contract: &'a Contract,
) -> Result<Own<'a>, AllocError>
    ensures { IfOk result (λ own. own_of own ≡ spec.contract_at place (contract_of contract.now)) }
{
    Ok(Own {
        id: contract_id(alloc, place, &contract.name)?,
        members: contract.members.as_slice(),
    })
}

/// The first contract of a program that has a place.
pub fn own_contract<'a>(
    alloc: Global,
    place: Option<Address>,
    program: &'a Program,
) -> Result<Option<Own<'a>>, AllocError>
    ensures { IfOk result (λ own. option_map own_of own ≡ spec.own_contract place (program_of program.now)) }
{
    let Some(place) = place else {
        return Ok(None);
    };
    match first_contract(program.declarations.as_slice()) {
        Some(contract) => Ok(Some(contract_at(alloc, place, contract)?)),
        None => Ok(None),
    }
}
