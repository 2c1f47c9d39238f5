// Texts as programs, and a contract as a check and as a run have it.
use cad_check::check_text;
use cad_command_runs::FrontEnd;
use cad_declarations::{Checked, Deployed, Installed};
use cad_discards::{discard_checked, discard_deployed, discard_installed, hold};
use cad_rows::{Place, Shape, Tree, add_last};
use cad_state::{Contract, discard_contract};
use cad_syntax::{Address, Bytes, Name, Names, Num, Text, TypeId};
use cad_tables::{no_contracts, with_contract};
use cad_values::Value;
use std::alloc::{AllocError, Global};
use std::process::Abort;
use std::rc::Rc;

/// The account of the contract.
pub(crate) const PLACE: Address = Address(1);

/// A front end by which no contract is added.
pub(crate) struct Closed;

impl FrontEnd for Closed {
    ghost use Rattle.cad_world.specs.Fronts.{refused};

    ghost front = { λ it contracts address code. refused };

    fn accept(
        &self,
        alloc: Global,
        contracts: &[Contract],
        address: Address,
        code: &[u8],
    ) -> Result<Option<Rc<Checked>>, AllocError> {
        Ok(None)
    }
}

/// A program that several may hold.
fn shared(alloc: Global, checked: Checked) -> Result<Rc<Checked>, AllocError> {
    match Rc::new(alloc, checked) {
        Ok(one) => Ok(one),
        Err(refused) => {
            discard_checked(refused.value);
            Err(AllocError)
        }
    }
}

/// The program that a text is. A text that is refused fails the test.
pub(crate) fn checked(
    rt: &impl Abort,
    alloc: Global,
    code: &str,
    place: Option<Address>,
    deployed: &Deployed,
) -> Rc<Checked> {
    let verdict = check_text(alloc, code.as_bytes(), place, deployed).expect(rt, "memory");
    let program = verdict.expect(rt, "accepted");
    shared(alloc, program).expect(rt, "memory")
}

/// The name of the contract.
fn contract_name(alloc: Global) -> Result<Name, AllocError> {
    Ok(Name(Text::from_str(alloc, "C")?))
}

/// The type of the contract.
fn contract_id(alloc: Global) -> Result<TypeId, AllocError> {
    let mut names = Names::new(alloc);
    names.push(contract_name(alloc)?)?;
    Ok(TypeId {
        address: PLACE,
        names,
    })
}

/// The value of a contract without fields.
fn contract_value(rt: &impl Abort, alloc: Global) -> Vec<Place> {
    let id = contract_id(alloc).expect(rt, "memory");
    let tree = Tree {
        optionals: 0,
        shape: Shape::Composite {
            id,
            identity: 0,
            fields: Names::new(alloc),
        },
        parts: Vec::new(alloc),
    };
    let mut row = Vec::new(alloc);
    add_last(&mut row, tree).expect(rt, "memory");
    row
}

/// The contract as a run has it.
pub(crate) fn running(rt: &impl Abort, alloc: Global, checked: &Rc<Checked>) -> Vec<Contract> {
    let id = contract_id(alloc).expect(rt, "memory");
    let code = Rc::new(alloc, Bytes::new(alloc)).expect(rt, "memory");
    let own = hold(checked).expect(rt, "memory");
    let mut contracts = Vec::new(alloc);
    match contracts.push(Contract {
        id,
        code,
        checked: own,
        value: contract_value(rt, alloc),
        is_running: false,
    }) {
        Ok(()) => {}
        Err(refused) => discard_contract(refused.value),
    }
    contracts
}

/// The contract as a check has it.
pub(crate) fn deployed(
    rt: &impl Abort,
    alloc: Global,
    none: &Deployed,
    checked: Rc<Checked>,
) -> Deployed {
    let name = contract_name(alloc).expect(rt, "memory");
    let code = Rc::new(alloc, Bytes::new(alloc)).expect(rt, "memory");
    let installed = Installed {
        address: PLACE,
        name,
        code,
        checked,
    };
    let all = with_contract(alloc, none, &installed).expect(rt, "memory");
    discard_installed(installed);
    all
}

/// The number that a value is.
pub(crate) fn number_of(value: &Value) -> Option<Num> {
    match value {
        Value::Number(number) => Some(*number),
        _ => None,
    }
}

/// The number in the first field of an event.
pub(crate) fn number_in(event: &Value) -> Option<Num> {
    match event {
        Value::Composite { fields, .. } => match fields.as_slice().first() {
            Some(field) => number_of(&field.value),
            None => None,
        },
        _ => None,
    }
}
