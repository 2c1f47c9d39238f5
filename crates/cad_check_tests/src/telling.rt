// The types that a text declares.
use cad_declarations::{Bodies, Checked, Deployed, Installed, Tables};
use cad_grammar::Program;
use cad_parse::parse_program;
use cad_syntax::{Address, Bytes, Name, Text};
use cad_tables::{build, deployed_kinds, no_contracts, with_contract};
use std::alloc::{AllocError, Global};
use std::rc::Rc;

/// The account of all contracts here.
const PLACE: Address = Address(1);

/// The program that a text is. A text that is none fails the test.
fn program_of(alloc: Global, code: &str) -> Result<Program, AllocError> {
    match parse_program(alloc, code.as_bytes()) {
        Ok(program) => Ok(program),
        Err(_) => Err(AllocError),
    }
}

/// The tables of a contract. One that is refused fails the test.
fn tables_of(alloc: Global, program: &Program, deployed: &Deployed) -> Result<Tables, AllocError> {
    match build(alloc, program, Some(PLACE), deployed)? {
        Ok(tables) => Ok(tables),
        Err(_) => Err(AllocError),
    }
}

/// A contract of this name, whose bodies aren't told.
fn installed(
    alloc: Global,
    name: &str,
    program: Program,
    tables: Tables,
) -> Result<Installed, AllocError> {
    let bodies = Bodies {
        types: Vec::new(alloc),
        functions: Vec::new(alloc),
        transaction: None,
    };
    let checked = Checked {
        program,
        tables,
        bodies,
    };
    Ok(Installed {
        address: PLACE,
        name: Name(Text::from_str(alloc, name)?),
        code: Rc::new(alloc, Bytes::new(alloc))?,
        checked: Rc::new(alloc, checked)?,
    })
}

/// These contracts with one more.
fn deploy(
    alloc: Global,
    deployed: &Deployed,
    name: &str,
    code: &str,
) -> Result<Deployed, AllocError> {
    let program = program_of(alloc, code)?;
    let tables = tables_of(alloc, &program, deployed)?;
    let contract = installed(alloc, name, program, tables)?;
    with_contract(alloc, deployed, &contract)
}

/// The contract `A` alone.
fn one(alloc: Global, a: &str) -> Result<Deployed, AllocError> {
    let none = no_contracts(alloc);
    deploy(alloc, &none, "A", a)
}

/// How many types the contract `A` declares.
pub(crate) fn type_count(alloc: Global, a: &str) -> Result<usize, AllocError> {
    let deployed = one(alloc, a)?;
    let kinds = deployed_kinds(alloc, &deployed)?;
    Ok(kinds.declared().len())
}
