// The tables of a program, or where its names are refused.
ghost use Rattle.std.specs.Prelude.{◌≡◌, None, [], map, option_map, IfOk};
ghost use Rattle.cad_grammar.specs.Views.{program_of};
ghost use Rattle.cad_declarations.specs.Build as spec;
ghost use Rattle.cad_declarations.specs.Imports.{all_imported as all_imported_by, closure as closed};
ghost use Rattle.cad_declarations.specs.Own.{own_contract as own_of_program};
ghost use Rattle.cad_entries.specs.Views.{imports_of, known_scope};
ghost use Rattle.cad_contracts.specs.Views.{entry_of, own_of};
ghost use Rattle.cad_tables.specs.Code.Beside.{built_by, no_scope};
ghost use Rattle.cad_tables.specs.Views.{contracts_of, outcome_of};

use crate::import_points::imports_stop;
use crate::program_points::declarations_stop;
use cad_contracts::{Own, all_imported, closure, own_contract, parent_links};
use cad_declarations::{Deployed, Installed, Stop, Tables};
use cad_entries::{Known, look_up, made_tables, scope};
use cad_grammar::Program;
use cad_syntax::Address;
use std::alloc::{AllocError, Global};

/// The tables of a program at a place, beside deployed contracts; a Stop where a name of an import, type or entitlement isn't
/// there, a declaration is doubled or misplaced, or a chain of interfaces or imports returns to itself. A number over 2^64-1 is
/// told as 2^64-1.
pub fn build(
    alloc: Global,
    program: &Program,
    place: Option<Address>,
    deployed: &Deployed,
) -> Result<Result<Tables, Stop>, AllocError>
    ensures { IfOk result (λ made. outcome_of made ≡ spec.build (contracts_of deployed.now) place (program_of program.now)) }
{
    let own = own_contract(alloc, place, program)?;
    if let Some(stop) = deployed_stop(alloc, program, deployed, &own)? {
        return Ok(Err(stop));
    }
    build_beside(alloc, program, place, deployed, own)
}

/// The first stop of a program's imports beside deployed contracts.
fn deployed_stop(
    alloc: Global,
    program: &Program,
    deployed: &Deployed,
    own: &Option<Own<'_>>,
) -> Result<Option<Stop>, AllocError>
    ensures { IfOk result (λ s. s ≡ spec.first_stop no_scope (spec.import_points (contracts_of deployed.now) (option_map own_of own.now) [] program.now.imports.items)) }
{
    imports_stop(
        alloc,
        deployed.contracts.as_slice(),
        own,
        program.imports.as_slice(),
    )
}

/// The closure of a program's imports beside deployed contracts.
fn imports_closure<'a>(
    alloc: Global,
    program: &Program,
    deployed: &'a Deployed,
) -> Result<Vec<&'a Installed>, AllocError>
    ensures { IfOk result (λ found. map (λ c. entry_of c.now) found.items ≡ closed (contracts_of deployed.now) (all_imported_by program.now.imports.items)) }
{
    let ids = all_imported(alloc, program.imports.as_slice())?;
    closure(alloc, deployed.contracts.as_slice(), ids.as_slice())
}

/// The same for a program whose imports are right.
fn build_beside(
    alloc: Global,
    program: &Program,
    place: Option<Address>,
    deployed: &Deployed,
    own: Option<Own<'_>>,
) -> Result<Result<Tables, Stop>, AllocError>
    requires own { option_map own_of own ≡ own_of_program place (program_of program.now) }
    requires imports { spec.first_stop no_scope (spec.import_points (contracts_of deployed.now) (option_map own_of own) [] program.now.imports.items) ≡ None }
    ensures { IfOk result (λ made. outcome_of made ≡ spec.build (contracts_of deployed.now) place (program_of program.now)) }
{
    let imports = imports_closure(alloc, program, deployed)?;
    let known = look_up(alloc, imports, own, program)?;
    build_within(alloc, program, place, &known)
}

/// The same by what the program's names are looked up in.
fn build_within(
    alloc: Global,
    program: &Program,
    place: Option<Address>,
    known: &Known<'_>,
) -> Result<Result<Tables, Stop>, AllocError>
    requires imported { known.now.imported ≡ all_imported_by program.now.imports.items }
    ensures { IfOk result (λ made. outcome_of made ≡ built_by place (program_of program.now) (spec.setting_in (imports_of known.now) (option_map own_of known.now.own) (known_scope known.now))) }
{
    let within = scope(known);
    let links = parent_links(alloc, within, known.imports.as_slice(), &known.own)?;
    let stop = declarations_stop(alloc, within, &links, place.is_some(), &known.own, program)?;
    match stop {
        Some(stop) => Ok(Err(stop)),
        None => Ok(Ok(made_tables(alloc, place, program, known, &links)?)),
    }
}
