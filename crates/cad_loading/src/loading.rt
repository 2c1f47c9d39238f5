// What the codes of contracts are that are kept.
ghost use Rattle.std.specs.Prelude.{◌≡◌, IfOk, option_map};
ghost use Rattle.cad_declarations.specs.Views.{tables_of};
ghost use Rattle.cad_loading.specs.Slots.{Standing, if_fit, is_fit, is_id};
ghost use Rattle.cad_loads.specs.Views.{source_of};
ghost use Rattle.cad_state.specs.Views.{program_of};
ghost use Rattle.cad_tables.specs.Views.{contracts_of};

use cad_check::{check_text, no_stop_of_accepted, one_acceptance};
use cad_declarations::{Checked, Deployed, Tables};
use cad_discards::discard_checked;
use cad_loads::Source;
use cad_syntax::TypeId;
use std::alloc::{AllocError, Global};

/// Whether tables are those of the contract with this identifier.
fn is_contract(id: &TypeId, tables: &Tables) -> bool
    ensures { result ≡ is_id (tables_of tables.now).contract id.now }
{
    match &tables.contract {
        Some(own) => own.same(id),
        None => false,
    }
}

/// A program, where it is the contract with this identifier.
fn fitting(id: &TypeId, checked: Checked) -> Option<Checked>
    ensures { option_map program_of result ≡ if_fit (is_fit id.now (program_of checked)) (program_of checked) }
{
    if is_contract(id, &checked.tables) {
        Some(checked)
    } else {
        discard_checked(checked);
        None
    }
}

/// The program as which a source stands beside contracts; None where it doesn't.
pub(crate) fn standing_program(
    alloc: Global,
    source: &Source,
    deployed: &Deployed,
) -> Result<Option<Checked>, AllocError>
    ensures { IfOk result (λ found. Standing (contracts_of deployed.now) (source_of source.now) (option_map program_of found)) }
{
    one_acceptance();
    no_stop_of_accepted();
    match check_text(
        alloc,
        source.code.as_slice(),
        Some(source.id.address),
        deployed,
    ) {
        Ok(Ok(checked)) => Ok(fitting(&source.id, checked)),
        Ok(Err(rejected)) => {
            drop(rejected);
            Ok(None)
        }
        Err(error) => Err(error),
    }
}
