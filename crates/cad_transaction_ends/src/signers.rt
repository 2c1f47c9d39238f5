// The signers of a transaction: references to their accounts.
ghost use Rattle.std.specs.Prelude.{◌≡◌, IfOk, OnOk, map};
ghost use Rattle.cad_declarations.specs.Views.{variable_of};
ghost use Rattle.cad_evaluation.specs.Accounts.{account_reference};
ghost use Rattle.cad_outcomes.specs.Outcomes.{no_value};
ghost use Rattle.cad_rows.specs.Views.{pure_row, pure_tree};
ghost use Rattle.cad_runs.specs.Run as spec;
ghost use Rattle.cad_state.specs.Views.{CarriesOut};
ghost use Rattle.cad_syntax.specs.Types.{pure_type, reference};
ghost use Rattle.cad_world.specs.Rows as rows;

use cad_declarations::Variable;
use cad_operators::{nil_tree, plain_tree};
use cad_outcomes::Stop;
use cad_rows::{Place, Tree, add_last};
use cad_state::RunState;
use cad_syntax::{Address, Authorization, CadType};
use cad_values::{Reference, Target, Value};
use std::alloc::{AllocError, Global};

/// A reference to an account.
fn reference_to(
    alloc: Global,
    authorization: &Authorization,
    target: &CadType,
    address: Address,
) -> Result<Tree, AllocError>
    ensures { IfOk result (λ t. pure_tree t ≡ account_reference (reference authorization.now (pure_type target.now)) address) }
{
    let reference = Reference {
        authorization: authorization.clone()?,
        target: target.clone()?,
        to: Target::Account(address),
    };
    Ok(plain_tree(alloc, Value::Reference(reference)))
}

/// A reference to an account with the rights of a type; nil where the type is no reference.
fn signer(alloc: Global, declared: &CadType, address: Address) -> Result<Tree, AllocError>
    ensures { IfOk result (λ t. pure_tree t ≡ account_reference (pure_type declared.now) address) }
{
    match declared {
        CadType::Reference(authorization, target) => {
            reference_to(alloc, authorization, target.as_ref(), address)
        }
        _ => Ok(nil_tree(alloc)),
    }
}

/// A reference to the account of a signer comes to the end of a row. Where memory fails, it is let go.
fn add_signer(row: &mut Vec<Place>, declared: &CadType, address: &Address) -> Result<(), AllocError>
    ensures { OnOk result (pure_row row.new.items ≡ rows.add_last (account_reference (pure_type declared.now) address.now) (pure_row row.old.items)) }
{
    let tree = signer(*row.allocator(), declared, *address)?;
    add_last(row, tree)
}

/// A reference to the account of each signer comes to the end of a row, with the rights of its parameter.
#[tactic(auto, using(crate::proofs::Signing::turn, crate::proofs::Signing::end))]
fn add_signers(
    row: &mut Vec<Place>,
    parameters: &[Variable],
    signers: &[Address],
) -> Result<(), AllocError>
    ensures { OnOk result (pure_row row.new.items ≡ rows.join (pure_row row.old.items) (spec.signer_row (map variable_of parameters.now) signers.now)) }
{
    for i in 0..parameters.len().min(signers.len()) {
        add_signer(row, &parameters[i].declared, &signers[i])?;
    }
    Ok(())
}

/// The signers become variables, behind those that are there.
#[tactic(auto, using(cad_state::proofs::Frames::variables_written, cad_state::proofs::Frames::no_variables))]
pub fn with_signers(
    parameters: &[Variable],
    signers: &[Address],
    state: &mut RunState,
) -> Result<(), Stop>
    ensures { CarriesOut no_value (spec.with_signers (spec.signer_row (map variable_of parameters.now) signers.now)) state.old state.new result }
{
    let n = state.calls.len();
    if n == 0 {
        return Ok(());
    }
    match add_signers(&mut state.calls[n - 1].variables, parameters, signers) {
        Ok(()) => Ok(()),
        Err(_) => Err(Stop::Memory),
    }
}
