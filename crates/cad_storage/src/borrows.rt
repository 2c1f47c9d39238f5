// `borrow`: a reference to what is stored.
ghost use Rattle.std.specs.Prelude.{◌≡◌, IfOk};
ghost use Rattle.cad_evaluation.specs.Storage as spec;
ghost use Rattle.cad_rows.specs.Views.{pure_row, pure_tree};
ghost use Rattle.cad_state.specs.Views.{FindsAndCarriesOut};
ghost use Rattle.cad_storage.specs.Code as code;
ghost use Rattle.cad_syntax.specs.Types.{pure_type};
ghost use Rattle.cad_values.specs.Values.{pure_value};
ghost use Rattle.cad_values.specs.Values as values;
ghost use Rattle.cad_values.specs.declared.value.Target.TheVariants as target;
ghost use Rattle.cad_world.specs.Trees.{wrapped};

use crate::arguments::identifier_at;
use crate::typed::is_there;
use crate::units::wrap;
use cad_operators::{nil_tree, plain_tree};
use cad_outcomes::Stop;
use cad_rows::{Place, Tree};
use cad_state::RunState;
use cad_syntax::{Address, Authorization, CadType, Name};
use cad_values::{Reference, Target, Value};
use std::alloc::{AllocError, Global};

/// A reference to what an account stores under an identifier, as a value.
fn reference_value(address: Address, path: Name, own: Authorization, borrowed: CadType) -> Value
    ensures { pure_value result ≡ values.reference own (pure_type borrowed) (target.Stored address path) }
{
    Value::Reference(Reference {
        authorization: own,
        target: borrowed,
        to: Target::Stored { address, path },
    })
}

/// A reference to what an account stores under an identifier, in an optional.
fn stored_reference(
    alloc: Global,
    address: Address,
    name: &Name,
    own: &Authorization,
    borrowed: &CadType,
) -> Result<Tree, AllocError>
    ensures { IfOk result (λ t. pure_tree t ≡ wrapped (spec.stored_reference address name.now own.now (pure_type borrowed.now))) }
{
    let path = name.clone()?;
    let authorization = own.clone()?;
    let target = borrowed.clone()?;
    wrap(plain_tree(alloc, reference_value(address, path, authorization, target)))
}

/// A reference to what an account stores under an identifier if that is of the type; nil where nothing is stored.
fn refer(
    state: &mut RunState,
    own: &Authorization,
    borrowed: &CadType,
    address: Address,
    name: &Name,
) -> Result<Tree, Stop>
    ensures { FindsAndCarriesOut pure_tree (code.at_stored (code.typed (pure_type borrowed.now) (code.referred address name.now own.now (pure_type borrowed.now))) address name.now) state.old state.new result }
{
    match is_there(state, borrowed, address, name) {
        Ok(true) => {
            match stored_reference(*state.making.allocator(), address, name, own, borrowed) {
                Ok(optional) => Ok(optional),
                Err(_) => Err(Stop::Memory),
            }
        }
        Ok(false) => Ok(nil_tree(*state.making.allocator())),
        Err(stop) => Err(stop),
    }
}

/// A reference of a type to what an account stores under an identifier; IllTyped where the type is of no reference.
fn borrow_at(
    state: &mut RunState,
    wanted: &CadType,
    address: Address,
    name: &Name,
) -> Result<Tree, Stop>
    ensures { FindsAndCarriesOut pure_tree (code.at_stored (spec.borrowed_as address name.now (pure_type wanted.now)) address name.now) state.old state.new result }
{
    match wanted {
        CadType::Reference(own, borrowed) => refer(state, own, borrowed, address, name),
        _ => Err(Stop::IllTyped),
    }
}

/// A reference of the type to what an account stores under the path that the argument is, in an optional; nil where nothing is stored.
/// StoredTypeMismatch where what is stored isn't of the type that is referred to, ReferenceInvalid where it is a reference to what is
/// gone, IllTyped where the type is of no reference, or the argument is no path into storage.
pub fn borrow(
    state: &mut RunState,
    wanted: &CadType,
    row: &[Place],
    address: Address,
) -> Result<Tree, Stop>
    ensures { FindsAndCarriesOut pure_tree (spec.borrow (pure_type wanted.now) (pure_row row.now) address) state.old state.new result }
{
    match identifier_at(row, 0) {
        Some(name) => borrow_at(state, wanted, address, name),
        None => Err(Stop::IllTyped),
    }
}
