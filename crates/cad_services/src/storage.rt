// Members of what an account stores.
ghost use Rattle.std.specs.Prelude.{◌≡◌, map, option_map};
ghost use Rattle.cad_rows.specs.Views.{pure_row, pure_tree};
ghost use Rattle.cad_services.specs.Code.Services as spec;
ghost use Rattle.cad_state.specs.Views.{FindsAndCarriesOut};
ghost use Rattle.cad_syntax.specs.Types.{pure_type};

use crate::groups::{StorageMember, StoredMember};
use crate::types::one_type;
use cad_outcomes::Stop;
use cad_rows::{Place, Tree, discard_row};
use cad_state::RunState;
use cad_storage::{borrow, check, copy, load, save, type_at};
use cad_syntax::{Address, CadType};

/// A member that asks for a type.
fn stored_member(
    state: &mut RunState,
    member: StoredMember,
    wanted: &CadType,
    row: &[Place],
    address: Address,
) -> Result<Tree, Stop>
    ensures { FindsAndCarriesOut pure_tree (spec.stored_member member (pure_type wanted.now) (pure_row row.now) address) state.old state.new result }
{
    match member {
        StoredMember::Load => load(state, wanted, row, address),
        StoredMember::Copy => copy(state, wanted, row, address),
        StoredMember::Borrow => borrow(state, wanted, row, address),
        StoredMember::Check => check(state, wanted, row, address),
    }
}

/// A member that asks for the one type argument.
fn typed_member(
    state: &mut RunState,
    member: StoredMember,
    types: &[CadType],
    row: &[Place],
    address: Address,
) -> Result<Tree, Stop>
    ensures { FindsAndCarriesOut pure_tree (spec.typed_stored member (map (λ t. pure_type t) types.now) (pure_row row.now) address) state.old state.new result }
{
    match one_type(types) {
        Some(wanted) => stored_member(state, member, wanted, row, address),
        None => Err(Stop::IllTyped),
    }
}

/// A member of the storage of an account.
pub(crate) fn storage_member(
    state: &mut RunState,
    member: StorageMember,
    types: &[CadType],
    row: Vec<Place>,
    address: Address,
) -> Result<Tree, Stop>
    ensures { FindsAndCarriesOut pure_tree (spec.storage_member member (map (λ t. pure_type t) types.now) (pure_row row.items) address) state.old state.new result }
{
    match member {
        StorageMember::Save => save(state, address, row),
        StorageMember::TypeOf => {
            let given = type_at(state, row.as_slice(), address);
            discard_row(row);
            given
        }
        StorageMember::Typed(of) => {
            let given = typed_member(state, of, types, row.as_slice(), address);
            discard_row(row);
            given
        }
    }
}
