// Members of the capabilities of an account.
ghost use Rattle.std.specs.Prelude.{map};
ghost use Rattle.cad_rows.specs.Views.{pure_row, pure_tree};
ghost use Rattle.cad_services.specs.Code.Services as spec;
ghost use Rattle.cad_state.specs.Views.{FindsAndCarriesOut};
ghost use Rattle.cad_syntax.specs.Types.{pure_type};

use crate::groups::{CapabilitiesMember, LentMember};
use crate::types::one_type;
use cad_capabilities::{borrow_published, exists, get, get_controller, issue, publish, unpublish};
use cad_outcomes::Stop;
use cad_rows::{Place, Tree};
use cad_state::RunState;
use cad_syntax::{Address, CadType};

/// A member that asks for a type.
fn lent_member(
    state: &mut RunState,
    member: LentMember,
    wanted: &CadType,
    row: &[Place],
    address: Address,
) -> Result<Tree, Stop>
    ensures { FindsAndCarriesOut pure_tree (spec.lent_member member (pure_type wanted.now) (pure_row row.now) address) state.old state.new result }
{
    match member {
        LentMember::Get => get(state, wanted, row, address),
        LentMember::Borrow => borrow_published(state, wanted, row, address),
        LentMember::Issue => issue(state, wanted, row, address),
    }
}

/// A member that asks for the one type argument.
fn typed_member(
    state: &mut RunState,
    member: LentMember,
    types: &[CadType],
    row: &[Place],
    address: Address,
) -> Result<Tree, Stop>
    ensures { FindsAndCarriesOut pure_tree (spec.typed_lent member (map (λ t. pure_type t) types.now) (pure_row row.now) address) state.old state.new result }
{
    match one_type(types) {
        Some(wanted) => lent_member(state, member, wanted, row, address),
        None => Err(Stop::IllTyped),
    }
}

/// A member of the capabilities of an account, or of those of its storage.
pub(crate) fn capabilities_member(
    state: &mut RunState,
    member: CapabilitiesMember,
    types: &[CadType],
    row: &[Place],
    address: Address,
) -> Result<Tree, Stop>
    ensures { FindsAndCarriesOut pure_tree (spec.capabilities_member member (map (λ t. pure_type t) types.now) (pure_row row.now) address) state.old state.new result }
{
    match member {
        CapabilitiesMember::Exists => exists(state, row, address),
        CapabilitiesMember::Publish => publish(state, row, address),
        CapabilitiesMember::Unpublish => unpublish(state, row, address),
        CapabilitiesMember::GetController => get_controller(state, row, address),
        CapabilitiesMember::Typed(of) => typed_member(state, of, types, row, address),
    }
}
