// The fields that types declare.
ghost use Rattle.std.specs.Prelude.{◌≡◌, ◌++◌, List, map, IfOk, OnOk};
ghost use Rattle.cad_declarations.specs.Views.{member_of};
ghost use Rattle.cad_evaluation.specs.Making as making;
ghost use Rattle.cad_state.specs.Views.{CarriesOut};
ghost use Rattle.cad_syntax.specs.declared.text.Name.{Name};
ghost use Rattle.cad_making.specs.Code.Fields.{declared_names as names_declared};

use cad_access::entry_of;
use cad_declarations::{Member, MemberKind};
use cad_outcomes::Stop;
use cad_state::RunState;
use cad_syntax::{Names, TypeId};
use std::alloc::{AllocError, Global};

/// Appends the name of a member, if it is a field.
fn push_field(names: &mut Names, member: &Member) -> Result<(), AllocError>
    ensures { OnOk result (names.new ≡ names.old ++ making.field_name (member_of member.now)) }
{
    match &member.kind {
        MemberKind::Field { .. } => names.push(member.name.clone()?),
        MemberKind::Function { .. } => Ok(()),
    }
}

/// The names of the fields among members, in order.
#[tactic(auto, using(crate::proofs::Names::one_more))]
pub fn names_of_fields(alloc: Global, members: &[Member]) -> Result<Names, AllocError>
    ensures { IfOk result (λ names. names ≡ making.field_names (map member_of members.now)) }
{
    let mut names = Names::new(alloc);
    for member in members {
        push_field(&mut names, member)?;
    }
    Ok(names)
}

/// The names of the fields that a type declares, in order; IllTyped where it isn't declared.
pub(crate) fn declared_names(state: &RunState, id: &TypeId) -> Result<Names, Stop>
    ensures { CarriesOut (λ (names : List Name). names) (names_declared id.now) state.now state.now result }
{
    match entry_of(state, id) {
        Some(entry) => match names_of_fields(*state.making.allocator(), entry.members.as_slice()) {
            Ok(names) => Ok(names),
            Err(_) => Err(Stop::Memory),
        },
        None => Err(Stop::IllTyped),
    }
}
