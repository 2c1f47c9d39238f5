// What decides how a field is read.
ghost use Rattle.std.specs.Prelude.{◌≡◌, option_map, IfOk};
ghost use Rattle.cad_syntax.specs.Types.{pure_type};
ghost use Rattle.cad_declarations.specs.Views.{form_of};
ghost use Rattle.cad_evaluation.specs.Reading as spec;
ghost use Rattle.cad_rows.specs.Views.{pure_shape};
ghost use Rattle.cad_world.specs.Declared.{mapping_of};
ghost use Rattle.cad_access.specs.RunContracts.{run_of};

use crate::covered::is_covered;
use crate::mappings::{declared_mapping, identity, is_identity};
use cad_declarations::{MemberAccess, MemberKind};
use cad_rows::Shape;
use cad_state::RunState;
use cad_syntax::{Authorization, CadType, Name, TypeId};
use std::alloc::{AllocError, Global};

/// The composite that a node is, if it is one without optionals.
#[tactic(auto, using(crate::proofs::Composites::no_composite))]
pub fn composite_in(optionals: u64, shape: &Shape) -> Option<&TypeId>
    ensures { option_map (λ id. id.now) result ≡ spec.composite_in optionals (pure_shape shape.now) }
{
    if optionals != 0 {
        return None;
    }
    match shape {
        Shape::Composite { id, .. } => Some(id),
        _ => None,
    }
}

/// The names of a composite's fields, in order; none of what is no composite.
pub fn field_names(shape: &Shape) -> &[Name]
    ensures { result.now ≡ spec.field_names (pure_shape shape.now) }
{
    match shape {
        Shape::Composite { fields, .. } => fields.as_slice(),
        _ => &[],
    }
}

/// The type of a field; none of a function.
pub fn field_type(kind: &MemberKind) -> Option<&CadType>
    ensures { option_map (λ t. pure_type t.now) result ≡ spec.field_type (form_of kind.now) }
{
    match kind {
        MemberKind::Field { declared, .. } => Some(declared),
        MemberKind::Function { .. } => None,
    }
}

/// What a reference to a field may do, of which the program says that it has this right: unauthorized but for a mapped field.
pub fn right_given(
    access: &MemberAccess,
    right: &Authorization,
) -> Result<Authorization, AllocError>
    ensures { IfOk result (λ given. given ≡ spec.right_given access.now right.now) }
{
    match access {
        MemberAccess::Mapped(_) => right.clone(),
        _ => Ok(Authorization::Unauthorized),
    }
}

/// Whether a field with this access, met with these rights, may be read by a reference with this right: through a mapping it is
/// covered by what that makes of the reference's own authorization.
pub fn may_give(
    alloc: Global,
    state: &RunState,
    access: &MemberAccess,
    rights: Option<&Authorization>,
    right: &Authorization,
) -> bool
    ensures { result ≡ spec.may_give (run_of state.now) access.now (option_map (λ own. own.now) rights.entry) right.now }
{
    match access {
        MemberAccess::Mapped(id) => match rights {
            Some(own) => gives_mapped(alloc, state, id, own, right),
            None => true,
        },
        _ => true,
    }
}

/// Whether what a mapping makes of an authorization covers a right; a mapping that isn't declared gives nothing.
fn gives_mapped(
    alloc: Global,
    state: &RunState,
    id: &TypeId,
    own: &Authorization,
    right: &Authorization,
) -> bool
    ensures { result ≡ spec.is_covered (mapping_of (run_of state.now) id.now) own.now right.now }
{
    if is_identity(id) {
        let mapping = identity(alloc);
        return is_covered(&mapping, own, right);
    }
    match declared_mapping(state, id) {
        Some(mapping) => is_covered(mapping, own, right),
        None => false,
    }
}
