// Whether one member meets one of an interface.
ghost use Rattle.std.specs.Prelude.{◌≡◌, ◌↔◌, IsTrue, true, map};
ghost use Rattle.cad_types.specs.Views.{declarations};
ghost use Rattle.cad_declarations.specs.Meets as spec;
ghost use Rattle.cad_declarations.specs.Views.{form_of, member_of, parameter_of, signature_of};

use cad_declarations::{Member, MemberAccess, MemberKind, Parameter, Signature};
use cad_grammar::VariableKind;
use cad_syntax::Name;
use cad_types::{DeclaredTypes, is_subtype};

/// Whether a member of a type meets a member of an interface.
pub(crate) fn member_meets(types: &DeclaredTypes, own: &Member, asked: &Member) -> bool
    ensures { IsTrue result ↔ spec.MemberMeets (declarations types.now) (member_of own.now) (member_of asked.now) }
{
    is_same_access(&own.access, &asked.access) && form_meets(types, &own.kind, &asked.kind)
}

fn is_same_access(a: &MemberAccess, b: &MemberAccess) -> bool
    ensures { IsTrue result ↔ (a.now ≡ b.now) }
{
    match a {
        MemberAccess::All => matches!(b, MemberAccess::All),
        MemberAccess::Own => matches!(b, MemberAccess::Own),
        MemberAccess::Contract => matches!(b, MemberAccess::Contract),
        MemberAccess::Account => matches!(b, MemberAccess::Account),
        MemberAccess::Entitled(x) => match b {
            MemberAccess::Entitled(y) => x.same(y),
            _ => false,
        },
        MemberAccess::Mapped(x) => match b {
            MemberAccess::Mapped(y) => x.same(y),
            _ => false,
        },
    }
}

fn form_meets(types: &DeclaredTypes, own: &MemberKind, asked: &MemberKind) -> bool
    ensures { IsTrue result ↔ spec.FormMeets (declarations types.now) (form_of own.now) (form_of asked.now) }
{
    match own {
        MemberKind::Field { kind, declared } => match asked {
            MemberKind::Field {
                kind: asked_kind,
                declared: asked_type,
            } => kind_meets(*kind, *asked_kind) && declared.same(asked_type),
            MemberKind::Function { .. } => false,
        },
        MemberKind::Function { signature, .. } => match asked {
            MemberKind::Field { .. } => false,
            MemberKind::Function {
                signature: asked_signature,
                ..
            } => signature_meets(types, signature, asked_signature),
        },
    }
}

/// Whether a field is `let` or `var` as the interface's is, where that is one of them.
fn kind_meets(own: Option<VariableKind>, asked: Option<VariableKind>) -> bool
    ensures { IsTrue result ↔ spec.KindMeets own asked }
{
    match asked {
        None => true,
        Some(kind) => match own {
            None => false,
            Some(own) => own == kind,
        },
    }
}

fn signature_meets(types: &DeclaredTypes, own: &Signature, asked: &Signature) -> bool
    ensures { IsTrue result ↔ spec.SignatureMeets (declarations types.now) (signature_of own.now) (signature_of asked.now) }
{
    are_same_parameters(own.parameters.as_slice(), asked.parameters.as_slice())
        && is_subtype(types, &own.result, &asked.result)
        && is_view_enough(own.is_view, asked.is_view)
}

fn is_view_enough(own: bool, asked: bool) -> bool
    ensures { IsTrue result ↔ (asked ≡ true → own ≡ true) }
{
    own || !asked
}

/// Whether parameters have the same labels and types.
fn are_same_parameters(own: &[Parameter], asked: &[Parameter]) -> bool
    ensures { IsTrue result ↔ spec.SameParameters (map parameter_of own.now) (map parameter_of asked.now) }
{
    let mut a = own;
    let mut b = asked;
    while let [p, ps @ ..] = a {
        let [q, qs @ ..] = b else {
            return false;
        };
        if !is_same_parameter(p, q) {
            return false;
        }
        a = ps;
        b = qs;
    }
    b.is_empty()
}

fn is_same_parameter(a: &Parameter, b: &Parameter) -> bool
    ensures { IsTrue result ↔ ((a.now.label ≡ b.now.label) × ((parameter_of a.now).type ≡ (parameter_of b.now).type)) }
{
    is_same_label(&a.label, &b.label) && a.declared.same(&b.declared)
}

fn is_same_label(a: &Option<Name>, b: &Option<Name>) -> bool
    ensures { IsTrue result ↔ (a.now ≡ b.now) }
{
    match a {
        None => match b {
            None => true,
            Some(_) => false,
        },
        Some(x) => match b {
            None => false,
            Some(y) => x == y,
        },
    }
}
