// The shape of a declared type.
ghost use Rattle.std.specs.Prelude.{◌≡◌, ◌++◌, IfOk, OnOk, map, option_map, option_to_list};
ghost use Rattle.std.specs.Option.{unwrap_or};
ghost use Rattle.cad_declarations.specs.Kinds.{field_type};
ghost use Rattle.cad_declarations.specs.Views.{form_of, type_entry_of};
ghost use Rattle.cad_shapes.specs.Views.{pure_field, pure_shape};
ghost use Rattle.cad_syntax.specs.declared.kind.Kind.TheVariants as kinds;
ghost use Rattle.cad_world.specs.Shapes as spec;

use cad_declarations::{MemberKind, TypeDeclaration};
use cad_shapes::{Shape, ShapeField};
use cad_syntax::{Basic, CadType, Kind, Name, Text};
use std::alloc::{AllocError, Global};

/// The name of the one field of a case of an enum.
fn raw_name(alloc: Global) -> Result<Name, AllocError>
    ensures { IfOk result (λ name. name ≡ spec.raw_name) }
{
    Ok(Name(Text::from_str(alloc, "rawValue")?))
}

/// Appends a member that is a field.
fn push_field(
    fields: &mut Vec<ShapeField>,
    name: &Name,
    kind: &MemberKind,
) -> Result<(), AllocError>
    ensures { OnOk result (map pure_field fields.new.items ≡ map pure_field fields.old.items ++ option_to_list (option_map (λ type. record { name = name.now; is = type }) (field_type (form_of kind.now)))) }
{
    match kind {
        MemberKind::Field { declared, .. } => {
            let field = ShapeField {
                name: name.clone()?,
                is: declared.clone()?,
            };
            fields.push(field)?;
            Ok(())
        }
        MemberKind::Function { .. } => Ok(()),
    }
}

/// Appends the raw value of an enum.
fn push_raw(
    alloc: Global,
    fields: &mut Vec<ShapeField>,
    raw: Option<Kind>,
) -> Result<(), AllocError>
    ensures { OnOk result (map pure_field fields.new.items ≡ map pure_field fields.old.items ++ map spec.raw_field (option_to_list raw)) }
{
    match raw {
        Some(kind) => {
            let field = ShapeField {
                name: raw_name(alloc)?,
                is: CadType::Basic(Basic::Number(kind)),
            };
            fields.push(field)?;
            Ok(())
        }
        None => Ok(()),
    }
}

/// The fields of a declared type, in order.
#[tactic(auto, using(crate::proofs::Fields::one_more))]
fn fields_of(alloc: Global, t: &TypeDeclaration) -> Result<Vec<ShapeField>, AllocError>
    ensures { IfOk result (λ fields. map pure_field fields.items ≡ (spec.shape_of_entry (type_entry_of t.now)).fields) }
{
    let mut fields = Vec::new(alloc);
    for member in t.members.iter() {
        push_field(&mut fields, &member.name, &member.kind)?;
    }
    push_raw(alloc, &mut fields, t.raw)?;
    Ok(fields)
}

/// The kind of the numbers of cases.
fn raw_kind(raw: Option<Kind>) -> Kind
    ensures { result ≡ unwrap_or raw kinds.Int }
{
    match raw {
        Some(kind) => kind,
        None => Kind::Int,
    }
}

/// The shape of a declared type.
pub(crate) fn shape_of(alloc: Global, t: &TypeDeclaration) -> Result<Shape, AllocError>
    ensures { IfOk result (λ shape. pure_shape shape ≡ spec.shape_of_entry (type_entry_of t.now)) }
{
    Ok(Shape {
        id: t.id.clone()?,
        sort: t.sort,
        fields: fields_of(alloc, t)?,
        interfaces: t.interfaces.clone()?,
        raw: raw_kind(t.raw),
        cases: t.cases.len() as u64,
    })
}
