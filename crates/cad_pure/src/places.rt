// What a view function may assign to.
ghost use Rattle.std.specs.Prelude.{◌≡◌};
ghost use Rattle.cad_syntax.specs.Types.{pure_type};
ghost use Rattle.cad_declarations.specs.Views.{place_of, tables_of};
ghost use Rattle.cad_paths.specs.Purity as spec;
ghost use Rattle.cad_pure.specs.Views.{view_of};

use crate::tables::{is_resource, sort_in};
use cad_declarations::{Place, Tables};
use cad_moves::is_self;
use cad_syntax::CadType;
use cad_types::Sort;

/// The body of a view function: its own variables have the numbers from `own_from` on, and in an initializer the fields of
/// `self` are its own.
#[derive(Clone, Copy)]
pub(crate) struct ViewBody<'a> {
    pub(crate) tables: &'a Tables,
    pub(crate) own_from: u64,
    pub(crate) is_initializer: bool,
}

fn is_struct(sort: Option<Sort>) -> bool
    ensures { result ≡ spec.is_struct sort }
{
    match sort {
        Some(Sort::Struct) => true,
        _ => false,
    }
}

/// Whether a type is a struct, an array or a dictionary, and no resource type.
fn is_plain(tables: &Tables, t: &CadType) -> bool
    ensures { result ≡ spec.is_plain (tables_of tables.now) (pure_type t.now) }
{
    match t {
        CadType::Declared(id) => is_struct(sort_in(tables, id)),
        CadType::Array(part) | CadType::Dictionary(_, part) => !is_resource(tables, part),
        _ => false,
    }
}

/// Whether a place is an own variable, or stands in one, each part before the last being plain.
fn is_own_place(view: ViewBody<'_>, place: &Place) -> bool
    ensures { result ≡ spec.is_own_place (view_of view.entry) (place_of place.now) }
{
    match place {
        Place::Variable(number) => view.own_from <= u64::from(*number),
        Place::Field { base, of, .. } | Place::Element { base, of, .. } => {
            is_plain(view.tables, of) && is_own_place(view, base)
        }
        Place::Self_ | Place::Contract(_) | Place::Target(_) | Place::Content { .. } => false,
    }
}

/// Whether a place is an own variable.
pub(crate) fn is_own_variable(view: ViewBody<'_>, place: &Place) -> bool
    ensures { result ≡ spec.is_own_variable (view_of view.entry) (place_of place.now) }
{
    match place {
        Place::Variable(number) => view.own_from <= u64::from(*number),
        Place::Self_
        | Place::Contract(_)
        | Place::Target(_)
        | Place::Field { .. }
        | Place::Element { .. }
        | Place::Content { .. } => false,
    }
}

/// Whether a place is a field of what a view initializer makes.
fn is_own_field(view: ViewBody<'_>, place: &Place) -> bool
    ensures { result ≡ spec.is_own_field (view_of view.entry) (place_of place.now) }
{
    match place {
        Place::Field { base, .. } => view.is_initializer && is_self(base),
        Place::Variable(_)
        | Place::Self_
        | Place::Contract(_)
        | Place::Target(_)
        | Place::Element { .. }
        | Place::Content { .. } => false,
    }
}

/// Whether `=` may assign to a place of this type.
pub(crate) fn may_assign(view: ViewBody<'_>, place: &Place, t: &CadType) -> bool
    ensures { result ≡ spec.may_assign (view_of view.entry) (place_of place.now) (pure_type t.now) }
{
    if is_own_variable(view, place) {
        return true;
    }
    if is_resource(view.tables, t) {
        return false;
    }
    is_own_place(view, place) || is_own_field(view, place)
}
