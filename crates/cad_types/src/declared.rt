// Declared types.
ghost use Rattle.std.specs.Prelude.{◌≡◌, ◌↔◌, IsTrue, map, option_map};
ghost use Rattle.std.specs.List.{list_all};
ghost use Rattle.cad_syntax.specs.TypeIds.{has};
ghost use Rattle.cad_syntax.specs.Types.{pure_type};
ghost use Rattle.cad_types.specs.Declarations as spec;
ghost use Rattle.cad_types.specs.Code.Declarations as tests;

use cad_syntax::{TypeId, TypeIds, Types, contains};

/// What a declared type is.
#[derive(Clone, Copy, Debug, PartialEq, Eq)]
pub enum Sort {
    Contract,
    Struct,
    Resource,
    Enum,
    Event,
    StructInterface,
    ResourceInterface,
}

/// A declared type: what it is, the types of its fields in order, and the interfaces that it has by linearisation. An
/// interface may stand in its own list or not.
#[derive(Debug, Drop)]
pub struct Declared {
    pub id: TypeId,
    pub sort: Sort,
    pub fields: Types,
    pub interfaces: TypeIds,
}

/// The first declaration of an identifier.
pub(crate) fn find<'a>(declared: &'a [Declared], id: &TypeId) -> Option<&'a Declared>
    ensures { option_map (λ d. spec.declaration_of d.now) result ≡ spec.found (map spec.declaration_of declared.now) id.now }
{
    for d in declared {
        if d.id.same(id) {
            return Some(d);
        }
    }
    None
}

/// The interfaces that a declared type has.
pub(crate) fn interfaces<'a>(declared: &'a [Declared], id: &TypeId) -> &'a [TypeId]
    ensures { result.now ≡ spec.interfaces_of (map spec.declaration_of declared.now) id.now }
{
    match find(declared, id) {
        Some(d) => d.interfaces.as_slice(),
        None => &[],
    }
}

/// Whether the interfaces of an interface that a type has are its own too.
pub fn is_closed(declared: &[Declared]) -> bool
    ensures { IsTrue result ↔ spec.IsClosed (map spec.declaration_of declared.now) }
{
    all_closed(declared)
}

fn all_closed(declared: &[Declared]) -> bool
    ensures { result ≡ tests.all_closed (map spec.declaration_of declared.now) }
{
    for d in declared {
        if !closed_at(declared, &d.id) {
            return false;
        }
    }
    true
}

fn closed_at(declared: &[Declared], id: &TypeId) -> bool
    ensures { result ≡ tests.closed_at (map spec.declaration_of declared.now) id.now }
{
    let own = interfaces(declared, id);
    own.iter().all(|j| includes(own, interfaces(declared, j)))
}

/// Whether each of these identifiers is one of the interfaces.
pub(crate) fn includes(interfaces: &[TypeId], ids: &[TypeId]) -> bool
    ensures { result ≡ list_all (has interfaces.now) ids.now }
{
    ids.iter().all(|id| contains(interfaces, id))
}
