// The declared types that an order of types is judged by.
ghost use Rattle.std.specs.Prelude.{◌≡◌};
ghost use Rattle.cad_types.specs.Declarations.{IsClosed};
ghost use Rattle.cad_types.specs.Code.Views.{listed};
ghost use Rattle.cad_types.specs.Declarations as spec;
ghost use Rattle.cad_types.specs.Code.Judged.{IsJudged};

use crate::declared::{Declared, Sort};
use crate::marks::{Marks, is_exportable_by, is_importable_by, is_storable_by, judge};
use crate::table::TypeTable;
use cad_syntax::{CadType, TypeId};
use std::alloc::{AllocError, Global};

/// Declared types, judged for the classes. The interfaces of an interface that a type has are its own too.
#[derive(Debug, Drop)]
pub struct DeclaredTypes {
    table: TypeTable,
    marks: Vec<Marks>,
    ghost closed: { IsClosed (listed table) },
    ghost judged: { IsJudged (listed table) marks.items },
}

impl DeclaredTypes {
    ghost use Rattle.std.specs.Prelude.{◌≡◌, ◌↔◌, map, option_map, IsTrue, IfOk, IfSome, Some, true};
    ghost use Rattle.cad_syntax.specs.Types.{pure_type};
    ghost use Rattle.cad_types.specs.Classes.{Storable, Importable, Exportable};
    ghost use Rattle.cad_types.specs.Declarations.{IsClosed, declaration_of, found, interfaces_of, is_resource_id};
    ghost use Rattle.cad_types.specs.Views.{declarations};

    /// The types of these declarations.
    pub fn new(alloc: Global, declared: Vec<Declared>) -> Result<DeclaredTypes, AllocError>
        requires closed { IsClosed (map declaration_of declared.items) }
        ensures { IfOk result (λ declared_types. declarations declared_types ≡ map declaration_of declared.items) }
    {
        let table = TypeTable::new(alloc, declared)?;
        let marks = judge(alloc, &table)?;
        Ok(DeclaredTypes { table, marks })
    }

    /// The declarations.
    pub fn declared(&self) -> &[Declared]
        ensures { map declaration_of result.now ≡ declarations self.now }
    {
        self.table.declared()
    }

    /// The first declaration of an identifier.
    pub fn find(&self, id: &TypeId) -> Option<&Declared>
        ensures { option_map (λ d. declaration_of d.now) result ≡ found (declarations self.now) id.now }
    {
        self.table.find(id)
    }

    /// The interfaces that a declared type has.
    pub fn interfaces(&self, id: &TypeId) -> &[TypeId]
        ensures { result.now ≡ interfaces_of (declarations self.now) id.now }
    {
        match self.find(id) {
            Some(declared) => declared.interfaces.as_slice(),
            None => &[],
        }
    }

    /// Whether a type is storable.
    pub(crate) fn is_storable(&self, t: &CadType) -> bool
        ensures { IsTrue result ↔ Storable (declarations self.now) (pure_type t.now) }
    {
        is_storable_by(&self.table, self.marks.as_slice(), t)
    }

    /// Whether a type is importable.
    pub(crate) fn is_importable(&self, t: &CadType) -> bool
        ensures { IsTrue result ↔ Importable (declarations self.now) (pure_type t.now) }
    {
        is_importable_by(&self.table, self.marks.as_slice(), t)
    }

    /// Whether a type is exportable.
    pub(crate) fn is_exportable(&self, t: &CadType) -> bool
        ensures { IsTrue result ↔ Exportable (declarations self.now) (pure_type t.now) }
    {
        is_exportable_by(&self.table, self.marks.as_slice(), t)
    }

    /// Whether an identifier is that of a resource or of an interface of resources.
    pub fn is_resource(&self, id: &TypeId) -> bool
        ensures { result ≡ is_resource_id (declarations self.now) id.now }
    {
        match self.find(id) {
            Some(declared) => is_resource_sort(declared.sort),
            None => false,
        }
    }
}

fn is_resource_sort(sort: Sort) -> bool
    ensures { result ≡ spec.is_resource_sort sort }
{
    matches!(sort, Sort::Resource | Sort::ResourceInterface)
}
