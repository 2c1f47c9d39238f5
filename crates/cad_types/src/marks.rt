// Judging declared types for the classes.
ghost use Rattle.std.specs.Prelude.{◌≡◌, ◌↔◌, IsTrue, IfOk, map, length};
ghost use Rattle.std.specs.List.{list_all};
ghost use Rattle.cad_syntax.specs.Types.{pure_type};
ghost use Rattle.cad_types.specs.Classes as class;
ghost use Rattle.cad_types.specs.Declarations.{declaration_of};
ghost use Rattle.cad_types.specs.Code.Judged as spec;
ghost use Rattle.cad_types.specs.Code.Views.{listed};

use crate::declared::{Declared, Sort};
use crate::settle::settle;
use crate::table::TypeTable;
use cad_syntax::{Basic, CadType, TypeId};
use std::alloc::{AllocError, Global};

/// Whether a declared type is storable, importable, and, for a resource or an event, exportable.
#[derive(Clone, Copy, Debug, PartialEq, Eq)]
pub struct Marks {
    pub storable: bool,
    pub importable: bool,
    pub carried: bool,
}

/// The marks of declarations: each has all at first, and loses those that its fields don't allow, until none is lost.
pub fn judge(alloc: Global, table: &TypeTable) -> Result<Vec<Marks>, AllocError>
    ensures { IfOk result (λ marks. spec.IsJudged (listed table.now) marks.items) }
{
    let mut marks = first_marks(alloc, table)?;
    settle(alloc, table, &mut marks)?;
    loop {
        let next = refined(alloc, table, marks.as_slice())?;
        if same_marks(next.as_slice(), marks.as_slice()) {
            return Ok(marks);
        }
        marks = next;
    }
}

/// All marks for each declaration.
fn first_marks(alloc: Global, table: &TypeTable) -> Result<Vec<Marks>, AllocError>
    ensures { IfOk result (λ marks. spec.IsAtLeast (listed table.now) marks.items) }
{
    let all = Marks {
        storable: true,
        importable: true,
        carried: true,
    };
    all_marked(alloc, all, table.declared())
}

/// The same marks for each declaration.
fn all_marked(alloc: Global, marks: Marks, declared: &[Declared]) -> Result<Vec<Marks>, AllocError>
    ensures { IfOk result (λ all. all.items ≡ map (λ d. marks) declared.now) }
{
    let mut all = Vec::new(alloc);
    for _declared in declared {
        all.push(marks)?;
    }
    Ok(all)
}

fn same_marks(a: &[Marks], b: &[Marks]) -> bool
    ensures { IsTrue result ↔ (a.now ≡ b.now) }
{
    a == b
}

/// One turn of judging.
fn refined(alloc: Global, table: &TypeTable, marks: &[Marks]) -> Result<Vec<Marks>, AllocError>
    ensures { IfOk result (λ next. next.items ≡ spec.refined (listed table.now) marks.now) }
{
    let mut next = Vec::new(alloc);
    let declared = table.declared();
    for (i, d) in declared.iter().enumerate() {
        match marks.get(i) {
            Some(m) => next.push(kept(table, marks, d, *m))?,
            None => return Ok(next),
        }
    }
    Ok(next)
}

/// The marks that a declaration keeps.
pub(crate) fn kept(table: &TypeTable, marks: &[Marks], d: &Declared, m: Marks) -> Marks
    ensures { result ≡ spec.kept (listed table.now) marks.now (declaration_of d.now) m }
{
    let storable = m.storable && are_storable(table, marks, d.fields.as_slice());
    let importable = m.importable && is_importable_data(table, marks, d);
    let carried = m.carried && is_exportable_carried(table, marks, d);
    Marks {
        storable,
        importable,
        carried,
    }
}

fn is_importable_data(table: &TypeTable, marks: &[Marks], d: &Declared) -> bool
    ensures { result ≡ spec.is_importable_data (listed table.now) marks.now (declaration_of d.now) }
{
    is_data_sort(d.sort) && are_importable(table, marks, d.fields.as_slice())
}

fn is_exportable_carried(table: &TypeTable, marks: &[Marks], d: &Declared) -> bool
    ensures { result ≡ spec.is_exportable_carried (listed table.now) marks.now (declaration_of d.now) }
{
    is_carried_sort(d.sort) && are_exportable(table, marks, d.fields.as_slice())
}

fn is_data_sort(sort: Sort) -> bool
    ensures { result ≡ class.is_data_sort sort }
{
    matches!(sort, Sort::Struct | Sort::Enum)
}

fn is_carried_sort(sort: Sort) -> bool
    ensures { result ≡ class.is_carried_sort sort }
{
    matches!(sort, Sort::Resource | Sort::Event)
}

fn are_storable(table: &TypeTable, marks: &[Marks], types: &[CadType]) -> bool
    ensures { result ≡ list_all (spec.storable_by (listed table.now) marks.now) (map pure_type types.now) }
{
    for t in types {
        if !is_storable_by(table, marks, t) {
            return false;
        }
    }
    true
}

fn are_importable(table: &TypeTable, marks: &[Marks], types: &[CadType]) -> bool
    ensures { result ≡ list_all (spec.importable_by (listed table.now) marks.now) (map pure_type types.now) }
{
    for t in types {
        if !is_importable_by(table, marks, t) {
            return false;
        }
    }
    true
}

fn are_exportable(table: &TypeTable, marks: &[Marks], types: &[CadType]) -> bool
    ensures { result ≡ list_all (spec.exportable_by (listed table.now) marks.now) (map pure_type types.now) }
{
    for t in types {
        if !is_exportable_by(table, marks, t) {
            return false;
        }
    }
    true
}

/// The marks of the first declaration of an identifier.
fn marked(table: &TypeTable, marks: &[Marks], id: &TypeId) -> Marks
    ensures { result ≡ spec.marked (listed table.now) marks.now id.now }
{
    match table.place(id) {
        Some(place) => marks_at(marks, place),
        None => unmarked(),
    }
}

/// The marks at a place.
fn marks_at(marks: &[Marks], place: usize) -> Marks
    ensures { result ≡ spec.marks_at marks.now place }
{
    match marks.get(place) {
        Some(m) => *m,
        None => unmarked(),
    }
}

/// The marks of what isn't declared.
fn unmarked() -> Marks
    ensures { result ≡ spec.unmarked }
{
    Marks {
        storable: true,
        importable: false,
        carried: false,
    }
}

pub(crate) fn is_storable_by(table: &TypeTable, marks: &[Marks], t: &CadType) -> bool
    ensures { result ≡ spec.storable_by (listed table.now) marks.now (pure_type t.now) }
{
    match t {
        CadType::Basic(basic) => is_storable_basic(*basic),
        CadType::Optional(part) | CadType::Array(part) => is_storable_by(table, marks, part),
        CadType::Dictionary(key, value) => {
            is_storable_by(table, marks, key) && is_storable_by(table, marks, value)
        }
        CadType::Intersection(_) | CadType::Capability | CadType::CapabilityOf(_) => true,
        CadType::Declared(id) => marked(table, marks, id).storable,
        CadType::Reference(_, _) => false,
    }
}

fn is_storable_basic(basic: Basic) -> bool
    ensures { result ≡ class.is_storable_basic basic }
{
    !matches!(
        basic,
        Basic::Void
            | Basic::Account
            | Basic::AccountStorage
            | Basic::AccountContracts
            | Basic::AccountCapabilities
            | Basic::AccountStorageCapabilities
            | Basic::StorageCapabilityController
    )
}

pub(crate) fn is_importable_by(table: &TypeTable, marks: &[Marks], t: &CadType) -> bool
    ensures { result ≡ spec.importable_by (listed table.now) marks.now (pure_type t.now) }
{
    match t {
        CadType::Basic(basic) => is_importable_basic(*basic),
        CadType::Optional(part) | CadType::Array(part) => is_importable_by(table, marks, part),
        CadType::Dictionary(key, value) => {
            is_importable_by(table, marks, key) && is_importable_by(table, marks, value)
        }
        CadType::Declared(id) => marked(table, marks, id).importable,
        _ => false,
    }
}

fn is_importable_basic(basic: Basic) -> bool
    ensures { result ≡ class.is_importable_basic basic }
{
    match basic {
        Basic::Number(_)
        | Basic::Bool
        | Basic::Character
        | Basic::String
        | Basic::Path
        | Basic::StoragePath
        | Basic::PublicPath
        | Basic::AnyStruct => true,
        _ => false,
    }
}

pub(crate) fn is_exportable_by(table: &TypeTable, marks: &[Marks], t: &CadType) -> bool
    ensures { result ≡ spec.exportable_by (listed table.now) marks.now (pure_type t.now) }
{
    is_importable_by(table, marks, t) || is_void(t) || is_carried_by(table, marks, t)
}

fn is_void(t: &CadType) -> bool
    ensures { result ≡ class.is_void (pure_type t.now) }
{
    match t {
        CadType::Basic(basic) => matches!(basic, Basic::Void),
        _ => false,
    }
}

fn is_carried_by(table: &TypeTable, marks: &[Marks], t: &CadType) -> bool
    ensures { result ≡ spec.carried_by (listed table.now) marks.now (pure_type t.now) }
{
    match t {
        CadType::Declared(id) => marked(table, marks, id).carried,
        _ => false,
    }
}
