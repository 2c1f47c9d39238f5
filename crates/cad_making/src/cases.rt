// Cases of enums.
ghost use Rattle.std.specs.Prelude.{◌≡◌, ◌∷◌, [], false, IfOk, Option, option_map, length};
ghost use Rattle.cad_declarations.specs.Views.{type_entry_of};
ghost use Rattle.cad_evaluation.specs.Making as spec;
ghost use Rattle.cad_evaluation.specs.Numbers as numbers;
ghost use Rattle.cad_num.specs.Numbers.{value_of};
ghost use Rattle.cad_outcomes.specs.Outcomes.{Gives};
ghost use Rattle.cad_rows.specs.Views.{pure_row, pure_tree};
ghost use Rattle.cad_state.specs.Views.{CarriesOut};
ghost use Rattle.cad_world.specs.Rows as rows;
ghost use Rattle.cad_world.specs.Shapes as shapes;
ghost use Rattle.cad_world.specs.State.{give, with_some};
ghost use Rattle.cad_world.specs.Trees as trees;
ghost use Rattle.cad_making.specs.Code.Cases.{case_by, case_from_integer, case_of_number, number_below};

use crate::making::composite;
use cad_access::entry_of;
use cad_declarations::TypeDeclaration;
use cad_operators::{integer_in, nil_tree, number_tree};
use cad_outcomes::Stop;
use cad_rows::{Place, Tree, add_last, discard_row, discard_tree};
use cad_state::RunState;
use cad_syntax::{Kind, Name, Names, Num, Text, TypeId};
use std::alloc::{AllocError, Global};

/// The names of the fields of a case.
fn raw_names(alloc: Global) -> Result<Names, AllocError>
    ensures { IfOk result (λ names. names ≡ shapes.raw_name ∷ []) }
{
    let mut names = Names::new(alloc);
    names.push(Name(Text::from_str(alloc, "rawValue")?))?;
    Ok(names)
}

/// The number of a kind that is this count, if it has one.
#[tactic(auto, using(crate::proofs::Numbered::made))]
fn number_of(kind: Kind, n: u64) -> Option<Num>
    ensures { result ≡ numbers.number_of kind false n }
{
    Num::new(kind, false, u128::from(n))
}

/// A row of one value. Where memory fails, that is let go.
fn row_of_one(alloc: Global, tree: Tree) -> Result<Vec<Place>, AllocError>
    ensures { IfOk result (λ row. pure_row row.items ≡ rows.alone (pure_tree tree)) }
{
    let mut row = Vec::new(alloc);
    match add_last(&mut row, tree) {
        Ok(()) => Ok(row),
        Err(error) => {
            discard_row(row);
            Err(error)
        }
    }
}

/// The case of an enum with this number in its field.
fn case_with(alloc: Global, id: &TypeId, x: Num) -> Result<Tree, AllocError>
    ensures { IfOk result (λ t. pure_tree t ≡ case_of_number id.now x) }
{
    let id = id.clone()?;
    let names = raw_names(alloc)?;
    let row = row_of_one(alloc, number_tree(alloc, x))?;
    Ok(composite(id, 0, names, row))
}

/// The case of an enum over numbers of a kind.
fn case_of_kind(alloc: Global, id: &TypeId, kind: Kind, n: u64) -> Result<Option<Tree>, AllocError>
    ensures { IfOk result (λ o. option_map pure_tree o ≡ option_map (case_of_number id.now) (numbers.number_of kind false n)) }
{
    match number_of(kind, n) {
        Some(x) => match case_with(alloc, id, x) {
            Ok(tree) => Ok(Some(tree)),
            Err(error) => Err(error),
        },
        None => Ok(None),
    }
}

/// The case of a declared enum; none of what is no enum.
fn case_of(alloc: Global, entry: &TypeDeclaration, n: u64) -> Result<Option<Tree>, AllocError>
    ensures { IfOk result (λ o. option_map pure_tree o ≡ spec.case_of (type_entry_of entry.now) n) }
{
    match entry.raw {
        Some(kind) => case_of_kind(alloc, &entry.id, kind, n),
        None => Ok(None),
    }
}

/// What was made, IllTyped where nothing could be.
fn given(made: Result<Option<Tree>, AllocError>) -> Result<Tree, Stop>
    ensures { (o : Option rows.Tree) → IfOk made (λ m. option_map pure_tree m ≡ o) → Gives pure_tree (with_some o give) result }
{
    match made {
        Ok(case) => match case {
            Some(tree) => Ok(tree),
            None => Err(Stop::IllTyped),
        },
        Err(_) => Err(Stop::Memory),
    }
}

/// The case of an enum with this number, counted from 0; IllTyped where there is none.
pub fn case(state: &RunState, id: &TypeId, n: u64) -> Result<Tree, Stop>
    ensures { CarriesOut pure_tree (spec.case_tree id.now n) state.now state.now result }
{
    match entry_of(state, id) {
        Some(entry) => given(case_of(*state.making.allocator(), entry, n)),
        None => Err(Stop::IllTyped),
    }
}

/// A number as one of this many, counted from 0.
#[tactic(auto, using(crate::proofs::Numbered::number_there, crate::proofs::Numbered::too_great, crate::proofs::Numbered::below_none))]
fn number_below(count: usize, x: Num) -> Option<u64>
    ensures { result ≡ number_below count (value_of x) }
{
    if x.negative {
        return None;
    }
    if count as u128 <= x.magnitude {
        return None;
    }
    Some(x.magnitude as u64)
}

/// A value in one optional more. What is in 2^64 optionals has no room in memory.
fn wrapped(tree: Tree) -> Result<Tree, AllocError>
    ensures { IfOk result (λ t. pure_tree t ≡ trees.wrapped (pure_tree tree)) }
{
    let mut all = tree;
    match all.optionals.checked_add(1) {
        Some(more) => {
            all.optionals = more;
            Ok(all)
        }
        None => {
            discard_tree(all);
            Err(AllocError)
        }
    }
}

/// The case of a declared enum with this number in an optional, or nil.
fn case_at(
    alloc: Global,
    entry: &TypeDeclaration,
    n: Option<u64>,
) -> Result<Option<Tree>, AllocError>
    ensures { IfOk result (λ o. option_map pure_tree o ≡ case_by (type_entry_of entry.now) n) }
{
    match n {
        Some(n) => match case_of(alloc, entry, n) {
            Ok(case) => match case {
                Some(tree) => match wrapped(tree) {
                    Ok(more) => Ok(Some(more)),
                    Err(error) => Err(error),
                },
                None => Ok(None),
            },
            Err(error) => Err(error),
        },
        None => Ok(Some(nil_tree(alloc))),
    }
}

/// The case of an enum with this number in an optional, or nil; IllTyped where the type isn't declared.
fn case_from_number(state: &RunState, id: &TypeId, x: Num) -> Result<Tree, Stop>
    ensures { CarriesOut pure_tree (case_from_integer id.now (value_of x)) state.now state.now result }
{
    match entry_of(state, id) {
        Some(entry) => given(case_at(
            *state.making.allocator(),
            entry,
            number_below(entry.cases.len(), x),
        )),
        None => Err(Stop::IllTyped),
    }
}

/// The case of an enum with the number that a value is, in an optional, or nil; IllTyped of what is no whole number.
pub fn case_from(state: &RunState, id: &TypeId, tree: &Tree) -> Result<Tree, Stop>
    ensures { CarriesOut pure_tree (spec.case_from id.now (pure_tree tree.now)) state.now state.now result }
{
    match integer_in(tree) {
        Some(x) => case_from_number(state, id, x),
        None => Err(Stop::IllTyped),
    }
}
