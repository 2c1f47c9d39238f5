// The arguments of an initializer.
ghost use Rattle.std.specs.Prelude.{◌≡◌, ◌==◌, ◌∷◌, [], IfOk, MatchOption, length, option_map};
ghost use Rattle.cad_declarations.specs.Views.{type_entry_of};
ghost use Rattle.cad_evaluation.specs.Adding as spec;
ghost use Rattle.cad_evaluation.specs.Casts.{with_type};
ghost use Rattle.cad_installations.specs.Code.Fitting as code;
ghost use Rattle.cad_installations.specs.Views.{items_row, types_of};
ghost use Rattle.cad_rows.specs.Views.{pure_place, pure_row, pure_tree};
ghost use Rattle.cad_state.specs.Views.{FindsAndCarriesOut, program_of};
ghost use Rattle.cad_syntax.specs.Types.{pure_type};
ghost use Rattle.cad_types.specs.Optionals as optionals;
ghost use Rattle.cad_types.specs.Views.{declarations};
ghost use Rattle.cad_world.specs.Rows.{count_places as spec_count};
ghost use Rattle.cad_outcomes.specs.Outcomes.{Gives};

use cad_access::is_below;
use cad_casts::own_type_of;
use cad_declarations::{Checked, Parameter, TypeDeclaration};
use cad_outcomes::{RunError, Stop};
use cad_rows::{Place, Tree, come_to, count_places, discard_row, discard_tree, wedge};
use cad_state::RunState;
use cad_syntax::{CadType, TypeId};
use cad_types::DeclaredTypes;
use std::alloc::AllocError;

/// The parameters of the initializer that a type has written; of any other none.
fn written_parameters(declared: &TypeDeclaration) -> &[Parameter]
    ensures { types_of result.now ≡ spec.parameters_in (type_entry_of declared.now).initializer }
{
    match &declared.initializer {
        Some(signature) => signature.parameters.as_slice(),
        None => &[],
    }
}

/// The parameters of the initializer of the contract that a program is; without a written one there are none.
pub fn initializer_parameters<'c>(checked: &'c Checked, id: &TypeId) -> &'c [Parameter]
    ensures { types_of result.now ≡ spec.initializer_types id.now (program_of checked.now) }
{
    match checked.tables.find(id) {
        Some(declared) => written_parameters(declared),
        None => &[],
    }
}

/// How many outer optionals a type has. One of 2^64 has no room in memory.
fn depth(declared: &CadType) -> Result<u64, AllocError>
    ensures { IfOk result (λ n. n ≡ optionals.depth (pure_type declared.now)) }
{
    match declared {
        CadType::Optional(content) => match depth(content)?.checked_add(1) {
            Some(more) => Ok(more),
            None => Err(AllocError),
        },
        _ => Ok(0),
    }
}

/// A type without so many of its outer optionals, or without all.
fn without(declared: &CadType, n: u64) -> &CadType
    ensures { pure_type result.now ≡ optionals.taken n (pure_type declared.now) }
{
    if n == 0 {
        return declared;
    }
    match declared {
        CadType::Optional(content) => without(content, n - 1),
        _ => declared,
    }
}

/// Whether what is of one type fits a place of another, once a transfer put optionals round it.
fn fits(kinds: &DeclaredTypes, own: &CadType, wanted: &CadType) -> Result<bool, AllocError>
    ensures { IfOk result (λ b. b ≡ optionals.fits (declarations kinds.now) (pure_type own.now) (pure_type wanted.now)) }
{
    let wrapped = depth(wanted)?;
    let has = depth(own)?;
    Ok(is_below(kinds, own, without(wanted, wrapped.saturating_sub(has))))
}

/// A value comes to a place of a type. Where memory fails, it is let go.
fn wrapped(tree: Tree, wanted: &CadType) -> Result<Tree, Stop>
    ensures { Gives pure_tree (code.come (pure_type wanted.now) (pure_tree tree)) result }
{
    let mut own = tree;
    match come_to(&mut own, wanted) {
        Ok(()) => Ok(own),
        Err(_) => {
            discard_tree(own);
            Err(Stop::Memory)
        }
    }
}

/// A value of this own type comes to a parameter: 125 where it doesn't fit.
fn fit_own(kinds: &DeclaredTypes, own: &CadType, wanted: &CadType, tree: Tree) -> Result<Tree, Stop>
    ensures { Gives pure_tree (code.fit_own (declarations kinds.now) (pure_type wanted.now) (pure_tree tree) (pure_type own.now)) result }
{
    match fits(kinds, own, wanted) {
        Ok(true) => wrapped(tree, wanted),
        Ok(false) => {
            discard_tree(tree);
            Err(Stop::Failed(RunError::ContractArguments))
        }
        Err(_) => {
            discard_tree(tree);
            Err(Stop::Memory)
        }
    }
}

/// A value comes to a parameter: 113 where it is a reference to what is gone, 125 where it doesn't fit.
fn fit_tree(
    state: &mut RunState,
    kinds: &DeclaredTypes,
    wanted: &CadType,
    tree: Tree,
) -> Result<Tree, Stop>
    ensures { FindsAndCarriesOut pure_tree (code.fit_tree (declarations kinds.now) (pure_type wanted.now) (pure_tree tree)) state.old state.new result }
{
    match own_type_of(state, &tree) {
        Ok(own) => fit_own(kinds, &own, wanted, tree),
        Err(stop) => {
            discard_tree(tree);
            Err(stop)
        }
    }
}

/// What stands in a place, without its own labels.
fn tree_of(place: Place) -> Option<Tree>
    ensures { option_map pure_tree result ≡ code.in_place (pure_place place) }
{
    match place {
        Place::Full(labels, tree) => {
            drop(labels);
            Some(tree)
        }
        Place::Empty => None,
    }
}

/// What stands in a place comes to a parameter; 125 where nothing does.
fn fit_place(
    state: &mut RunState,
    kinds: &DeclaredTypes,
    wanted: &CadType,
    place: Place,
) -> Result<Tree, Stop>
    ensures { FindsAndCarriesOut pure_tree (code.fit_found (declarations kinds.now) (pure_type wanted.now) (code.in_place (pure_place place))) state.old state.new result }
{
    match tree_of(place) {
        Some(tree) => fit_tree(state, kinds, wanted, tree),
        None => Err(Stop::Failed(RunError::ContractArguments)),
    }
}

/// The first place leaves a row.
fn take_first(row: &mut Vec<Place>) -> Option<Place>
    ensures { MatchOption result (row.old.items ≡ []) (λ place. row.old.items ≡ place ∷ row.new.items) }
{
    if row.is_empty() {
        return None;
    }
    Some(row.remove(0))
}

/// A value comes before what others came to. Where there is no such row, the value is let go.
fn fitted_before(own: Tree, rest: Result<Vec<Place>, Stop>) -> Result<Vec<Place>, Stop>
    ensures { code.ComesBefore (pure_tree own) rest result }
{
    match rest {
        Ok(found) => {
            let mut row = found;
            match wedge(&mut row, 0, own) {
                Ok(()) => Ok(row),
                Err(_) => {
                    discard_row(row);
                    Err(Stop::Memory)
                }
            }
        }
        Err(stop) => {
            discard_tree(own);
            Err(stop)
        }
    }
}

/// Each value of a row comes to its parameter, as `fit` says.
fn fit_all(
    state: &mut RunState,
    kinds: &DeclaredTypes,
    parameters: &[Parameter],
    row: Vec<Place>,
) -> Result<Vec<Place>, Stop>
    ensures { FindsAndCarriesOut items_row (spec.all_fitted (declarations kinds.now) (types_of parameters.now) (pure_row row.items)) state.old state.new result }
{
    let mut left = row;
    match parameters {
        [] => no_more(left),
        [parameter, more @ ..] => match take_first(&mut left) {
            Some(place) => match fit_place(state, kinds, &parameter.declared, place) {
                Ok(own) => {
                    let rest = fit_all(state, kinds, more, left);
                    fitted_before(own, rest)
                }
                Err(stop) => {
                    discard_row(left);
                    Err(stop)
                }
            },
            None => {
                discard_row(left);
                Err(Stop::Failed(RunError::ContractArguments))
            }
        },
    }
}

/// A row in which nothing is left; 125 of any other.
fn no_more(row: Vec<Place>) -> Result<Vec<Place>, Stop>
    ensures { Gives items_row (code.no_more (pure_row row.items)) result }
{
    if row.is_empty() {
        return Ok(row);
    }
    discard_row(row);
    Err(Stop::Failed(RunError::ContractArguments))
}

/// Whether there are as many values as parameters.
fn are_as_many(row: &[Place], parameters: &[Parameter]) -> bool
    ensures { result ≡ (spec_count (pure_row row.now) == length (types_of parameters.now)) }
{
    count_places(row) == parameters.len()
}

/// The values of a row come to the parameters of an initializer: 125 where they are more or fewer; and for each in turn 113 where
/// it is a reference to what is gone, 125 where its own type doesn't fit. Nothing else is changed.
pub(crate) fn fit(
    state: &mut RunState,
    kinds: &DeclaredTypes,
    parameters: &[Parameter],
    row: Vec<Place>,
) -> Result<Vec<Place>, Stop>
    ensures { FindsAndCarriesOut items_row (spec.fitted (declarations kinds.now) (types_of parameters.now) (pure_row row.items)) state.old state.new result }
{
    if are_as_many(row.as_slice(), parameters) {
        return fit_all(state, kinds, parameters, row);
    }
    discard_row(row);
    Err(Stop::Failed(RunError::ContractArguments))
}
