// Which functions may come to their end without the result that they have.
ghost use Rattle.std.specs.Prelude.{◌≡◌, ◌↔◌, ℕ, IsTrue, map, option_map};
ghost use Rattle.cad_syntax.specs.Types.{pure_type};
ghost use Rattle.cad_types.specs.Classes as classes;
ghost use Rattle.cad_declarations.specs.Typed as tree;
ghost use Rattle.cad_declarations.specs.Views.{term_of, statement_of, block_of, case_of, function_of, return_of};
ghost use Rattle.cad_paths.specs.Returns.{LacksReturn};
ghost use Rattle.cad_pieces.specs.Code.Comes as spec;

use crate::comes::{arguments_come, place_comes, term_comes};
use crate::ends::{
    Ends, behind, beside, both, breaking, coming, continuing, for_ends, returning, switch_ends,
    tested, while_ends,
};
use cad_declarations::{Argument, TypedBlock, TypedCase, TypedFunction, TypedStatement};
use cad_syntax::{Basic, CadType};

/// Whether some path comes to the end of a function's statements, though it has a result.
pub fn lacks_return(function: &TypedFunction) -> bool
    ensures { IsTrue result ↔ LacksReturn (function_of function.now) }
{
    lacks(function)
}

/// The same as a function of the tree.
pub(crate) fn lacks(function: &TypedFunction) -> bool
    ensures { result ≡ spec.lacks_return (function_of function.now) }
{
    !is_void(&function.result) && body_comes(&function.body)
}

/// Whether a type is `Void`.
fn is_void(t: &CadType) -> bool
    ensures { result ≡ classes.is_void (pure_type t.now) }
{
    matches!(t, CadType::Basic(Basic::Void))
}

/// Whether some path comes to the end of a body that is there.
fn body_comes(body: &Option<TypedBlock>) -> bool
    ensures { result ≡ spec.body_comes (option_map block_of body.now) }
{
    match body {
        None => false,
        Some(block) => block_ends(block).next,
    }
}

/// How the paths of a block leave it.
#[cycle(ends)]
fn block_ends(block: &TypedBlock) -> Ends
    ensures { result ≡ spec.block_ends (block_of block.now) }
{
    statements_ends(&block.statements)
}

/// How the paths of a statement leave it.
#[cycle(ends)]
fn statement_ends(statement: &TypedStatement) -> Ends
    ensures { result ≡ spec.statement_ends (statement_of statement.now) }
{
    match statement {
        TypedStatement::Declare { value, .. } => coming(term_comes(value)),
        TypedStatement::Exchange { place, value, .. } => {
            coming(both(place_comes(place), term_comes(value)))
        }
        TypedStatement::Assign { place, value, .. } => {
            coming(both(place_comes(place), argument_comes(value)))
        }
        TypedStatement::ForceAssign { place, value, .. } => {
            coming(both(place_comes(place), argument_comes(value)))
        }
        TypedStatement::Swap { left, right, .. } => {
            coming(both(place_comes(left), place_comes(right)))
        }
        TypedStatement::Expression { value, .. } => coming(term_comes(value)),
        TypedStatement::If {
            test,
            then,
            otherwise,
            ..
        } => tested(
            term_comes(test),
            beside(block_ends(then), block_ends(otherwise)),
        ),
        TypedStatement::IfLet {
            value,
            then,
            otherwise,
            ..
        } => tested(
            argument_comes(value),
            beside(block_ends(then), block_ends(otherwise)),
        ),
        TypedStatement::IfCast {
            place,
            then,
            otherwise,
            ..
        } => tested(
            place_comes(place),
            beside(block_ends(then), block_ends(otherwise)),
        ),
        TypedStatement::While { test, body, .. } => {
            while_ends(term_comes(test), block_ends(body))
        }
        TypedStatement::For { array, body, .. } => {
            for_ends(argument_comes(array), block_ends(body))
        }
        TypedStatement::Switch {
            value,
            cases,
            default,
            ..
        } => switch_ends(term_comes(value), cases_ends(cases, block_ends(default))),
        TypedStatement::Break { .. } => breaking(),
        TypedStatement::Continue { .. } => continuing(),
        TypedStatement::Return { value, .. } => return_ends(value),
        TypedStatement::Emit { arguments, .. } => coming(arguments_come(arguments)),
    }
}

/// How the paths of statements leave them: from the last one on.
#[cycle(ends)]
fn statements_ends(all: &[TypedStatement]) -> Ends
    ensures { result ≡ spec.statements_ends (tree.statements_of (map statement_of all.now)) }
{
    let mut ends = coming(true);
    let mut left = all.len();
    while left > 0 {
        left -= 1;
        ends = behind(statement_ends(&all[left]), ends);
    }
    ends
}

/// How the paths of cases leave them, where others do so: from the last one on.
#[cycle(ends)]
fn cases_ends(all: &[TypedCase], otherwise: Ends) -> Ends
    ensures { result ≡ spec.cases_ends (tree.cases_of (map case_of all.now)) otherwise }
{
    let mut ends = otherwise;
    let mut left = all.len();
    while left > 0 {
        left -= 1;
        let case = &all[left];
        ends = tested(case_comes(case), beside(case_body_ends(case), ends));
    }
    ends
}

/// How the paths of a case's statements leave it.
#[cycle(ends)]
fn case_body_ends(case: &TypedCase) -> Ends
    ensures { result ≡ spec.block_ends (case_of case.now).body }
{
    block_ends(&case.body)
}

/// Whether some path comes to the end of a case's value.
fn case_comes(case: &TypedCase) -> bool
    ensures { result ≡ spec.term_comes (case_of case.now).value }
{
    term_comes(&case.value)
}

/// Whether some path comes to the end of an argument.
fn argument_comes(argument: &Argument) -> bool
    ensures { result ≡ spec.term_comes (term_of argument.now.value) }
{
    term_comes(&argument.value)
}

/// A `return`, with its value where it has one.
fn return_ends(value: &Option<Argument>) -> Ends
    ensures { (at : ℕ) → result ≡ spec.statement_ends (return_of at value.now) }
{
    match value {
        None => returning(true),
        Some(value) => returning(argument_comes(value)),
    }
}
