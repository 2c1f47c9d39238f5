// Expressions without parts.
ghost use Rattle.std.specs.Prelude.{◌≡◌};
ghost use Rattle.cad_declarations.specs.Views.{term_of};
ghost use Rattle.cad_evaluation.specs.Callees.{Calls, Front};
ghost use Rattle.cad_evaluation.specs.Casts as casts;
ghost use Rattle.cad_expression_leaves.specs.Code.Steps as steps;
ghost use Rattle.cad_expression_leaves.specs.Code.Steps.{CopiesTo};
ghost use Rattle.cad_expression_leaves.specs.Views.{tree_in};
ghost use Rattle.cad_rows.specs.Views.{pure_tree};
ghost use Rattle.cad_state.specs.Views.{FindsAndCarriesOut};
ghost use Rattle.cad_syntax.specs.Types.{pure_type};
ghost use Rattle.cad_values.specs.Values as v;
ghost use Rattle.cad_values.specs.Values.{pure_value};
ghost use Rattle.cad_world.specs.Trees.{of_plain};

use crate::values::memory;
use cad_boxed_trees::boxed;
use cad_declarations::Term;
use cad_making::{before_value, case};
use cad_operators::{bool_tree, nil_tree, number_tree, plain_tree};
use cad_outcomes::Stop;
use cad_rows::Tree;
use cad_state::RunState;
use cad_syntax::{Address, CadType, Path, Text};
use cad_text_operators::text_tree;
use cad_values::Value;
use std::alloc::Global;

/// The value of an expression without parts; no memory of any other.
#[inline(never)]
pub fn literal(term: &Term, state: &RunState) -> Result<Box<Tree>, Stop>
    ensures { (front : Front) (calls : Calls) → FindsAndCarriesOut tree_in (steps.evaluated front calls (term_of term.now)) state.now state.now result }
{
    boxed(literal_tree(term, state))
}

/// The tree of an expression without parts; no memory of any other.
fn literal_tree(term: &Term, state: &RunState) -> Result<Tree, Stop>
    ensures { (front : Front) (calls : Calls) → FindsAndCarriesOut pure_tree (steps.evaluated front calls (term_of term.now)) state.now state.now result }
{
    match term {
        Term::Number(n) => Ok(number_tree(memory(state), *n)),
        Term::Address(a) => Ok(address_tree(memory(state), *a)),
        Term::Bool(x) => Ok(bool_tree(memory(state), *x)),
        Term::Nil => Ok(nil_tree(memory(state))),
        Term::String(text) => string_copy(memory(state), text),
        Term::Character(text) => character_copy(memory(state), text),
        Term::Path(path) => path_copy(memory(state), path),
        Term::Case(id, n) => case(state, id, *n as u64),
        Term::Before(n) => before_value(state, *n as usize),
        _ => Err(Stop::Memory),
    }
}

/// The value of `Type<T>()`: it is written as a call, and takes the unit of one.
#[inline(never)]
pub fn call_type(state: &mut RunState, declared: &CadType) -> Result<Box<Tree>, Stop>
    ensures { FindsAndCarriesOut tree_in (steps.type_called (pure_type declared.now)) state.old state.new result }
{
    match state.tick() {
        Ok(()) => boxed(type_copy(memory(state), declared)),
        Err(stop) => Err(stop),
    }
}

/// An address as a value.
fn address_value(a: Address) -> Value
    ensures { pure_value result ≡ v.address a }
{
    Value::Address(a)
}

/// The tree of an address.
fn address_tree(alloc: Global, a: Address) -> Tree
    ensures { pure_tree result ≡ of_plain (v.address a) }
{
    plain_tree(alloc, address_value(a))
}

/// A copy of a text as a value.
fn string_value(text: &Text) -> Result<Value, Stop>
    ensures { CopiesTo pure_value (v.string text.now) result }
{
    match text.clone() {
        Ok(own) => Ok(Value::String(own)),
        Err(_) => Err(Stop::Memory),
    }
}

/// The tree of a copy of a text.
fn string_copy(alloc: Global, text: &Text) -> Result<Tree, Stop>
    ensures { CopiesTo pure_tree (of_plain (v.string text.now)) result }
{
    match string_value(text) {
        Ok(value) => Ok(plain_tree(alloc, value)),
        Err(stop) => Err(stop),
    }
}

/// A copy of a character as a value.
fn character_value(text: &Text) -> Result<Value, Stop>
    ensures { CopiesTo pure_value (v.character text.now) result }
{
    match text.clone() {
        Ok(own) => Ok(Value::Character(own)),
        Err(_) => Err(Stop::Memory),
    }
}

/// The tree of a copy of a character.
fn character_copy(alloc: Global, text: &Text) -> Result<Tree, Stop>
    ensures { CopiesTo pure_tree (of_plain (v.character text.now)) result }
{
    match character_value(text) {
        Ok(value) => Ok(plain_tree(alloc, value)),
        Err(stop) => Err(stop),
    }
}

/// A copy of a path as a value.
fn path_value(path: &Path) -> Result<Value, Stop>
    ensures { CopiesTo pure_value (v.path path.now) result }
{
    match path.clone() {
        Ok(own) => Ok(Value::Path(own)),
        Err(_) => Err(Stop::Memory),
    }
}

/// The tree of a copy of a path.
fn path_copy(alloc: Global, path: &Path) -> Result<Tree, Stop>
    ensures { CopiesTo pure_tree (of_plain (v.path path.now)) result }
{
    match path_value(path) {
        Ok(value) => Ok(plain_tree(alloc, value)),
        Err(stop) => Err(stop),
    }
}

/// A copy of a type as a value.
fn type_value(declared: &CadType) -> Result<Value, Stop>
    ensures { CopiesTo pure_value (v.meta (pure_type declared.now)) result }
{
    match declared.clone() {
        Ok(own) => Ok(Value::Meta(own)),
        Err(_) => Err(Stop::Memory),
    }
}

/// The tree of a copy of a type.
fn type_copy(alloc: Global, declared: &CadType) -> Result<Tree, Stop>
    ensures { CopiesTo pure_tree (casts.type_tree (pure_type declared.now)) result }
{
    match type_value(declared) {
        Ok(value) => Ok(plain_tree(alloc, value)),
        Err(stop) => Err(stop),
    }
}
