// Casts.
ghost use Rattle.std.specs.Prelude.{◌≡◌};
ghost use Rattle.cad_syntax.specs.Types.{pure_type};
ghost use Rattle.cad_casts.specs.Code.Judged as code;
ghost use Rattle.cad_outcomes.specs.Outcomes.{Gives};
ghost use Rattle.cad_rows.specs.Views.{pure_tree};
ghost use Rattle.cad_state.specs.Views.{CarriesOut, FindsAndCarriesOut};
ghost use Rattle.cad_world.specs.State.{give};
ghost use Rattle.cad_world.specs.Trees as trees;

use crate::below::is_instance;
use crate::own_types::own_type_of;
use cad_declarations::discard_type;
use cad_grammar::CastKind;
use cad_outcomes::{RunError, Stop};
use cad_rows::{Shape, Tree, discard_tree};
use cad_state::RunState;
use cad_syntax::CadType;
use cad_values::Value;
use std::alloc::Global;

/// Whether what is of the first type passes for one of the second; a static cast doesn't ask.
fn judge(state: &RunState, kind: CastKind, own: CadType, wanted: &CadType) -> Result<bool, Stop>
    ensures { CarriesOut (λ is. is) (code.judged kind (pure_type own) (pure_type wanted.now)) state.now state.now result }
{
    match kind {
        CastKind::Static => {
            discard_type(own);
            Ok(true)
        }
        _ => {
            let is_below = is_instance(state, &own, wanted);
            discard_type(own);
            is_below
        }
    }
}

/// A value in one optional more.
fn wrap(tree: Tree) -> Result<Tree, Stop>
    ensures { Gives pure_tree (give (trees.wrapped (pure_tree tree))) result }
{
    let Tree {
        optionals,
        shape,
        parts,
    } = tree;
    match optionals.checked_add(1) {
        Some(more) => Ok(Tree {
            optionals: more,
            shape,
            parts,
        }),
        None => {
            discard_tree(Tree {
                optionals,
                shape,
                parts,
            });
            Err(Stop::Memory)
        }
    }
}

/// The result of a cast of what passes.
fn hand(kind: CastKind, tree: Tree) -> Result<Tree, Stop>
    ensures { Gives pure_tree (give (code.handed kind (pure_tree tree))) result }
{
    match kind {
        CastKind::Failable => wrap(tree),
        _ => Ok(tree),
    }
}

/// Nil.
fn nil_tree(alloc: Global) -> Tree
    ensures { pure_tree result ≡ trees.nil_tree }
{
    Tree {
        optionals: 0,
        shape: Shape::Plain(Value::Nil),
        parts: Vec::new(alloc),
    }
}

/// The result of a cast of what doesn't pass.
fn refuse(alloc: Global, kind: CastKind) -> Result<Tree, Stop>
    ensures { Gives pure_tree (code.refused kind) result }
{
    match kind {
        CastKind::Failable => Ok(nil_tree(alloc)),
        _ => Err(Stop::Failed(RunError::CastFailed)),
    }
}

/// The result of a cast, told whether the value passes.
fn cast_if(
    state: &mut RunState,
    kind: CastKind,
    wanted: &CadType,
    tree: Tree,
    passes: bool,
) -> Result<Tree, Stop>
    ensures { CarriesOut pure_tree (code.cast_if kind (pure_type wanted.now) (pure_tree tree) passes) state.old state.new result }
{
    if passes {
        match state.transfer(tree, wanted) {
            Ok(own) => hand(kind, own),
            Err(stop) => Err(stop),
        }
    } else {
        discard_tree(tree);
        refuse(*state.making.allocator(), kind)
    }
}

/// The result of a cast, told the type of the value by which it is decided.
pub fn cast_from(
    state: &mut RunState,
    kind: CastKind,
    wanted: &CadType,
    own: CadType,
    tree: Tree,
) -> Result<Tree, Stop>
    ensures { CarriesOut pure_tree (code.cast_from kind (pure_type own) (pure_type wanted.now) (pure_tree tree)) state.old state.new result }
{
    match judge(state, kind, own, wanted) {
        Ok(passes) => cast_if(state, kind, wanted, tree, passes),
        Err(stop) => {
            discard_tree(tree);
            Err(stop)
        }
    }
}

/// A value is cast to a type, told by its own type. A static cast hands it over; of a value that isn't of the type a failable one
/// gives nil, and a forced one is Failed with CastFailed. Failed with ReferenceInvalid of a reference to what is gone. So every
/// value is cast but a reference to storage, which is of the type of what is stored.
pub fn own_cast(
    state: &mut RunState,
    kind: CastKind,
    wanted: &CadType,
    tree: Tree,
) -> Result<Tree, Stop>
    ensures { FindsAndCarriesOut pure_tree (code.own_cast kind (pure_type wanted.now) (pure_tree tree)) state.old state.new result }
{
    match own_type_of(state, &tree) {
        Ok(own) => cast_from(state, kind, wanted, own, tree),
        Err(stop) => {
            discard_tree(tree);
            Err(stop)
        }
    }
}
