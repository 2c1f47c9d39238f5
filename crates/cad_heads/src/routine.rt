// Functions and initializers as they are written.
ghost use Rattle.std.specs.Prelude.{◌≡◌, ◌++◌, map, option_copied, option_map};
ghost use Rattle.cad_grammar.specs.Views.{block_of, condition_of, conditions_of, function_of, init_of, stmt_of};
ghost use Rattle.cad_declarations.specs.Entries as entries;
ghost use Rattle.cad_typing.specs.Conditions.{written_conditions};
ghost use Rattle.cad_typing.specs.Functions as spec;
ghost use Rattle.cad_heads.specs.Views.{routine_of};

use cad_grammar::{
    Condition, Conditions, Function, FunctionBlock, Init, Parameter, Stmt, TypeAnnotation,
};
use cad_syntax::{Names, TypeId};

/// A function or an initializer as it is written, by its names.
#[derive(Clone, Copy)]
pub struct Routine<'a> {
    pub inside: &'a Names,
    /// The type in which it stands.
    pub within: Option<&'a TypeId>,
    pub is_initializer: bool,
    pub is_view: bool,
    pub parameters: &'a [Parameter],
    pub result: Option<&'a TypeAnnotation>,
    pub pre: &'a [Condition],
    pub post: &'a [Condition],
    /// In an interface there may be none.
    pub body: Option<&'a [Stmt]>,
}

/// The conditions that are written.
pub fn written(all: &Option<Conditions>) -> &[Condition]
    ensures { map condition_of result.now ≡ written_conditions (conditions_of all.now) }
{
    match all {
        Some(all) => all.as_slice(),
        None => &[],
    }
}

fn pre_of(block: &Option<FunctionBlock>) -> &[Condition]
    ensures { map condition_of result.now ≡ spec.pre_of (option_map block_of block.now) }
{
    match block {
        Some(block) => written(&block.pre),
        None => &[],
    }
}

fn post_of(block: &Option<FunctionBlock>) -> &[Condition]
    ensures { map condition_of result.now ≡ spec.post_of (option_map block_of block.now) }
{
    match block {
        Some(block) => written(&block.post),
        None => &[],
    }
}

fn is_empty(body: &[Stmt]) -> bool
    ensures { result ≡ entries.is_empty (map stmt_of body.now) }
{
    match body {
        [] => true,
        [_first, _more @ ..] => false,
    }
}

/// The statements of a function; in an interface a block without statements is conditions alone.
fn body_of(in_interface: bool, block: &Option<FunctionBlock>) -> Option<&[Stmt]>
    ensures { option_map (λ b. map stmt_of b.now) result ≡ spec.body_of in_interface (option_map block_of block.now) }
{
    match block {
        Some(block) => {
            if in_interface && is_empty(block.body.as_slice()) {
                None
            } else {
                Some(block.body.as_slice())
            }
        }
        None => None,
    }
}

/// A function, by its names, the type in which it stands, and whether that is an interface.
pub fn function_routine<'a>(
    inside: &'a Names,
    within: Option<&'a TypeId>,
    in_interface: bool,
    function: &'a Function,
) -> Routine<'a>
    ensures { routine_of result ≡ spec.function_routine inside.now (option_copied within.entry) in_interface (function_of function.now) }
{
    Routine {
        inside,
        within,
        is_initializer: false,
        is_view: function.is_view,
        parameters: function.parameters.as_slice(),
        result: function.result.as_ref(),
        pre: pre_of(&function.block),
        post: post_of(&function.block),
        body: body_of(in_interface, &function.block),
    }
}

/// The initializer of a type, by its names.
pub fn initializer_routine<'a>(inside: &'a Names, id: &'a TypeId, init: &'a Init) -> Routine<'a>
    ensures { routine_of result ≡ record (spec.initializer_routine id.now (init_of init.now)) { inside = inside.now } }
{
    Routine {
        inside,
        within: Some(id),
        is_initializer: true,
        is_view: init.is_view,
        parameters: init.parameters.as_slice(),
        result: None,
        pre: written(&init.block.pre),
        post: written(&init.block.post),
        body: Some(init.block.body.as_slice()),
    }
}
