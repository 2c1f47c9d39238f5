// Statements that are typed, and blocks that are begun.
ghost use Rattle.std.specs.Prelude.{◌≡◌, ◌+◌, ◌++◌, ◌∷◌, [], IfOk, OnOk, Ok, map, ok_or, option_map};
ghost use Rattle.cad_declarations.specs.Typed as typed;
ghost use Rattle.cad_declarations.specs.Views.{statement_of, block_of};
ghost use Rattle.cad_environment.specs.Views.{local_of};
ghost use Rattle.cad_typing.specs.Statements as spec;
ghost use Rattle.cad_statement_parts.specs.Blocks.{continued, in_use_behind, locals_behind, numbered};
ghost use Rattle.cad_statement_parts.specs.Views.{judged_at, surroundings_of};
ghost use Rattle.cad_statement_trees.specs.Views.{statement_typing_of};

use crate::typing::{StatementTyping, discard_statement_typing};
use crate::variables::alone;
use cad_declarations::{TypedBlock, TypedStatement, discard_statement};
use cad_environment::{Local, more};
use cad_statement_parts::{Surroundings, after, discard_locals, discard_maybe_local, put_first};
use cad_typed_rows::{discard_statements, push_statement};
use std::alloc::{AllocError, Global};

/// A statement without statements in it, and the next number; where it is ill-typed it stops at its own.
pub fn found(
    at: u64,
    typing: Option<StatementTyping>,
) -> Result<Result<(StatementTyping, u64), u64>, AllocError>
    ensures { IfOk result (λ o. judged_at statement_typing_of o ≡ numbered (at + 1) (ok_or (option_map statement_typing_of typing) at)) }
{
    match typing {
        Some(x) => match after(at) {
            Ok(next) => Ok(Ok((x, next))),
            Err(error) => {
                discard_statement_typing(x);
                Err(error)
            }
        },
        None => Ok(Err(at)),
    }
}

/// A statement without statements in it that declares nothing, and the next number.
pub fn single(
    at: u64,
    tree: Option<TypedStatement>,
) -> Result<Result<(StatementTyping, u64), u64>, AllocError>
    ensures { IfOk result (λ o. judged_at statement_typing_of o ≡ numbered (at + 1) (spec.single at (option_map statement_of tree))) }
{
    match tree {
        Some(x) => match after(at) {
            Ok(next) => Ok(Ok((alone(x), next))),
            Err(error) => {
                discard_statement(x);
                Err(error)
            }
        },
        None => Ok(Err(at)),
    }
}

/// A block up to one of its statements: the statements so far, its own variables, the last one first, and how many are in use.
#[derive(Drop)]
pub struct Begun {
    pub trees: Vec<TypedStatement>,
    pub locals: Vec<Local>,
    pub in_use: u32,
}

/// A block at its begin.
pub fn begin(alloc: Global, in_use: u32) -> Begun
    ensures trees { result.trees.items ≡ [] }
    ensures locals { result.locals.items ≡ [] }
    ensures in_use { result.in_use ≡ in_use }
{
    Begun {
        trees: Vec::new(alloc),
        locals: Vec::new(alloc),
        in_use,
    }
}

/// Takes in a statement and what it declares.
pub fn take_in(begun: &mut Begun, x: StatementTyping) -> Result<(), AllocError>
    ensures trees { OnOk result (map statement_of begun.new.trees.items ≡ map statement_of begun.old.trees.items ++ ((statement_typing_of x).tree ∷ [])) }
    ensures locals { OnOk result (map local_of begun.new.locals.items ≡ locals_behind (statement_typing_of x).declares (map local_of begun.old.locals.items)) }
    ensures in_use { OnOk result (begun.new.in_use ≡ in_use_behind (statement_typing_of x).declares begun.old.in_use) }
{
    let StatementTyping { tree, declares } = x;
    match push_statement(&mut begun.trees, tree) {
        Ok(()) => match declares {
            None => Ok(()),
            Some(v) => {
                put_first(&mut begun.locals, v)?;
                begun.in_use = more(begun.in_use, 1)?;
                Ok(())
            }
        },
        Err(error) => {
            discard_maybe_local(declares);
            Err(error)
        }
    }
}

/// The block that was begun, whose own variables have the numbers from this one.
pub fn ended(begun: Begun, in_scope: u32) -> TypedBlock
    ensures { block_of result ≡ typed.block in_scope (typed.statements_of (map statement_of begun.trees.items)) }
{
    discard_locals(begun.locals);
    block_with(begun.trees, in_scope)
}

/// A block of statements, whose own variables have the numbers from this one.
fn block_with(statements: Vec<TypedStatement>, in_scope: u32) -> TypedBlock
    ensures { block_of result ≡ typed.block in_scope (typed.statements_of (map statement_of statements.items)) }
{
    TypedBlock {
        in_scope,
        statements,
    }
}

/// Lets go what was begun of a block.
pub fn discard_begun(begun: Begun) {
    discard_locals(begun.locals);
    discard_statements(begun.trees)
}

/// A block of one statement's tree.
fn block_of_one(
    alloc: Global,
    tree: TypedStatement,
    in_scope: u32,
) -> Result<TypedBlock, AllocError>
    ensures { IfOk result (λ b. block_of b ≡ typed.block in_scope (typed.statements (statement_of tree) typed.no_statements)) }
{
    let mut statements = Vec::new(alloc);
    match push_statement(&mut statements, tree) {
        Ok(()) => Ok(block_with(statements, in_scope)),
        Err(error) => {
            discard_statements(statements);
            Err(error)
        }
    }
}

/// A block of one statement, whose own variables have the numbers from this one.
pub fn lone_block(
    alloc: Global,
    x: Result<(StatementTyping, u64), u64>,
    in_scope: u32,
) -> Result<Result<(TypedBlock, u64), u64>, AllocError>
    ensures { IfOk result (λ o. judged_at block_of o ≡ (continued (judged_at statement_typing_of x) (λ y. Ok (typed.block in_scope (typed.statements y.0.tree typed.no_statements), y.1)))) }
{
    match x {
        Err(stop) => Ok(Err(stop)),
        Ok((typing, next)) => {
            discard_maybe_local(typing.declares);
            let block = block_of_one(alloc, typing.tree, in_scope)?;
            Ok(Ok((block, next)))
        }
    }
}

/// A block without statements, the number in front of which is that behind it.
pub fn empty_block(
    alloc: Global,
    w: Surroundings<'_>,
    at: Result<u64, u64>,
) -> Result<(TypedBlock, u64), u64>
    ensures { judged_at block_of result ≡ (continued at (λ n. numbered (n + 0) (spec.empty_block (surroundings_of w.entry)))) }
{
    match at {
        Err(stop) => Err(stop),
        Ok(n) => {
            let in_scope = w.env.in_use;
            let block = ended(begin(alloc, in_scope), in_scope);
            Ok((block, n))
        }
    }
}
