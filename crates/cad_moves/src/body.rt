// A body by what its paths spell.
ghost use Rattle.std.specs.Prelude.{◌≡◌, IfOk, map, ◌++◌, ◌∷◌, []};
ghost use Rattle.cad_paths.specs.Paths as paths;
ghost use Rattle.cad_paths.specs.Letters as letters;
ghost use Rattle.cad_moves.specs.Views.{body_of, declares, does, item_of, last, named, or_else, row_of};
ghost use Rattle.cad_moves.specs.Code.Rows.{row_over};

use cad_paths::{Letter, Position, Way};
use cad_syntax::Name;
use std::alloc::{AllocError, Global};

/// A body by what its paths spell.
#[cycle(paths)]
#[derive(Drop)]
pub enum Body {
    /// Paths leave it so.
    Leave(Way),
    /// A letter of the variable with this number.
    Spell(u64, Letter, Position),
    /// Any number of turns.
    Loop(Box<Body>),
    /// Paths that leave by this way go on behind it.
    Catch(Way, Box<Body>),
    /// Parts one behind the other.
    Block(Vec<Item>),
}

/// A part of a block.
#[cycle(paths)]
#[derive(Drop)]
pub enum Item {
    /// A variable is declared at a statement, for all that follows in its block.
    Declare(u64, Name, Position),
    Do(Body),
    /// This, or all that follows in its block.
    Or(Body),
    /// This, and nothing that follows in its block.
    Last(Body),
}

/// The empty body.
pub fn skip() -> Body
    ensures { body_of result ≡ paths.skip }
{
    Body::Leave(Way::Next)
}

/// Parts one behind the other.
pub fn block(items: Vec<Item>) -> Body
    ensures { body_of result ≡ row_of (map item_of items.items) }
{
    Body::Block(items)
}

/// `a`, and then `b`.
pub(crate) fn seq(alloc: Global, a: Body, b: Body) -> Result<Body, AllocError>
    ensures { IfOk result (λ r. body_of r ≡ paths.seq (body_of a) (body_of b)) }
{
    let mut items = Vec::new(alloc);
    items.push(Item::Do(a))?;
    items.push(Item::Last(b))?;
    Ok(block(items))
}

/// `a` or `b`.
pub(crate) fn either(alloc: Global, a: Body, b: Body) -> Result<Body, AllocError>
    ensures { IfOk result (λ r. body_of r ≡ paths.either (body_of a) (body_of b)) }
{
    let mut items = Vec::new(alloc);
    items.push(Item::Or(a))?;
    items.push(Item::Last(b))?;
    Ok(block(items))
}

/// `a` or nothing.
pub(crate) fn maybe(alloc: Global, a: Body) -> Result<Body, AllocError>
    ensures { IfOk result (λ r. body_of r ≡ letters.maybe (body_of a)) }
{
    either(alloc, a, skip())
}

/// Any number of turns.
pub(crate) fn repeated(alloc: Global, a: Body) -> Result<Body, AllocError>
    ensures { IfOk result (λ r. body_of r ≡ paths.loop (body_of a)) }
{
    Ok(Body::Loop(Box::new(alloc, a)?))
}

/// Paths of `a` that leave it by this way go on behind it.
pub(crate) fn caught(alloc: Global, way: Way, a: Body) -> Result<Body, AllocError>
    ensures { IfOk result (λ r. body_of r ≡ paths.catch way (body_of a)) }
{
    Ok(Body::Catch(way, Box::new(alloc, a)?))
}

/// The end of all paths, or nothing.
pub(crate) fn ending(is_never: bool) -> Body
    ensures { body_of result ≡ letters.ending is_never }
{
    if is_never {
        Body::Leave(Way::Never)
    } else {
        skip()
    }
}

/// Adds a part to a block.
pub(crate) fn push(items: &mut Vec<Item>, item: Item) -> Result<(), AllocError>
    ensures { IfOk result (λ _. items.new.items ≡ items.old.items ++ (item ∷ [])) }
{
    items.push(item)?;
    Ok(())
}

/// A letter of a variable.
pub(crate) fn spelling(variable: u64, letter: Letter, at: Position) -> Body
    ensures { body_of result ≡ paths.spell variable letter at }
{
    Body::Spell(variable, letter, at)
}

fn do_item(body: Body) -> Item
    ensures { item_of result ≡ does (body_of body) }
{
    Item::Do(body)
}

fn or_item(body: Body) -> Item
    ensures { item_of result ≡ or_else (body_of body) }
{
    Item::Or(body)
}

fn last_item(body: Body) -> Item
    ensures { item_of result ≡ last (body_of body) }
{
    Item::Last(body)
}

fn declaration_item(number: u64, name: &Name, at: Position) -> Result<Item, AllocError>
    ensures { IfOk result (λ i. item_of i ≡ declares (named number name.now) at) }
{
    Ok(Item::Declare(number, name.clone()?, at))
}

/// Adds a part that all go through.
pub(crate) fn push_do(items: &mut Vec<Item>, body: Body) -> Result<(), AllocError>
    ensures { IfOk result (λ _. (rest : paths.PathBody) → row_over (map item_of items.new.items) rest ≡ row_over (map item_of items.old.items) (paths.seq (body_of body) rest)) }
{
    push(items, do_item(body))?;
    Ok(())
}

/// Adds a part that stands before what else may be done.
pub(crate) fn push_or(items: &mut Vec<Item>, body: Body) -> Result<(), AllocError>
    ensures { IfOk result (λ _. (rest : paths.PathBody) → row_over (map item_of items.new.items) rest ≡ row_over (map item_of items.old.items) (paths.either (body_of body) rest)) }
{
    push(items, or_item(body))?;
    Ok(())
}

/// Adds the last part.
pub fn push_last(items: &mut Vec<Item>, body: Body) -> Result<(), AllocError>
    ensures { IfOk result (λ _. (rest : paths.PathBody) → row_over (map item_of items.new.items) rest ≡ row_over (map item_of items.old.items) (body_of body)) }
{
    push(items, last_item(body))?;
    Ok(())
}

/// Adds a declaration.
pub fn push_declaration(
    items: &mut Vec<Item>,
    number: u64,
    name: &Name,
    at: Position,
) -> Result<(), AllocError>
    ensures { IfOk result (λ _. (rest : paths.PathBody) → row_over (map item_of items.new.items) rest ≡ row_over (map item_of items.old.items) (paths.scope (named number name.now) at rest)) }
{
    let item = declaration_item(number, name, at)?;
    push(items, item)?;
    Ok(())
}
