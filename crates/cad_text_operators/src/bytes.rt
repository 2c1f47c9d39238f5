// Arrays of bytes.
ghost use Rattle.std.specs.Prelude.{◌≡◌, false, ◌++◌, [], ◌∷◌, Some, IfOk, OnOk, option_map};
ghost use Rattle.cad_evaluation.specs.Numbers as numbers;
ghost use Rattle.cad_evaluation.specs.Numbers.{number_of};
ghost use Rattle.cad_evaluation.specs.Texts as spec;
ghost use Rattle.cad_operators.specs.Bytes.{byte_in};
ghost use Rattle.cad_operators.specs.Bytes as places;
ghost use Rattle.cad_outcomes.specs.Outcomes.{Gives};
ghost use Rattle.cad_rows.specs.Views.{taken, pure_place, pure_row, pure_tree};
ghost use Rattle.cad_syntax.specs.Types.{pure_type};
ghost use Rattle.cad_world.specs.Rows as rows;
ghost use Rattle.cad_world.specs.Rows.{join};
ghost use Rattle.cad_world.specs.Trees.{whole};

use cad_operators::{is_array, number_in, number_tree, parts};
use cad_outcomes::{RunError, Stop};
use cad_rows::{Place, Shape, Tree, discard_place, discard_row};
use cad_syntax::{Basic, Bytes, CadType, Kind, Num, Numbers};
use std::alloc::{AllocError, Global};

/// The most elements of a container.
const MOST_ELEMENTS: usize = 65_536;

/// The number of a byte.
fn byte_number(byte: u8) -> Num
    ensures { number_of Kind.UInt8 false byte ≡ Some result }
{
    Num {
        kind: Kind::UInt8,
        negative: false,
        magnitude: u128::from(byte),
    }
}

/// A place with a tree that nothing has named.
fn tree_place(alloc: Global, tree: Tree) -> Place
    ensures { pure_place result ≡ taken [] (pure_tree tree) }
{
    Place::Full(Numbers::new(alloc), tree)
}

/// A place with a number.
fn number_place(alloc: Global, x: Num) -> Place
    ensures { pure_place result ≡ taken [] (numbers.number_tree x) }
{
    tree_place(alloc, number_tree(alloc, x))
}

/// A place with a byte.
fn byte_place(alloc: Global, byte: u8) -> Place
    ensures { option_map places.number_place (number_of Kind.UInt8 false byte) ≡ Some (pure_place result) }
{
    number_place(alloc, byte_number(byte))
}

/// Appends a place.
fn push_place(row: &mut Vec<Place>, place: Place) -> Result<(), AllocError>
    ensures { OnOk result (row.new.items ≡ row.old.items ++ place ∷ []) }
{
    match row.push(place) {
        Ok(()) => Ok(()),
        Err(refused) => {
            discard_place(refused.value);
            Err(AllocError)
        }
    }
}

/// Appends a place for each byte.
fn push_bytes(alloc: Global, row: &mut Vec<Place>, bytes: &[u8]) -> Result<(), AllocError>
    ensures { OnOk result (option_map (join (pure_row row.old.items)) (spec.bytes_row bytes.now) ≡ Some (pure_row row.new.items)) }
{
    for byte in bytes {
        push_place(row, byte_place(alloc, *byte))?;
    }
    Ok(())
}

/// An array of these places.
fn array_tree(element: CadType, parts: Vec<Place>) -> Tree
    ensures { pure_tree result ≡ whole (rows.array (pure_type element)) (pure_row parts.items) }
{
    Tree {
        optionals: 0,
        shape: Shape::Array(element),
        parts,
    }
}

/// The type of bytes.
fn byte_type() -> CadType
    ensures { pure_type result ≡ spec.byte_type }
{
    CadType::Basic(Basic::Number(Kind::UInt8))
}

/// Bytes as an array. TooLarge where there are over 65,536.
pub fn bytes_tree(alloc: Global, bytes: &[u8]) -> Result<Tree, Stop>
    ensures { Gives pure_tree (spec.bytes_tree bytes.now) result }
{
    if bytes.len() > MOST_ELEMENTS {
        return Err(Stop::Failed(RunError::TooLarge));
    }
    let mut row = Vec::new(alloc);
    match push_bytes(alloc, &mut row, bytes) {
        Ok(()) => Ok(array_tree(byte_type(), row)),
        Err(_) => {
            discard_row(row);
            Err(Stop::Memory)
        }
    }
}

/// A number as a byte. Want of memory is told of what is no byte, as no element of an array of bytes is.
fn as_byte(number: Option<Num>) -> Result<Option<u8>, AllocError>
    ensures { IfOk result (λ o. o ≡ option_map (λ x. x.magnitude) number) }
{
    match number {
        None => Ok(None),
        Some(x) => {
            if x.magnitude > 255 {
                return Err(AllocError);
            }
            Ok(Some(x.magnitude as u8))
        }
    }
}

/// The byte that stands in a place.
fn byte_of(place: &Place) -> Result<Option<u8>, AllocError>
    ensures { IfOk result (λ o. o ≡ byte_in (pure_place place.now)) }
{
    match place {
        Place::Empty => Ok(None),
        Place::Full(_, tree) => as_byte(number_in(tree)),
    }
}

/// The bytes that stand in a row.
fn bytes_in_row(alloc: Global, row: &[Place]) -> Result<Option<Bytes>, AllocError>
    ensures { IfOk result (λ o. o ≡ spec.bytes_in_row (pure_row row.now)) }
{
    let mut bytes = Bytes::new(alloc);
    for place in row {
        match byte_of(place)? {
            None => return Ok(None),
            Some(byte) => bytes.push(byte)?,
        }
    }
    Ok(Some(bytes))
}

/// The bytes of an array of numbers. None of all else.
pub fn bytes_in(alloc: Global, tree: &Tree) -> Result<Option<Bytes>, AllocError>
    ensures { IfOk result (λ o. o ≡ spec.bytes_in (pure_tree tree.now)) }
{
    if !is_array(tree) {
        return Ok(None);
    }
    bytes_in_row(alloc, parts(tree))
}
