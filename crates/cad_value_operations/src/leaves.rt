// Members of values without parts.
ghost use Rattle.std.specs.Prelude.{◌≡◌};
ghost use Rattle.cad_evaluation.specs.Arguments.{with_argument, with_arguments};
ghost use Rattle.cad_evaluation.specs.Numbers as numbers;
ghost use Rattle.cad_evaluation.specs.Texts as texts;
ghost use Rattle.cad_outcomes.specs.Outcomes.{Gives};
ghost use Rattle.cad_rows.specs.Views.{pure_row, pure_shape, pure_tree};
ghost use Rattle.cad_value_operations.specs.Code.Members as spec;
ghost use Rattle.cad_value_operations.specs.declared.groups.Group.TheVariants as group;
ghost use Rattle.cad_world.specs.Rows.{Row};

use crate::arguments::argument;
use crate::groups::{AddressMember, Group, NumberMember, TextMember};
use cad_num::Op;
use cad_operators::{Operation, on_numbers};
use cad_outcomes::Stop;
use cad_rows::{Place, Shape, Tree};
use cad_syntax::Address;
use cad_text_operators::{
    address_bytes, address_in, address_text, character_in, identifier, number_bytes, number_text,
    text_bytes, text_copy, text_decoded, text_in, text_joined, text_length, text_slice, type_in,
};
use std::alloc::Global;

/// How many optionals a tree is in.
pub(crate) fn optionals(tree: &Tree) -> u64
    ensures { result ≡ (pure_tree tree.now).optionals }
{
    tree.optionals
}

/// The shape of a tree.
pub(crate) fn shape(tree: &Tree) -> &Shape
    ensures { pure_shape result.now ≡ (pure_tree tree.now).shape }
{
    &tree.shape
}

/// A text, and the argument behind it.
fn concat(alloc: Global, text: &str, row: &[Place]) -> Result<Tree, Stop>
    ensures { Gives pure_tree (with_argument (pure_row row.now) (texts.text_joined text.now)) result }
{
    match argument(row, 0) {
        Some(other) => text_joined(alloc, text, other),
        None => Err(Stop::IllTyped),
    }
}

/// A slice of a text, from one argument up to the other.
fn slice(alloc: Global, text: &str, row: &[Place]) -> Result<Tree, Stop>
    ensures { Gives pure_tree (with_arguments (pure_row row.now) (texts.text_slice text.now)) result }
{
    match argument(row, 0) {
        Some(from) => match argument(row, 1) {
            Some(up_to) => text_slice(alloc, text, from, up_to),
            None => Err(Stop::IllTyped),
        },
        None => Err(Stop::IllTyped),
    }
}

/// A member of a text.
fn of_text(alloc: Global, member: TextMember, text: &str, row: &[Place]) -> Result<Tree, Stop>
    ensures { Gives pure_tree (spec.text_member member text.now (pure_row row.now)) result }
{
    match member {
        TextMember::Length => Ok(text_length(alloc, text)),
        TextMember::Bytes => text_bytes(alloc, text),
        TextMember::Concat => concat(alloc, text, row),
        TextMember::Slice => slice(alloc, text, row),
        TextMember::Decoded => text_decoded(alloc, text),
    }
}

/// A member of the text that a value is.
fn on_text(alloc: Global, member: TextMember, tree: &Tree, row: &[Place]) -> Result<Tree, Stop>
    ensures { Gives pure_tree (spec.leaf_member (group.Text member) (pure_tree tree.now) (pure_row row.now)) result }
{
    match text_in(tree) {
        Some(text) => of_text(alloc, member, text, row),
        None => Err(Stop::IllTyped),
    }
}

/// The character that a value is, as a text.
fn on_character(alloc: Global, tree: &Tree) -> Result<Tree, Stop>
    ensures { (row : Row) → Gives pure_tree (spec.leaf_member group.Character (pure_tree tree.now) row) result }
{
    match character_in(tree) {
        Some(text) => text_copy(alloc, text),
        None => Err(Stop::IllTyped),
    }
}

/// An operation of a number with the argument that stays in the range of its kind.
fn saturated(alloc: Global, op: Op, tree: &Tree, row: &[Place]) -> Result<Tree, Stop>
    ensures { Gives pure_tree (with_argument (pure_row row.now) (numbers.on_numbers (numbers.saturating op) (pure_tree tree.now))) result }
{
    match argument(row, 0) {
        Some(other) => on_numbers(alloc, Operation::Saturation(op), tree, other),
        None => Err(Stop::IllTyped),
    }
}

/// A member of the number that a value is.
fn on_number(alloc: Global, member: NumberMember, tree: &Tree, row: &[Place]) -> Result<Tree, Stop>
    ensures { Gives pure_tree (spec.number_member member (pure_tree tree.now) (pure_row row.now)) result }
{
    match member {
        NumberMember::Told => number_text(alloc, tree),
        NumberMember::Bytes => number_bytes(alloc, tree),
        NumberMember::Saturated(op) => saturated(alloc, op, tree, row),
    }
}

/// A member of an address.
fn of_address(alloc: Global, member: AddressMember, address: Address) -> Result<Tree, Stop>
    ensures { Gives pure_tree (spec.address_member member address) result }
{
    match member {
        AddressMember::Told => address_text(alloc, address),
        AddressMember::Bytes => address_bytes(alloc, address),
    }
}

/// A member of the address that a value is.
fn on_address(alloc: Global, member: AddressMember, tree: &Tree) -> Result<Tree, Stop>
    ensures { (row : Row) → Gives pure_tree (spec.leaf_member (group.Address member) (pure_tree tree.now) row) result }
{
    match address_in(tree) {
        Some(address) => of_address(alloc, member, address),
        None => Err(Stop::IllTyped),
    }
}

/// The text that names the type that a value is.
fn on_type(alloc: Global, tree: &Tree) -> Result<Tree, Stop>
    ensures { (row : Row) → Gives pure_tree (spec.leaf_member group.Identifier (pure_tree tree.now) row) result }
{
    match type_in(tree) {
        Some(own) => identifier(alloc, own),
        None => Err(Stop::IllTyped),
    }
}

/// A member of what a value without parts is; IllTyped of any other group.
pub(crate) fn leaf(alloc: Global, group: Group, tree: &Tree, row: &[Place]) -> Result<Tree, Stop>
    ensures { Gives pure_tree (spec.leaf_member group (pure_tree tree.now) (pure_row row.now)) result }
{
    match group {
        Group::Text(member) => on_text(alloc, member, tree, row),
        Group::Character => on_character(alloc, tree),
        Group::Number(member) => on_number(alloc, member, tree, row),
        Group::Address(member) => on_address(alloc, member, tree),
        Group::Identifier => on_type(alloc, tree),
        _ => Err(Stop::IllTyped),
    }
}
