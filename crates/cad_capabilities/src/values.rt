// Capabilities as values.
ghost use Rattle.std.specs.Prelude.{◌≡◌, IfOk, option_map};
ghost use Rattle.cad_capabilities.specs.Views as views;
ghost use Rattle.cad_evaluation.specs.Capabilities as spec;
ghost use Rattle.cad_evaluation.specs.Texts.{in_shape};
ghost use Rattle.cad_outcomes.specs.Outcomes.{Gives};
ghost use Rattle.cad_rows.specs.Views.{pure_shape, pure_tree};
ghost use Rattle.cad_values.specs.Values.{pure_value, address};

use crate::arguments::capability_in_value;
use crate::trees::{capability_from, unsigned_tree};
use cad_operators::plain_tree;
use cad_outcomes::Stop;
use cad_rows::{Shape, Tree};
use cad_syntax::Address;
use cad_values::{Cap, Value};
use std::alloc::{AllocError, Global};

/// The capability that a value with these optionals and this shape is.
fn capability_in(optionals: u64, shape: &Shape) -> Option<&Cap>
    ensures { option_map (λ c. views.capability_of c.now) result ≡ in_shape spec.capability_in_value optionals (pure_shape shape.now) }
{
    if optionals != 0 {
        return None;
    }
    match shape {
        Shape::Plain(value) => capability_in_value(value),
        _ => None,
    }
}

/// A copy of the capability that a value with these optionals and this shape is, as a spot has them; None where it is none.
pub fn capability_of(optionals: u64, shape: &Shape) -> Result<Option<Cap>, AllocError>
    ensures { IfOk result (λ o. option_map views.capability_of o ≡ in_shape spec.capability_in_value optionals (pure_shape shape.now)) }
{
    match capability_in(optionals, shape) {
        Some(cap) => match capability_from(cap.address, cap.id, &cap.borrow) {
            Ok(copy) => Ok(Some(copy)),
            Err(error) => Err(error),
        },
        None => Ok(None),
    }
}

/// The number of a capability.
pub fn read_number(alloc: Global, cap: &Cap) -> Result<Tree, Stop>
    ensures { Gives pure_tree (spec.read_number (views.capability_of cap.now)) result }
{
    Ok(unsigned_tree(alloc, cap.id))
}

/// An address as a value of the program.
fn address_value(a: Address) -> Value
    ensures { pure_value result ≡ address a }
{
    Value::Address(a)
}

/// The address of the account that issued a capability.
pub fn read_home(alloc: Global, cap: &Cap) -> Result<Tree, Stop>
    ensures { Gives pure_tree (spec.read_home (views.capability_of cap.now)) result }
{
    Ok(plain_tree(alloc, address_value(cap.address)))
}
