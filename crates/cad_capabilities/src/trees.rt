// Values that members of capabilities give, and capabilities themselves.
ghost use Rattle.std.specs.Prelude.{◌≡◌, false, IfOk, Some};
ghost use Rattle.cad_capabilities.specs.Code.{stored_path};
ghost use Rattle.cad_capabilities.specs.Views.{capability_of};
ghost use Rattle.cad_evaluation.specs.Capabilities as spec;
ghost use Rattle.cad_evaluation.specs.Containers as containers;
ghost use Rattle.cad_evaluation.specs.Numbers.{number_of};
ghost use Rattle.cad_evaluation.specs.Reading.{unsigned_64};
ghost use Rattle.cad_rows.specs.Views.{pure_tree};
ghost use Rattle.cad_syntax.specs.Types.{pure_type};
ghost use Rattle.cad_values.specs.Values.{pure_value};
ghost use Rattle.cad_world.specs.Trees.{of_plain, wrapped};

use cad_operators::{number_tree, plain_tree};
use cad_rows::{Shape, Tree};
use cad_syntax::{Address, CadType, Domain, Kind, Name, Num, Path};
use cad_values::{Cap, Value};
use std::alloc::{AllocError, Global};

/// The value of what gives none.
pub(crate) fn void_tree(alloc: Global) -> Tree
    ensures { pure_tree result ≡ containers.void_tree }
{
    plain_tree(alloc, Value::Void)
}

/// A value without parts, in one optional.
pub(crate) fn wrapped_value(alloc: Global, value: Value) -> Tree
    ensures { pure_tree result ≡ wrapped (of_plain (pure_value value)) }
{
    Tree {
        optionals: 1,
        shape: Shape::Plain(value),
        parts: Vec::new(alloc),
    }
}

/// A capability as a value of the program.
fn capability_value(cap: Cap) -> Value
    ensures { of_plain (pure_value result) ≡ spec.capability_tree (capability_of cap) }
{
    Value::Capability(cap)
}

/// A capability as a value.
pub(crate) fn capability_tree(alloc: Global, cap: Cap) -> Tree
    ensures { pure_tree result ≡ spec.capability_tree (capability_of cap) }
{
    plain_tree(alloc, capability_value(cap))
}

/// A capability as a value in an optional.
pub(crate) fn wrapped_capability(alloc: Global, cap: Cap) -> Tree
    ensures { pure_tree result ≡ wrapped (spec.capability_tree (capability_of cap)) }
{
    wrapped_value(alloc, capability_value(cap))
}

/// A path into storage.
pub(crate) fn path_value(identifier: Name) -> Value
    ensures { of_plain (pure_value result) ≡ stored_path identifier }
{
    Value::Path(Path {
        domain: Domain::Storage,
        identifier,
    })
}

/// The capability of an account, a number and a type.
pub(crate) fn capability_from(
    address: Address,
    number: u64,
    lent: &CadType,
) -> Result<Cap, AllocError>
    ensures { IfOk result (λ cap. capability_of cap ≡ record { address = address; number = number; lent = pure_type lent.now }) }
{
    Ok(Cap {
        address,
        id: number,
        borrow: lent.clone()?,
    })
}

/// The number of 64 bits.
fn unsigned_number(n: u64) -> Num
    ensures { number_of Kind.UInt64 false n ≡ Some result }
{
    Num {
        kind: Kind::UInt64,
        negative: false,
        magnitude: u128::from(n),
    }
}

/// A number of 64 bits as a value.
pub(crate) fn unsigned_tree(alloc: Global, n: u64) -> Tree
    ensures { unsigned_64 n ≡ Some (pure_tree result) }
{
    number_tree(alloc, unsigned_number(n))
}
