// Values on the heap while parts are evaluated, so that a form holds room on the stack for a pointer alone.
ghost use Rattle.std.specs.Prelude.{◌≡◌};
ghost use Rattle.cad_boxed_trees.specs.Views.{Boxes};

use cad_outcomes::Stop;
use cad_rows::{Tree, discard_tree};

/// A value that was found, on the heap. Errors are those of the value, and memory.
#[inline(never)]
pub fn boxed(found: Result<Tree, Stop>) -> Result<Box<Tree>, Stop>
    ensures { Boxes found result }
{
    match found {
        Ok(tree) => {
            let alloc = *tree.parts.allocator();
            match Box::new(alloc, tree) {
                Ok(own) => Ok(own),
                Err(refused) => {
                    discard_tree(refused.value);
                    Err(Stop::Memory)
                }
            }
        }
        Err(stop) => Err(stop),
    }
}

/// The value that stood on the heap.
pub fn unboxed(value: Box<Tree>) -> Tree
    ensures { result ≡ value.value }
{
    Box::into_inner(value)
}

/// Lets a value on the heap go.
#[inline(never)]
pub fn discard_boxed(value: Box<Tree>) {
    discard_tree(unboxed(value))
}
