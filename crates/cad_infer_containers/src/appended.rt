// Rows of typed parts, and what is appended to them; where memory runs out, it is let go by the crate that has its type.
ghost use Rattle.std.specs.Prelude.{◌≡◌, ◌++◌, ◌∷◌, [], OnOk, Some, option_map};
ghost use Rattle.cad_typing.specs.Environments.{◌>=>◌};
ghost use Rattle.cad_environment.specs.Views.{typing_of};
ghost use Rattle.cad_infer_containers.specs.Views.{typings_of};

use crate::terms::discard_pair;
use cad_declarations::Argument;
use cad_environment::{Typing, discard_typing};
use cad_typed_rows::discard_argument;
use std::alloc::AllocError;

/// A key and its value, where that has a type.
pub fn paired(x: Typing, y: Option<Typing>) -> Option<(Typing, Typing)>
    ensures { option_map typings_of result ≡ (option_map typing_of y >=> (λ y. Some (typing_of x, y))) }
{
    let Some(y) = y else {
        discard_typing(x);
        return None;
    };
    Some((x, y))
}

/// Appends a typed expression.
pub fn push_typing(row: &mut Vec<Typing>, x: Typing) -> Result<(), AllocError>
    ensures { OnOk result (row.new.items ≡ row.old.items ++ x ∷ []) }
{
    match row.push(x) {
        Ok(()) => Ok(()),
        Err(refused) => {
            discard_typing(refused.value);
            Err(AllocError)
        }
    }
}

/// Appends a key and its value.
pub fn push_pair(row: &mut Vec<(Typing, Typing)>, x: (Typing, Typing)) -> Result<(), AllocError>
    ensures { OnOk result (row.new.items ≡ row.old.items ++ x ∷ []) }
{
    match row.push(x) {
        Ok(()) => Ok(()),
        Err(refused) => {
            discard_pair(refused.value);
            Err(AllocError)
        }
    }
}

/// Appends an argument.
pub fn push_argument(row: &mut Vec<Argument>, x: Argument) -> Result<(), AllocError>
    ensures { OnOk result (row.new.items ≡ row.old.items ++ x ∷ []) }
{
    match row.push(x) {
        Ok(()) => Ok(()),
        Err(refused) => {
            discard_argument(refused.value);
            Err(AllocError)
        }
    }
}
