// What a form gives that may not be one that does.
ghost use Rattle.std.specs.Prelude.{◌≡◌, option_map};
ghost use Rattle.std.specs.Option.{option_flatten};
ghost use Rattle.cad_environment.specs.Views.{base_of};
ghost use Rattle.cad_infer_calls.specs.Views.{call_view};

use cad_environment::Base;
use cad_infer_calls::Call;

/// What is called, if the form can be.
pub(crate) fn flat_call(found: Option<Option<Call>>) -> Option<Call>
    ensures { option_map call_view result ≡ option_flatten (option_map (option_map call_view) found) }
{
    match found {
        Some(found) => found,
        None => None,
    }
}

/// What stands somewhere, if the form does.
pub(crate) fn flat_base(found: Option<Option<Base>>) -> Option<Base>
    ensures { option_map base_of result ≡ option_flatten (option_map (option_map base_of) found) }
{
    match found {
        Some(found) => found,
        None => None,
    }
}
