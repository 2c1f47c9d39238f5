// Statements without a value.
ghost use Rattle.std.specs.Prelude.{◌≡◌, Some, option_map};
ghost use Rattle.cad_syntax.specs.Types.{pure_type};
ghost use Rattle.cad_types.specs.Classes as class;
ghost use Rattle.cad_declarations.specs.Typed as typed;
ghost use Rattle.cad_declarations.specs.Views.{statement_of};
ghost use Rattle.cad_typing.specs.Environments.{when};

use cad_declarations::TypedStatement;
use cad_statement_parts::is_void;
use cad_syntax::CadType;

/// `return` without a value.
pub fn nothing_returned(at: u64, result_type: &CadType) -> Option<TypedStatement>
    ensures { option_map statement_of result ≡ when (class.is_void (pure_type result_type.now)) (Some (typed.return_nothing at)) }
{
    if is_void(result_type) {
        Some(TypedStatement::Return { at, value: None })
    } else {
        None
    }
}
