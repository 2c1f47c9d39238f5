// Which types can be stored, which arguments can have and which can be handed out.
ghost use Rattle.std.specs.Prelude.{◌↔◌, IsTrue};
ghost use Rattle.cad_syntax.specs.Types.{pure_type};
ghost use Rattle.cad_types.specs.Classes.{Storable, Importable, Exportable};
ghost use Rattle.cad_types.specs.Views.{declarations};

use crate::declared_types::DeclaredTypes;
use cad_syntax::CadType;

/// Whether a value of this type can be stored: no reference, Void, account or controller is in it.
pub fn is_storable(declared_types: &DeclaredTypes, t: &CadType) -> bool
    ensures { IsTrue result ↔ Storable (declarations declared_types.now) (pure_type t.now) }
{
    declared_types.is_storable(t)
}

/// Whether an argument can have this type.
pub fn is_importable(declared_types: &DeclaredTypes, t: &CadType) -> bool
    ensures { IsTrue result ↔ Importable (declarations declared_types.now) (pure_type t.now) }
{
    declared_types.is_importable(t)
}

/// Whether a value of this type can be handed out.
pub fn is_exportable(declared_types: &DeclaredTypes, t: &CadType) -> bool
    ensures { IsTrue result ↔ Exportable (declarations declared_types.now) (pure_type t.now) }
{
    declared_types.is_exportable(t)
}
