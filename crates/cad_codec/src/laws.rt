// The laws of values and types as bytes.
ghost use Rattle.std.specs.Prelude.{◌≡◌};
ghost use Rattle.cad_syntax.specs.Types.{PureType};
ghost use Rattle.cad_values.specs.Values.{PureValue};
ghost use Rattle.cad_codec.specs.Forms.{HasBytes, TypeHasBytes};
ghost use Rattle.cad_codec.specs.TypeBytes.{type_bytes};
ghost use Rattle.cad_codec.specs.ValueBytes.{value_bytes};

/// No two values have the same bytes, and no two types.
pub fn one_spelling()
    ensures values { (v w : PureValue) → HasBytes v → HasBytes w → value_bytes v ≡ value_bytes w → v ≡ w }
    ensures types { (t u : PureType) → TypeHasBytes t → TypeHasBytes u → type_bytes t ≡ type_bytes u → t ≡ u }
{}
