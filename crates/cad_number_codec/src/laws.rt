// The laws of values as bytes.
ghost use Rattle.std.specs.Prelude.{◌≡◌};
ghost use Rattle.cad_number_codec.specs.declared.value.Value.{Value};
ghost use Rattle.cad_number_codec.specs.Spelling.{value_bytes, HasBytes};

/// No two values have the same bytes.
pub fn one_spelling()
    ensures { (v w : Value) → HasBytes v → HasBytes w → value_bytes v ≡ value_bytes w → v ≡ w }
{}
