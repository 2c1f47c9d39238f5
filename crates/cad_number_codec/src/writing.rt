// Values to bytes.
ghost use Rattle.std.specs.Prelude.{◌≡◌, ◌++◌, IfOk, OnOk};
ghost use Rattle.cad_number_codec.specs.Spelling.{magnitude_field, number_bytes, value_bytes, HasBytes};

use crate::kind::{kind_byte, sign_byte};
use crate::value::Value;
use cad_syntax::{Bytes, Num};
use cad_wire::Writer;
use std::alloc::{AllocError, Global};

fn write_magnitude(writer: &mut Writer, magnitude: u128) -> Result<(), AllocError>
    ensures { OnOk result (writer.new ≡ writer.old ++ magnitude_field magnitude) }
{
    writer.number((magnitude / (1 << 64)) as u64)?;
    writer.number((magnitude % (1 << 64)) as u64)
}

/// Appends a number: the form byte 4, its kind, its sign and its magnitude.
pub fn write_number(writer: &mut Writer, n: Num) -> Result<(), AllocError>
    ensures { OnOk result (writer.new ≡ writer.old ++ number_bytes n) }
{
    writer.byte(4)?;
    writer.byte(kind_byte(n.kind))?;
    writer.byte(sign_byte(n.negative))?;
    write_magnitude(writer, n.magnitude)
}

/// The bytes of a value. A number's kind isn't `Address`.
pub fn encode(alloc: Global, value: &Value) -> Result<Bytes, AllocError>
    requires { HasBytes value.now }
    ensures { IfOk result (λ bytes. bytes ≡ value_bytes value.now) }
{
    let mut writer = Writer::new(alloc);
    match value {
        Value::Number(n) => write_number(&mut writer, *n)?,
        Value::Other(none) => match *none {},
    }
    Ok(writer.finish())
}
