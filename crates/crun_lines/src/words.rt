// How numbers, values and names are put at the end of a line.
ghost use Rattle.std.specs.Prelude.{◌≡◌, ◌++◌, OnOk};
ghost use Rattle.std.specs.Fmt.{decimal};
ghost use Rattle.crun_lines.specs.Words.{name_text, number_text, or_z, value_text, values_text};

use itoa::Buffer;
use std::alloc::Global;
use w2c_base::{Bytes, Memory, Value};
use w2c_mangle::escape;

pub(crate) fn put_number(line: &mut Bytes, number: u64) -> Result<(), Memory>
    ensures { OnOk result (line.new ≡ line.old ++ decimal number) }
{
    let mut buffer = Buffer::new();
    line.extend(buffer.format(number).as_bytes())
}

pub(crate) fn put_value(line: &mut Bytes, value: Option<Value>) -> Result<(), Memory>
    ensures { OnOk result (line.new ≡ line.old ++ value_text value) }
{
    match value {
        None => line.extend(b"none"),
        Some(value) => put_typed_number(line, value),
    }
}

pub(crate) fn put_values(line: &mut Bytes, values: &[Value]) -> Result<(), Memory>
    ensures { OnOk result (line.new ≡ line.old ++ values_text values.now) }
{
    for value in values {
        line.extend(b" ")?;
        put_typed_number(line, *value)?;
    }
    Ok(())
}

fn put_typed_number(line: &mut Bytes, value: Value) -> Result<(), Memory>
    ensures { OnOk result (line.new ≡ line.old ++ number_text value) }
{
    match value {
        Value::I32(number) => {
            line.extend(b"i32:")?;
            put_number(line, u64::from(number))
        }
        Value::I64(number) => {
            line.extend(b"i64:")?;
            put_number(line, number)
        }
    }
}

/// Puts the name of a host or of its function at the end of a line, escaped: `Z` for a name without letters.
pub fn put_name(alloc: Global, line: &mut Bytes, name: &[u8]) -> Result<(), Memory>
    ensures { OnOk result (line.new ≡ line.old ++ name_text name.now) }
{
    let text = escape(alloc, name)?;
    line.extend(or_z(text.as_slice()))
}

fn or_z(text: &[u8]) -> &[u8]
    ensures { result.now ≡ or_z text.now }
{
    if text.is_empty() { b"Z" } else { text }
}
