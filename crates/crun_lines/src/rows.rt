// The lines of the rows of a memory's bytes.
ghost use Rattle.std.specs.Prelude.{◌≡◌, ◌+◌, ◌*◌, ◌/◌, ◌≤◌, ◌<◌, ◌^◌, ◌==◌, ◌++◌, length, IfOk, OnOk};
ghost use Rattle.std.specs.List.{list_all};
ghost use Rattle.hex.specs.Hex.{encode_lower};
ghost use Rattle.w2c_base.specs.LittleEndian.{bytes_at};
ghost use Rattle.crun_lines.specs.StateLines.{row_line};

use crate::objects::put_object;
use crate::words::put_number;
use hex::encode_to_slice;
use lin_mem::LinMem;
use std::alloc::Global;
use w2c_base::{Bytes, Memory};

/// Bytes of a row.
pub const ROW_BYTES: usize = 16;

/// The number of rows of a memory.
pub fn row_count(memory: &LinMem) -> u64
    ensures count { result ≡ length memory.now.bytes / 16 }
    ensures small { result < 2 ^ 44 }
{
    4096 * u64::from(memory.pages())
}

/// The line of a row, by its number from 0. It is empty, and takes no memory, where all bytes of the row are 0.
pub fn row_line(
    alloc: Global,
    unit: usize,
    name: &[u8],
    memory: &LinMem,
    row: u64,
) -> Result<Bytes, Memory>
    requires { 16 * row + 16 ≤ length memory.now.bytes }
    ensures { IfOk result (λ line. line ≡ row_line unit name.now memory.now.bytes row) }
{
    prove!(row < row_count(memory));
    let at = 16 * row;
    let mut line = Bytes::new(alloc);
    if is_zero(memory, at) {
        return Ok(line);
    }
    put_object(&mut line, unit, name)?;
    line.extend(b"at ")?;
    put_number(&mut line, at)?;
    line.extend(b" ")?;
    put_digits(&mut line, memory, at)?;
    line.extend(b"\n")?;
    Ok(line)
}

// Whether the 16 bytes from a place on are 0.
fn is_zero(memory: &LinMem, at: u64) -> bool
    requires within { at + 16 ≤ length memory.now.bytes }
    requires small { at < 2 ^ 48 }
    ensures { result ≡ list_all (λ b. b == 0) (bytes_at memory.now.bytes at 16) }
{
    memory.load8(at) == 0 && memory.load8(at + 8) == 0
}

// Puts the 16 bytes from a place on in hexadecimal.
fn put_digits(line: &mut Bytes, memory: &LinMem, at: u64) -> Result<(), Memory>
    requires within { at + 16 ≤ length memory.now.bytes }
    requires small { at < 2 ^ 48 }
    ensures { OnOk result (line.new ≡ line.old ++ encode_lower (bytes_at memory.now.bytes at 16)) }
{
    let bytes = row_at(memory, at);
    let mut digits = [0; 32];
    let _ = encode_to_slice(bytes.as_slice(), &mut digits);
    line.extend(&digits)
}

fn row_at(memory: &LinMem, at: u64) -> [u8; ROW_BYTES]
    requires within { at + 16 ≤ length memory.now.bytes }
    requires small { at < 2 ^ 48 }
    ensures { result ≡ bytes_at memory.now.bytes at 16 }
{
    let mut bytes = [0; ROW_BYTES];
    for i in 0..ROW_BYTES {
        bytes[i] = memory.load1(at + i as u64);
    }
    bytes
}
