// Lines that are made and written on a stream.
ghost use Rattle.std.specs.Prelude.{◌≡◌, ◌++◌, ℕ, List, IfOk, OnOk};
ghost use Rattle.std.specs.Fmt.{decimal};
ghost use Rattle.program_words.specs.Writing.{Writes};

use itoa::Buffer;
use w2c_base::{Bytes, Memory};
use w2c_io::{Sink, WriteAnswer};

/// Puts a text and a number behind it, in decimal, at the end of a line.
pub fn put_counted(line: &mut Bytes, text: &[u8], number: u64) -> Result<(), Memory>
    ensures { OnOk result (line.new ≡ line.old ++ (text.now ++ decimal number)) }
{
    let mut buffer = Buffer::new();
    line.extend(text)?;
    line.extend(buffer.format(number).as_bytes())
}

/// Writes a line, if there was memory for it; an empty one needs no write.
///
/// # Errors
///
/// `Failed` where the stream failed, `Memory` where memory was wanting. The stream has gained a prefix of the line then.
pub fn put_line<O: Sink>(line: Result<Bytes, Memory>, out: &mut O) -> Result<(), WriteAnswer>
    ensures { (text : List ℕ) → IfOk line (λ bytes. bytes ≡ text)
        → Writes (O.told out.old) (O.told out.new) (O.faults out.old) (O.faults out.new) text result }
{
    match line {
        Ok(line) => put(line.as_slice(), out),
        Err(Memory) => Err(WriteAnswer::Memory),
    }
}

fn put<O: Sink>(text: &[u8], out: &mut O) -> Result<(), WriteAnswer>
    ensures { Writes (O.told out.old) (O.told out.new) (O.faults out.old) (O.faults out.new) text.now result }
{
    if text.is_empty() {
        return Ok(());
    }
    match out.put(text) {
        Ok(()) => Ok(()),
        Err(answer) => Err(answer),
    }
}
