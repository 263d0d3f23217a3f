// A piece that is written in turns, and the half of it that a planned fault lets through.
ghost use Rattle.std.specs.Prelude.{◌≡◌, ◌≢◌, ◌/◌, length, take, OnOk, OnErr};
ghost use Rattle.std.specs.IoError.{error_kind};
ghost use Rattle.std.specs.Io.KnownBytes.{Appends};
ghost use Rattle.w2c_io.specs.Contents.{IsPrefix};
ghost use Rattle.w2c_io.specs.Passing.{AppendsSome};
ghost use Rattle.w2c_io.specs.declared.answers.WriteAnswer.TheVariants as writing;

use crate::WriteAnswer;
use std::io;
use std::io::{ErrorKind, Write};

/// Writes a piece in turns. A writer that takes nothing of what is left has failed. After an `Err` it has taken a
/// prefix of the piece.
pub fn write_piece<W: Write>(out: &mut W, piece: &[u8]) -> Result<(), WriteAnswer>
    ensures written { OnOk result (Appends (W.contents out.old) (W.contents out.new) piece.now) }
    ensures part { OnErr result (AppendsSome (W.contents out.old) (W.contents out.new) piece.now) }
{
    let mut rest = piece;
    while !rest.is_empty() {
        match out.write(rest) {
            Ok(0) => return Err(WriteAnswer::Failed),
            Ok(count) => rest = &rest[count..],
            Err(e) => return Err(write_answer(&e)),
        }
    }
    Ok(())
}

/// Which answer an error of the system is: Memory where it is out of memory, else Failed.
pub fn write_answer(e: &io::Error) -> WriteAnswer
    ensures memory { error_kind e.now ≡ ErrorKind.OutOfMemory → result ≡ writing.Memory }
    ensures failed { error_kind e.now ≢ ErrorKind.OutOfMemory → result ≡ writing.Failed }
{
    if e.kind() == ErrorKind::OutOfMemory {
        WriteAnswer::Memory
    } else {
        WriteAnswer::Failed
    }
}

/// The first half of a piece, rounded down.
pub fn first_half(piece: &[u8]) -> &[u8]
    ensures half { result.now ≡ take (length piece.now / 2) piece.now }
    ensures front { IsPrefix result.now piece.now }
{
    &piece[..piece.len() / 2]
}
