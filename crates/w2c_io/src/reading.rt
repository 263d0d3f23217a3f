// What a reader gives, read in turns up to its end.
ghost use Rattle.std.specs.Prelude.{◌≡◌, ◌≢◌, ◌<◌, ◌≤◌, length, IfSome, IfOk, IsErrOf};
ghost use Rattle.std.specs.IoError.{error_kind};
ghost use Rattle.std.specs.Io.KnownBytes.{ReadConsumes};
ghost use Rattle.w2c_io.specs.declared.answers.ReadAnswer.TheVariants as reading;

use crate::ReadAnswer;
use std::alloc::Global;
use std::io;
use std::io::{ErrorKind, Read};
use w2c_base::Bytes;

/// All that a reader gives up to its end, of at most `limit` bytes. TooLong where it gives more, of which it takes one
/// byte beyond the limit at most.
pub fn read_whole<R: Read>(alloc: Global, reader: &mut R, limit: usize) -> Result<Bytes, ReadAnswer>
    ensures whole { IfOk result (λ bytes. IfSome (R.remaining reader.old) (λ all. bytes ≡ all)) }
    ensures fits { IfOk result (λ bytes. length bytes ≤ limit) }
    ensures too_long { IsErrOf result reading.TooLong → IfSome (R.remaining reader.old) (λ all. limit < length all) }
    ensures not_absent { IsErrOf result reading.Absent → ⊥ }
{
    let mut bytes = Bytes::new(alloc);
    let mut buf = [0u8; 4096];
    while bytes.len() <= limit {
        let most = (limit - bytes.len()).min(4095) + 1;
        match read_some(reader, &mut buf[..most]) {
            Ok(0) => return Ok(bytes),
            Ok(count) => bytes.extend(&buf[..count])?,
            Err(answer) => return Err(answer),
        }
    }
    Err(ReadAnswer::TooLong)
}

fn read_some<R: Read>(reader: &mut R, buf: &mut [u8]) -> Result<usize, ReadAnswer>
    ensures bound { IfOk result (λ count. count ≤ length buf.new) }
    ensures bytes { ReadConsumes (R.remaining reader.old) (R.remaining reader.new) result buf.new }
    ensures not_absent { IsErrOf result reading.Absent → ⊥ }
    ensures not_long { IsErrOf result reading.TooLong → ⊥ }
{
    match reader.read(buf) {
        Ok(count) => Ok(count),
        Err(e) => Err(read_answer(&e)),
    }
}

/// Which answer an error of the system is: Memory where it is out of memory, else Failed.
pub fn read_answer(e: &io::Error) -> ReadAnswer
    ensures memory { error_kind e.now ≡ ErrorKind.OutOfMemory → result ≡ reading.Memory }
    ensures failed { error_kind e.now ≢ ErrorKind.OutOfMemory → result ≡ reading.Failed }
{
    if e.kind() == ErrorKind::OutOfMemory {
        ReadAnswer::Memory
    } else {
        ReadAnswer::Failed
    }
}
