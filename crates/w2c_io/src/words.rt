// The words that a program is started with.
ghost use Rattle.std.specs.Prelude.{◌≡◌, ◌≢◌, [], IfOk, IsOk, IsErr};
ghost use Rattle.std.specs.IoError.{error_kind};

use std::alloc::Global;
use std::io::ErrorKind;
use std::{env, io};
use w2c_base::Memory;

/// The words behind the program's name. None, which no program has a reading for, where they are not text.
pub fn std_words(rt: &HostRuntime) -> Result<Vec<String>, Memory> {
    match read_words(rt) {
        Ok(words) => Ok(words),
        Err(e) => no_words(rt.alloc(), &e),
    }
}

fn read_words(rt: &HostRuntime) -> io::Result<Vec<String>> {
    let mut words = Vec::new(rt.alloc());
    for word in env::args(rt)?.skip(1) {
        words.push(word)?;
    }
    Ok(words)
}

// What stands for words that could not be read: want of memory where that is the cause, else none.
fn no_words(alloc: Global, e: &io::Error) -> Result<Vec<String>, Memory>
    ensures memory { error_kind e.now ≡ ErrorKind.OutOfMemory → IsErr result }
    ensures none { error_kind e.now ≢ ErrorKind.OutOfMemory → IsOk result }
    ensures empty { IfOk result (λ words. words.items ≡ []) }
{
    if e.kind() == ErrorKind::OutOfMemory {
        Err(Memory)
    } else {
        Ok(Vec::new(alloc))
    }
}
