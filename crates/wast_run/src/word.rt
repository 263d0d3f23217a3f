// What is said of a command, and the lines of a report.
ghost use Rattle.std.specs.Prelude.{◌≡◌, IfOk};
ghost use Rattle.wast_run.specs.Report.{command_line, is_ok, total_line, word_text};

use program_words::put_counted;
use std::alloc::Global;
use w2c_base::{Bytes, Memory};

/// What a command came to.
#[derive(Clone, Copy)]
pub(crate) enum Word {
    Ok,
    /// The file of the module is too long, or is not accepted.
    Refused,
    /// With the module there is no linked set.
    Unlinked,
    /// The call fits no function that a module exports.
    NoSuchCall,
    /// The statements were spent.
    OutOfSteps,
    Failed,
}

impl Word {
    pub(crate) fn is_ok(&self) -> bool
        ensures { result ≡ is_ok self.now }
    {
        match self {
            Word::Ok => true,
            Word::Refused => false,
            Word::Unlinked => false,
            Word::NoSuchCall => false,
            Word::OutOfSteps => false,
            Word::Failed => false,
        }
    }

    fn text(&self) -> &'static str
        ensures { result.now ≡ word_text self.now }
    {
        match self {
            Word::Ok => "ok",
            Word::Refused => "refused",
            Word::Unlinked => "unlinked",
            Word::NoSuchCall => "no such call",
            Word::OutOfSteps => "out of steps",
            Word::Failed => "failed",
        }
    }
}

/// The line of the command with a number, counted from 1, with the newline.
pub(crate) fn command_line(alloc: Global, number: usize, word: Word) -> Result<Bytes, Memory>
    ensures { IfOk result (λ line. line ≡ command_line number word) }
{
    let mut line = Bytes::new(alloc);
    put_counted(&mut line, b"command ", number as u64)?;
    line.extend(b" ")?;
    line.extend(word.text().as_bytes())?;
    line.extend(b"\n")?;
    Ok(line)
}

/// The last line: how many commands there are, and how many of them are ok.
pub(crate) fn total_line(alloc: Global, total: usize, ok: usize) -> Result<Bytes, Memory>
    ensures { IfOk result (λ line. line ≡ total_line total ok) }
{
    let mut line = Bytes::new(alloc);
    put_counted(&mut line, b"total ", total as u64)?;
    put_counted(&mut line, b" ok ", ok as u64)?;
    line.extend(b"\n")?;
    Ok(line)
}
