// A journal is read from its text.
ghost use Rattle.std.specs.Prelude.{◌≡◌, ◌==◌, ◌<◌, ◌≤◌, ◌∷◌, ◌++◌, [], ℕ, not, true, length, Err, IfOk};
ghost use Rattle.std.specs.List.{list_all};
ghost use Rattle.crun_lines.specs.Views.{texts};
ghost use Rattle.host_replay.specs.declared.read.JournalFault.TheVariants as fault;
ghost use Rattle.host_replay.specs.Reading.{empty, ended, IsJournal, IsRefused, IsRefusedAt, Read};
ghost use Rattle.host_replay.specs.Recording.{recorded};

use crate::file::JournalFile;
use crate::reading::Reading;
use journal_lines::{part_at, parts};
use name_table::Salted;
use std::alloc::{AllocError, Global};
use w2c_base::Memory;

/// Why a text is no journal.
#[derive(Clone, Copy, Debug, PartialEq, Eq)]
pub enum JournalFault {
    /// The line with this number, from 1, is the first that is refused.
    Line(u32),
    /// An allocation failed.
    Memory,
}

impl From<AllocError> for JournalFault {
    ghost use Rattle.host_replay.specs.declared.read.JournalFault.{JournalFault};

    ghost from_gives = { λ _ fault. fault ≡ JournalFault.Memory };

    fn from(_: AllocError) -> Self {
        JournalFault::Memory
    }
}

/// The journal that a text is. It has at most 67,108,864 bytes. `Line` with the first line that is not of the form of a
/// journal's lines, has a function in front of any module, a module or a function behind a call, a second function with
/// the same symbol, a call of a function that is not there, or arguments or a reply of other types than the function's.
/// Each line ends with a newline.
pub fn read_journal(alloc: Global, bytes: &[u8]) -> Result<JournalFile, JournalFault>
    requires { length bytes.now ≤ 67108864 }
    ensures journal { IfOk result (λ f. IsJournal bytes.now (recorded f)) }
    ensures line { (k : ℕ) → result ≡ Err (fault.Line k) → IsRefusedAt bytes.now k }
{
    let all = parts(alloc, bytes, b'\n')?;
    match all.as_slice().split_last() {
        Some((rest, lines)) => read_lines(alloc, lines, *rest),
        None => Ok(JournalFile::new(alloc)),
    }
}

// Lines, which newlines end, and what stands behind the last newline.
fn read_lines(alloc: Global, lines: &[&[u8]], rest: &[u8]) -> Result<JournalFile, JournalFault>
    requires small { length lines.now < 4294967295 }
    requires no_newline { list_all (λ b. not (b == 10)) rest.now ≡ true }
    ensures journal { IfOk result (λ f. Read empty (ended (texts lines.now ++ rest.now ∷ [])) (recorded f)) }
    ensures line { (k : ℕ) → result ≡ Err (fault.Line k) → IsRefused (ended (texts lines.now ++ rest.now ∷ [])) k }
{
    let mut reading = Reading::new(alloc, Salted::of(lines));
    for k in 0..lines.len() {
        match reading.step(alloc, part_at(lines, k)) {
            Ok(true) => {}
            Ok(false) => return Err(JournalFault::Line(k as u32 + 1)),
            Err(Memory) => return Err(JournalFault::Memory),
        }
    }
    if !rest.is_empty() {
        return Err(JournalFault::Line(lines.len() as u32 + 1));
    }
    Ok(reading.file)
}
