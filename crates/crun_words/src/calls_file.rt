// The lines of a calls file.
ghost use Rattle.std.specs.Prelude.{◌≡◌, ◌∷◌, ◌++◌, [], IfOk, OnOk};
ghost use Rattle.w2c_files.specs.Words.{names_of};
ghost use Rattle.crun_words.specs.CallsFile.{call_lines_of, numbered as numbered_from};
ghost use Rattle.crun_words.specs.Seen.{seen_lines};

use crate::parts::{part_at, parts};
use std::alloc::Global;
use w2c_base::Memory;

/// A line that is not empty, without its newline, and its number in the file, counted from 1.
#[derive(Clone, Copy, Debug)]
pub struct NumberedLine<'a> {
    pub number: usize,
    pub text: &'a [u8],
}

/// The lines of a text that are to name calls, in order: each but the empty ones, which count. Each ends with a newline,
/// the last one optionally not.
pub fn call_lines(alloc: Global, text: &[u8]) -> Result<Vec<NumberedLine<'_>>, Memory>
    ensures { IfOk result (λ lines. seen_lines lines.items ≡ call_lines_of text.now) }
{
    let all = parts(alloc, text, b'\n')?;
    numbered(alloc, all.as_slice())
}

// The lines that are not empty, with their numbers.
fn numbered<'a>(alloc: Global, all: &[&'a [u8]]) -> Result<Vec<NumberedLine<'a>>, Memory>
    ensures { IfOk result (λ lines. seen_lines lines.items ≡ numbered_from 1 (names_of all.now)) }
{
    let mut lines = Vec::new(alloc);
    for k in 0..all.len() {
        let text = part_at(all, k);
        put_line(&mut lines, k + 1, text)?;
    }
    Ok(lines)
}

// Puts a line at the end, unless it is empty.
fn put_line<'a>(
    lines: &mut Vec<NumberedLine<'a>>,
    number: usize,
    text: &'a [u8],
) -> Result<(), Memory>
    ensures { OnOk result (seen_lines lines.new.items ≡ seen_lines lines.old.items ++ numbered_from number (text.now ∷ [])) }
{
    if text.is_empty() {
        return Ok(());
    }
    lines.push(NumberedLine { number, text })?;
    Ok(())
}
