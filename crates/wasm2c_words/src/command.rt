// The command that clap reads the words as.
ghost use Rattle.std.specs.Prelude.{◌≡◌, IfOk};
ghost use Rattle.clap.specs.Words.{app_of, with_rule};
ghost use Rattle.wasm2c_words.specs.Command.{letter_option as letter_rule, wasm2c};

use clap::{Arg, Command};
use program_words::{bare, with_option, with_words_left};
use std::alloc::{AllocError, Global};

/// The options `-o`, `-n`, `--dir`, `--gen` and `--runtime` of one value each, and files. The words leave out the
/// program's name.
pub fn command<'a>(alloc: Global) -> Result<Command<'a>, AllocError>
    ensures { IfOk result (λ command. app_of command ≡ wasm2c) }
{
    let command = with_letter(alloc, bare(alloc, "wasm2c"), "output", 'o')?;
    let command = with_letter(alloc, command, "name", 'n')?;
    let command = with_option(alloc, command, "dir")?;
    let command = with_option(alloc, command, "gen")?;
    let command = with_option(alloc, command, "runtime")?;
    with_words_left(alloc, command, "files")
}

// The command with an option of one letter.
fn with_letter<'a>(
    alloc: Global,
    command: Command<'a>,
    id: &'a str,
    letter: char,
) -> Result<Command<'a>, AllocError>
    ensures { IfOk result (λ more. app_of more ≡ with_rule (app_of command.entry) (letter_rule id.now letter)) }
{
    command.arg(Arg::new(alloc, id).short(letter))
}
