// The command that clap reads the words as.
ghost use Rattle.std.specs.Prelude.{◌≡◌, IfOk};
ghost use Rattle.clap.specs.Words.{app_of, with_rule};
ghost use Rattle.program_words.specs.Command.{bare as bare_app, word_option, words_left};

use clap::{Arg, ArgAction, Command};
use std::alloc::{AllocError, Global};

/// The command of a program, with no argument yet. The words leave out the program's name.
pub fn bare<'a>(alloc: Global, program: &'a str) -> Command<'a>
    ensures { app_of result ≡ bare_app program.now }
{
    Command::new(alloc, program).no_binary_name(true)
}

/// The command with an option of a whole word, `--` and its name, which takes one value.
pub fn with_option<'a>(
    alloc: Global,
    command: Command<'a>,
    id: &'a str,
) -> Result<Command<'a>, AllocError>
    ensures { IfOk result (λ more. app_of more ≡ with_rule (app_of command.entry) (word_option id.now)) }
{
    command.arg(Arg::new(alloc, id).long(id))
}

/// The command with a last positional, which takes each word that is left.
pub fn with_words_left<'a>(
    alloc: Global,
    command: Command<'a>,
    id: &'a str,
) -> Result<Command<'a>, AllocError>
    ensures { IfOk result (λ more. app_of more ≡ with_rule (app_of command.entry) (words_left id.now)) }
{
    command.arg(Arg::new(alloc, id).action(ArgAction::Append))
}
