// The command that clap reads the words as.
ghost use Rattle.std.specs.Prelude.{◌≡◌, IfOk};
ghost use Rattle.clap.specs.Words.{app_of, with_rule};
ghost use Rattle.crun_words.specs.Command.{crun, word_flag as flag_rule};

use clap::{Arg, ArgAction, Command};
use program_words::{bare, with_option, with_words_left};
use std::alloc::{AllocError, Global};

/// The options `--steps`, `--calls`, `--record`, `--replay`, `--merge` and `--trim` of one value each, the flag `--state`,
/// and units. The words leave out the program's name.
pub(crate) fn command<'a>(alloc: Global) -> Result<Command<'a>, AllocError>
    ensures { IfOk result (λ command. app_of command ≡ crun) }
{
    let command = with_option(alloc, bare(alloc, "crun"), "steps")?;
    let command = with_option(alloc, command, "calls")?;
    let command = with_flag(alloc, command, "state")?;
    let command = with_option(alloc, command, "record")?;
    let command = with_option(alloc, command, "replay")?;
    let command = with_option(alloc, command, "merge")?;
    let command = with_option(alloc, command, "trim")?;
    with_words_left(alloc, command, "units")
}

// The command with a flag.
fn with_flag<'a>(
    alloc: Global,
    command: Command<'a>,
    id: &'a str,
) -> Result<Command<'a>, AllocError>
    ensures { IfOk result (λ more. app_of more ≡ with_rule (app_of command.entry) (flag_rule id.now)) }
{
    command.arg(Arg::new(alloc, id).long(id).action(ArgAction::SetTrue))
}
