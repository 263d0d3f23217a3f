// The words of the command line.
ghost use Rattle.std.specs.Prelude.{◌≡◌, Some, None, IfOk, IsErrOf, ◌^◌, option_and_then, option_map};
ghost use Rattle.clap.specs.Words.{app_of, found_of, rows_of, with_rule};
ghost use Rattle.w2c_files.specs.Words.{texts};
ghost use Rattle.program_words.specs.declared.no_line.NoLine.{NoLine};
ghost use Rattle.crun_words.specs.Numbers.{number_below};
ghost use Rattle.wast_script.specs.CommandLine.{line_in, line_of, line_with, script_word, wast_run};
ghost use Rattle.wast_script.specs.Seen.{seen_line};

use clap::{Arg, ArgMatches, Command};
use crun_words::number;
use program_words::{NoLine, bare, read_matches, value_by, with_option};
use std::alloc::{AllocError, Global};

/// `--steps N SCRIPT.json`: how many statements are run for each assertion, and the script's file.
#[derive(Clone, Copy, Debug)]
pub struct Line<'a> {
    pub steps: u64,
    pub script: &'a str,
}

/// The line of the words, which leave out the program's name: which spellings of an option count is `clap`'s definition
/// for a command of this option and one file. N has 1 to 20 decimal digits and is below 2^64. Usage exactly where the words
/// have no reading, `--help` among them, unless memory is wanting.
pub fn read_words(alloc: Global, words: &[String]) -> Result<Line<'_>, NoLine>
    ensures line { IfOk result (λ line. line_of (texts words.now) ≡ Some (seen_line line)) }
    ensures usage { IsErrOf result NoLine.Usage → line_of (texts words.now) ≡ None }
{
    let command = command(alloc)?;
    match read_matches(command, words) {
        Ok(matches) => match line_of_matches(&matches) {
            Some(line) => Ok(line),
            None => Err(NoLine::Usage),
        },
        Err(why) => Err(why),
    }
}

fn line_of_matches<'a>(matches: &ArgMatches<'a>) -> Option<Line<'a>>
    ensures { option_map seen_line result ≡ line_in (rows_of (found_of matches.now)) }
{
    line_by(value_by(matches, "steps"), value_by(matches, "script"))
}

fn line_by<'a>(steps: Option<&'a str>, script: Option<&'a str>) -> Option<Line<'a>>
    ensures { option_map seen_line result
        ≡ line_with (option_and_then (number_below (2 ^ 64)) (option_map (λ text. text.now) steps.entry))
        (option_map (λ text. text.now) script.entry) }
{
    let Some(steps) = steps else {
        return None;
    };
    let Some(steps) = number(steps.as_bytes()) else {
        return None;
    };
    let Some(script) = script else {
        return None;
    };
    Some(Line { steps, script })
}

fn command<'a>(alloc: Global) -> Result<Command<'a>, AllocError>
    ensures { IfOk result (λ command. app_of command ≡ wast_run) }
{
    let command = with_option(alloc, bare(alloc, "wast_run"), "steps")?;
    with_script(alloc, command)
}

fn with_script<'a>(alloc: Global, command: Command<'a>) -> Result<Command<'a>, AllocError>
    ensures { IfOk result (λ more. app_of more ≡ with_rule (app_of command.entry) script_word) }
{
    command.arg(Arg::new(alloc, "script"))
}
