// The reading of the words.
ghost use Rattle.std.specs.Prelude.{◌≡◌, None, Some, IfOk, IsErrOf};
ghost use Rattle.clap.specs.Words.{found_of, rows_of};
ghost use Rattle.w2c_files.specs.Words.{texts};
ghost use Rattle.program_words.specs.declared.no_line.NoLine.{NoLine};
ghost use Rattle.wasm2c_words.specs.Command.{values_in};
ghost use Rattle.wasm2c_words.specs.CommandLine.{line_of, line_of_values as line_by_values};
ghost use Rattle.wasm2c_words.specs.Seen.{seen_line};

use crate::command::command;
use crate::form::line_of_values;
use crate::line::Line;
use crate::values::Values;
use clap::ArgMatches;
use program_words::{NoLine, read_matches};
use std::alloc::Global;

/// The line of the words, which leave out the program's name. Usage exactly where they have no reading, unless memory is
/// wanting.
pub fn read_words(alloc: Global, words: &[String]) -> Result<Line<'_>, NoLine>
    ensures line { IfOk result (λ line. line_of (texts words.now) ≡ Some (seen_line line)) }
    ensures usage { IsErrOf result NoLine.Usage → line_of (texts words.now) ≡ None }
{
    let command = command(alloc)?;
    match read_matches(command, words) {
        Ok(matches) => line_of_matches(alloc, &matches),
        Err(why) => Err(why),
    }
}

fn line_of_matches<'a>(alloc: Global, matches: &ArgMatches<'a>) -> Result<Line<'a>, NoLine>
    ensures line { IfOk result (λ line. line_by_values (values_in (rows_of (found_of matches.now))) ≡ Some (seen_line line)) }
    ensures usage { IsErrOf result NoLine.Usage → line_by_values (values_in (rows_of (found_of matches.now))) ≡ None }
{
    let values = Values::of(alloc, matches)?;
    match line_of_values(values) {
        Some(line) => Ok(line),
        None => Err(NoLine::Usage),
    }
}
