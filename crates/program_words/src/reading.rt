// The reading of the words.
ghost use Rattle.std.specs.Prelude.{◌≡◌, true, None, Some, IfOk, IsErrOf};
ghost use Rattle.clap.specs.Words.{app_of, found_of, is_simple_and_free, kind_of, rows_of};
ghost use Rattle.w2c_files.specs.Words.{texts};
ghost use Rattle.program_words.specs.Command.{rows_read};
ghost use Rattle.program_words.specs.declared.no_line.NoLine.{NoLine};

use crate::no_line::NoLine;
use clap::error::ErrorKind;
use clap::{ArgMatches, Command, Error};

/// What `clap` finds in the words by a command whose arguments have no rules on one another.
///
/// # Errors
///
/// `Usage` exactly where it refuses the words, `--help` among them, unless memory is wanting.
pub fn read_matches<'a>(command: Command<'a>, words: &'a [String]) -> Result<ArgMatches<'a>, NoLine>
    requires { is_simple_and_free (app_of command) ≡ true }
    ensures rows { IfOk result (λ matches. rows_read (app_of command.entry) (texts words.now) ≡ Some (rows_of (found_of matches))) }
    ensures usage { IsErrOf result NoLine.Usage → rows_read (app_of command.entry) (texts words.now) ≡ None }
{
    match command.try_get_matches_from(words) {
        Ok(matches) => Ok(matches),
        Err(error) => Err(refusal(&error)),
    }
}

// Why `clap` gave no values: want of memory, or words that have no reading.
fn refusal(error: &Error) -> NoLine
    ensures usage { result ≡ NoLine.Usage → kind_of error.now ≡ ErrorKind.OutOfMemory → ⊥ }
    ensures memory { result ≡ NoLine.Memory → kind_of error.now ≡ ErrorKind.OutOfMemory }
{
    if error.kind() == ErrorKind::OutOfMemory {
        NoLine::Memory
    } else {
        NoLine::Usage
    }
}
