// The values that clap finds in the words.
ghost use Rattle.std.specs.Prelude.{◌≡◌, IfOk, option_map};
ghost use Rattle.clap.specs.Words.{first_of, found_of, rows_of};
ghost use Rattle.w2c_files.specs.Words.{names_of};
ghost use Rattle.program_words.specs.Command.{words_in};

use clap::ArgMatches;
use std::alloc::{AllocError, Global};

/// The value of an option or of a positional by its name, where it was used.
pub fn value_by<'a>(matches: &ArgMatches<'a>, id: &str) -> Option<&'a str>
    ensures { option_map (λ text. text.now) result ≡ first_of id.now (rows_of (found_of matches.now)) }
{
    matches.get_str(id)
}

/// The words that a last positional has taken, in order.
pub fn words_by<'a>(
    alloc: Global,
    matches: &ArgMatches<'a>,
    id: &str,
) -> Result<Vec<&'a str>, AllocError>
    ensures { IfOk result (λ words. names_of words.items ≡ words_in id.now (rows_of (found_of matches.now))) }
{
    match matches.get_strs(id) {
        Some(words) => Vec::from_slice(alloc, words),
        None => Ok(Vec::new(alloc)),
    }
}
