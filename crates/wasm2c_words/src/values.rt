// The values that clap finds in the words.
ghost use Rattle.std.specs.Prelude.{◌≡◌, IfOk};
ghost use Rattle.clap.specs.Words.{found_of, rows_of};
ghost use Rattle.wasm2c_words.specs.Command.{values_in};
ghost use Rattle.wasm2c_words.specs.Seen.{seen_values};

use clap::ArgMatches;
use program_words::{value_by, words_by};
use std::alloc::{AllocError, Global};

/// The values of the options, each where it was used, and the files in order.
#[derive(Drop)]
pub struct Values<'a> {
    pub output: Option<&'a str>,
    pub module_name: Option<&'a str>,
    pub dir: Option<&'a str>,
    pub count: Option<&'a str>,
    pub runtime: Option<&'a str>,
    pub files: Vec<&'a str>,
}

impl<'a> Values<'a> {
    /// The values of a parse.
    pub fn of(alloc: Global, matches: &ArgMatches<'a>) -> Result<Values<'a>, AllocError>
        ensures { IfOk result (λ values. seen_values values ≡ values_in (rows_of (found_of matches.now))) }
    {
        let files = words_by(alloc, matches, "files")?;
        Ok(Values {
            output: value_by(matches, "output"),
            module_name: value_by(matches, "name"),
            dir: value_by(matches, "dir"),
            count: value_by(matches, "gen"),
            runtime: value_by(matches, "runtime"),
            files,
        })
    }
}
