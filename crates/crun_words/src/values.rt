// The values that clap finds in the words.
ghost use Rattle.std.specs.Prelude.{◌≡◌, IfOk, option_map};
ghost use Rattle.clap.specs.Words.{found_of, rows_of};
ghost use Rattle.crun_words.specs.Command.{is_used as is_used_text, values_in};
ghost use Rattle.crun_words.specs.Seen.{seen_values};

use clap::ArgMatches;
use program_words::{value_by, words_by};
use std::alloc::{AllocError, Global};

/// The values of the options, each where it was used, whether the flag was used, and the units in order.
#[derive(Drop)]
pub struct Values<'a> {
    pub steps: Option<&'a str>,
    pub calls: Option<&'a str>,
    pub shows_state: bool,
    pub journal: Option<&'a str>,
    pub replayed: Option<&'a str>,
    pub merged: Option<&'a str>,
    pub trimmed: Option<&'a str>,
    pub units: Vec<&'a str>,
}

impl<'a> Values<'a> {
    /// The values of a parse.
    pub fn of(alloc: Global, matches: &ArgMatches<'a>) -> Result<Values<'a>, AllocError>
        ensures { IfOk result (λ values. seen_values values ≡ values_in (rows_of (found_of matches.now))) }
    {
        let units = words_by(alloc, matches, "units")?;
        Ok(Values {
            steps: value_by(matches, "steps"),
            calls: value_by(matches, "calls"),
            shows_state: is_used(value_by(matches, "state")),
            journal: value_by(matches, "record"),
            replayed: value_by(matches, "replay"),
            merged: value_by(matches, "merge"),
            trimmed: value_by(matches, "trim"),
            units,
        })
    }
}

// Whether a flag was used, by the text that clap gives it.
fn is_used(text: Option<&str>) -> bool
    ensures { result ≡ is_used_text (option_map (λ t. t.now) text.entry) }
{
    match text {
        Some(text) => text == "true",
        None => false,
    }
}
