//! The words of crun's command line, read with `clap`: a run, a merge, a trim, or none of them; the files that they name,
//! read within their limits; and the lines of a calls file, each with the symbol and the numbers that it says.
#![tactic(auto)]

mod argument;
mod call;
mod calls_file;
mod cases;
mod command;
mod inputs;
mod law;
mod line;
mod numbers;
mod parts;
mod read;
mod values;

pub use argument::arguments;
pub use call::{CallLine, call_line};
pub use calls_file::{NumberedLine, call_lines};
pub use cases::{
    call_lines_that_are_read, lines_that_are_read, lines_that_are_refused,
    merges_and_trims_that_are_refused,
};
pub use inputs::{InputStop, Inputs, read_inputs, read_journal_file, read_units};
pub use law::{one_call, one_journal_reading, one_reading, one_units_reading};
pub use line::{Line, MergeLine, RunLine, TrimLine};
pub use numbers::number;
pub use read::read_words;
