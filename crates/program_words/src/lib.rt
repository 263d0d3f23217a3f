//! What the three programs share: a command line that `clap` reads, and tests of its words; lines that are written on a stream;
//! and how a program ends with a line and a status. Where a function fails otherwise than for want of memory, its comment says so.
#![tactic(auto)]

mod command;
mod ending;
mod line;
mod no_line;
mod reading;
mod values;
mod word_tests;

pub use command::{bare, with_option, with_words_left};
pub use ending::{exit_code, say};
pub use line::{put_counted, put_line};
pub use no_line::NoLine;
pub use reading::read_matches;
pub use values::{value_by, words_by};
pub use word_tests::{is_decimal, is_module_name};
