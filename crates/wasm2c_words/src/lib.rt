//! The words of wasm2c's command line, read with `clap`: one of four forms, or none. And the names of the files that a
//! form asks for.
#![tactic(auto)]

mod cases;
mod command;
mod count;
mod file_name;
mod form;
mod line;
mod names;
mod read;
mod set_files;
mod values;

pub use cases::{lines_that_are_read, lines_that_are_refused};
pub use file_name::module_name;
pub use line::{FileSet, Generation, Line, Translation};
pub use names::header_name;
pub use read::read_words;
pub use set_files::{c_file_in, files_of_a_set_are_distinct, header_in};
