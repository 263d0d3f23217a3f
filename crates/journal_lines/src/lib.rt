//! The lines of a journal, which says the functions of hosts and what these were asked and replied: their texts, and
//! what a line says, word by word.
#![tactic(auto)]

mod cuts;
mod laws;
mod line;
mod lists;
mod names;
mod number;
mod read;
mod types;
mod values;
mod write;

pub use cuts::{part_at, parts};
pub use laws::{line_cases, one_line};
pub use line::{FunctionLine, HostLine, JournalLine};
pub use read::read_line;
pub use write::{function_line, module_line};
