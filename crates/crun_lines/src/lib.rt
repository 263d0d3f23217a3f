//! The lines that a run of linked units with hosts prints: calls of hosts, calls, what stopped the run,
//! and the state of the units.
#![tactic(auto)]

mod calls;
mod cases;
mod hosts;
mod laws;
mod names;
mod objects;
mod rows;
mod words;

pub use c_meaning::{HostReply, UndefinedAt};
pub use calls::{Phase, Stop, ended_line, last_line};
pub use hosts::host_line;
pub use laws::{
    lines_stand_in_the_order_of_the_run, names_have_one_order, objects_are_told_by_their_numbers,
};
pub use names::{Numbered, names_in_order};
pub use objects::{Function, element_line, length_line, pages_line, variable_line};
pub use rows::{row_count, row_line};
pub use words::put_name;
