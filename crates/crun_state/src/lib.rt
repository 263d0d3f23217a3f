//! Writes the lines of the state of linked units: their objects in the order of their names, unit by unit; and gives the names of
//! hosts and of their functions by number.
#![tactic(auto)]

mod memories;
mod names;
mod naming;
mod places;
mod state;
mod tables;
mod variables;

pub use naming::{function_name, host_name};
pub use state::show_state;
