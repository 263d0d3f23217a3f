//! The helper functions that translated units call, as functions of the C subset: one for each operator
//! that C lacks or that can trap, for sign extension, for loads and stores, for bytes copied and filled,
//! for a memory's size and for a table's elements; which instruction is done by which, by an operator of
//! C, or otherwise; and the helpers that the bodies of a module call.
#![tactic(auto)]

mod body;
mod builder;
mod cases;
mod make;
mod marks;
mod needs;
mod number_tables;
mod object_tables;
mod operation;
mod parts;
mod piece;
mod steps;

pub use cases::tree_cases;
pub use make::{helper, helper_name};
pub use needs::helpers;
pub use operation::{HELPERS, Helper, NumOp};
pub use steps::{Step, Way, pattern_32, pattern_64, step_of};
pub use wasm_tree::{LoadOp, StoreOp};
