//! What the helper functions of c_helpers do, which translated units call: run by the meaning of C, each gives what
//! its operator gives, or traps as it does.
#![tactic(auto)]

mod cases;
mod laws;
mod make;

pub use c_helpers::{Helper, NumOp};
pub use cases::{byte_cases, number_cases, object_cases};
pub use laws::{
    call_statements_come_to_the_end_of_the_call, call_statements_take_as_long_as_the_call,
    every_helper_is_listed, names_of_helpers_differ,
};
pub use make::helper;
pub use wasm_tree::{LoadOp, StoreOp};
