//! What the C function of a body is made of: the names of its operands and locals, its parameters, jumps, and what stands
//! around its code; with what makes them.
#![tactic(auto)]

mod names;
mod pieces;
mod variables;

pub use names::{local_name, slot};
pub use pieces::{operand, put_operand, set_slot, set_to_operand, width};
pub use variables::{declared, params, zero_local};
