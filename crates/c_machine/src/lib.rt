//! The operators of expressions on numbers, and tables that find what the names of a unit stand for.
#![tactic(auto)]

mod ahead;
mod evaluation;
mod names;
mod numbered_names;
mod operators;
mod tables;

pub use ahead::Ahead;
pub use evaluation::{Fault, constant, low_half, widened};
pub use names::Numbers;
pub use numbered_names::NumberedNames;
pub use operators::operate;
pub use tables::{
    Function, FunctionTable, Tables, definition, function_numbers, label_for, number_all,
};
