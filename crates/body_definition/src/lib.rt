//! Which C function a function of a module is translated to: a variable for each operand by its height and type, a statement
//! or two for each instruction, and jumps. Definitions, which the translator and the theorems speak of.
#![tactic(auto)]

mod cases;

pub use cases::{body_cases, need_cases};
