//! Text to units: the unit that a text spells, or its first faulty token.
#![tactic(auto)]

mod argument;
mod call;
mod ctype;
mod expression;
mod function;
mod item;
mod laws;
mod statement;
mod together;
mod unit;

pub use c_tree::{CReadFault, Part, Tok, Wanted};
pub use laws::{faults_are_of_tokens, one_fault, unit_or_fault};
pub use unit::read_unit;
