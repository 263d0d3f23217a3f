//! A list of statements that takes little memory: all but the last ones are kept as bytes until they are asked for, in parts.
#![tactic(auto)]

mod chunk;
mod codes;
mod gaps;
mod items;
mod kinds;
mod packing;
mod statement;
mod stmts;
mod unpacking;

pub use items::{PackedBody, PackedFunc, PackedItem};
pub use stmts::{Parts, Statements};
