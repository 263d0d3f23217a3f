//! The tokens of a text of the C subset, each cut when a reader comes to it.
#![tactic(auto)]

mod cursor;
mod front;
mod number;
mod token;
mod word;

pub use cursor::Cursor;
pub use number::value;
