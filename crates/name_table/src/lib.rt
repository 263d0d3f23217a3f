//! Tables of names, by which what a name stands for is found without a search.
#![tactic(auto)]

mod salted;
mod table;

pub use salted::Salted;
pub use table::NameTable;
