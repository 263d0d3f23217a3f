//! What the names of a unit stand for at a place of its text: tables by which each is found
//! without a search.
#![tactic(auto)]

mod file_scope;
mod own;
mod scope;
mod signature;

pub use file_scope::FileScope;
pub use own::{Variable, own_table, own_variables};
pub use scope::Scope;
pub use signature::Signature;
