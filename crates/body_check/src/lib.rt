//! Checks the body of one function against the typing rules: whether it keeps them, and the first fault of one that
//! breaks them.
#![tactic(auto)]

mod body;
mod context;
mod numeric;
mod operand;
mod operands;
mod plain;
mod stop;

pub use body::check_body;
pub use context::Spaces;
