//! Whether a unit keeps the rules of the C subset, and the first that it breaks.
#![tactic(auto)]

mod cases;
mod checked;
mod declarations;
mod items;
mod names;
mod ours;
mod pass;
mod progress;
mod shapes;
mod statements;

pub use c_rules::CheckedUnit;
pub use checked::{Check, CheckRefusal};
