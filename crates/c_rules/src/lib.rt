//! Units that keep the rules of the C subset, and what is asked of any unit: the key of its names, and whether types are one.
#![tactic(auto)]

mod checked_unit;
mod types;
mod unit_salt;

pub use checked_unit::CheckedUnit;
pub use types::same_type;
pub use unit_salt::{absorb_labels, absorb_unit, salt_of};
