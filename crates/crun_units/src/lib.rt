//! The forms of crun that write a unit: linked units are written as one, or one is written without the static functions
//! that nothing needs.
#![tactic(auto)]

mod law;
mod merging;
mod output;
mod trimming;

pub use law::one_unit_job;
pub use merging::merge_units;
pub use trimming::trim_unit;
