//! Trimming a unit of the C subset: the same unit without the static functions that nothing needs, and what that
//! keeps.
#![tactic(auto)]

mod cases;
mod copies;
mod laws;
mod reach;
mod trimming;

pub use cases::{chain_cases, place_cases, sample_cases, trimmed_cases};
pub use laws::{
    one_trimmed_unit, trimmed_units_are_checked, trimmed_units_run_in_place,
    trimming_twice_is_trimming_once,
};
pub use trimming::trim;
