//! Checked units as files of C.
#![tactic(auto)]

mod writing;

pub use writing::write_unit;
