//! Linked units as one unit.
#![tactic(auto)]

mod items;
mod laws;
mod merging;
mod names;
mod text;

pub use laws::{
    linked_units_may_merge, merged_units_are_spelled, merged_units_keep_the_rules,
    merged_units_link_the_same, merged_units_run_the_same,
};
pub use merging::merge;
