//! Units that keep the rules of the C subset, and link, are never stuck: laws of the meaning of C.
#![tactic(auto)]

mod cases;
mod laws;

pub use cases::each_premise_is_needed;
pub use laws::{
    entries_run_typed, linked_units_are_never_stuck, runs_tell_more, typed_programs_run_typed,
    typed_states_stay_typed,
};
