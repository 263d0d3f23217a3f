//! When a run of WebAssembly modules and a run of their units end alike.
#![tactic(auto)]

mod cases;
mod laws;

pub use cases::{alike_cases, alike_ends, unlike_ends};
pub use laws::alike_runs_are_defined;
