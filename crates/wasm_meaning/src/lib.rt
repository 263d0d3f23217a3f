//! What WebAssembly modules mean: operators, memories, linked sets, the execution of instructions
//! and the run of a set, as definitions, with their laws.
#![tactic(auto)]

mod cases;
mod laws;

pub use cases::{
    access_cases, bulk_cases, call_cases, control_cases, count_cases, instantiation_cases,
    linking_cases, memory_cases, operand_cases, operator_cases, run_cases, unlinked_import_cases,
    unlinked_name_cases,
};
pub use laws::{larger_budgets_give_the_same_run, operators_fit, values_go_where_they_fit};
