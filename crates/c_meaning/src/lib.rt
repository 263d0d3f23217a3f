//! What units of the C subset mean: operators, primitives of the runtime, linking, one statement,
//! and the run of linked units, as definitions, with their laws.
#![tactic(auto)]

mod cases;
mod laws;
mod reply;
mod undefined;

pub use cases::{link_cases, operator_cases, primitive_cases, run_cases, type_cases};
pub use laws::{
    calls_run_one_after_another, init_symbols_are_found, larger_budgets_give_the_same_run,
    numbers_go_where_they_fit, out_of_steps_exactly_on_the_way, runs_split,
};
pub use reply::HostReply;
pub use undefined::UndefinedAt;
