//! Validation of modules: whether a module keeps the typing rules, and the first fault of one that breaks them.
#![tactic(auto)]

mod expressions;
mod first;
mod laws;
mod rows;
mod valid;

pub use laws::{
    each_body_has_a_typing_or_one_first_fault, each_file_has_one_verdict,
    each_module_has_one_verdict,
};
pub use valid::Check;
pub use wasm_typing::{Fault, ValidCause, ValidModule, ValidRefusal};
