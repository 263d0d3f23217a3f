//! The typing rules (WebAssembly Core 1.0, chapter 3): which bodies and modules are valid, the first fault of
//! others, and modules that are known to be valid and within the limits of reading.
#![tactic(auto)]

mod cases;
mod fault;
mod valid_module;

pub use cases::{body_cases, module_cases};
pub use fault::{Fault, ValidCause, ValidRefusal};
pub use valid_module::ValidModule;
