//! The binary format of WebAssembly modules: which bytes spell a module, and the first fault of bytes
//! that spell none (WebAssembly Core 1.0, chapter 5; of Core 2.0 the data count section, the sign extensions, memory.copy and
//! memory.fill).
#![tactic(auto)]

mod cases;
mod fault;
mod laws;
mod part;

pub use cases::file_cases;
pub use fault::{Cause, ReadFault, Which};
pub use laws::{a_formed_module_keeps_within_the_limits, each_file_has_one_reading};
pub use part::Part;
