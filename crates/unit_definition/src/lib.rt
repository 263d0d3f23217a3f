//! Which C unit a module is translated to: its objects, the bodies of its functions, a function for each export, and the init
//! function; and its header. Definitions, which the translator and the theorems speak of.
#![tactic(auto)]

mod cases;

pub use cases::{every_kind_cases, import_cases, linker_cases, object_cases};
