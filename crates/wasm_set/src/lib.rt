//! Linked sets of modules, decided on their trees: which module joins the set behind those that joined before, and
//! which call fits it.
#![tactic(auto)]

mod joining;
mod module_set;
mod offer;
mod offers;
mod set_module;
mod spaces;
mod types;

pub use module_set::ModuleSet;
pub use set_module::SetModule;
