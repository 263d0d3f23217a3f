//! Units and the symbols of hosts, linked: each symbol that a unit declares is resolved once, with
//! equal type.
#![tactic(auto)]

mod calls;
mod functions;
mod host_symbol;
mod linked;
mod offers;
mod own;
mod passes;
mod refusal;

pub use functions::{defined_function, function_type};
pub use host_symbol::HostSymbol;
pub use linked::{Linked, link};
pub use offers::Owner;
pub use refusal::LinkRefusal;
