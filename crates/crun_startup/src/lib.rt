//! Program startup of linked units (C11, 5.1.2): the tables by which a thread finds what their names stand for, the types
//! of their functions, their objects before the first statement, and the functions that run first.
#![tactic(auto)]

mod called;
mod init_symbol;
mod inits;
mod names;
mod objects;
mod startup;
mod symbols;
mod types;

pub use called::called_function;
pub use inits::init_functions;
pub use names::{ObjectKind, object_names};
pub use startup::{Startup, fresh_store, start_up};
