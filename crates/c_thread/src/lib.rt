//! Functions of linked units that run and wait, one statement at a time, as the meaning of C says:
//! names hold numbers and pointers, and calls go across units, through pointers and to hosts.
#![tactic(auto)]

mod begin;
mod calling;
mod control;
mod linked;
mod running;
mod scope;
mod signatures;
mod stepping;
mod types;
mod values;

pub use begin::initial_value;
pub use control::LinkedUnit;
pub use linked::{HostCall, LinkedFrame, LinkedStep, LinkedThread};
pub use scope::{ObjectTables, Symbols, UnitScope};
pub use signatures::{FuncTypes, TypeList};
