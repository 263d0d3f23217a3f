//! Functions of linked units that run with hosts: host modules, the asks that they answered, and the run of
//! a function until it ends or its steps are spent.
#![tactic(auto)]

mod asking;
mod host;
mod journal;
mod running;

pub use asking::Hosts;
pub use c_meaning::HostReply;
pub use c_thread::HostCall;
pub use host::{BoxedHost, HostFunction, HostModule};
pub use journal::{Asked, Journal};
pub use running::{Ending, run};
