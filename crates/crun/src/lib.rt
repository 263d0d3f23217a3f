//! Linked units that run with hosts, by the meaning of C: the init functions behind program startup (C11, 5.1.2), then call
//! after call.
#![tactic(auto)]

mod calls;
mod engine;
mod hosts;
mod outcome;
mod run_inits;
mod session;
mod shown;
mod start;

pub use c_hosts::{Asked, BoxedHost, HostFunction, HostModule, HostReply, Journal};
pub use c_meaning::UndefinedAt;
pub use hosts::{HostsRefusal, host_symbols};
pub use outcome::{Kept, Outcome, Phase, Standing, Stop};
pub use session::Session;
pub use shown::{Element, Owner};
