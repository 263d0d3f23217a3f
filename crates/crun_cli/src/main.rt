//! Runs units of the C subset, linked with hosts, by the meaning of C.
#![tactic(auto)]

mod cases;
mod example;
mod law;
mod offering;
mod play;
mod recording;
mod replaying;
mod running;
mod show;
mod telling;
#[cfg(test)]
mod tests;
mod top;
mod work;

use c_hosts::BoxedHost;
pub use cases::{runs_with_a_host, runs_without_hosts};
use env_host::Env;
pub use example::two_c_is_run;
pub use law::{honest_files, one_job};
use program_words::exit_code;
use std::boxed::Box;
use std::process::ExitCode;
pub use top::crun_top;
use w2c_base::Memory;
use w2c_io::{StdFiles, StdSink, ToldSink, std_words};

fn main(rt: HostRuntime) -> ExitCode {
    exit_code(status(&rt))
}

// The hosts are `env` alone, in a box.
fn status(rt: &HostRuntime) -> Result<u8, Memory> {
    let alloc = rt.alloc();
    let words = std_words(rt)?;
    let host = Box::new(alloc, Env::new(alloc)?)?;
    let mut hosts = Vec::new(alloc);
    hosts.push(BoxedHost { host })?;
    let mut files = StdFiles::new(rt, alloc);
    let mut out = ToldSink::new(StdSink::out(rt));
    let mut err = ToldSink::new(StdSink::err(rt));
    Ok(crun_top(
        alloc,
        words.as_slice(),
        &mut files,
        &mut out,
        &mut err,
        hosts,
    ))
}
