//! Runs assertion scripts: modules that join a set, calls, and what they come to.
#![tactic(auto)]

mod cases;
mod commands;
mod example;
mod judging;
mod law;
mod linked_modules;
mod module_units;
mod no_host;
mod reporting;
mod runs;
mod session_runs;
mod stage;
mod stops;
#[cfg(test)]
mod tests;
mod top;
mod word;
mod work;
mod writing;

pub use cases::{commands_come_to_words, reports_of_words};
pub use example::two_json_is_reported;
pub use law::{honest_files, one_report};
use program_words::exit_code;
pub use runs::units_come_to_what_modules_come_to;
use std::process::ExitCode;
pub use top::wast_run_top;
use w2c_base::Memory;
use w2c_io::{StdFiles, StdSink, ToldSink, std_words};

fn main(rt: HostRuntime) -> ExitCode {
    exit_code(status(&rt))
}

// Over the files and the streams of the system. Where memory is wanting for the words, it is for a line too.
fn status(rt: &HostRuntime) -> Result<u8, Memory> {
    let words = std_words(rt)?;
    let alloc = rt.alloc();
    let mut files = StdFiles::new(rt, alloc);
    let mut out = ToldSink::new(StdSink::out(rt));
    let mut err = ToldSink::new(StdSink::err(rt));
    Ok(wast_run_top(alloc, words.as_slice(), &mut files, &mut out, &mut err))
}
