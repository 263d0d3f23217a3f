//! Translates WebAssembly modules to C.
#![tactic(auto)]

mod accepting;
mod example;
mod law;
mod plan;
mod reading;
mod report;
mod runtime;
mod stop;
#[cfg(test)]
mod tests;
mod top;
mod translating;
mod work;
mod writing;

pub use example::{two_c_gives_42, two_wasm_becomes_two_c};
pub use law::{distinct_files, honest_files, one_job};
use program_words::exit_code;
use std::process::ExitCode;
pub use top::{sure_top, wasm2c_top};
use w2c_base::Memory;
use w2c_io::{StdFiles, StdSink, ToldSink, std_words};

fn main(rt: HostRuntime) -> ExitCode {
    exit_code(status(&rt))
}

// Over the files and the error stream of the system. Where memory is wanting for the words, it is for a line too.
fn status(rt: &HostRuntime) -> Result<u8, Memory> {
    let words = std_words(rt)?;
    let alloc = rt.alloc();
    let mut files = StdFiles::new(rt, alloc);
    let mut err = ToldSink::new(StdSink::err(rt));
    Ok(wasm2c_top(alloc, words.as_slice(), &mut files, &mut err))
}
