//! The outside as programs see it: files that are read and written by name, and streams that
//! are written to. Each in memory, in memory without faults, and real.
#![tactic(auto)]

mod answers;
mod files;
mod mem_files;
mod mem_sink;
mod plan;
mod reading;
mod record;
mod sink;
mod std_files;
mod std_sink;
mod store;
mod sure_files;
mod sure_sink;
mod told_sink;
mod words;
mod writing;

pub use answers::{ReadAnswer, WriteAnswer};
pub use files::Files;
pub use mem_files::{FileCall, MemFiles};
pub use mem_sink::MemSink;
pub use reading::read_whole;
pub use sink::Sink;
pub use std_files::StdFiles;
pub use std_sink::StdSink;
pub use sure_files::SureFiles;
pub use sure_sink::SureSink;
pub use told_sink::ToldSink;
pub use words::std_words;
pub use writing::write_piece;
