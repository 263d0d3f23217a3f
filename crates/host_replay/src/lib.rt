//! Journals of hosts as files: what hosts offer and what they were asked and replied is written as a text, the text is
//! read back, and hosts reply again what it says.
#![tactic(auto)]

mod calls;
mod cases;
mod entry;
mod file;
mod fitting;
mod journal_hosts;
mod laws;
mod module;
mod place;
mod read;
mod reading;
mod replay;
mod values;

pub use cases::{reading_cases, replay_cases, text_cases};
pub use file::JournalFile;
pub use journal_hosts::replay_hosts;
pub use laws::{
    distinct_symbols_make_texts, journals_have_distinct_symbols, one_verdict,
    replayed_runs_are_the_recorded_runs, replays_offer_what_was_recorded, runs_are_recorded,
    texts_are_read_back,
};
pub use read::{JournalFault, read_journal};
pub use replay::ReplayHost;
