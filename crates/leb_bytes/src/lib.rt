//! Integers in the binary format's variable-length spelling (WebAssembly Core 1.0, 5.2.2: LEB128):
//! they are read from a window of bytes and written in the shortest way.
#![tactic(auto)]

mod fault;
mod laws;
mod read;
mod window;
mod write;

pub use fault::LebFault;
pub use laws::{
    a_number_has_one_shortest_spelling, a_spelling_is_read_again, each_window_has_one_answer,
    no_spelling_begins_another, the_spelling_fixes_the_number,
};
pub use read::{read_s32, read_s64, read_u32};
pub use window::{front_s32, front_s64, front_u32};
pub use write::{write_s32, write_s64, write_u32};
