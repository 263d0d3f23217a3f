//! Rows, and what the product says of each, in their order. A line `[modules]`, `[units]`, `[bodies]` or `[translations]`
//! begins a part, whose rows are of that kind, and is printed as it is. Empty lines and lines that begin with `#` and a blank
//! are passed over.
#![tactic(auto)]

mod around;
mod bodies;
mod faults;
mod files;
mod modules;
mod reader;
mod translations;
mod units;
mod written;

use reader::Reader;
use std::io;

fn main(rt: HostRuntime) -> io::Result<()> {
    let alloc = rt.alloc();
    let mut reader = Reader::new(alloc);
    for line in rt.lines(alloc) {
        let line = line?;
        if let Some(answer) = reader.answer(alloc, line.as_str())? {
            println!(rt; "{answer}")?;
        }
    }
    Ok(())
}
