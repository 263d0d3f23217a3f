//! The linear memory of a module (WebAssembly Core 1.0, 4.2.8): bytes in pages, each taken and
//! given back by itself, and numbers read from them and written to them.
#![tactic(auto)]

mod cells;
mod memory;
mod page;

pub use memory::LinMem;

/// Bytes of a page.
pub const PAGE_BYTES: usize = 65_536;
