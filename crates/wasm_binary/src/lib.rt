//! The binary format of WebAssembly modules (WebAssembly Core 1.0, chapter 5; Core 2.0 for sign extension, `memory.copy`,
//! `memory.fill` and the data count section): a module is read from its bytes, or their first fault is named.
#![tactic(auto)]

mod bodies;
mod code;
mod data;
mod entries;
mod fields;
mod module;
mod rest;
mod sections;
mod types;
mod vectors;
mod windows;

pub use module::read_module;
pub use wasm_spelling::{Cause, ReadFault, Which};
