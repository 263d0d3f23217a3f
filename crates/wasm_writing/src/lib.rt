//! The shortest file of a module (WebAssembly Core 1.0, chapter 5; of Core 2.0 the data count section, the sign extensions,
//! memory.copy and memory.fill), and whether a module has a file.
#![tactic(auto, using(crate::proofs::Pieces::makes_here, crate::proofs::Pieces::fits_here))]

mod bodies;
mod code;
mod draft;
mod entries;
mod laws;
mod module;
mod sections;
mod types;
mod vectors;

pub use laws::what_is_written_is_read_again;
pub use module::{Formed, write_module};
