//! From the bytes of a module to the texts of its unit and its header, whole or an item at a time into a file, and
//! that linked units do what their modules do.
#![tactic(auto)]

mod file_verdict;
mod laws;
mod refusal;
mod translation;
mod writing;

pub use file_verdict::accept;
pub use laws::{linked_units_do_what_modules_do, texts_spell_units};
pub use refusal::Refusal;
pub use translation::{Texts, translate};
pub use writing::{write_header, write_unit};
