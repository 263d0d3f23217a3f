//! Generated modules, by which the programs are measured: as many functions as wanted, the same each time.
#![tactic(auto)]

mod file;
mod functions;
mod laws;
mod module;

pub use file::generate;
pub use laws::{
    a_generated_module_has_one_file, generated_files_are_accepted, generated_modules_are_formed,
    generated_modules_are_valid, the_files_of_one_and_two_functions,
};
