//! The init function of a module's unit, which instantiates the module: it takes and tests imports, makes what the module
//! defines, tests the bounds of all segments and writes them, and calls the start function. In the unit of a large module it calls
//! static functions, its parts, for globals and segments.
#![tactic(auto)]

mod elements;
mod import_symbols;
mod init;
mod limits;
mod needs;
mod parts;
mod pieces;
mod portion;
mod portions;
mod segments;
mod source;
mod statements;
mod values;

pub use portion::Portion;
pub use portions::portions_of;
pub use source::Source;
