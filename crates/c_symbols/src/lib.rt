//! The symbols of a module's imports and exports: their names, the types of their functions in the module's
//! unit, and which imports the unit may use; the names of the
//! unit's own memory, table, globals, functions and pointers; and how each index is reached from C.
#![tactic(auto)]

mod index_spaces;
mod indexes;
mod own_names;
mod reached;
mod symbols;
mod types;

pub use index_spaces::IndexSpaces;
pub use indexes::{Indexes, Symbol};
pub use own_names::{
    MEMORY_NAME, TABLE_NAME, func_name, global_name, pointer_name, pointer_to_global,
};
pub use reached::Reached;
pub use symbols::Symbols;
pub use types::{SymbolType, accessor, pointer_type};
