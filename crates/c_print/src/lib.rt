//! Units of the C subset and their headers as text, and units an item at a time into a file.
#![tactic(auto)]

mod expression;
mod function;
mod header;
mod item;
mod laws;
mod packed;
mod page;
mod pieces;
mod statement;
mod to_file;
mod unit;

pub use header::print_header;
pub use item::print_item_to;
pub use laws::printed_units_are_read_again;
pub use packed::print_packed_to;
pub use unit::print_unit;
