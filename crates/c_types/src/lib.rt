//! The types of expressions, and what statements ask of names and types: that the names are known,
//! that expressions have a type, and that assignments, calls and results agree.
#![tactic(auto)]

mod agreement;
mod ctype;
mod known;
mod statements;
mod typed;
mod typing;

pub use ctype::{Typed, is_number_type, is_result_type, is_value_type, is_void, proper_types};
pub use statements::{names_are_known, stmt_is_typed, types_agree};
pub use typing::type_of;
