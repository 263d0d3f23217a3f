//! Names as parts of C identifiers, and the symbols by which translation units name each other's
//! exports.
#![tactic(auto)]

mod escaping;
mod symbol;
mod unescaping;

pub use escaping::{equal_escapes_have_equal_names, escape};
pub use symbol::{
    SymbolKind, equal_export_symbols_have_equal_parts, equal_init_symbols_have_equal_modules,
    export_symbol, init_symbol, init_symbols_are_no_export_symbols, symbols_are_identifiers,
};
pub use unescaping::{UnescapeFault, unescape};
