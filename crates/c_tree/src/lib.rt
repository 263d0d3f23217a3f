//! Units of the C subset as trees, and the pieces of them that several crates make; the functions of
//! the runtime; which texts spell a unit: tokens, grammar, and the first fault of a text that spells
//! none; and the rules that a unit keeps.
#![tactic(auto)]

mod formed;
mod make;
mod name;
mod primitive;
mod rule_cases;
mod rules;
mod token;
mod tree;
mod types_in_c;
mod unit;

pub use make::{
    call_primitive, copy_name, label, label_name, literal, n32, n64, name_of, no_params, one_arg,
    operation, set, three_args, to_32, to_64, trap, with_number, zero_number,
};
pub use name::{
    DEPTH_NAME, KEY_WORDS, is_depth, is_other_word, is_own_name, is_symbol, words_that_are_names,
};
pub use primitive::{Primitive, Width};
pub use rule_cases::{
    declaration_cases, ending_cases, expression_cases, name_cases, order_cases, type_cases,
    use_cases,
};
pub use rules::{
    first_broken_rule_is_broken, first_broken_rule_is_the_least, one_first_broken_rule,
};
pub use token::{CReadFault, Kind, Part, Suffix, Tok, Wanted};
pub use tree::{
    Arg, Args, Body, CFuncType, COp, CType, CTypes, Callee, Cases, Expr, Func, Header, HeaderLines,
    Item, Locals, Name, Num, Params, Stmt, Stmts,
};
pub use types_in_c::{c_func_type, c_result, c_type, c_types};
pub use unit::{
    DEPTH, UNIT_BYTES, Unit, one_unit, spelled_texts_have_no_fault, well_formed_units_are_spelled,
};
