// A token that borrows the text.
use c_tree::{Suffix, Tok};

/// A token: a fixed text, a name, a number by its digits, or what fits nowhere.
#[derive(Clone, Copy)]
pub enum Token<'a> {
    Fixed(Tok),
    Named(&'a [u8]),
    Number(Suffix, &'a [u8]),
    Wrong,
}
