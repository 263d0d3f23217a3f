//! What the translation of a body has made so far, as it goes through the code: statements, the types on the operand
//! stack, open blocks, labels and slots; and the changes that instructions make of it.
#![tactic(auto)]

mod blocks;
mod branches;
mod emitter;
mod frame;
mod mark;
mod slot_variables;
mod stack;
mod target;

pub use emitter::Emitter;
pub use frame::parts;
pub use mark::Mark;
pub use slot_variables::{put_element, put_slots};
pub use stack::Operands;
pub use target::{OpenBlock, Opening, Target};
