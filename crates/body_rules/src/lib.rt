//! What the functions of bodies are as items of a unit: they keep the rules of C, and some text spells them.
#![tactic(auto)]

mod laws;

pub use laws::{bodies_are_formed, bodies_keep_the_rules};
