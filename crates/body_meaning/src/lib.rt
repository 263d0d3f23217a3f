//! What the functions of bodies do: each call of a function of a linked set is followed by the call of the function of C
//! that stands for it.
#![tactic(auto)]

mod laws;

pub use laws::bodies_follow;
