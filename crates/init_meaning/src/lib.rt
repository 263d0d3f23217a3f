//! An init function follows the instantiation of its module, task by task: a law of the init functions of c_init, whatever
//! else stands in their units.
#![tactic(auto)]

mod laws;

pub use laws::inits_follow;
