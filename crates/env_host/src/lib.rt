//! The host `env`, whose functions take a number and give nothing, or tell how often they were called.
#![tactic(auto)]

mod env;

pub use env::Env;
