//! Tests of the crates of modules, by what they offer to others. They stand apart, since a crate with
//! tests is proved twice, with and without them.
#![tactic(auto)]

#[cfg(test)]
mod generating;
#[cfg(test)]
mod helpers;
#[cfg(test)]
mod index_spaces;
#[cfg(test)]
mod units;
