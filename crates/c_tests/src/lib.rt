//! Tests of the crates of the C column, by what they offer to others. They stand apart, since a crate with
//! tests is proved twice, with and without them.
#![tactic(auto)]

#[cfg(test)]
mod keys;
#[cfg(test)]
mod linking;
#[cfg(test)]
mod machine;
#[cfg(test)]
mod objects;
#[cfg(test)]
mod packing;
#[cfg(test)]
mod replaying;
#[cfg(test)]
mod sessions;
#[cfg(test)]
mod texts;
