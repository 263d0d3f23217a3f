//! Tests of the lowest crates, by what they offer to others, and of files and streams. They stand apart, since a crate with tests is
//! proved twice, with and without them.
#![tactic(auto)]

#[cfg(test)]
mod c_numbers;
#[cfg(test)]
mod escaped_words;
#[cfg(test)]
mod escaping;
#[cfg(test)]
mod fault_texts;
#[cfg(test)]
mod files;
#[cfg(test)]
mod memories;
#[cfg(test)]
mod object_names;
#[cfg(test)]
mod outside;
#[cfg(test)]
mod reading_numbers;
#[cfg(test)]
mod signatures;
#[cfg(test)]
mod symbols;
#[cfg(test)]
mod tokens;
#[cfg(test)]
mod traps;
#[cfg(test)]
mod turns;
#[cfg(test)]
mod unescaping;
#[cfg(test)]
mod writing_numbers;
