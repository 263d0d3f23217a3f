// What is said of a place in a file or a text.
use std::alloc::{AllocError, Global};

/// What stands at a place.
pub fn at(alloc: Global, what: &str, place: u64) -> Result<String, AllocError> {
    format!(in alloc; "{what} at {place}")
}

/// What stands at a place, with the cause.
pub fn caused(alloc: Global, what: &str, place: u64, cause: &str) -> Result<String, AllocError> {
    format!(in alloc; "{what} at {place}: {cause}")
}
