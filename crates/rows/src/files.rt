// Rows of files: a name, a colon and the bytes in hexadecimal, apart by blanks.
use crate::bodies::text_of_bodies;
use crate::modules::verdict;
use crate::translations::texts_of;
use std::alloc::{AllocError, Global};

/// What is asked of a file.
#[derive(Clone, Copy)]
pub enum Asked {
    /// Whether it is accepted, with its shortest file where the bytes are not that, or its first fault.
    Verdict,
    /// The C of each function that the module defines, in the order of their indexes.
    Bodies,
    /// The text of the unit and the header's under the row's name, or why there are none; the same texts are written an item
    /// at a time.
    Texts,
}

/// The row's name with what is said of the bytes.
pub fn answer(alloc: Global, asked: Asked, line: &str) -> Result<String, AllocError> {
    let Some((name, digits)) = line.split_once(':') else {
        return format!(in alloc; "{line}: no row");
    };
    let Some(bytes) = bytes_of(alloc, digits)? else {
        return format!(in alloc; "{name}: no bytes");
    };
    answer_of(alloc, asked, name, bytes.as_slice())
}

fn answer_of(alloc: Global, asked: Asked, name: &str, bytes: &[u8]) -> Result<String, AllocError> {
    match asked {
        Asked::Verdict => {
            let text = verdict(alloc, bytes)?;
            format!(in alloc; "{name}: {text}")
        }
        Asked::Bodies => {
            let text = text_of_bodies(alloc, bytes)?;
            format!(in alloc; "{name}:{text}")
        }
        Asked::Texts => {
            let text = texts_of(alloc, name, bytes)?;
            format!(in alloc; "{name}: {text}")
        }
    }
}

// The bytes that are written so, where they are.
fn bytes_of(alloc: Global, digits: &str) -> Result<Option<Vec<u8>>, AllocError> {
    let mut bytes = Vec::new(alloc);
    for word in digits.split_whitespace() {
        match u8::from_str_radix(word, 16) {
            Ok(byte) => bytes.push(byte)?,
            Err(_) => return Ok(None),
        }
    }
    Ok(Some(bytes))
}
