// The texts of a file's module, or why there are none, in the words of the program's lines.
use crate::faults::{at, caused};
use crate::written::writes_these;
use std::alloc::{AllocError, Global};
use w2c_base::MODULE_BYTES;
use w2c_sim::{Refusal, Texts, translate};

/// The text of the unit and that of the header, or the line of the refusal without the file's name.
pub fn texts_of(alloc: Global, name: &str, bytes: &[u8]) -> Result<String, AllocError> {
    if bytes.len() > MODULE_BYTES {
        return caused(alloc, "limit", MODULE_BYTES as u64, "module bytes");
    }
    if name.is_empty() || name.len() > 1024 {
        return String::from_str(alloc, "no module name");
    }
    match translate(alloc, bytes, name.as_bytes()) {
        Ok(texts) => match writes_these(alloc, bytes, name.as_bytes(), &texts) {
            Ok(true) => both_texts(alloc, &texts),
            _ => String::from_str(alloc, "other texts are written"),
        },
        Err(refusal) => text_of_refusal(alloc, refusal),
    }
}

fn both_texts(alloc: Global, texts: &Texts) -> Result<String, AllocError> {
    let mut text = String::from_str(alloc, "\n")?;
    for part in [&texts.unit, &texts.header] {
        match str::from_utf8(part.as_slice()) {
            Ok(part) => text.push_str(part)?,
            Err(_) => text.push_str("no text")?,
        }
    }
    Ok(text)
}

fn text_of_refusal(alloc: Global, refusal: Refusal) -> Result<String, AllocError> {
    match refusal {
        Refusal::Malformed(place, cause) => {
            caused(alloc, "malformed", u64::from(place), cause.text())
        }
        Refusal::Float(place) => at(alloc, "float", u64::from(place)),
        Refusal::Limit(place, which) => caused(alloc, "limit", u64::from(place), which.text()),
        Refusal::Invalid(place, cause) => {
            caused(alloc, "invalid", u64::from(place), cause.text())
        }
        Refusal::Memory => String::from_str(alloc, "want of memory"),
    }
}
