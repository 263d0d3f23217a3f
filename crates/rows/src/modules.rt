// What is said of a file, in the words of the program's lines.
use crate::faults::{at, caused};
use std::alloc::{AllocError, Global};
use w2c_base::MODULE_BYTES;
use wasm_binary::{ReadFault, read_module};
use wasm_valid::{Check, ValidModule, ValidRefusal};
use wasm_writing::{Formed, write_module};

/// Accepted, or the line of the first fault without the file's name.
pub fn verdict(alloc: Global, bytes: &[u8]) -> Result<String, AllocError> {
    if bytes.len() > MODULE_BYTES {
        return caused(alloc, "limit", MODULE_BYTES as u64, "module bytes");
    }
    match read_module(alloc, bytes) {
        Ok(module) => match ValidModule::check(alloc, module) {
            Ok(valid) => {
                let text = accepted(alloc, bytes, &valid);
                drop(valid);
                text
            }
            Err(refusal) => text_of_refusal(alloc, refusal),
        },
        Err(fault) => text_of_fault(alloc, fault),
    }
}

fn accepted(alloc: Global, bytes: &[u8], valid: &ValidModule) -> Result<String, AllocError> {
    let module = valid.module();
    if !module.formed() {
        return String::from_str(alloc, "accepted, and not written");
    }
    let Ok(file) = write_module(alloc, module) else {
        return String::from_str(alloc, "want of memory");
    };
    if file.as_slice() == bytes {
        return String::from_str(alloc, "accepted");
    }
    let mut text = String::from_str(alloc, "accepted, written as")?;
    for byte in file.as_slice() {
        let digits = format!(in alloc; " {byte:02x}")?;
        text.push_str(digits.as_str())?;
    }
    Ok(text)
}

fn text_of_fault(alloc: Global, fault: ReadFault) -> Result<String, AllocError> {
    match fault {
        ReadFault::Malformed(place, cause) => {
            caused(alloc, "malformed", u64::from(place), cause.text())
        }
        ReadFault::Float(place) => at(alloc, "float", u64::from(place)),
        ReadFault::Limit(place, which) => caused(alloc, "limit", u64::from(place), which.text()),
        ReadFault::Memory => String::from_str(alloc, "want of memory"),
    }
}

fn text_of_refusal(alloc: Global, refusal: ValidRefusal) -> Result<String, AllocError> {
    match refusal {
        ValidRefusal::Invalid(place, cause) => {
            caused(alloc, "invalid", u64::from(place), cause.text())
        }
        ValidRefusal::Memory => String::from_str(alloc, "want of memory"),
    }
}
