// What is said of a text, in the words of crun's lines.
use crate::faults::at;
use c_check::{Check, CheckRefusal, CheckedUnit};
use c_print::print_unit;
use c_read::read_unit;
use c_tree::{CReadFault, Part, Tok, Wanted};
use std::alloc::{AllocError, Global};

/// Accepted, or the line of the first fault or of the first broken rule without the file's name.
pub fn verdict(alloc: Global, text: &[u8]) -> Result<String, AllocError> {
    match read_unit(alloc, text) {
        Ok(unit) => match CheckedUnit::check(alloc, unit) {
            Ok(checked) => accepted(alloc, &checked),
            Err(CheckRefusal::Rule(item, statement, rule)) => {
                format!(in alloc; "rule {rule} item {item} statement {statement}")
            }
            Err(CheckRefusal::Memory) => String::from_str(alloc, "want of memory"),
        },
        Err(fault) => text_of_fault(alloc, fault),
    }
}

// A unit that keeps the rules is printed, and what is printed is read again.
fn accepted(alloc: Global, checked: &CheckedUnit) -> Result<String, AllocError> {
    let Ok(printed) = print_unit(alloc, checked.unit()) else {
        return String::from_str(alloc, "want of memory");
    };
    let Ok(again) = read_unit(alloc, printed.as_slice()) else {
        return String::from_str(alloc, "accepted, and not read again");
    };
    let Ok(twice) = print_unit(alloc, &again) else {
        return String::from_str(alloc, "want of memory");
    };
    if twice.as_slice() == printed.as_slice() {
        String::from_str(alloc, "accepted")
    } else {
        String::from_str(alloc, "accepted, and printed otherwise")
    }
}

fn text_of_fault(alloc: Global, fault: CReadFault) -> Result<String, AllocError> {
    match fault {
        CReadFault::Unexpected(place, wanted) => {
            let wanted = text_of_wanted(alloc, wanted)?;
            format!(in alloc; "unexpected at {place}: wanted {wanted}")
        }
        CReadFault::NumberTooLarge(place) => at(alloc, "number too large", place),
        CReadFault::TooDeep(place) => at(alloc, "too deep", place),
        CReadFault::UnitTooLong => String::from_str(alloc, "unit too long"),
        CReadFault::Memory => String::from_str(alloc, "want of memory"),
    }
}

fn text_of_wanted(alloc: Global, wanted: Wanted) -> Result<String, AllocError> {
    match wanted {
        Wanted::Token(Tok::Include) => String::from_str(alloc, "include line"),
        Wanted::Token(Tok::End) => String::from_str(alloc, "end"),
        Wanted::Token(Tok::Name) => String::from_str(alloc, "name"),
        Wanted::Token(Tok::Plain) => String::from_str(alloc, "plain number"),
        Wanted::Token(token) => match str::from_utf8(token.text()) {
            Ok(text) => String::from_str(alloc, text),
            Err(_) => String::from_str(alloc, "token"),
        },
        Wanted::Part(part) => name_of_part(alloc, part),
    }
}

// The name of a part is that of its variant, without `In` and in small letters.
fn name_of_part(alloc: Global, part: Part) -> Result<String, AllocError> {
    let variant = format!(in alloc; "{part:?}")?;
    match variant.strip_prefix("In") {
        Some(name) => name.to_lowercase(alloc),
        None => Ok(variant),
    }
}
