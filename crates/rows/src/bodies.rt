// The C of a module's functions.
use c_body::body;
use c_print::print_unit;
use c_tree::{Func, Item, Unit};
use std::alloc::{AllocError, Global};
use w2c_base::{MODULE_BYTES, Memory};
use wasm_binary::read_module;
use wasm_valid::{Check, ValidModule};

/// The module's name.
const NAME: &[u8] = b"m";

pub fn text_of_bodies(alloc: Global, bytes: &[u8]) -> Result<String, AllocError> {
    if bytes.len() > MODULE_BYTES {
        return String::from_str(alloc, "too long");
    }
    let Ok(module) = read_module(alloc, bytes) else {
        return String::from_str(alloc, "not read");
    };
    let Ok(valid) = ValidModule::check(alloc, module) else {
        return String::from_str(alloc, "not valid");
    };
    let text = text_of_valid(alloc, &valid);
    drop(valid);
    text
}

fn text_of_valid(alloc: Global, valid: &ValidModule) -> Result<String, AllocError> {
    let mut text = String::new(alloc);
    let mut index = valid.module().imported_funcs();
    for _ in valid.module().funcs.as_slice() {
        match body(alloc, valid, NAME, index) {
            Ok(func) => put_func(alloc, &mut text, func)?,
            Err(Memory) => text.push_str("want of memory\n")?,
        }
        index = index.saturating_add(1);
    }
    Ok(text)
}

// Behind the include line stands the function alone.
fn put_func(alloc: Global, text: &mut String, func: Func) -> Result<(), AllocError> {
    let mut unit = Unit::new(alloc);
    if unit.push(Item::Func(func)).is_err() {
        return text.push_str("want of memory\n");
    }
    if !unit.formed() {
        return text.push_str("not well formed\n");
    }
    let Ok(printed) = print_unit(alloc, &unit) else {
        return text.push_str("want of memory\n");
    };
    match str::from_utf8(printed.as_slice()) {
        Ok(whole) => match whole.split_once('\n') {
            Some((_, behind)) => {
                text.push_str("\n")?;
                text.push_str(behind.trim_end())
            }
            None => text.push_str("no include line\n"),
        },
        Err(_) => text.push_str("no text\n"),
    }
}
