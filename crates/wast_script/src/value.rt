// The values in a script.
ghost use Rattle.std.specs.Prelude.{◌≡◌, ◌^◌, nat_lt, if◌then◌else◌, Some, None, map, option_map, IfOk};
ghost use Rattle.w2c_base.specs.declared.value.Value.TheVariants.{I32};
ghost use Rattle.serde_json.specs.View.{view};
ghost use Rattle.wast_script.specs.Lists.{all_given};
ghost use Rattle.wast_script.specs.Values.{type_named, value_in_digits, value_of, value_with, values_in};

use crate::members::{array, text};
use crun_words::number;
use serde_json::Value as Json;
use std::alloc::Global;
use w2c_base::{Memory, ValType, Value, Values};

/// The value that an object stands for by its `type` and its `value`.
pub(crate) fn value(object: &Json) -> Option<Value>
    ensures { result ≡ value_of (view object.now) }
{
    value_by(text(object, "type"), text(object, "value"))
}

fn value_by(name: Option<&str>, digits: Option<&str>) -> Option<Value>
    ensures { result ≡ value_with (option_map (λ text. text.now) name.entry) (option_map (λ text. text.now) digits.entry) }
{
    let Some(name) = name else {
        return None;
    };
    let Some(digits) = digits else {
        return None;
    };
    match val_type(name) {
        Some(ty) => value_of_type(ty, digits),
        None => None,
    }
}

fn val_type(name: &str) -> Option<ValType>
    ensures { result ≡ type_named name.now }
{
    if name == "i32" {
        return Some(ValType::I32);
    }
    if name == "i64" {
        return Some(ValType::I64);
    }
    None
}

fn value_of_type(ty: ValType, digits: &str) -> Option<Value>
    ensures { result ≡ value_in_digits digits.now ty }
{
    let Some(number) = number(digits.as_bytes()) else {
        return None;
    };
    match ty {
        ValType::I32 => value_i32(number),
        ValType::I64 => Some(Value::I64(number)),
    }
}

fn value_i32(number: u64) -> Option<Value>
    ensures { result ≡ if nat_lt number (2 ^ 32) then Some (I32 number) else None }
{
    if number > 0xffff_ffff {
        return None;
    }
    Some(Value::I32(number as u32))
}

/// The values of a member that is an array of them.
pub(crate) fn values(alloc: Global, object: &Json, name: &str) -> Result<Option<Values>, Memory>
    ensures { IfOk result (λ found. found ≡ values_in name.now (view object.now)) }
{
    match array(object, name) {
        Some(items) => values_of(alloc, items),
        None => Ok(None),
    }
}

fn values_of(alloc: Global, items: &[Json]) -> Result<Option<Values>, Memory>
    ensures { IfOk result (λ found. found ≡ all_given value_of (map view items.now)) }
{
    let mut values = Values::new(alloc);
    for item in items {
        let Some(value) = value(item) else {
            return Ok(None);
        };
        values.push(value)?;
    }
    Ok(Some(values))
}
