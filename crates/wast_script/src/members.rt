// The members of JSON objects.
ghost use Rattle.std.specs.Prelude.{◌≡◌, map, option_map, string_bytes, IfOk};
ghost use Rattle.serde_json.specs.View.{view};
ghost use Rattle.wast_script.specs.Values.{array_in, items_in, text_in};

use serde_json::Value as Json;
use std::alloc::{AllocError, Global};

/// A member that is a text.
pub(crate) fn text<'v>(object: &'v Json, name: &str) -> Option<&'v str>
    ensures { option_map (λ text. text.now) result ≡ text_in name.now (view object.now) }
{
    match object.get(name) {
        Some(member) => member.as_str(),
        None => None,
    }
}

/// A copy of such a text.
pub(crate) fn own_text(
    alloc: Global,
    object: &Json,
    name: &str,
) -> Result<Option<String>, AllocError>
    ensures { IfOk result (λ found. option_map string_bytes found ≡ text_in name.now (view object.now)) }
{
    match text(object, name) {
        Some(text) => Ok(Some(String::from_str(alloc, text)?)),
        None => Ok(None),
    }
}

/// The items of a member that is an array.
pub(crate) fn array<'v>(object: &'v Json, name: &str) -> Option<&'v [Json]>
    ensures { option_map (λ items. map view items.now) result ≡ array_in name.now (view object.now) }
{
    match object.get(name) {
        Some(member) => items(member),
        None => None,
    }
}

fn items(array: &Json) -> Option<&[Json]>
    ensures { option_map (λ items. map view items.now) result ≡ items_in (view array.now) }
{
    match array.as_array() {
        Some(items) => Some(items.as_slice()),
        None => None,
    }
}
