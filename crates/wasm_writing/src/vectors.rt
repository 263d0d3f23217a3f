// Vectors: a count, and the entries (WebAssembly Core 1.0, 5.1.3); names (5.2.4).
ghost use Rattle.std.specs.Prelude.{◌≡◌, length};
ghost use Rattle.std.specs.Str.{is_utf8 as is_utf8_of};
ghost use Rattle.wasm_spelling.specs.Fields.{number};
ghost use Rattle.wasm_spelling.specs.ModuleFields.{each as each_fields, vector as vector_fields, short_vector as short_vector_fields, name as name_fields};
ghost use Rattle.wasm_writing.specs.Drafts.{Puts};

use crate::draft::Draft;
use std::str::from_utf8;
use w2c_base::{Bytes, NAME_LENGTH};

/// What has fields in a file.
pub trait Entry {
    ghost use Rattle.wasm_spelling.specs.Fields.{Fields};

    ghost fields: { Self → Fields → Fields };

    /// Puts its fields.
    fn put(&self, draft: &mut Draft)
        ensures { Puts (fields self.now) draft.old draft.new };
}

impl Entry for u32 {
    ghost use Rattle.wasm_spelling.specs.Fields.{number};

    ghost fields = { number };

    fn put(&self, draft: &mut Draft) {
        draft.number(*self);
    }
}

/// Puts entries one after another.
pub fn each<E: Entry>(entries: &[E], draft: &mut Draft)
    ensures { Puts (each_fields E.fields entries.now) draft.old draft.new }
{
    for entry in entries {
        entry.put(draft);
    }
}

/// Puts a count.
pub fn count(length: usize, draft: &mut Draft)
    ensures { Puts (number length) draft.old draft.new }
{
    match u32::try_from(length) {
        Ok(count) => draft.number(count),
        Err(_) => draft.refuse(),
    }
}

/// Puts a vector.
pub fn vector<E: Entry>(entries: &[E], draft: &mut Draft)
    ensures { Puts (vector_fields E.fields entries.now) draft.old draft.new }
{
    count(entries.len(), draft);
    each(entries, draft);
}

/// Puts a vector of at most so many entries.
pub fn short_vector<E: Entry>(most: u32, entries: &[E], draft: &mut Draft)
    ensures { Puts (short_vector_fields most E.fields entries.now) draft.old draft.new }
{
    count(entries.len(), draft);
    draft.check(entries.len() <= most as usize);
    each(entries, draft);
}

fn is_utf8(bytes: &[u8]) -> bool
    ensures { result ≡ is_utf8_of bytes.now }
{
    match from_utf8(bytes) {
        Ok(_) => true,
        Err(_) => false,
    }
}

/// Puts the name of an import or an export.
pub fn name(bytes: &Bytes, draft: &mut Draft)
    ensures { Puts (name_fields bytes.now) draft.old draft.new }
{
    let bytes = bytes.as_slice();
    count(bytes.len(), draft);
    draft.check(bytes.len() <= NAME_LENGTH as usize);
    draft.text(bytes);
    draft.check(is_utf8(bytes));
}
