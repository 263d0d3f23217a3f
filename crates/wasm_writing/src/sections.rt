// Sections (WebAssembly Core 1.0, 5.5.2 to 5.5.14; Core 2.0, 5.5.15).
ghost use Rattle.std.specs.Prelude.{◌≡◌};
ghost use Rattle.wasm_spelling.specs.ModuleFields.{each as each_fields, content as content_fields, is_empty as is_empty_of, start_content, data_count_content, table_entry, memory_entry};
ghost use Rattle.wasm_spelling.specs.Parts.{part_is};
ghost use Rattle.wasm_writing.specs.Drafts.{Puts};
ghost use Rattle.wasm_writing.specs.ShortFile.{filled};

use crate::bodies::bodies;
use crate::draft::Draft;
use crate::types::{memory_type, table_type};
use crate::vectors::{Entry, count, short_vector, vector};
use w2c_base::FUNCTIONS;
use wasm_spelling::Part;
use wasm_tree::{DataCount, LimitsEntry, Module, Start};

/// The sections in the order of a file.
pub const PARTS: [Part; 12] = [
    Part::Types,
    Part::Imports,
    Part::Functions,
    Part::Tables,
    Part::Memories,
    Part::Globals,
    Part::Exports,
    Part::Start,
    Part::Elements,
    Part::DataCount,
    Part::Code,
    Part::Segments,
];

fn each_table(tables: &[LimitsEntry], draft: &mut Draft)
    ensures { Puts (each_fields table_entry tables.now) draft.old draft.new }
{
    for table in tables {
        table_type(&table.limits, draft);
    }
}

fn each_memory(memories: &[LimitsEntry], draft: &mut Draft)
    ensures { Puts (each_fields memory_entry memories.now) draft.old draft.new }
{
    for memory in memories {
        memory_type(&memory.limits, draft);
    }
}

fn start(start: Option<Start>, draft: &mut Draft)
    ensures { Puts (start_content start) draft.old draft.new }
{
    match start {
        None => draft.refuse(),
        Some(entry) => entry.put(draft),
    }
}

/// Puts the number of data segments, of which there are so many.
fn data_count(data_count: Option<DataCount>, found: usize, draft: &mut Draft)
    ensures { Puts (data_count_content data_count found) draft.old draft.new }
{
    match data_count {
        None => draft.refuse(),
        Some(entry) => {
            draft.number(entry.count);
            draft.check(entry.count as usize == found);
        }
    }
}

/// Puts what a section contains.
fn content(part: Part, m: &Module, draft: &mut Draft)
    ensures { Puts (content_fields (part_is part) m.now) draft.old draft.new }
{
    match part {
        Part::Types => vector(m.types.as_slice(), draft),
        Part::Imports => vector(m.imports.as_slice(), draft),
        Part::Functions => short_vector(FUNCTIONS, m.funcs.as_slice(), draft),
        Part::Tables => {
            count(m.tables.len(), draft);
            each_table(m.tables.as_slice(), draft);
        }
        Part::Memories => {
            count(m.memories.len(), draft);
            each_memory(m.memories.as_slice(), draft);
        }
        Part::Globals => vector(m.globals.as_slice(), draft),
        Part::Exports => vector(m.exports.as_slice(), draft),
        Part::Start => start(m.start, draft),
        Part::Elements => vector(m.elements.as_slice(), draft),
        Part::DataCount => data_count(m.data_count, m.segments.len(), draft),
        Part::Code => {
            count(m.bodies.len(), draft);
            bodies(m.bodies.as_slice(), draft);
        }
        Part::Segments => vector(m.segments.as_slice(), draft),
    }
}

/// It has no entries.
fn is_empty(part: Part, m: &Module) -> bool
    ensures { result ≡ is_empty_of (part_is part) m.now }
{
    match part {
        Part::Types => m.types.len() == 0,
        Part::Imports => m.imports.len() == 0,
        Part::Functions => m.funcs.len() == 0,
        Part::Tables => m.tables.len() == 0,
        Part::Memories => m.memories.len() == 0,
        Part::Globals => m.globals.len() == 0,
        Part::Exports => m.exports.len() == 0,
        Part::Start => m.start.is_none(),
        Part::Elements => m.elements.len() == 0,
        Part::DataCount => m.data_count.is_none(),
        Part::Code => m.bodies.len() == 0,
        Part::Segments => m.segments.len() == 0,
    }
}

/// Puts a section, where it has entries.
fn section(part: Part, m: &Module, draft: &mut Draft)
    ensures { Puts (filled m.now (part_is part)) draft.old draft.new }
{
    if is_empty(part, m) {
        return;
    }
    let mut counted = Draft::Counted(0);
    content(part, m, &mut counted);
    draft.byte(part.id());
    draft.size(&counted);
    content(part, m, draft);
}

/// Puts those of these sections that have entries.
pub fn sections(parts: &[Part], m: &Module, draft: &mut Draft)
    ensures { Puts (each_fields (λ part. filled m.now (part_is part)) parts.now) draft.old draft.new }
{
    for part in parts {
        section(*part, m, draft);
    }
}
