// Sections (WebAssembly Core 1.0, 5.5.2 and 5.5.3; Core 2.0, 5.5.16, for where the data count stands).
ghost use Rattle.std.specs.Prelude.{◌≡◌, Result, option_map};
ghost use Rattle.wasm_spelling.specs.declared.fault.ReadFault.{ReadFault as Fault};
ghost use Rattle.wasm_spelling.specs.At.{At};
ghost use Rattle.wasm_spelling.specs.Steps.{part_of, section_id_at, bodies_done as are_done, data_done as is_done};
ghost use Rattle.wasm_spelling.specs.ModuleFields.{start as the_start};
ghost use Rattle.wasm_spelling.specs.Parts.{part_is};
ghost use Rattle.wasm_spelling.specs.Reading.{content_at, all_sections_at};
ghost use Rattle.wasm_binary.specs.View.{Gives, at, seen, counts_of};
ghost use Rattle.wasm_binary.specs.Sections.{id_of_heading, behind_id, is_no_section};

use crate::bodies::{bodies, function_entries};
use crate::data::{data_count, segments};
use crate::entries::{MemoryEntry, TableEntry};
use crate::fields::{number, utf8};
use crate::rest::{Counts, Rest};
use crate::vectors::vector;
use crate::windows::{ended, window};
use std::alloc::Global;
use wasm_spelling::{Cause, Part, ReadFault};
use wasm_tree::{ElementEntry, Export, GlobalEntry, Import, Module, Start, TypeEntry};

/// What a section's id says, or that the file ends there.
#[derive(Clone, Copy)]
pub enum Heading {
    End,
    Custom,
    Part(Part),
}

fn part_by_id(id: u8) -> Option<Part>
    ensures { option_map part_is result ≡ part_of id }
{
    match id {
        1 => Some(Part::Types),
        2 => Some(Part::Imports),
        3 => Some(Part::Functions),
        4 => Some(Part::Tables),
        5 => Some(Part::Memories),
        6 => Some(Part::Globals),
        7 => Some(Part::Exports),
        8 => Some(Part::Start),
        9 => Some(Part::Elements),
        10 => Some(Part::Code),
        11 => Some(Part::Segments),
        12 => Some(Part::DataCount),
        _ => None,
    }
}

/// Whether no function lacks its body.
fn bodies_done(counts: Counts) -> bool
    ensures { result ≡ are_done (counts_of counts) }
{
    counts.code_read || counts.functions == 0
}

/// Whether the data section was read where there must be one.
fn data_done(counts: Counts) -> bool
    ensures { result ≡ is_done (counts_of counts) }
{
    counts.data_read || counts.allows_segments(0)
}

/// The id of a section, or the end of the file.
fn next_heading(rest: Rest) -> Result<(Heading, Rest), ReadFault>
    ensures { Gives (λ x. (id_of_heading x.0, at x.1)) result (section_id_at (at rest.entry)) }
{
    let place = rest.place;
    match rest.left {
        [] => {
            if bodies_done(rest.counts) && data_done(rest.counts) {
                Ok((Heading::End, rest))
            } else {
                Err(ReadFault::Malformed(place, Cause::CountDiffers))
            }
        }
        [id, left @ ..] => {
            let id = *id;
            match part_by_id(id) {
                None => {
                    if id != 0 {
                        return Err(ReadFault::Malformed(place, Cause::BadSectionId));
                    }
                    Ok((
                        Heading::Custom,
                        Rest {
                            place: place + 1,
                            left,
                            counts: rest.counts,
                        },
                    ))
                }
                Some(part) => {
                    let rank = part.rank();
                    if rest.counts.last_rank >= rank {
                        return Err(ReadFault::Malformed(place, Cause::SectionOrder));
                    }
                    if id == 11 && !bodies_done(rest.counts) {
                        return Err(ReadFault::Malformed(place, Cause::CountDiffers));
                    }
                    let counts = Counts {
                        last_rank: rank,
                        ..rest.counts
                    };
                    Ok((
                        Heading::Part(part),
                        Rest {
                            place: place + 1,
                            left,
                            counts,
                        },
                    ))
                }
            }
        }
    }
}

/// A field of the module is what was read for it.
fn put<'a, T: Drop>(
    field: &mut T,
    read: Result<(T, Rest<'a>), ReadFault>,
) -> Result<Rest<'a>, ReadFault>
    ensures { (given : Result (T × At) Fault) → Gives seen read.entry given → Gives (λ x. (field.new, at x)) result given }
{
    match read {
        Ok((value, rest)) => {
            *field = value;
            Ok(rest)
        }
        Err(fault) => Err(fault),
    }
}

/// The start function, which is put into the module.
#[tactic(auto, unfolding(wasm_spelling::specs::Steps::reads, wasm_spelling::specs::Reading::content_at, wasm_spelling::specs::Reading::start_at))]
fn start<'a>(module: &mut Module, rest: Rest<'a>) -> Result<Rest<'a>, ReadFault>
    ensures { Gives (λ x. («module».new, at x)) result (content_at the_start «module».old (at rest.entry)) }
{
    let place = rest.place;
    match number(rest) {
        Ok((index, rest)) => {
            module.start = Some(Start { index, place });
            Ok(rest)
        }
        Err(fault) => Err(fault),
    }
}

/// The entries of a section, which are put into the module.
#[tactic(auto, unfolding(wasm_spelling::specs::Steps::reads, wasm_spelling::specs::Reading::content_at))]
fn content<'a>(
    alloc: Global,
    part: Part,
    module: &mut Module,
    rest: Rest<'a>,
) -> Result<Rest<'a>, ReadFault>
    ensures { Gives (λ x. («module».new, at x)) result (content_at (part_is part) «module».old (at rest.entry)) }
{
    match part {
        Part::Types => put(&mut module.types, vector::<TypeEntry>(alloc, rest)),
        Part::Imports => put(&mut module.imports, vector::<Import>(alloc, rest)),
        Part::Functions => put(&mut module.funcs, function_entries(alloc, rest)),
        Part::Tables => put(&mut module.tables, vector::<TableEntry>(alloc, rest)),
        Part::Memories => put(&mut module.memories, vector::<MemoryEntry>(alloc, rest)),
        Part::Globals => put(&mut module.globals, vector::<GlobalEntry>(alloc, rest)),
        Part::Exports => put(&mut module.exports, vector::<Export>(alloc, rest)),
        Part::Start => start(module, rest),
        Part::Elements => put(&mut module.elements, vector::<ElementEntry>(alloc, rest)),
        Part::DataCount => data_count(module, rest),
        Part::Code => put(&mut module.bodies, bodies(alloc, rest)),
        Part::Segments => put(&mut module.segments, segments(alloc, rest)),
    }
}

/// What stands behind a section's id. A custom section's bytes are skipped, whatever the module is.
#[tactic(auto, unfolding(wasm_spelling::specs::Steps::reads, wasm_spelling::specs::Reading::part_at, wasm_spelling::specs::Reading::custom_at, wasm_spelling::specs::Reading::custom_content_at, wasm_spelling::specs::Reading::any_name_at, wasm_spelling::specs::Reading::window_at))]
fn section<'a>(
    alloc: Global,
    heading: Heading,
    module: &mut Module,
    rest: Rest<'a>,
) -> Result<Rest<'a>, ReadFault>
    ensures { Gives (λ x. («module».new, at x)) result (behind_id (id_of_heading heading) «module».old (at rest.entry)) }
{
    match heading {
        Heading::End => Ok(rest),
        Heading::Custom => {
            let (inside, behind) = window(rest)?;
            let (length, inside) = number(inside)?;
            let (_, inside) = utf8(length, inside)?;
            Ok(Rest {
                place: behind.place,
                left: behind.left,
                counts: inside.counts,
            })
        }
        Heading::Part(part) => {
            let (inside, behind) = window(rest)?;
            let inside = content(alloc, part, module, inside)?;
            ended(Cause::SectionNotUsedUp, inside, behind)
        }
    }
}

/// The sections up to the end of the file, put into a module.
pub fn sections<'a>(
    alloc: Global,
    module: &mut Module,
    rest: Rest<'a>,
) -> Result<Rest<'a>, ReadFault>
    ensures { Gives (λ x. («module».new, at x)) result (all_sections_at «module».old (at rest.entry)) }
{
    let mut ahead = rest;
    loop {
        let (heading, after) = next_heading(ahead)?;
        if is_end(heading) {
            return Ok(after);
        }
        ahead = section(alloc, heading, module, after)?;
    }
}

fn is_end(heading: Heading) -> bool
    ensures { result ≡ is_no_section (id_of_heading heading) }
{
    match heading {
        Heading::End => true,
        Heading::Custom | Heading::Part(_) => false,
    }
}
