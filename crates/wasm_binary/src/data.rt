// The data count, and data segments (WebAssembly Core 2.0, 5.5.14 and 5.5.15).
ghost use Rattle.wasm_spelling.specs.ModuleFields.{data_count as the_data_count};
ghost use Rattle.wasm_spelling.specs.Table.{of_segments};
ghost use Rattle.wasm_spelling.specs.Reading.{vector_at, content_at, segment_entry_at};
ghost use Rattle.wasm_binary.specs.View.{Gives, at, seen};

use crate::fields::number;
use crate::rest::{Counts, Rest};
use crate::vectors::times;
use std::alloc::Global;
use wasm_spelling::{Cause, ReadFault};
use wasm_tree::{DataCount, Module, SegmentEntries, SegmentEntry};

/// What the data count section says, which is kept.
#[tactic(auto, unfolding(wasm_spelling::specs::Steps::reads, wasm_spelling::specs::Reading::content_at, wasm_spelling::specs::Reading::data_count_entry_at))]
pub fn data_count<'a>(module: &mut Module, rest: Rest<'a>) -> Result<Rest<'a>, ReadFault>
    ensures { Gives (λ x. («module».new, at x)) result (content_at the_data_count «module».old (at rest.entry)) }
{
    let place = rest.place;
    match number(rest) {
        Ok((count, rest)) => {
            module.data_count = Some(DataCount { count, place });
            Ok(Rest {
                place: rest.place,
                left: rest.left,
                counts: Counts {
                    data_count: Some(count),
                    ..rest.counts
                },
            })
        }
        Err(fault) => Err(fault),
    }
}

/// The segments of the data section: as many as the data count section says.
#[tactic(auto, unfolding(wasm_spelling::specs::Steps::reads))]
pub fn segments(alloc: Global, rest: Rest) -> Result<(SegmentEntries, Rest), ReadFault>
    ensures { Gives seen result (vector_at of_segments segment_entry_at (at rest.entry)) }
{
    let place = rest.place;
    let (count, rest) = number(rest)?;
    if !rest.counts.allows_segments(count) {
        return Err(ReadFault::Malformed(place, Cause::CountDiffers));
    }
    let rest = Rest {
        place: rest.place,
        left: rest.left,
        counts: Counts {
            data_read: true,
            ..rest.counts
        },
    };
    times::<SegmentEntry>(alloc, count, rest)
}
