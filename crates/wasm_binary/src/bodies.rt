// Function entries, and bodies with their locals (WebAssembly Core 1.0, 5.5.6 and 5.5.13).
ghost use Rattle.wasm_spelling.specs.Table.{of_functions};
ghost use Rattle.wasm_spelling.specs.Reading.{vector_at, func_entry_at, bodies_at};
ghost use Rattle.wasm_binary.specs.View.{Gives, at, seen};

use crate::code::instructions;
use crate::fields::{limited, number};
use crate::rest::{Counts, Rest};
use crate::types::value_type;
use crate::vectors::{Entry, times};
use crate::windows::{ended, window};
use std::alloc::Global;
use w2c_base::{ALL_LOCALS, BLOCK_DEPTH, FUNCTIONS, LOCALS};
use wasm_spelling::{Cause, ReadFault, Which};
use wasm_tree::{BodyEntries, BodyEntry, FuncEntries, FuncEntry, Run};

/// The entries of the function section, whose count is kept.
#[tactic(auto, unfolding(wasm_spelling::specs::Steps::reads, wasm_spelling::specs::Reading::limited_at))]
pub fn function_entries(alloc: Global, rest: Rest) -> Result<(FuncEntries, Rest), ReadFault>
    ensures { Gives seen result (vector_at of_functions func_entry_at (at rest.entry)) }
{
    let (count, rest) = limited(FUNCTIONS, Which::Functions, rest)?;
    let rest = Rest {
        place: rest.place,
        left: rest.left,
        counts: Counts {
            functions: count,
            ..rest.counts
        },
    };
    times::<FuncEntry>(alloc, count, rest)
}

impl Entry for Run {
    ghost use Rattle.wasm_spelling.specs.Reading.{run_at};

    type Item = Run;

    ghost reading = { run_at };

    /// A run, whose count is added to the locals so far.
    #[tactic(auto, unfolding(wasm_spelling::specs::Steps::reads, wasm_spelling::specs::Reading::run_at))]
    fn read(_alloc: Global, rest: Rest) -> Result<(Self::Item, Rest), ReadFault> {
        let place = rest.place;
        let (count, rest) = number(rest)?;
        let locals = u64::from(rest.counts.locals) + u64::from(count);
        let all_locals = u64::from(rest.counts.all_locals) + u64::from(count);
        if locals > u64::from(LOCALS) {
            return Err(ReadFault::Limit(place, Which::Locals));
        }
        if all_locals > u64::from(ALL_LOCALS) {
            return Err(ReadFault::Limit(place, Which::AllLocals));
        }
        let rest = Rest {
            place: rest.place,
            left: rest.left,
            counts: Counts {
                locals: locals as u32,
                all_locals: all_locals as u32,
                ..rest.counts
            },
        };
        match value_type(rest) {
            Ok((ty, rest)) => Ok((Run { count, ty }, rest)),
            Err(fault) => Err(fault),
        }
    }
}

impl Entry for BodyEntry {
    ghost use Rattle.wasm_spelling.specs.Reading.{body_at};

    type Item = BodyEntry;

    ghost reading = { body_at };

    /// The locals and the instructions that fill a window.
    #[tactic(auto, unfolding(wasm_spelling::specs::Steps::reads, wasm_spelling::specs::Reading::body_at, wasm_spelling::specs::Reading::window_at, wasm_spelling::specs::Reading::body_content_at))]
    fn read(alloc: Global, rest: Rest) -> Result<(Self::Item, Rest), ReadFault> {
        let (inside, behind) = window(rest)?;
        let (count, inside) = number(inside)?;
        let inside = Rest {
            place: inside.place,
            left: inside.left,
            counts: Counts {
                locals: 0,
                ..inside.counts
            },
        };
        let (runs, inside) = times::<Run>(alloc, count, inside)?;
        let ((code, ender), inside) = instructions(alloc, BLOCK_DEPTH, false, inside)?;
        let rest = ended(Cause::BodyNotUsedUp, inside, behind)?;
        let end_place = ender.place();
        Ok((
            BodyEntry {
                runs,
                code,
                end_place,
            },
            rest,
        ))
    }
}

/// The bodies of the code section: as many as function entries.
#[tactic(auto, unfolding(wasm_spelling::specs::Steps::reads, wasm_spelling::specs::Reading::bodies_at))]
pub fn bodies(alloc: Global, rest: Rest) -> Result<(BodyEntries, Rest), ReadFault>
    ensures { Gives seen result (bodies_at (at rest.entry)) }
{
    let place = rest.place;
    let (count, rest) = number(rest)?;
    if count != rest.counts.functions {
        return Err(ReadFault::Malformed(place, Cause::CountDiffers));
    }
    let rest = Rest {
        place: rest.place,
        left: rest.left,
        counts: Counts {
            code_read: true,
            ..rest.counts
        },
    };
    times::<BodyEntry>(alloc, count, rest)
}
