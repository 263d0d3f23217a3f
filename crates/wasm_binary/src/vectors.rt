// Vectors: a count, and so many entries (WebAssembly Core 1.0, 5.1.3).
ghost use Rattle.wasm_spelling.specs.Steps.{number_at, reads};
ghost use Rattle.wasm_spelling.specs.Reading.{limited_at, times_at};
ghost use Rattle.wasm_binary.specs.View.{Gives, at, seen};

use crate::fields::{limited, number};
use crate::rest::Rest;
use std::alloc::Global;
use w2c_base::Sequence;
use wasm_spelling::{ReadFault, Which};

/// A kind of entries of a vector.
pub trait Entry {
    ghost use Rattle.wasm_spelling.specs.Steps.{Reader};

    type Item: Drop;

    /// How an entry is read of bytes.
    ghost reading: { Reader Self.Item };

    fn read(alloc: Global, rest: Rest) -> Result<(Self::Item, Rest), ReadFault>
        ensures { Gives seen result (reading (at rest.entry)) };
}

/// So many entries.
pub fn times<E: Entry>(
    alloc: Global,
    count: u32,
    rest: Rest,
) -> Result<(Sequence<E::Item>, Rest), ReadFault>
    ensures { Gives seen result (times_at E.reading count (at rest.entry)) }
{
    let mut entries = Sequence::new(alloc);
    let mut ahead = rest;
    for _ in 0..count {
        let (entry, after) = E::read(alloc, ahead)?;
        entries.push(entry)?;
        ahead = after;
    }
    Ok((entries, ahead))
}

/// A count, and so many entries.
#[tactic(auto, unfolding(wasm_spelling::specs::Steps::reads))]
pub fn vector<E: Entry>(alloc: Global, rest: Rest) -> Result<(Sequence<E::Item>, Rest), ReadFault>
    ensures { Gives seen result (reads number_at (times_at E.reading) (at rest.entry)) }
{
    let (count, rest) = number(rest)?;
    times::<E>(alloc, count, rest)
}

/// A count of at most so much, and so many entries.
#[tactic(auto, unfolding(wasm_spelling::specs::Steps::reads))]
pub fn short_vector<E: Entry>(
    alloc: Global,
    most: u32,
    which: Which,
    rest: Rest,
) -> Result<(Sequence<E::Item>, Rest), ReadFault>
    ensures { Gives seen result (reads (limited_at most which) (times_at E.reading) (at rest.entry)) }
{
    let (count, rest) = limited(most, which, rest)?;
    times::<E>(alloc, count, rest)
}
