// Windows: a size, and so many bytes (WebAssembly Core 1.0, 5.5.2).
ghost use Rattle.std.specs.Prelude.{◌≡◌, ◌+◌};
ghost use Rattle.wasm_binary.specs.Windows.{window_of, end_of};
ghost use Rattle.wasm_binary.specs.View.{Gives, at};

use crate::fields::number;
use crate::rest::Rest;
use wasm_spelling::{Cause, ReadFault};

/// The window behind a size, and what is behind the window.
pub fn window(rest: Rest) -> Result<(Rest, Rest), ReadFault>
    ensures { Gives (λ x. (at x.0, at x.1)) result (window_of (at rest.entry)) }
{
    let place = rest.place;
    let (size, rest) = number(rest)?;
    let count = size as usize;
    if rest.left.len() < count {
        return Err(ReadFault::Malformed(place, Cause::SizePastEnd));
    }
    let (inside, left) = rest.left.split_at(count);
    let behind = rest.place + size;
    Ok((
        Rest {
            place: rest.place,
            left: inside,
            counts: rest.counts,
        },
        Rest {
            place: behind,
            left,
            counts: rest.counts,
        },
    ))
}

/// Where reading goes on behind a window that is used up.
pub fn ended<'a>(cause: Cause, inside: Rest, behind: Rest<'a>) -> Result<Rest<'a>, ReadFault>
    ensures { Gives (λ x. at x) result (end_of cause (at inside.entry) (at behind.entry)) }
{
    if !inside.left.is_empty() {
        return Err(ReadFault::Malformed(inside.place, cause));
    }
    Ok(Rest {
        place: behind.place,
        left: behind.left,
        counts: inside.counts,
    })
}
