// Lists of entries in pieces, and elements by their places.
ghost use Rattle.std.specs.Prelude.{◌≡◌, ◌+◌, ◌-◌, ◌≤◌, [], take, drop, nat_lt, length};
ghost use Rattle.c_init.specs.Init as of;
ghost use Rattle.c_init.specs.Portions.{elements_behind, Starts};

use wasm_tree::{ElementEntry, Module};

/// A function has statements for so many entries of a kind at most.
pub(crate) const MOST: usize = 100;

/// The first piece of a list, and what is behind it.
#[tactic(auto, using(crate::proofs::PieceCounts::at_most, crate::proofs::PieceCounts::behind_at_most))]
pub(crate) fn first_piece<'a, T>(items: &'a [T]) -> (&'a [T], &'a [T])
    ensures piece { result.0.now ≡ take of.most items.now }
    ensures after { result.1.now ≡ drop of.most items.now }
    ensures split { length result.0.now + length result.1.now ≡ length items.now }
    ensures fewer { length result.1.now ≡ length items.now - of.most }
{
    items.split_at(items.len().min(MOST))
}

/// So many items at most, from the one with a number on.
#[tactic(auto, using(crate::proofs::PieceCounts::at_most))]
pub(crate) fn some_from<'a, T>(items: &'a [T], start: usize, most: usize) -> &'a [T]
    requires { start ≤ length items.now }
    ensures is { result.now ≡ take most (drop start items.now) }
    ensures within { start + length result.now ≤ length items.now }
{
    let (_, rest) = items.split_at(start);
    let (some, _) = rest.split_at(rest.len().min(most));
    some
}

// Nothing of a list.
#[tactic(auto, using(crate::proofs::PieceCounts::behind_all))]
fn nothing<'a, T>(items: &'a [T]) -> &'a [T]
    ensures { result.now ≡ [] }
{
    let (_, rest) = items.split_at(items.len());
    rest
}

/// Behind so many elements, counted from the one with a number on: the segments from that of the next element on, and its number
/// there. No segment is left where there is none.
pub(crate) fn behind<'a>(
    segments: &'a [ElementEntry],
    start: usize,
    count: usize,
) -> (&'a [ElementEntry], usize)
    ensures same { elements_behind result.1 result.0.now ≡ drop count (elements_behind start segments.now) }
    ensures starts { Starts result.1 result.0.now }
{
    let mut number = start;
    let mut left = count;
    let mut index = 0usize;
    for segment in segments {
        let many = segment.funcs.len();
        let there = many.saturating_sub(number);
        if left < there {
            let (_, rest) = segments.split_at(index);
            return (rest, number + left);
        }
        left -= there;
        number = number.saturating_sub(many);
        index += 1;
    }
    (nothing(segments), 0)
}

// Whether the element segments have more elements than stand in one function.
fn has_many_elements(m: &Module) -> bool
    ensures { result ≡ nat_lt of.most (length (of.elements_of m.now)) }
{
    let (rest, _) = behind(m.elements.as_slice(), 0, MOST);
    rest.len() > 0
}

/// Whether the init function is in parts.
pub(crate) fn is_large(m: &Module) -> bool
    ensures { result ≡ of.is_large m.now }
{
    (m.globals.len() > MOST || m.elements.len() > MOST)
        || (m.segments.len() > MOST || has_many_elements(m))
}
