// A text is cut at each byte of a kind.
ghost use Rattle.std.specs.Prelude.{◌≡◌, ◌==◌, ◌<◌, length, slice_get, Some, IfOk};
ghost use Rattle.std.specs.List.{slice_split};
ghost use Rattle.w2c_files.specs.Words.{names_of};

use std::alloc::{AllocError, Global};

/// What stands between such bytes, in front of the first and behind the last.
pub(crate) fn parts(alloc: Global, text: &[u8], at: u8) -> Result<Vec<&[u8]>, AllocError>
    ensures { IfOk result (λ parts. names_of parts.items ≡ slice_split (λ b. b == at) text.now) }
{
    text.split(|byte| *byte == at).collect(alloc)
}

/// The part with a number, counted from 0.
pub(crate) fn part_at<'a>(parts: &[&'a [u8]], k: usize) -> &'a [u8]
    requires { k < length parts.now }
    ensures { slice_get (names_of parts.now) k ≡ Some result.now }
{
    parts[k]
}
