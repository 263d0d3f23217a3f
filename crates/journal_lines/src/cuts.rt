// A text is cut at each byte of a kind.
ghost use Rattle.std.specs.Prelude.{◌≡◌, ◌==◌, ◌<◌, length, slice_get, Some, IfOk};
ghost use Rattle.std.specs.List.{slice_split};
ghost use Rattle.crun_lines.specs.Views.{texts};

use std::alloc::{AllocError, Global};

/// What stands between such bytes, in front of the first and behind the last. A text without one is a part.
pub fn parts(alloc: Global, text: &[u8], at: u8) -> Result<Vec<&[u8]>, AllocError>
    ensures { IfOk result (λ parts. texts parts.items ≡ slice_split (λ b. b == at) text.now) }
{
    text.split(|byte| *byte == at).collect(alloc)
}

/// The part with a number, counted from 0.
pub fn part_at<'a>(parts: &[&'a [u8]], k: usize) -> &'a [u8]
    requires { k < length parts.now }
    ensures { slice_get (texts parts.now) k ≡ Some result.now }
{
    parts[k]
}
