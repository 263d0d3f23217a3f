// Why no line was read.
ghost use Rattle.std.specs.Prelude.{◌≡◌};
ghost use Rattle.program_words.specs.declared.no_line.NoLine.TheVariants as no_line;

use std::alloc::AllocError;

/// Why no line was read.
#[derive(Clone, Copy, Debug, PartialEq, Eq)]
pub enum NoLine {
    /// The words have no reading.
    Usage,
    /// An allocation failed.
    Memory,
}

impl From<AllocError> for NoLine {
    ghost from_gives = { λ _ e. e ≡ no_line.Memory };

    fn from(_: AllocError) -> Self {
        NoLine::Memory
    }
}
