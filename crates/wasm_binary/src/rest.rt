// Where the reader stands.
ghost use Rattle.std.specs.Prelude.{◌≡◌, ◌+◌, ◌<◌, ◌^◌, length};
ghost use Rattle.wasm_spelling.specs.Steps.{agrees_with};

/// What the limits and the order of sections speak of.
#[derive(Clone, Copy)]
pub struct Counts {
    /// The rank of the last section that is no custom section.
    pub last_rank: u8,
    /// Entries of the function section.
    pub functions: u32,
    pub code_read: bool,
    /// What the data count section says.
    pub data_count: Option<u32>,
    pub data_read: bool,
    /// Locals that were declared in this body so far.
    pub locals: u32,
    /// Locals that were declared in all bodies so far.
    pub all_locals: u32,
}

impl Counts {
    /// Whether the data count section says so many data segments, or there is no such section.
    pub fn allows_segments(self, count: u32) -> bool
        ensures { result ≡ agrees_with self.data_count count }
    {
        match self.data_count {
            None => true,
            Some(said) => count == said,
        }
    }
}

/// The bytes up to the end of the innermost window, with the place in the file where they begin.
#[derive(Clone, Copy)]
pub struct Rest<'a> {
    pub place: u32,
    pub left: &'a [u8],
    pub counts: Counts,
    ghost in_file: { place + length left.now < 2 ^ 32 },
}
