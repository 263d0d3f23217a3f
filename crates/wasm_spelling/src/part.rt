// The sections other than custom ones (WebAssembly Core 1.0, 5.5.2; Core 2.0, 5.5.16, for where the data count stands).
ghost use Rattle.std.specs.Prelude.{◌≡◌};
ghost use Rattle.wasm_spelling.specs.ModuleFields.{id_of, rank_of};
ghost use Rattle.wasm_spelling.specs.Parts.{part_is};

/// A section other than a custom one.
#[derive(Clone, Copy)]
pub enum Part {
    Types,
    Imports,
    Functions,
    Tables,
    Memories,
    Globals,
    Exports,
    Start,
    Elements,
    DataCount,
    Code,
    Segments,
}

impl Part {
    /// The byte in front of it.
    pub fn id(self) -> u8
        ensures { result ≡ id_of (part_is self) }
    {
        match self {
            Part::Types => 1,
            Part::Imports => 2,
            Part::Functions => 3,
            Part::Tables => 4,
            Part::Memories => 5,
            Part::Globals => 6,
            Part::Exports => 7,
            Part::Start => 8,
            Part::Elements => 9,
            Part::DataCount => 12,
            Part::Code => 10,
            Part::Segments => 11,
        }
    }

    /// The place in the order of sections.
    pub fn rank(self) -> u8
        ensures { result ≡ rank_of (part_is self) }
    {
        match self {
            Part::DataCount => 10,
            Part::Code => 11,
            Part::Segments => 12,
            _ => self.id(),
        }
    }
}
