// The draft of a file: its bytes so far, or how many they are.
ghost use Rattle.std.specs.Prelude.{◌≡◌, ◌≤◌};
ghost use Rattle.wasm_spelling.specs.Fields.{byte, number, signed, text, provided};

use leb_bytes::{write_s32, write_s64, write_u32};
use w2c_base::{Bytes, MODULE_BYTES};

/// Why a draft takes no more.
#[derive(Clone, Copy)]
pub enum Stop {
    /// No file has room for what was put, or a condition of the format does not hold.
    Unformed,
    /// Memory was wanting.
    Memory,
}

/// The bytes of a file so far, or how many they are. A draft that has stopped takes no more.
#[derive(Drop)]
pub enum Draft {
    Counted(usize),
    Written(Bytes),
    Stopped(Stop),
}

impl Draft {
    ghost use Rattle.wasm_tree.specs.Bytes.{AreBytes};
    ghost use Rattle.wasm_writing.specs.Drafts.{size_of, Takes, Refuses, Puts, PutsSize};

    /// How many bytes it has taken.
    fn taken(&self) -> usize
        ensures { result ≡ size_of self.now }
    {
        match self {
            Draft::Counted(size) => *size,
            Draft::Written(bytes) => bytes.len(),
            Draft::Stopped(_) => 0,
        }
    }

    /// Puts a piece at the end, where a file has room for it.
    fn take(&mut self, piece: &[u8])
        ensures taken { Takes piece.now self.old self.new }
        ensures bytes { AreBytes piece.now }
    {
        let size = self.taken();
        let fits = size <= MODULE_BYTES && piece.len() <= MODULE_BYTES - size;
        match self {
            Draft::Stopped(_) => {}
            _ if !fits => *self = Draft::Stopped(Stop::Unformed),
            Draft::Counted(size) => *size += piece.len(),
            Draft::Written(bytes) => {
                if bytes.extend(piece).is_err() {
                    *self = Draft::Stopped(Stop::Memory);
                }
            }
        }
    }

    /// Stops at what has no spelling.
    pub fn refuse(&mut self)
        ensures { Refuses self.old self.new }
    {
        match self {
            Draft::Stopped(_) => {}
            _ => *self = Draft::Stopped(Stop::Unformed),
        }
    }

    /// Puts one byte.
    pub fn byte(&mut self, b: u8)
        ensures { Puts (byte b) self.old self.new }
    {
        self.take(&[b]);
    }

    /// Puts a number without sign in its shortest spelling.
    pub fn number(&mut self, n: u32)
        ensures { Puts (number n) self.old self.new }
    {
        let mut out = [0; 10];
        let length = write_u32(n, &mut out);
        self.take(&out[..length]);
    }

    /// Puts a number with a sign in its shortest spelling.
    pub fn signed32(&mut self, n: i32)
        ensures { Puts (signed 32 n) self.old self.new }
    {
        let mut out = [0; 10];
        let length = write_s32(n, &mut out);
        self.take(&out[..length]);
    }

    /// Puts a number with a sign in its shortest spelling.
    pub fn signed64(&mut self, n: i64)
        ensures { Puts (signed 64 n) self.old self.new }
    {
        let mut out = [0; 10];
        let length = write_s64(n, &mut out);
        self.take(&out[..length]);
    }

    /// Puts the number of bytes that were counted.
    pub fn size(&mut self, counted: &Draft)
        requires { size_of counted.now ≤ 8388608 }
        ensures { PutsSize counted.now self.old self.new }
    {
        match counted {
            Draft::Counted(size) => self.number(*size as u32),
            _ => self.refuse(),
        }
    }

    /// Puts bytes as they are.
    pub fn text(&mut self, bytes: &[u8])
        ensures { Puts (text bytes.now) self.old self.new }
    {
        self.take(bytes);
    }

    /// Goes on where a condition of the format holds.
    pub fn check(&mut self, holds: bool)
        ensures { Puts (provided holds) self.old self.new }
    {
        if !holds {
            self.refuse();
        }
    }
}
