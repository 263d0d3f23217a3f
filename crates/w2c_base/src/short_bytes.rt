// Bytes of which few lie in the value itself, as those of most names of C do. Contracts see each as the list of its items.
ghost use Rattle.std.specs.Prelude.{◌≡◌, ◌+◌, ◌<◌, ◌≤◌, [], ◌∷◌, ◌++◌, length, nat_lt, slice_index_or, take, IfOk, IfSome, OnOk, OnErr};
ghost use Rattle.w2c_base.specs.KeptBytes.{bytes_of};

use crate::{Bytes, Memory};
use std::alloc::Global;
use std::boxed::Box;
use std::marker::Model;
use std::mem::size_of;

// How many bytes lie in the value itself. With their number and the variant they take 16.
const SHORT: usize = 14;

#[derive(Drop)]
struct Short {
    bytes: [u8; 14],
    len: u8,
}

impl Model for Short {
    ghost use Rattle.std.specs.Prelude.{ℕ, List, ◌≤◌, take};

    ghost Value = { List ℕ };

    ghost view = { λ short. take short.len short.bytes };

    ghost invariant = { λ short. short.len ≤ 14 };
}

// Bytes put at a place of others.
fn place(bytes: &mut [u8], at: usize, piece: &[u8])
    requires { at + length piece.now ≤ length bytes.old }
    ensures placed { take (at + length piece.now) bytes.new ≡ take at bytes.old ++ piece.now }
    ensures len { length bytes.new ≡ length bytes.old }
{
    let end = at + piece.len();
    bytes[at..end].copy_from_slice(piece);
}

// Two pieces one behind the other, where there is room for both.
#[tactic(auto, using(crate::proofs::PlacedPieces::both_placed))]
fn short_of(front: &[u8], back: &[u8]) -> Option<Short>
    ensures { IfSome result (λ short. short ≡ front.now ++ back.now) }
{
    if front.len() > SHORT {
        return None;
    }
    if back.len() > SHORT - front.len() {
        return None;
    }
    let mut bytes = [0u8; 14];
    place(&mut bytes, 0, front);
    place(&mut bytes, front.len(), back);
    Some(Short {
        bytes,
        len: (front.len() + back.len()) as u8,
    })
}

impl Short {
    fn as_slice(&self) -> &[u8]
        ensures { result.now ≡ self.now }
    {
        &self.bytes[..self.len as usize]
    }

    fn has_room(&self) -> bool
        ensures { result ≡ nat_lt (length self.now) 14 }
    {
        (self.len as usize) < SHORT
    }

    // Puts a byte at the end.
    fn push(&mut self, item: u8)
        requires { length self.old < 14 }
        ensures { self.new ≡ self.old ++ item ∷ [] }
    {
        place(&mut self.bytes, self.len as usize, &[item]);
        self.len += 1;
    }
}

// Where the bytes lie.
#[derive(Drop)]
enum Kept {
    Inside(Short),
    Outside(Box<Bytes>),
}

impl Kept {
    fn as_slice(&self) -> &[u8]
        ensures { result.now ≡ bytes_of self.now }
    {
        match self {
            Kept::Inside(short) => short.as_slice(),
            Kept::Outside(bytes) => bytes.as_slice(),
        }
    }

    // Puts a byte at the end. Where the value is full, all move to memory of their own.
    fn push(&mut self, alloc: Global, item: u8) -> Result<(), Memory>
        ensures ok { OnOk result (bytes_of self.new ≡ bytes_of self.old ++ item ∷ []) }
        ensures err { OnErr result (bytes_of self.new ≡ bytes_of self.old) }
    {
        match self {
            Kept::Inside(short) => {
                if short.has_room() {
                    short.push(item);
                    return Ok(());
                }
                let moved = outside(alloc, short.as_slice(), &[item])?;
                *self = moved;
                Ok(())
            }
            Kept::Outside(bytes) => bytes.push(item),
        }
    }
}

/// Bytes in order. As many as fourteen take no memory.
#[derive(Drop)]
pub struct ShortBytes {
    kept: Kept,
    alloc: Global,
}

impl Model for ShortBytes {
    ghost use Rattle.std.specs.Prelude.{ℕ, List};

    ghost Value = { List ℕ };

    ghost use Rattle.w2c_base.specs.KeptBytes.{bytes_of};

    ghost view = { λ list. bytes_of list.kept };
}

impl ShortBytes {
    /// No bytes. It takes no memory.
    pub fn new(alloc: Global) -> Self
        ensures { result ≡ [] }
    {
        ShortBytes {
            kept: Kept::Inside(Short {
                bytes: [0; 14],
                len: 0,
            }),
            alloc,
        }
    }

    /// These bytes. Only where they are many they take memory.
    pub fn from_bytes(alloc: Global, bytes: Bytes) -> Result<ShortBytes, Memory>
        ensures { IfOk result (λ list. list ≡ bytes) }
    {
        match short_of(b"", bytes.as_slice()) {
            Some(short) => Ok(ShortBytes {
                kept: Kept::Inside(short),
                alloc,
            }),
            None => Ok(ShortBytes {
                kept: Kept::Outside(Box::new(alloc, bytes)?),
                alloc,
            }),
        }
    }

    /// The bytes of two pieces, one behind the other.
    pub fn joined(alloc: Global, front: &[u8], back: &[u8]) -> Result<ShortBytes, Memory>
        ensures { IfOk result (λ list. list ≡ front.now ++ back.now) }
    {
        match short_of(front, back) {
            Some(short) => Ok(ShortBytes {
                kept: Kept::Inside(short),
                alloc,
            }),
            None => Ok(ShortBytes {
                kept: outside(alloc, front, back)?,
                alloc,
            }),
        }
    }

    /// Puts a byte at the end.
    pub fn push(&mut self, item: u8) -> Result<(), Memory>
        ensures ok { OnOk result (self.new ≡ self.old ++ item ∷ []) }
        ensures err { OnErr result (self.new ≡ self.old) }
    {
        self.kept.push(self.alloc, item)
    }

    /// A list of the same bytes.
    pub fn copy(&self, alloc: Global) -> Result<ShortBytes, Memory>
        ensures { IfOk result (λ list. list ≡ self.now) }
    {
        let list = ShortBytes::joined(alloc, b"", self.as_slice())?;
        Ok(list)
    }

    /// The bytes as a list of their own.
    pub fn to_bytes(&self, alloc: Global) -> Result<Bytes, Memory>
        ensures { IfOk result (λ bytes. bytes ≡ self.now) }
    {
        Ok(Bytes::from_vec(Vec::from_slice(alloc, self.as_slice())?))
    }

    /// The number of bytes.
    pub fn len(&self) -> usize
        ensures { result ≡ length self.now }
    {
        self.as_slice().len()
    }

    /// The byte at a place, counted from 0.
    pub fn at(&self, i: usize) -> &u8
        requires { i < length self.now }
        ensures { result.now ≡ slice_index_or self.now i result.now }
    {
        &self.as_slice()[i]
    }

    /// The bytes, to read.
    pub fn as_slice(&self) -> &[u8]
        ensures { result.now ≡ self.now }
    {
        self.kept.as_slice()
    }
}

// Two addresses: less than a list of the library, which takes three.
const _: () = prove!(size_of::<ShortBytes>() == 16);

// Many bytes: two pieces one behind the other.
fn outside(alloc: Global, front: &[u8], back: &[u8]) -> Result<Kept, Memory>
    ensures { IfOk result (λ kept. bytes_of kept ≡ front.now ++ back.now) }
{
    let mut bytes = Bytes::new(alloc);
    bytes.extend(front)?;
    bytes.extend(back)?;
    Ok(Kept::Outside(Box::new(alloc, bytes)?))
}
