// One page of a memory.
ghost use Rattle.std.specs.Prelude.{◌≡◌, ◌+◌, ◌^◌, ◌<◌, ◌≤◌, Some, All, IfOk, ◌++◌, drop, length, map, take};
ghost use Rattle.w2c_base.specs.LittleEndian.{with_bytes};
ghost use Rattle.lin_mem.specs.Places.{IsFull, somes};

use crate::PAGE_BYTES;
use crate::cells::{Base, Cells, Deed, allocate, deallocate};
use std::alloc::{AllocError, Global};
use std::marker::Model;
use w2c_base::Memory;

/// 65,536 bytes of raw memory, taken and given back as one block.
pub(crate) struct Page {
    base: Base<u8>,
    cells: Cells<u8>,
    deed: Deed<u8, Global>,
    alloc: Global,
}

impl Model for Page {
    ghost use Rattle.std.specs.Prelude.{◌≡◌, ℕ, List};
    ghost use Rattle.lin_mem.specs.Places.{IsFull, somes};

    ghost Value = { List ℕ };

    ghost view = { λ page. somes page.cells.slots };

    ghost invariant = { λ page. (page.cells.at ≡ page.base.ptr) × IsFull page.cells.slots 65536
        × (page.deed.at ≡ page.base.ptr) × (page.deed.len ≡ 65536) × (page.deed.alloc ≡ page.alloc) };
}

impl Page {
    /// A page whose bytes are 0.
    pub(crate) fn zeroed(alloc: Global) -> Result<Page, Memory>
        ensures size { IfOk result (λ page. length page ≡ 65536) }
        ensures zero { IfOk result (λ page. All (λ b. b ≡ 0) page) }
    {
        let (base, cells, deed) = zeroed_block(alloc, PAGE_BYTES)?;
        Ok(Page {
            base,
            cells,
            deed,
            alloc,
        })
    }

    /// Its bytes.
    pub(crate) fn bytes(&self) -> &[u8]
        ensures { result.now ≡ self.now }
    {
        whole(&self.cells, self.base, PAGE_BYTES)
    }

    /// Writes bytes from a place on.
    pub(crate) fn put(&mut self, at: usize, bytes: &[u8])
        requires { at + length bytes.now ≤ length self.old }
        ensures { self.new ≡ with_bytes self.old at bytes.now }
    {
        put_bytes(&mut self.cells, self.base, at, bytes);
    }
}

impl Drop for Page {
    fn drop(self) {
        let Page {
            base,
            cells,
            deed,
            alloc,
        } = self;
        give_back(alloc, base, PAGE_BYTES, cells, deed);
    }
}

// A block of so many bytes 0.
fn zeroed_block(
    alloc: Global,
    count: usize,
) -> Result<(Base<u8>, Cells<u8>, Deed<u8, Global>), AllocError>
    requires { count < 2 ^ 63 }
    ensures cells { IfOk result (λ r. (r.1.at ≡ r.0.ptr) × IsFull r.1.slots count) }
    ensures zero { IfOk result (λ r. All (λ b. b ≡ 0) (somes r.1.slots)) }
    ensures deed { IfOk result (λ r. (r.2.at ≡ r.0.ptr) × (r.2.len ≡ count) × (r.2.alloc ≡ alloc)) }
{
    let (base, mut cells, deed) = allocate(&alloc, count)?;
    for i in 0..count {
        cells.write(base, i, 0u8);
    }
    Ok((base, cells, deed))
}

// Empties the places of a block of bytes, and gives it back.
fn give_back(alloc: Global, base: Base<u8>, count: usize, cells: Cells<u8>, deed: Deed<u8, Global>)
    requires cells { (cells.at ≡ base.ptr) × IsFull cells.slots count }
    requires deed { (deed.at ≡ base.ptr) × (deed.len ≡ count) × (deed.alloc ≡ alloc) }
{
    let mut cells = cells;
    for i in 0..count {
        let _byte = cells.read(base, i);
    }
    deallocate(&alloc, base, count, cells, deed);
}

// The bytes of a block.
fn whole(cells: &Cells<u8>, base: Base<u8>, count: usize) -> &[u8]
    requires base { base.ptr ≡ cells.now.at }
    requires full { IsFull cells.now.slots count }
    ensures { result.now ≡ somes cells.now.slots }
{
    cells.slice(base, 0, count)
}

// Writes bytes of a block from a place on.
fn put_bytes(cells: &mut Cells<u8>, base: Base<u8>, at: usize, bytes: &[u8])
    requires base { base.ptr ≡ cells.old.at }
    requires full { cells.old.slots ≡ map Some (somes cells.old.slots) }
    requires within { at + length bytes.now ≤ length cells.old.slots }
    ensures at { cells.new.at ≡ cells.old.at }
    ensures slots { cells.new.slots
        ≡ take at cells.old.slots ++ map Some bytes.now ++ drop (at + length bytes.now) cells.old.slots }
{
    cells
        .slice_mut(base, at, bytes.len())
        .copy_from_slice(bytes);
}
