// A linear memory as a list of pages.
ghost use Rattle.std.specs.Prelude.{◌≡◌, ◌+◌, ◌*◌, ◌/◌, ◌<◌, ◌≤◌, All, IfNone, IfOk, IfSome, OnErr, None, Ok, ◌++◌, length, replicate, slice_range};
ghost use Rattle.w2c_base.specs.LittleEndian.{little_endian, low_bytes, with_bytes};
ghost use Rattle.lin_mem.specs.Linear.{grown, page_limit};

use crate::PAGE_BYTES;
use crate::page::Page;
use std::alloc::Global;
use std::marker::Model;
use w2c_base::{MEMORY_PAGES, Memory};

/// A linear memory. Contracts see the list of its bytes and its maximum, in pages.
#[derive(Drop)]
pub struct LinMem {
    alloc: Global,
    pages: Vec<Page>,
    most: Option<u32>,
}

impl Model for LinMem {
    ghost use Rattle.std.specs.List.{concat};
    ghost use Rattle.std.specs.Prelude.{◌≡◌, ◌≤◌, All, length};
    ghost use Rattle.lin_mem.specs.Linear.{Linear};

    ghost Value = { Linear };

    ghost view = { λ m. record { bytes = concat m.pages.items; most = m.most } };

    ghost invariant = { λ m. All (λ page. length page ≡ 65536) m.pages.items
        × (length m.pages.items ≤ 16384) };
}

impl LinMem {
    /// A memory of so many pages whose bytes are 0, with a maximum in pages.
    pub fn new(alloc: Global, pages: u32, max: Option<u32>) -> Result<LinMem, Memory>
        requires { pages ≤ 16384 }
        ensures { IfOk result (λ m. m ≡ record { bytes = replicate (65536 * pages) 0; most = max }) }
    {
        Ok(LinMem {
            alloc,
            pages: zeroed_pages(alloc, pages)?,
            most: max,
        })
    }

    /// Grows by so many pages of bytes 0, and gives the number of pages before; None where there
    /// would be more than the maximum or than 16,384 (WebAssembly Core 1.0, 4.4.4 and 4.5.3). After
    /// None or an error nothing changed.
    pub fn grow(&mut self, pages: u32) -> Result<Option<u32>, Memory>
        ensures answer { IfOk result (λ old. old ≡ grown self.old pages) }
        ensures refused { grown self.old pages ≡ None → result ≡ Ok None }
        ensures some { IfOk result (λ old. IfSome old (λ _.
            self.new ≡ record self.old { bytes = self.old.bytes ++ replicate (65536 * pages) 0 })) }
        ensures none { IfOk result (λ old. IfNone old (self.new ≡ self.old)) }
        ensures err { OnErr result (self.new ≡ self.old) }
    {
        let old = self.pages();
        if u64::from(old) + u64::from(pages) > u64::from(self.limit()) {
            return Ok(None);
        }
        let mut fresh = zeroed_pages(self.alloc, pages)?;
        self.pages.append(&mut fresh)?;
        Ok(Some(old))
    }

    /// The number of pages.
    pub fn pages(&self) -> u32
        ensures { 65536 * result ≡ length self.now.bytes }
    {
        self.pages.len() as u32
    }

    /// The number of bytes.
    pub fn len(&self) -> u64
        ensures { result ≡ length self.now.bytes }
    {
        (self.pages.len() * PAGE_BYTES) as u64
    }

    /// The maximum, in pages.
    pub fn max(&self) -> Option<u32>
        ensures { result ≡ self.now.most }
    {
        self.most
    }

    // How many pages it may have.
    fn limit(&self) -> u32
        ensures limit { result ≡ page_limit self.now.most }
        ensures small { result ≤ 16384 }
    {
        match self.most {
            None => MEMORY_PAGES,
            Some(most) => most.min(MEMORY_PAGES),
        }
    }

    // Reads bytes that lie in one page.
    fn read_page(&self, page: usize, offset: usize, out: &mut [u8])
        requires some { 0 < length out.old }
        requires one { offset + length out.old ≤ 65536 }
        requires within { 65536 * page + offset + length out.old ≤ length self.now.bytes }
        ensures { let at = 65536 * page + offset in
            out.new ≡ slice_range self.now.bytes at (at + length out.old) }
    {
        out.copy_from_slice(&self.pages[page].bytes()[offset..offset + out.len()]);
    }

    // Writes bytes that lie in one page.
    fn write_page(&mut self, page: usize, offset: usize, bytes: &[u8])
        requires some { 0 < length bytes.now }
        requires one { offset + length bytes.now ≤ 65536 }
        requires within { 65536 * page + offset + length bytes.now ≤ length self.old.bytes }
        ensures { let at = 65536 * page + offset in
            self.new ≡ record self.old { bytes = with_bytes self.old.bytes at bytes.now } }
    {
        self.pages[page].put(offset, bytes);
    }

    // Reads the bytes from a place on, which lie in one page or in two.
    fn get(&self, at: u64, out: &mut [u8])
        requires some { 0 < length out.old }
        requires most { length out.old ≤ 8 }
        requires within { at + length out.old ≤ length self.now.bytes }
        ensures { out.new ≡ slice_range self.now.bytes at (at + length out.old) }
    {
        let page = at as usize / PAGE_BYTES;
        let offset = at as usize % PAGE_BYTES;
        let room = PAGE_BYTES - offset;
        if out.len() <= room {
            self.read_page(page, offset, out);
        } else {
            self.read_page(page, offset, &mut out[..room]);
            self.read_page(page + 1, 0, &mut out[room..]);
        }
    }

    // Writes bytes from a place on, which lie in one page or in two.
    fn put(&mut self, at: u64, bytes: &[u8])
        requires some { 0 < length bytes.now }
        requires most { length bytes.now ≤ 8 }
        requires within { at + length bytes.now ≤ length self.old.bytes }
        ensures written { self.new ≡ record self.old { bytes = with_bytes self.old.bytes at bytes.now } }
        ensures size { length self.new.bytes ≡ length self.old.bytes }
    {
        let page = at as usize / PAGE_BYTES;
        let offset = at as usize % PAGE_BYTES;
        let room = PAGE_BYTES - offset;
        if bytes.len() <= room {
            self.write_page(page, offset, bytes);
        } else {
            self.write_page(page, offset, &bytes[..room]);
            self.write_page(page + 1, 0, &bytes[room..]);
        }
    }

    /// The byte at a place (WebAssembly Core 1.0, 4.4.4).
    pub fn load1(&self, at: u64) -> u8
        requires { at + 1 ≤ length self.now.bytes }
        ensures { result ≡ little_endian (slice_range self.now.bytes at (at + 1)) }
    {
        let mut bytes = [0; 1];
        self.get(at, &mut bytes);
        u8::from_le_bytes(bytes)
    }

    /// The number in the two bytes from a place on, the lowest first (WebAssembly Core 1.0, 4.4.4).
    pub fn load2(&self, at: u64) -> u16
        requires { at + 2 ≤ length self.now.bytes }
        ensures { result ≡ little_endian (slice_range self.now.bytes at (at + 2)) }
    {
        let mut bytes = [0; 2];
        self.get(at, &mut bytes);
        u16::from_le_bytes(bytes)
    }

    /// The number in the four bytes from a place on, the lowest first (WebAssembly Core 1.0, 4.4.4).
    pub fn load4(&self, at: u64) -> u32
        requires { at + 4 ≤ length self.now.bytes }
        ensures { result ≡ little_endian (slice_range self.now.bytes at (at + 4)) }
    {
        let mut bytes = [0; 4];
        self.get(at, &mut bytes);
        u32::from_le_bytes(bytes)
    }

    /// The number in the eight bytes from a place on, the lowest first (WebAssembly Core 1.0, 4.4.4).
    pub fn load8(&self, at: u64) -> u64
        requires { at + 8 ≤ length self.now.bytes }
        ensures { result ≡ little_endian (slice_range self.now.bytes at (at + 8)) }
    {
        let mut bytes = [0; 8];
        self.get(at, &mut bytes);
        u64::from_le_bytes(bytes)
    }

    /// Writes a byte at a place (WebAssembly Core 1.0, 4.4.4). No other byte changes.
    pub fn store1(&mut self, at: u64, value: u8)
        requires { at + 1 ≤ length self.old.bytes }
        ensures written { self.new
            ≡ record self.old { bytes = with_bytes self.old.bytes at (low_bytes 1 value) } }
        ensures size { length self.new.bytes ≡ length self.old.bytes }
    {
        self.put(at, &value.to_le_bytes());
    }

    /// Writes a number in the two bytes from a place on, the lowest first (WebAssembly Core 1.0,
    /// 4.4.4). No other byte changes.
    pub fn store2(&mut self, at: u64, value: u16)
        requires { at + 2 ≤ length self.old.bytes }
        ensures written { self.new
            ≡ record self.old { bytes = with_bytes self.old.bytes at (low_bytes 2 value) } }
        ensures size { length self.new.bytes ≡ length self.old.bytes }
    {
        self.put(at, &value.to_le_bytes());
    }

    /// Writes a number in the four bytes from a place on, the lowest first (WebAssembly Core 1.0,
    /// 4.4.4). No other byte changes.
    pub fn store4(&mut self, at: u64, value: u32)
        requires { at + 4 ≤ length self.old.bytes }
        ensures written { self.new
            ≡ record self.old { bytes = with_bytes self.old.bytes at (low_bytes 4 value) } }
        ensures size { length self.new.bytes ≡ length self.old.bytes }
    {
        self.put(at, &value.to_le_bytes());
    }

    /// Writes a number in the eight bytes from a place on, the lowest first (WebAssembly Core 1.0,
    /// 4.4.4). No other byte changes.
    pub fn store8(&mut self, at: u64, value: u64)
        requires { at + 8 ≤ length self.old.bytes }
        ensures written { self.new
            ≡ record self.old { bytes = with_bytes self.old.bytes at (low_bytes 8 value) } }
        ensures size { length self.new.bytes ≡ length self.old.bytes }
    {
        self.put(at, &value.to_le_bytes());
    }
}

fn zeroed_pages(alloc: Global, count: u32) -> Result<Vec<Page>, Memory>
    ensures size { IfOk result (λ pages. length pages.items ≡ count) }
    ensures each { IfOk result (λ pages.
        All (λ page. (length page ≡ 65536) × All (λ b. b ≡ 0) page) pages.items) }
{
    let mut pages = Vec::new(alloc);
    for _ in 0..count {
        pages.push(Page::zeroed(alloc)?)?;
    }
    Ok(pages)
}
