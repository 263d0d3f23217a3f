// Memories: accesses at the seam of two pages, and growth.
use lin_mem::LinMem;
use std::test::Fail;

// A load of a width, where it is within the memory.
fn loaded(memory: &LinMem, width: u64, at: u64) -> Option<u64> {
    let len = memory.len();
    if width > len || at > len - width {
        return None;
    }
    match width {
        1 => Some(u64::from(memory.load1(at))),
        2 => Some(u64::from(memory.load2(at))),
        4 => Some(u64::from(memory.load4(at))),
        8 => Some(memory.load8(at)),
        _ => None,
    }
}

// A store of the low bytes of a number, where it is within the memory.
fn store(memory: &mut LinMem, width: u64, at: u64, value: u64) -> bool {
    let len = memory.len();
    if width > len || at > len - width {
        return false;
    }
    match width {
        1 => memory.store1(at, (value & 0xff) as u8),
        2 => memory.store2(at, (value & 0xffff) as u16),
        4 => memory.store4(at, (value & 0xffff_ffff) as u32),
        8 => memory.store8(at, value),
        _ => return false,
    }
    true
}

// Whether a store over the seam is seen on both sides.
fn straddles(memory: &mut LinMem) -> bool {
    store(memory, 8, 65_532, 72_623_859_790_382_856)
        && loaded(memory, 1, 65_535) == Some(5)
        && loaded(memory, 1, 65_536) == Some(4)
        && loaded(memory, 8, 65_532) == Some(72_623_859_790_382_856)
        && loaded(memory, 8, 131_065) == None
}

#[test]
fn an_access_straddles_two_pages(rt: HostRuntime) -> Result<(), Fail> {
    let mut memory = LinMem::new(rt.alloc(), 2, None)?;
    let right = straddles(&mut memory);
    drop(memory);
    assert!(rt; right);
    Ok(())
}

// Whether a memory grows up to its most pages and keeps its bytes.
fn grows(memory: &mut LinMem) -> Result<bool, Fail> {
    let stored = store(memory, 1, 65_535, 9);
    let before = memory.grow(2)?;
    let kept = loaded(memory, 1, 65_535);
    Ok(stored && before == Some(1) && kept == Some(9) && memory.grow(2)? == None)
}

#[test]
fn growth_keeps_the_bytes(rt: HostRuntime) -> Result<(), Fail> {
    let mut memory = LinMem::new(rt.alloc(), 1, Some(4))?;
    let right = grows(&mut memory);
    drop(memory);
    assert!(rt; right?);
    Ok(())
}

// Whether a store of a width gives its bytes and leaves those beside them 0.
fn is_kept(memory: &mut LinMem, at: u64, width: u64, value: u64) -> bool {
    store(memory, 8, at, 0)
        && store(memory, width, at, value)
        && loaded(memory, width, at) == Some(value)
        && loaded(memory, 8, at) == Some(value)
}

// The first place and width of which it is not so.
fn first_lost(memory: &mut LinMem) -> Option<(u64, u64)> {
    for at in 65_520..=65_552 {
        for (width, value) in [
            (1, 0x91),
            (2, 0x9182),
            (4, 0x9182_7364),
            (8, 0x9182_7364_5546_3728),
        ] {
            if !is_kept(memory, at, width, value) {
                return Some((at, width));
            }
        }
    }
    None
}

#[test]
fn each_width_at_the_seam(rt: HostRuntime) -> Result<(), Fail> {
    let mut memory = LinMem::new(rt.alloc(), 2, None)?;
    let lost = first_lost(&mut memory);
    drop(memory);
    assert_eq!(rt; lost, None);
    Ok(())
}
