// The helpers that units call.
use c_helpers::{HELPERS, Helper, NumOp, helper_name};
use c_prelude::helper;
use c_print::print_unit;
use c_tree::{CType, Func, Item, Unit};
use std::alloc::Global;
use std::str;
use std::test::Fail;
use w2c_base::{Bytes, MODULE_BYTES};
use w2c_sim::translate;
use wasm_tree::LoadOp;

#[test]
fn each_helper_is_built(rt: HostRuntime) -> Result<(), Fail> {
    let alloc = rt.alloc();
    let mut unit = Unit::new(alloc);
    for which in &HELPERS {
        unit.push(Item::Func(helper(alloc, *which)?))?;
    }
    assert!(rt; unit.len() == 57);
    assert!(rt; unit.formed());
    Ok(())
}

// Whether a helper has this name, so many parameters and this result.
fn is_declared(func: &Func, name: &[u8], params: usize, gives: CType) -> bool {
    func.is_static
        && func.name.as_slice() == name
        && func.params.len() == params
        && func.result == gives
}

#[test]
fn a_helper_is_named_for_its_instruction(rt: HostRuntime) -> Result<(), Fail> {
    let alloc = rt.alloc();
    for (which, name, params, result) in [
        (
            Helper::Num(NumOp::I32DivS),
            b"i32_div_s".as_slice(),
            2,
            CType::U32,
        ),
        (
            Helper::Load(LoadOp::I64Load16U),
            b"i64_load16_u".as_slice(),
            3,
            CType::U64,
        ),
        (Helper::Copy, b"copy_memory".as_slice(), 4, CType::Void),
    ] {
        let func = helper(alloc, which)?;
        let right = is_declared(&func, name, params, result);
        drop(func);
        assert!(rt; right);
    }
    Ok(())
}

// Whether a name begins as those that C keeps for its library, where a lower-case letter follows (C11, 7.31.2, 7.31.8,
// 7.31.12, 7.31.13 and 7.31.15).
fn is_kept(name: &[u8]) -> bool {
    name.starts_with(b"is")
        || name.starts_with(b"to")
        || name.starts_with(b"mem")
        || name.starts_with(b"str")
        || name.starts_with(b"wcs")
        || name.starts_with(b"atomic_")
        || name.starts_with(b"cnd_")
        || name.starts_with(b"mtx_")
        || name.starts_with(b"thrd_")
        || name.starts_with(b"tss_")
}

#[test]
fn no_helper_has_a_name_that_c_keeps(rt: HostRuntime) -> Result<(), Fail> {
    let alloc = rt.alloc();
    for which in &HELPERS {
        let name = helper_name(alloc, *which)?;
        assert!(rt; !is_kept(name.as_slice()));
    }
    Ok(())
}

// A module, a helper, and how a body of the module's unit calls it.
type Row = (&'static [u8], Helper, &'static str);

// A division, a load and a call through a table.
const ROWS: [Row; 3] = [
    (
        b"\0asm\x01\0\0\0\x01\x07\x01`\x02\x7f\x7f\x01\x7f\x03\x03\x02\0\0\x07\r\x02\x03div\0\0\x03rem\0\x01\n\x11\x02\x07\0 \0 \x01m\x0b\x07\0 \0 \x01o\x0b",
        Helper::Num(NumOp::I32DivS),
        "= i32_div_s(i0, i1);",
    ),
    (
        b"\0asm\x01\0\0\0\x01\x06\x01`\x01\x7f\x01\x7f\x03\x03\x02\0\0\x05\x03\x01\0\x01\x07\x0e\x02\x04near\0\0\x03far\0\x01\n\x15\x02\x07\0 \0(\x02\0\x0b\x0b\0 \0(\x02\xff\xff\xff\xff\x0f\x0b",
        Helper::Load(LoadOp::I32Load),
        "= i32_load(& m0, i0, 0u);",
    ),
    (
        b"\0asm\x01\0\0\0\x01\n\x02`\0\x01\x7f`\x01\x7f\x01\x7f\x03\x04\x03\0\x01\x01\x04\x04\x01p\0\x03\x07\x05\x01\x01c\0\x02\t\r\x02\0A\0\x0b\x01\0\0A\x02\x0b\x01\x01\n\x13\x03\x04\0A\x04\x0b\x04\0 \0\x0b\x07\0 \0\x11\0\0\x0b",
        Helper::Element,
        "= table_element(& t0, i0, 4ull);",
    ),
];

// The text of a unit of a helper alone.
fn text_of(alloc: Global, which: Helper) -> Result<Bytes, Fail> {
    let mut unit = Unit::new(alloc);
    unit.push(Item::Func(helper(alloc, which)?))?;
    if !unit.formed() {
        return Err(Fail::new("a text spells the unit"));
    }
    Ok(print_unit(alloc, &unit)?)
}

// Whether a unit's text holds the item of the other one, and behind it this.
fn holds(unit: &[u8], alone: &[u8], call: &str) -> bool {
    let (Ok(unit), Ok(alone)) = (str::from_utf8(unit), str::from_utf8(alone)) else {
        return false;
    };
    let Some(item) = alone.strip_prefix("#include \"w2c_rt.h\"\n") else {
        return false;
    };
    match unit.split_once(item) {
        Some((_, behind)) => behind.contains(call),
        None => false,
    }
}

fn row_holds(alloc: Global, row: &Row) -> Result<bool, Fail> {
    let (file, which, call) = *row;
    let alone = text_of(alloc, which)?;
    if file.len() > MODULE_BYTES {
        return Ok(false);
    }
    match translate(alloc, file, b"m") {
        Ok(texts) => Ok(holds(texts.unit.as_slice(), alone.as_slice(), call)),
        Err(_) => Ok(false),
    }
}

// The first helper that a unit does not hold.
fn first_missing(alloc: Global) -> Result<Option<&'static str>, Fail> {
    for row in &ROWS {
        if !row_holds(alloc, row)? {
            return Ok(Some(row.2));
        }
    }
    Ok(None)
}

#[test]
fn units_hold_the_helpers_that_bodies_call(rt: HostRuntime) -> Result<(), Fail> {
    assert_eq!(rt; first_missing(rt.alloc())?, None);
    Ok(())
}
