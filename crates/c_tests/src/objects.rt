// The objects of a unit that runs.
use c_objects::Done::{Gives, NoEffect, Trapped, Undefined};
use c_objects::Held::{FuncPointer, Number, Pointer};
use c_objects::{
    Done, FuncId, Held, MemoryCell, Object, ObjectId, Store, TableCell, UnitObjects,
    primitive_named,
};
use std::alloc::Global;
use std::test::Fail;
use w2c_base::Value::{I32, I64};
use w2c_base::{Memory, TrapKind};

// A unit with a variable, a memory and a table.
fn store(alloc: Global) -> Result<Store, Memory> {
    let mut vars = Vec::new(alloc);
    vars.push(Number(I32(7)))?;
    let mut memories = Vec::new(alloc);
    memories.push(MemoryCell::NotMade)?;
    let mut tables = Vec::new(alloc);
    tables.push(TableCell {
        is_made: false,
        elements: Vec::new(alloc),
        max: 0,
    })?;
    let mut units = Vec::new(alloc);
    units.push(UnitObjects {
        vars,
        memories,
        tables,
    })?;
    Ok(Store { units })
}

// A call of a primitive, and what it comes to.
type Call = (&'static [u8], &'static [Held], Done);

const M: Held = Pointer(Some(ObjectId {
    unit: 0,
    object: Object::Memory(0),
}));

const T: Held = Pointer(Some(ObjectId {
    unit: 0,
    object: Object::Table(0),
}));

const F: Held = FuncPointer(Some(FuncId::Host(0, 4)));

// A memory is made and grows.
const MEMORY: &[Call] = &[
    (
        b"w2c_mem_new",
        &[M, Number(I32(1)), Number(I64(3))],
        Gives(None),
    ),
    (
        b"w2c_mem_new",
        &[M, Number(I32(1)), Number(I64(3))],
        Undefined(8),
    ),
    (b"w2c_mem_len", &[M], Gives(Some(Number(I64(65_536))))),
    (b"w2c_mem_max", &[M], Gives(Some(Number(I64(3))))),
    (
        b"w2c_mem_grow",
        &[M, Number(I32(2))],
        Gives(Some(Number(I32(1)))),
    ),
    (
        b"w2c_mem_grow",
        &[M, Number(I32(1))],
        Gives(Some(Number(I32(u32::MAX)))),
    ),
];

// Bytes are put and got.
const BYTES: &[Call] = &[
    (
        b"w2c_mem_new",
        &[M, Number(I32(1)), Number(I64(1))],
        Gives(None),
    ),
    (
        b"w2c_put4",
        &[M, Number(I64(65_532)), Number(I32(0x0403_0201))],
        Gives(None),
    ),
    (
        b"w2c_get1",
        &[M, Number(I64(65_533))],
        Gives(Some(Number(I32(2)))),
    ),
    (
        b"w2c_get2",
        &[M, Number(I64(65_534))],
        Gives(Some(Number(I32(0x0403)))),
    ),
    (
        b"w2c_get8",
        &[M, Number(I64(65_528))],
        Gives(Some(Number(I64(0x0403_0201_0000_0000)))),
    ),
    (b"w2c_get8", &[M, Number(I64(65_529))], Undefined(6)),
    (
        b"w2c_get8",
        &[Pointer(None), Number(I64(65_529))],
        Undefined(4),
    ),
    (b"w2c_put4", &[M, Number(I64(0)), Number(I64(1))], NoEffect),
];

// A table holds functions.
const TABLE: &[Call] = &[
    (
        b"w2c_tab_new",
        &[T, Number(I32(2)), Number(I64(9))],
        Gives(None),
    ),
    (b"w2c_tab_len", &[T], Gives(Some(Number(I64(2))))),
    (b"w2c_tab_max", &[T], Gives(Some(Number(I64(9))))),
    (
        b"w2c_tab_set",
        &[T, Number(I64(1)), F, Number(I64(77))],
        Gives(None),
    ),
    (
        b"w2c_tab_sig",
        &[T, Number(I64(1))],
        Gives(Some(Number(I64(77)))),
    ),
    (b"w2c_tab_fn", &[T, Number(I64(1))], Gives(Some(F))),
    (
        b"w2c_tab_fn",
        &[T, Number(I64(0))],
        Gives(Some(FuncPointer(None))),
    ),
];

// Elements that are not set: of the kinds that hold of one call the least is the one.
const NOT_SET: &[Call] = &[
    (
        b"w2c_tab_set",
        &[T, Number(I64(0)), FuncPointer(None), Number(I64(0))],
        Undefined(4),
    ),
    (
        b"w2c_tab_set",
        &[T, Number(I64(0)), F, Number(I64(0))],
        Undefined(7),
    ),
    (
        b"w2c_tab_new",
        &[T, Number(I32(1)), Number(I64(1))],
        Gives(None),
    ),
    (
        b"w2c_tab_set",
        &[T, Number(I64(0)), F, Number(I64(0))],
        Undefined(8),
    ),
];

// Traps are those of the table of traps.
const TRAPS: &[Call] = &[
    (b"w2c_trap", &[Number(I32(3))], Trapped(TrapKind::DivByZero)),
    (b"w2c_trap", &[Number(I32(12))], Undefined(8)),
];

fn run(store: &mut Store, alloc: Global, call: &Call) -> Result<bool, Memory> {
    let (name, args, wanted) = *call;
    let came = match primitive_named(name) {
        None => NoEffect,
        Some(primitive) => store.apply(alloc, primitive, args)?,
    };
    Ok(came == wanted)
}

// The number of the first of the calls, which come one behind another, that comes to something else.
fn first_other(alloc: Global, calls: &[Call]) -> Result<Option<usize>, Memory> {
    let mut store = store(alloc)?;
    for (i, call) in calls.iter().enumerate() {
        if !run(&mut store, alloc, call)? {
            return Ok(Some(i));
        }
    }
    Ok(None)
}

#[test]
fn primitives(rt: HostRuntime) -> Result<(), Fail> {
    let alloc = rt.alloc();
    for calls in [MEMORY, BYTES, TABLE, NOT_SET, TRAPS] {
        assert_eq!(rt; first_other(alloc, calls)?, None);
    }
    Ok(())
}

#[test]
fn a_variable_holds_what_it_was_given(rt: HostRuntime) -> Result<(), Fail> {
    let mut store = store(rt.alloc())?;
    let at = ObjectId {
        unit: 0,
        object: Object::Variable(0),
    };
    let before = store.var(at);
    let is_set = store.set_var(at, Number(I32(8)));
    assert_eq!(rt;
        (before, is_set, store.var(at)),
        (Some(Number(I32(7))), true, Some(Number(I32(8))))
    );
    Ok(())
}
