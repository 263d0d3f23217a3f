// Two units and a host that are linked.
use crate::texts::checked;
use c_link::{HostSymbol, Linked, Owner, link};
use std::alloc::Global;
use std::test::Fail;
use w2c_base::{Bytes, FuncType, Memory, Types, ValType, Value};

// Calls that another unit defines, with a function of its own.
const ASKS_F: &str = "#include \"w2c_rt.h\"
u32 w2cZ_f(u32 x);
static u32 s(u32 x) {
return x;
}
";

// It asks the host.
const DEFINES_F_ASKS_H: &str = "#include \"w2c_rt.h\"
u32 w2cZ_f(u32 x) {
return x;
}
u32 w2cZ_h(u32 x);
";

// A host that offers w2cZ_h, a function of an i32 that gives one.
fn host(alloc: Global) -> Result<HostSymbol, Memory> {
    let mut params = Types::new(alloc);
    params.push(ValType::I32)?;
    Ok(HostSymbol {
        symbol: Bytes::from_vec(b"w2cZ_h".to_vec(alloc)?),
        ty: FuncType {
            params,
            result: Some(ValType::I32),
        },
    })
}

// The units of two texts, linked with the host.
fn linked(alloc: Global, first: &str, second: &str) -> Result<Linked, Fail> {
    let host = host(alloc)?;
    let mut units = Vec::new(alloc);
    units.push(checked(alloc, first)?)?;
    units.push(checked(alloc, second)?)?;
    match link(alloc, units, &[host]) {
        Ok(linked) => Ok(linked),
        Err(_) => Err(Fail::new("the units link")),
    }
}

fn names_are_owned(linked: &Linked) -> bool {
    if linked.unit_count() != 2 {
        return false;
    }
    linked.unit(0).unit().len() == 2
        && linked.func_named(0, b"s") == Some(Owner::Unit(0))
        && linked.func_named(1, b"s") == None
        && linked.func_named(1, b"w2cZ_h") == Some(Owner::Host(0))
        && linked.owner(b"w2cZ_f") == Some(Owner::Unit(1))
        && linked.owner(b"s") == None
}

fn calls_fit(linked: &Linked) -> bool {
    linked.signature(b"w2cZ_f").is_some()
        && linked.signature(b"w2cZ_h").is_none()
        && linked.fits(b"w2cZ_f", &[Value::I32(1)])
        && !linked.fits(b"w2cZ_f", &[Value::I64(1)])
        && !linked.fits(b"w2cZ_h", &[Value::I32(1)])
        && !linked.fits(b"s", &[Value::I32(1)])
}

#[test]
fn what_is_linked(rt: HostRuntime) -> Result<(), Fail> {
    let linked = linked(rt.alloc(), ASKS_F, DEFINES_F_ASKS_H)?;
    let counts = (linked.units().len(), linked.host_symbols().len());
    assert!(rt; counts == (2, 1) && names_are_owned(&linked) && calls_fit(&linked));
    assert!(rt; linked.into_units().len() == 2);
    Ok(())
}
