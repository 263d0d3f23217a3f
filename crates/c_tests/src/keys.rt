// The key by which the names of a unit are hashed, of which no clause says anything.
use crate::texts::read;
use c_rules::salt_of;
use std::alloc::Global;
use std::hash::{BuildHasher, Hasher};
use std::test::Fail;

// A unit, and with another name of each kind in turn: variable, array, function, parameter, local variable, label.
const KEYED: [&str; 7] = [
    "#include \"w2c_rt.h\"\nstatic u64 g;\nstatic const u8 d[1] = {7};\nstatic void f(u32 x) {\nu32 z = 0u;\nL: return;\n}\n",
    "#include \"w2c_rt.h\"\nstatic u64 h;\nstatic const u8 d[1] = {7};\nstatic void f(u32 x) {\nu32 z = 0u;\nL: return;\n}\n",
    "#include \"w2c_rt.h\"\nstatic u64 g;\nstatic const u8 e[1] = {7};\nstatic void f(u32 x) {\nu32 z = 0u;\nL: return;\n}\n",
    "#include \"w2c_rt.h\"\nstatic u64 g;\nstatic const u8 d[1] = {7};\nstatic void k(u32 x) {\nu32 z = 0u;\nL: return;\n}\n",
    "#include \"w2c_rt.h\"\nstatic u64 g;\nstatic const u8 d[1] = {7};\nstatic void f(u32 y) {\nu32 z = 0u;\nL: return;\n}\n",
    "#include \"w2c_rt.h\"\nstatic u64 g;\nstatic const u8 d[1] = {7};\nstatic void f(u32 x) {\nu32 a = 0u;\nL: return;\n}\n",
    "#include \"w2c_rt.h\"\nstatic u64 g;\nstatic const u8 d[1] = {7};\nstatic void f(u32 x) {\nu32 z = 0u;\nM: return;\n}\n",
];

// The hash of a name by the key of a unit.
fn keyed_hash(alloc: Global, text: &str) -> Result<u64, Fail> {
    let unit = read(alloc, text)?;
    let mut hasher = salt_of(unit.as_slice()).build_hasher();
    hasher.write(b"name");
    Ok(hasher.finish())
}

// The first unit whose key is that of the first.
fn first_of_same_key(alloc: Global) -> Result<Option<&'static str>, Fail> {
    let first = keyed_hash(alloc, KEYED[0])?;
    for text in &KEYED[1..] {
        if keyed_hash(alloc, text)? == first {
            return Ok(Some(text));
        }
    }
    Ok(None)
}

#[test]
fn each_name_of_a_unit_changes_its_key(rt: HostRuntime) -> Result<(), Fail> {
    assert_eq!(rt; first_of_same_key(rt.alloc())?, None);
    Ok(())
}
