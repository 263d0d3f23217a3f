// The texts of a module's unit, written into files.
use std::alloc::Global;
use std::test::Fail;
use w2c_io::{Files, SureFiles, WriteAnswer};
use w2c_sim::{accept, write_header, write_unit};
use wasm_typing::ValidModule;

const UNIT: &str = "#include \"w2c_rt.h\"\nvoid w2cZ_mZ_i(void) {\n;\nreturn;\n}\n";

const HEADER: &str =
    "/* made by wasm2c; int has 32 bits and every character of a name counts */\n#ifndef W2CZ_mZ_H\n#define W2CZ_mZ_H\n#include \"w2c_rt.h\"\nvoid w2cZ_mZ_i(void);\n#endif\n";

fn write_both<F: Files>(alloc: Global, m: &ValidModule, files: &mut F) -> Result<(), WriteAnswer> {
    files.begin("m.c")?;
    write_unit(alloc, m, b"m", files)?;
    files.finish()?;
    files.begin("m.h")?;
    write_header(alloc, m, b"m", files)?;
    files.finish()?;
    Ok(())
}

fn empty_module(alloc: Global) -> Result<ValidModule, Fail> {
    match accept(alloc, b"\0asm\x01\0\0\0") {
        Ok(module) => Ok(module),
        Err(_) => Err(Fail::new("the bytes are a module")),
    }
}

#[test]
fn texts_of_an_empty_module(rt: HostRuntime) -> Result<(), Fail> {
    let alloc = rt.alloc();
    let module = empty_module(alloc)?;
    let mut files = SureFiles::new(alloc);
    let written = write_both(alloc, &module, &mut files);
    drop(module);
    let right = files.get("m.c") == Some(UNIT.as_bytes())
        && files.get("m.h") == Some(HEADER.as_bytes());
    drop(files);
    assert!(rt; written.is_ok() && right);
    Ok(())
}
