// Index spaces of a module that imports a function and has a global of its own.
use std::test::Fail;
use wasm_binary::read_module;

/// A type `[i32] -> [i64]`, an import `m` `f` of it, a global of type i32, and its export `g`.
const MODULE: [u8; 40] = [
    0x00, 0x61, 0x73, 0x6d, 0x01, 0x00, 0x00, 0x00, 0x01, 0x06, 0x01, 0x60, 0x01, 0x7f, 0x01, 0x7e,
    0x02, 0x07, 0x01, 0x01, 0x6d, 0x01, 0x66, 0x00, 0x00, 0x06, 0x06, 0x01, 0x7f, 0x00, 0x41, 0x07,
    0x0b, 0x07, 0x05, 0x01, 0x01, 0x67, 0x03, 0x00,
];

#[test]
fn imports_come_first(rt: HostRuntime) -> Result<(), Fail> {
    let Ok(tree) = read_module(rt.alloc(), &MODULE) else {
        return Err(Fail::new("the bytes are a module"));
    };
    let imported = (tree.imported_funcs(), tree.imported_globals());
    drop(tree);
    assert_eq!(rt; imported, (1, 0));
    Ok(())
}
