// Symbols of exports and of init functions.
use std::test::Fail;
use w2c_base::{Bytes, Memory};
use w2c_mangle::{SymbolKind, export_symbol, init_symbol};

fn is_text(symbol: Result<Bytes, Memory>, text: &str) -> Result<bool, Memory> {
    let symbol = symbol?;
    Ok(symbol.as_slice() == text.as_bytes())
}

#[test]
fn escaped_names(rt: HostRuntime) -> Result<(), Fail> {
    let alloc = rt.alloc();
    let blank = export_symbol(alloc, b"n", SymbolKind::Func, b"a b");
    assert!(rt; is_text(blank, "w2cZ_nZ_fZ_aZ20b")?);
    let escape = export_symbol(alloc, b"n", SymbolKind::Func, b"aZ20b");
    assert!(rt; is_text(escape, "w2cZ_nZ_fZ_aZ5A20b")?);
    assert!(rt; is_text(init_symbol(alloc, b""), "w2cZ_Z_i")?);
    Ok(())
}

#[test]
fn each_kind_has_its_letter(rt: HostRuntime) -> Result<(), Fail> {
    let rows = [
        (SymbolKind::Func, "w2cZ_mZ_fZ_x"),
        (SymbolKind::Table, "w2cZ_mZ_tZ_x"),
        (SymbolKind::Memory, "w2cZ_mZ_mZ_x"),
        (SymbolKind::Const, "w2cZ_mZ_cZ_x"),
        (SymbolKind::Var, "w2cZ_mZ_vZ_x"),
    ];
    for (kind, text) in rows {
        assert!(rt; is_text(export_symbol(rt.alloc(), b"m", kind, b"x"), text)?);
    }
    Ok(())
}
