// Texts of causes and limits.
use std::test::Fail;
use wasm_spelling::{Cause, Which};

#[test]
fn texts(rt: HostRuntime) -> Result<(), Fail> {
    assert_eq!(rt; Cause::BadUTF8.text(), "bad UTF-8");
    assert_eq!(rt; Which::AllLocals.text(), "all locals");
    Ok(())
}
